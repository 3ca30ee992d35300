// The words of an answer and of an error, in the order of a listing.
ghost use Rattle.std.specs.Prelude.{◌≡◌, [], ◌∷◌, length, get_or, take};
ghost use Rattle.answers.specs.Fields.{flag, internal, maybe, scanned, link, speeds, activity, copper, x557, copper_setup, setup552, sgmii, firmware, setup553, value, block_words};
ghost use Rattle.answers.specs.Shown.{added};
ghost use Rattle.hardware.specs.Numbers.{number, values};

use crate::{
    Copper, CopperSetup, FirmwareSetup, Internal, Setup552, Setup553, SgmiiSetup, Speeds, Value,
    Words, X557,
};
use hardware::Error;
use std::marker::Model;
use words::link::Link;

// An answer's words in a listing: a list of up to twelve, in fixed memory, zeros behind them.
#[derive(Clone, Copy)]
pub struct Fields {
    words: [u32; 12],
    len: usize,
}

impl Model for Fields {
    ghost use Rattle.std.specs.Prelude.{◌≡◌, ℕ, ◌≤◌, List, length, take};
    ghost use Rattle.std.proofs.Common.{sym, subst, length-take-le};
    ghost use Rattle.answers.specs.Shown.{filled};

    ghost Value = { List ℕ };

    ghost view = { λ f. take f.len f.words };

    ghost invariant = { λ f. (f.len ≤ 12) × (length f.words ≡ 12) × (filled (take f.len f.words) ≡ f.words) };

    ghost inverse = { λ ws. record { words = filled ws; len = length ws } };

    ghost inverse_ok = { λ f h i. record {
      words = h.2 i;
      len = length-take-le f.len f.words (subst (λ (n : ℕ). f.len ≤ n) (sym h.1) h.0) i;
    } };
}

impl Fields {
    fn none() -> Fields
        ensures { result ≡ [] }
    {
        Fields {
            words: [0; 12],
            len: 0,
        }
    }

    // No answer comes to a thirteenth word, which would be left out.
    #[tactic(auto, using(crate::proofs::Laws::room, crate::proofs::Laws::full, crate::proofs::Laws::filled_more))]
    fn word(mut self, w: u32) -> Fields
        ensures { result ≡ added self (w ∷ []) }
    {
        if self.len < 12 {
            self.words[self.len] = w;
            self.len += 1;
        }
        self
    }

    fn flag(self, b: bool) -> Fields
        ensures { result ≡ added self (flag b ∷ []) }
    {
        if b { self.word(1) } else { self.word(0) }
    }

    fn internal(self, i: Internal) -> Fields
        ensures { result ≡ added self (internal i ∷ []) }
    {
        match i {
            Internal::Ixfi => self.word(0),
            Internal::Kr => self.word(1),
        }
    }

    #[tactic(auto, using(crate::proofs::Laws::added_more))]
    fn maybe(self, m: Option<u32>) -> Fields
        ensures { result ≡ added self (maybe m) }
    {
        match m {
            None => self.word(0),
            Some(value) => self.word(1).word(value),
        }
    }

    #[tactic(auto, using(crate::proofs::Laws::added_more))]
    fn scanned(self, s: Option<(u8, u32)>) -> Fields
        ensures { result ≡ added self (scanned s) }
    {
        let Some((phy, id)) = s else {
            return self.word(0);
        };
        self.word(1).word(phy as u32).word(id)
    }

    #[tactic(auto, using(crate::proofs::Laws::added_more))]
    fn link(self, l: Link) -> Fields
        ensures { result ≡ added self (link l) }
    {
        match l {
            Link::Down => self.word(0),
            Link::Up { megabits } => self.word(1).maybe(megabits),
        }
    }

    #[tactic(auto, using(crate::proofs::Laws::added_more))]
    fn speeds(self, s: Speeds) -> Fields
        ensures { result ≡ added self (speeds s) }
    {
        self.flag(s.g10).flag(s.g1).flag(s.m100)
    }

    #[tactic(auto, using(crate::proofs::Laws::added_more))]
    fn activity(self, w: Words) -> Fields
        ensures { result ≡ added self (activity w) }
    {
        self.word(w.w0).word(w.w1).word(w.w2).word(w.w3)
    }

    #[tactic(auto, using(crate::proofs::Laws::added_more))]
    fn copper(self, c: Copper) -> Fields
        ensures { result ≡ added self (copper c) }
    {
        match c {
            Copper::Down => self.word(0),
            Copper::Up { megabits } => self.word(1).word(megabits),
            Copper::Invalid { status } => self.word(2).word(status as u32),
            Copper::Held { megabits } => self.word(3).word(megabits),
        }
    }

    #[tactic(auto, using(crate::proofs::Laws::added_more))]
    fn x557(self, p: X557) -> Fields
        ensures { result ≡ added self (x557 p) }
    {
        let phy = self.word(p.phy as u32).word(p.id).word(p.sel);
        phy.flag(p.unstalled).flag(p.reset).internal(p.internal)
    }

    #[tactic(auto, using(crate::proofs::Laws::added_more))]
    fn copper_setup(self, s: CopperSetup) -> Fields
        ensures { result ≡ added self (copper_setup s) }
    {
        self.x557(s.x557).speeds(s.advertised).flag(s.restarted)
    }

    #[tactic(auto, using(crate::proofs::Laws::added_more))]
    fn setup552(self, s: Setup552) -> Fields
        ensures { result ≡ added self (setup552 s) }
    {
        match s {
            Setup552::Kx4 => self.word(0),
            Setup552::Xfi => self.word(1),
            Setup552::FirmwarePhy => self.word(2),
            Setup552::Kr { link_ctrl } => self.word(3).word(link_ctrl),
            Setup552::ManageabilityVeto => self.word(4),
            Setup552::Copper(copper) => self.word(6).copper_setup(copper),
        }
    }

    #[tactic(auto, using(crate::proofs::Laws::added_more))]
    fn sgmii(self, s: SgmiiSetup) -> Fields
        ensures { result ≡ added self (sgmii s) }
    {
        self.word(s.link_ctrl).word(s.sgmii).word(s.flx)
    }

    #[tactic(auto, using(crate::proofs::Laws::added_more))]
    fn firmware(self, s: FirmwareSetup) -> Fields
        ensures { result ≡ added self (firmware s) }
    {
        self.word(s.phy.id)
            .word(s.phy.speeds as u32)
            .maybe(s.internal)
            .flag(s.overtemp)
    }

    #[tactic(auto, using(crate::proofs::Laws::added_more))]
    fn setup553(self, s: Setup553) -> Fields
        ensures { result ≡ added self (setup553 s) }
    {
        match s {
            Setup553::Kr { link_ctrl } => self.word(0).word(link_ctrl),
            Setup553::Kr2500 { sel } => self.word(1).word(sel),
            Setup553::Sgmii(sgmii) => self.word(2).sgmii(sgmii),
            Setup553::ManageabilityVeto => self.word(3),
            Setup553::X557(setup) => self.word(5).setup552(setup),
            Setup553::Firmware(firmware) => self.word(6).firmware(firmware),
        }
    }

    #[tactic(auto, using(crate::proofs::Laws::added_more, crate::proofs::Laws::none_more))]
    fn value(self, v: Value) -> Fields
        ensures { result ≡ added self (value v) }
    {
        match v {
            Value::Nothing => self,
            Value::Flag(b) => self.flag(b),
            Value::Word(w) => self.word(w),
            Value::Link(l) => self.link(l),
            Value::Command { status, .. } => self.word(status as u32),
            Value::List(_) => self,
            Value::Activity(w) => self.activity(w),
            Value::Probe(id) => self.maybe(id),
            Value::Scan(s) => self.scanned(s),
            Value::Abilities(s) => self.speeds(s),
            Value::X552(s) => self.setup552(s),
            Value::X553(s) => self.setup553(s),
            Value::Poll {
                copper,
                forced,
                reforced,
            } => self
                .copper(copper)
                .maybe(forced.map(|s| s as u32))
                .word(reforced),
        }
    }

    #[tactic(auto, using(crate::proofs::Laws::added_more, crate::proofs::Laws::none_more))]
    fn error(self, e: Error) -> Fields
        ensures { result ≡ added self (values e) }
    {
        match e {
            Error::Io(code) => self.word(code),
            Error::Timeout {
                register,
                mask,
                expected,
                last,
            } => self.word(register).word(mask).word(expected).word(last),
            Error::Sideband { address, ctrl } => self.word(address).word(ctrl),
            Error::Semaphore { held } => self.word(held),
            Error::HostInterface { hicr } => self.word(hicr),
            Error::Firmware { command, status } => self.word(command as u32).word(status as u32),
            Error::Removed
            | Error::NoPhy
            | Error::PhyReset
            | Error::Lan
            | Error::Fiber
            | Error::Address
            | Error::KrAddress
            | Error::Pairs
            | Error::Block
            | Error::Pause
            | Error::Windows => self,
        }
    }
}

impl Fields {
    // How many words it shows.
    pub fn count(&self) -> usize
        ensures { length self.now ≡ result }
    {
        self.len
    }

    // The word at place `i`, 0 past the last.
    pub fn at(&self, i: usize) -> u32
        ensures { get_or self.now i 0 ≡ result }
    {
        if i < self.len { self.words[i] } else { 0 }
    }

    pub fn as_slice(&self) -> &[u32]
        ensures { result.now ≡ self.now }
    {
        &self.words[..self.len]
    }

    // The words from the array's start on; those behind them mean nothing.
    pub fn to_array(&self) -> [u32; 12]
        ensures { take (length self.now) result ≡ self.now }
    {
        self.words
    }
}

// A command's words of the host block come behind these, as do a list's values.
#[tactic(auto, using(crate::proofs::Fits::value_fits))]
pub fn fields_of(v: Value) -> Fields
    ensures { result ≡ value v }
{
    Fields::none().value(v)
}

// How many words of the block belong to the answer.
pub fn block_words(v: Value) -> u32
    ensures { block_words v ≡ result }
{
    match v {
        Value::Command { words, .. } => words,
        Value::List(values) => values,
        _ => 0,
    }
}

#[tactic(auto, using(crate::proofs::Fits::values_fit))]
pub fn error_fields(e: Error) -> Fields
    ensures { result ≡ values e }
{
    Fields::none().error(e)
}

// The error's number in document 01's table.
pub fn error_number(e: Error) -> u32
    ensures { number e ≡ result }
{
    match e {
        Error::Io(_) => 1,
        Error::Removed => 2,
        Error::Timeout { .. } => 3,
        Error::Sideband { .. } => 4,
        Error::Semaphore { .. } => 5,
        Error::HostInterface { .. } => 6,
        Error::Firmware { .. } => 7,
        Error::NoPhy => 8,
        Error::PhyReset => 9,
        Error::Lan => 20,
        Error::Fiber => 21,
        Error::Address => 22,
        Error::KrAddress => 35,
        Error::Pairs => 31,
        Error::Block => 23,
        Error::Pause => 32,
        Error::Windows => 40,
    }
}
