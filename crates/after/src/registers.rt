// The operations of mdio.rs that have more than one access.
ghost use Rattle.std.specs.Prelude.{ℕ, List, ◌≡◌};
ghost use Rattle.hardware.specs.Talk.{end};
ghost use Rattle.answers.specs.declared.Value.TheVariants as value;
ghost use Rattle.reference.specs.Bringup.{after_reset};
ghost use Rattle.reference.specs.Out.{answer, nothing};
ghost use Rattle.phy.specs.Advertise.{told_advertise};
ghost use Rattle.phy.specs.AnLink.{told_an_link};
ghost use Rattle.phy.specs.Clock.{told_clock};
ghost use Rattle.phy.specs.Modify.{told_modify};
ghost use Rattle.phy.specs.Probe.{told_probe};
ghost use Rattle.phy.specs.Reset.{told_reset};
ghost use Rattle.phy.specs.Scan.{told_scan};
ghost use Rattle.after.specs.After.{told_after};
ghost use Rattle.after.specs.Mdio.{resume_mdio};

use crate::After;
use answers::Value;
use arguments::{Advertised, Register};
use hardware::{Error, Port, Step};
use jobs::job::{Ended, Job};
use phy::advertise::Advertise;
use phy::an_link::AnLink;
use phy::clock::Clock;
use phy::modify::Modify;
use phy::probe::Probe;
use phy::reset::Reset;
use phy::scan::Scan;

#[derive(Clone, Copy)]
pub enum Mdio {
    Modify(Register, Modify),
    // phy
    Probe(u32, Probe),
    Scan(Scan),
    // phy, x557
    Reset(u32, bool, Reset),
    // phy
    AnLink(u32, AnLink),
    Advertise(Advertised, Advertise),
    // after_reset: whether fast
    Clock(bool, Clock),
}

impl Mdio {
    #[tactic(auto, using(hardware::proofs::Laws::then_assoc))]
    pub fn modify(
        port: Port,
        at: Register,
        step: Step<Job, Modify, Result<u32, Error>>,
    ) -> Step<Job, After, Ended<Value>>
        ensures { (b : List ℕ) → told_after port b result ≡ answer value.Word (told_modify port at b step) }
    {
        match step {
            Step::Ask(job, s) => Step::Ask(job, After::Mdio(Mdio::Modify(at, s))),
            Step::Done(r) => After::word(port, r),
        }
    }

    #[tactic(auto, using(hardware::proofs::Laws::then_assoc))]
    pub fn probe(
        port: Port,
        phy: u32,
        step: Step<Job, Probe, Result<Option<u32>, Error>>,
    ) -> Step<Job, After, Ended<Value>>
        ensures { (b : List ℕ) → told_after port b result ≡ answer value.Probe (told_probe port phy b step) }
    {
        match step {
            Step::Ask(job, s) => Step::Ask(job, After::Mdio(Mdio::Probe(phy, s))),
            Step::Done(r) => After::plain(r.map(|id| Value::Probe(id))),
        }
    }

    #[tactic(auto, using(hardware::proofs::Laws::then_assoc))]
    pub fn scan(
        port: Port,
        step: Step<Job, Scan, Result<Option<(u8, u32)>, Error>>,
    ) -> Step<Job, After, Ended<Value>>
        ensures { (b : List ℕ) → told_after port b result ≡ answer value.Scan (told_scan port b step) }
    {
        match step {
            Step::Ask(job, s) => Step::Ask(job, After::Mdio(Mdio::Scan(s))),
            Step::Done(r) => After::plain(r.map(|s| Value::Scan(s))),
        }
    }

    fn unit(port: Port, r: Result<(), Error>) -> Step<Job, After, Ended<Value>>
        ensures { (b : List ℕ) → told_after port b result ≡ answer nothing (end r) }
    {
        After::plain(r.map(|()| Value::Nothing))
    }

    #[tactic(auto, using(hardware::proofs::Laws::then_assoc))]
    pub fn reset(
        port: Port,
        phy: u32,
        x557: bool,
        step: Step<Job, Reset, Result<(), Error>>,
    ) -> Step<Job, After, Ended<Value>>
        ensures { (b : List ℕ) → told_after port b result ≡ answer nothing (told_reset port phy x557 b step) }
    {
        match step {
            Step::Ask(job, s) => Step::Ask(job, After::Mdio(Mdio::Reset(phy, x557, s))),
            Step::Done(r) => Mdio::unit(port, r),
        }
    }

    fn flag(port: Port, r: Result<bool, Error>) -> Step<Job, After, Ended<Value>>
        ensures { (b : List ℕ) → told_after port b result ≡ answer value.Flag (end r) }
    {
        After::plain(r.map(|v| Value::Flag(v)))
    }

    #[tactic(auto, using(hardware::proofs::Laws::then_assoc))]
    pub fn an_link(
        port: Port,
        phy: u32,
        step: Step<Job, AnLink, Result<bool, Error>>,
    ) -> Step<Job, After, Ended<Value>>
        ensures { (b : List ℕ) → told_after port b result ≡ answer value.Flag (told_an_link port phy b step) }
    {
        match step {
            Step::Ask(job, s) => Step::Ask(job, After::Mdio(Mdio::AnLink(phy, s))),
            Step::Done(r) => Mdio::flag(port, r),
        }
    }

    #[tactic(auto, using(hardware::proofs::Laws::then_assoc))]
    pub fn advertise(
        port: Port,
        asked: Advertised,
        step: Step<Job, Advertise, Result<bool, Error>>,
    ) -> Step<Job, After, Ended<Value>>
        ensures { (b : List ℕ) → told_after port b result ≡ answer value.Flag (told_advertise port asked b step) }
    {
        match step {
            Step::Ask(job, s) => Step::Ask(job, After::Mdio(Mdio::Advertise(asked, s))),
            Step::Done(r) => Mdio::flag(port, r),
        }
    }

    #[tactic(auto, using(hardware::proofs::Laws::then_assoc))]
    fn clock(
        port: Port,
        fast: bool,
        step: Step<Job, Clock, Result<(), Error>>,
    ) -> Step<Job, After, Ended<Value>>
        ensures { (b : List ℕ) → told_after port b result ≡ answer nothing (told_clock port fast b step) }
    {
        match step {
            Step::Ask(job, s) => Step::Ask(job, After::Mdio(Mdio::Clock(fast, s))),
            Step::Done(r) => Mdio::unit(port, r),
        }
    }

    // Where the clock is not set, it ends at once.
    #[tactic(auto, using(hardware::proofs::Laws::then_assoc, crate::proofs::Laws::reset_begun))]
    pub fn after_reset(port: Port) -> Step<Job, After, Ended<Value>>
        ensures { (b : List ℕ) → told_after port b result ≡ answer nothing (after_reset port port.family) }
    {
        match Clock::of(port) {
            None => After::plain(Ok(Value::Nothing)),
            Some(fast) => Mdio::clock(port, fast, Clock::start(fast, port)),
        }
    }

    #[tactic(auto, using(hardware::proofs::Laws::then_assoc))]
    pub fn next(self, port: Port, got: Result<u32, Error>) -> Step<Job, After, Ended<Value>>
        ensures { (b : List ℕ) → told_after port b result ≡ resume_mdio port self got }
    {
        match self {
            Mdio::Modify(at, s) => Mdio::modify(port, at, s.next(at, port, got)),
            Mdio::Probe(phy, s) => Mdio::probe(port, phy, s.next(phy, port, got)),
            Mdio::Scan(s) => Mdio::scan(port, s.next(port, got)),
            Mdio::Reset(phy, x557, s) => Mdio::reset(port, phy, x557, s.next(phy, x557, port, got)),
            Mdio::AnLink(phy, s) => Mdio::an_link(port, phy, s.next(phy, port, got)),
            Mdio::Advertise(asked, s) => Mdio::advertise(port, asked, s.next(asked, port, got)),
            Mdio::Clock(fast, s) => Mdio::clock(port, fast, s.next(fast, port, got)),
        }
    }
}
