// x552.rs's `prepare_copper`: the X557 found, let go on where it stalls, and reset unless there is a veto.
ghost use Rattle.std.specs.Prelude.{ℕ, true, false, List, ◌≡◌};
ghost use Rattle.phy.specs.Clock.{told_clock};
ghost use Rattle.phy.specs.Modify.{told_modify};
ghost use Rattle.phy.specs.Probe.{told_probe};
ghost use Rattle.phy.specs.Reset.{told_reset};
ghost use Rattle.phy.specs.Scan.{told_scan};
ghost use Rattle.reference.specs.X552.{internal_of, prepare_copper, prepare_sel};
ghost use Rattle.x552.specs.Prepare.{sel_phy, stall_of, prepared_of, found_then, alarms_then, reset_then, clock_then, probe_then, scan_then, stall_then, done_then, got_sel, got_alarms, resume_prepare, told_prepare};

use answers::{Internal, X557};
use arguments::Register;
use hardware::{Error, Family, Managed, Port, Step};
use jobs::job::Job;
use phy::clock::Clock;
use phy::modify::Modify;
use phy::probe::Probe;
use phy::reset::Reset;
use phy::scan::Scan;

// The PHY that was found, and NW_MNG_IF_SEL.
#[derive(Clone, Copy)]
pub struct Phy {
    pub phy: u8,
    pub id: u32,
    pub sel: u32,
}

#[derive(Clone, Copy)]
pub enum PrepareCopper {
    Clock(Clock),
    Sel,
    // NW_MNG_IF_SEL
    Probe(u32, Probe),
    // NW_MNG_IF_SEL
    Scan(u32, Scan),
    // read_reg of 1.cc02
    Alarms(Phy),
    Unstall(Phy, Modify),
    // whether it was unstalled
    Reset(Phy, bool, Reset),
}

impl Phy {
    pub const NW_MNG_IF_SEL: u32 = 0x1_1178;

    // NW_MNG_IF_SEL: the internal link is KR; the port is set to 2.5 gigabits.
    pub const INT_PHY_MODE: u32 = 0x100_0000;

    pub const SPEED_2_5G: u32 = 0x10_0000;

    // The PHY that NW_MNG_IF_SEL names.
    fn of(sel: u32) -> u8
        ensures { sel_phy sel ≡ result }
    {
        ((sel >> 3) % 32) as u8
    }

    #[tactic(auto, unfolding(reference::specs::X552::internal_of))]
    fn internal(family: Family, sel: u32) -> Internal
        ensures { internal_of family sel ≡ result }
    {
        match family {
            Family::X552 => {
                if sel & Phy::INT_PHY_MODE == 0 {
                    Internal::Ixfi
                } else {
                    Internal::Kr
                }
            }
            Family::X553 => Internal::Kr,
        }
    }

    #[tactic(auto, unfolding(reference::specs::X552::prepared_copper))]
    fn prepared(self, port: Port, unstalled: bool, reset: bool) -> X557
        ensures { prepared_of port self unstalled reset ≡ result }
    {
        X557 {
            phy: self.phy,
            id: self.id,
            sel: self.sel,
            unstalled,
            reset,
            internal: Phy::internal(port.family, self.sel),
        }
    }

    // The modify that ends the stall.
    fn stall(self) -> Register
        ensures { stall_of self ≡ result }
    {
        Register {
            phy: self.phy as u32,
            device: Register::VENDOR,
            register: Register::GLOBAL_RES,
            keep: 0x7fff,
            set: 0,
        }
    }
}

impl PrepareCopper {
    #[tactic(auto, using(hardware::proofs::Laws::then_assoc))]
    fn after_reset(
        managed: Managed,
        found: Phy,
        unstalled: bool,
        step: Step<Job, Reset, Result<(), Error>>,
    ) -> Step<Job, PrepareCopper, Result<X557, Error>>
        ensures { (b : List ℕ) → told_prepare managed b result ≡ done_then managed.port found unstalled (told_reset managed.port found.phy true b step) }
    {
        match step {
            Step::Ask(job, s) => Step::Ask(job, PrepareCopper::Reset(found, unstalled, s)),
            Step::Done(Err(e)) => Step::Done(Err(e)),
            Step::Done(Ok(())) => Step::Done(Ok(found.prepared(managed.port, unstalled, true))),
        }
    }

    // The reset, unless there is a veto.
    #[tactic(auto, using(hardware::proofs::Laws::then_assoc))]
    fn reset(
        managed: Managed,
        found: Phy,
        unstalled: bool,
    ) -> Step<Job, PrepareCopper, Result<X557, Error>>
        ensures { (b : List ℕ) → told_prepare managed b result ≡ reset_then managed found unstalled }
    {
        if managed.veto {
            return Step::Done(Ok(found.prepared(managed.port, unstalled, false)));
        }
        let step = Reset::start(found.phy as u32, true, managed.port);
        PrepareCopper::after_reset(managed, found, unstalled, step)
    }

    #[tactic(auto, using(hardware::proofs::Laws::then_assoc))]
    fn after_unstall(
        managed: Managed,
        found: Phy,
        step: Step<Job, Modify, Result<u32, Error>>,
    ) -> Step<Job, PrepareCopper, Result<X557, Error>>
        ensures { (b : List ℕ) → told_prepare managed b result ≡ stall_then managed found (told_modify managed.port (stall_of found) b step) }
    {
        match step {
            Step::Ask(job, s) => Step::Ask(job, PrepareCopper::Unstall(found, s)),
            Step::Done(Err(e)) => Step::Done(Err(e)),
            Step::Done(Ok(_)) => PrepareCopper::reset(managed, found, true),
        }
    }

    // At the first start since power-on the PHY's firmware waits to be let go on.
    #[tactic(auto, using(hardware::proofs::Laws::then_assoc))]
    fn alarms(
        managed: Managed,
        found: Phy,
        alarms: u32,
    ) -> Step<Job, PrepareCopper, Result<X557, Error>>
        ensures { (b : List ℕ) → told_prepare managed b result ≡ alarms_then managed found alarms }
    {
        if alarms & Register::RESET_DONE == 0 {
            return PrepareCopper::reset(managed, found, false);
        }
        let step = Modify::start(found.stall(), managed.port);
        PrepareCopper::after_unstall(managed, found, step)
    }

    fn after_alarms(
        managed: Managed,
        found: Phy,
        got: Result<u32, Error>,
    ) -> Step<Job, PrepareCopper, Result<X557, Error>>
        ensures { (b : List ℕ) → told_prepare managed b result ≡ got_alarms managed found got }
    {
        match got {
            Err(e) => Step::Done(Err(e)),
            Ok(v) => PrepareCopper::alarms(managed, found, v),
        }
    }

    #[tactic(auto, using(hardware::proofs::Laws::then_assoc))]
    fn found(managed: Managed, found: Phy) -> Step<Job, PrepareCopper, Result<X557, Error>>
        ensures { (b : List ℕ) → told_prepare managed b result ≡ found_then managed found }
    {
        Step::Ask(
            Job::ReadReg(
                found.phy as u32,
                Register::PMA,
                Register::TX_VENDOR_ALARMS_3,
            ),
            PrepareCopper::Alarms(found),
        )
    }

    #[tactic(auto, using(hardware::proofs::Laws::then_assoc))]
    fn after_probe(
        managed: Managed,
        sel: u32,
        step: Step<Job, Probe, Result<Option<u32>, Error>>,
    ) -> Step<Job, PrepareCopper, Result<X557, Error>>
        ensures { (b : List ℕ) → told_prepare managed b result ≡ probe_then managed sel (told_probe managed.port (sel_phy sel) b step) }
    {
        match step {
            Step::Ask(job, s) => Step::Ask(job, PrepareCopper::Probe(sel, s)),
            Step::Done(Err(e)) => Step::Done(Err(e)),
            Step::Done(Ok(None)) => Step::Done(Err(Error::NoPhy)),
            Step::Done(Ok(Some(id))) => {
                let phy = Phy::of(sel);
                PrepareCopper::found(managed, Phy { phy, id, sel })
            }
        }
    }

    #[tactic(auto, using(hardware::proofs::Laws::then_assoc))]
    fn after_scan(
        managed: Managed,
        sel: u32,
        step: Step<Job, Scan, Result<Option<(u8, u32)>, Error>>,
    ) -> Step<Job, PrepareCopper, Result<X557, Error>>
        ensures { (b : List ℕ) → told_prepare managed b result ≡ scan_then managed sel (told_scan managed.port b step) }
    {
        match step {
            Step::Ask(job, s) => Step::Ask(job, PrepareCopper::Scan(sel, s)),
            Step::Done(Err(e)) => Step::Done(Err(e)),
            Step::Done(Ok(None)) => Step::Done(Err(Error::NoPhy)),
            Step::Done(Ok(Some((phy, id)))) => PrepareCopper::found(managed, Phy { phy, id, sel }),
        }
    }

    // The PHY that NW_MNG_IF_SEL names is the only one tried; where it names none, all are.
    #[tactic(auto, using(hardware::proofs::Laws::then_assoc))]
    fn sel(managed: Managed, sel: u32) -> Step<Job, PrepareCopper, Result<X557, Error>>
        ensures { (b : List ℕ) → told_prepare managed b result ≡ prepare_sel managed.port managed.veto sel }
    {
        if sel == 0 {
            let step = Scan::start(managed.port);
            return PrepareCopper::after_scan(managed, sel, step);
        }
        let step = Probe::start(Phy::of(sel) as u32, managed.port);
        PrepareCopper::after_probe(managed, sel, step)
    }

    fn after_sel(
        managed: Managed,
        got: Result<u32, Error>,
    ) -> Step<Job, PrepareCopper, Result<X557, Error>>
        ensures { (b : List ℕ) → told_prepare managed b result ≡ got_sel managed got }
    {
        match got {
            Err(e) => Step::Done(Err(e)),
            Ok(sel) => PrepareCopper::sel(managed, sel),
        }
    }

    #[tactic(auto, using(hardware::proofs::Laws::then_assoc))]
    fn after_clock(
        managed: Managed,
        step: Step<Job, Clock, Result<(), Error>>,
    ) -> Step<Job, PrepareCopper, Result<X557, Error>>
        ensures { (b : List ℕ) → told_prepare managed b result ≡ clock_then managed (told_clock managed.port false b step) }
    {
        match step {
            Step::Ask(job, s) => Step::Ask(job, PrepareCopper::Clock(s)),
            Step::Done(Err(e)) => Step::Done(Err(e)),
            Step::Done(Ok(())) => Step::Ask(Job::Read(Phy::NW_MNG_IF_SEL), PrepareCopper::Sel),
        }
    }

    #[tactic(auto, unfolding(reference::specs::X552::prepare_copper))]
    pub fn start(managed: Managed) -> Step<Job, PrepareCopper, Result<X557, Error>>
        ensures { (b : List ℕ) → told_prepare managed b result ≡ prepare_copper managed.port managed.veto }
    {
        PrepareCopper::after_clock(managed, Clock::start(false, managed.port))
    }

    #[tactic(auto, using(hardware::proofs::Laws::then_assoc))]
    pub fn next(
        self,
        managed: Managed,
        got: Result<u32, Error>,
    ) -> Step<Job, PrepareCopper, Result<X557, Error>>
        ensures { (b : List ℕ) → told_prepare managed b result ≡ resume_prepare managed self got }
    {
        match self {
            PrepareCopper::Clock(s) => PrepareCopper::after_clock(
                managed,
                s.next(false, managed.port, got),
            ),
            PrepareCopper::Sel => PrepareCopper::after_sel(managed, got),
            PrepareCopper::Probe(sel, s) => {
                let step = s.next(Phy::of(sel) as u32, managed.port, got);
                PrepareCopper::after_probe(managed, sel, step)
            }
            PrepareCopper::Scan(sel, s) => PrepareCopper::after_scan(
                managed,
                sel,
                s.next(managed.port, got),
            ),
            PrepareCopper::Alarms(found) => PrepareCopper::after_alarms(managed, found, got),
            PrepareCopper::Unstall(found, s) => {
                let step = s.next(found.stall(), managed.port, got);
                PrepareCopper::after_unstall(managed, found, step)
            }
            PrepareCopper::Reset(found, unstalled, s) => {
                let step = s.next(found.phy as u32, true, managed.port, got);
                PrepareCopper::after_reset(managed, found, unstalled, step)
            }
        }
    }
}
