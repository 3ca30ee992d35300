// `bringup`: the family's prepare, then its setup on the result. It is suspended at a job.
#![tactic(auto)]

ghost use Rattle.std.specs.Prelude.{ℕ, List, ◌≡◌, take};
ghost use Rattle.hardware.specs.declared.Family.TheVariants.{X552, X553};
ghost use Rattle.reference.specs.Bringup.{bringup};
ghost use Rattle.reference.specs.X552.{prepare_copper};
ghost use Rattle.reference.specs.X553.{prepare_firmware};
ghost use Rattle.kr.specs.Sequence.{told_sequence};
ghost use Rattle.phy.specs.Clock.{told_clock};
ghost use Rattle.x552.specs.Link.{told_link};
ghost use Rattle.x552.specs.Prepare as copper;
ghost use Rattle.x553.specs.Firmware.{told_firmware};
ghost use Rattle.x553.specs.Prepare as firmware;
ghost use Rattle.x553.specs.Sgmii.{told_sgmii};
ghost use Rattle.bringup.specs.Bringup.{kr_value, veto_value, copper_value, lane_talk, vetoed_talk, devices_of, kr_then, answer553, link_then, copper_then, firmware_then, clock_then, got_mmngc, got_sel, resume_bringup, told_bringup};

use answers::{CopperSetup, FirmwareSetup, Setup552, Setup553, SgmiiSetup, Value, X557};
use hardware::{Error, Family, Managed, Port, Step};
use jobs::job::{Ended, Job};
use kr::sequence::{KrPlace, Sequence};
use phy::clock::Clock;
use x552::link::{CopperCall, CopperLink};
use x552::prepare::{Phy, PrepareCopper};
use x553::firmware::SetupFirmware;
use x553::prepare::{FirmwarePrepared, PrepareFirmware};
use x553::sgmii::Sgmii;

// What is set up on the KR PHY's registers unless there is a veto: kr_autoneg, with KR or without, or sgmii.
#[derive(Clone, Copy)]
pub enum Lane {
    Kr(bool),
    Sgmii,
}

#[derive(Clone, Copy)]
pub enum Bringup {
    // x553's prepare, set_mdio_speed: fast
    Clock(bool, Clock),
    // prepare_copper: 15ad, 15c8
    Copper(PrepareCopper),
    // prepare_firmware: 15e4, 15e5
    Firmware(PrepareFirmware),
    // x553's setup, NW_MNG_IF_SEL: 15c2, 15c3
    Sel(bool),
    // either setup, MMNGC
    Mmngc(Lane),
    Kr(Sequence),
    Sgmii(Sgmii),
    // copper_link
    Link(X557, CopperLink),
    // x553's setup: 15e4, 15e5
    SetupFirmware(SetupFirmware),
}

fn kr_value(family: Family, lc1: u32) -> Value
    ensures { kr_value family lc1 ≡ result }
{
    match family {
        Family::X552 => Value::X552(Setup552::Kr { link_ctrl: lc1 }),
        Family::X553 => Value::X553(Setup553::Kr { link_ctrl: lc1 }),
    }
}

fn veto_value(family: Family) -> Value
    ensures { veto_value family ≡ result }
{
    match family {
        Family::X552 => Value::X552(Setup552::ManageabilityVeto),
        Family::X553 => Value::X553(Setup553::ManageabilityVeto),
    }
}

fn copper_value(family: Family, set: CopperSetup) -> Value
    ensures { copper_value family set ≡ result }
{
    match family {
        Family::X552 => Value::X552(Setup552::Copper(set)),
        Family::X553 => Value::X553(Setup553::X557(Setup552::Copper(set))),
    }
}

impl Bringup {
    #[tactic(auto, using(hardware::proofs::Laws::then_assoc))]
    fn after_kr(
        managed: Managed,
        step: Step<Job, Sequence, Result<u32, Error>>,
    ) -> Step<Job, Bringup, Result<Value, Error>>
        ensures { (b : List ℕ) → told_bringup managed b result ≡ kr_then managed.port (told_sequence managed.port b step) }
    {
        match step {
            Step::Ask(job, s) => Step::Ask(job, Bringup::Kr(s)),
            Step::Done(Err(e)) => Step::Done(Err(e)),
            Step::Done(Ok(lc1)) => Step::Done(Ok(kr_value(managed.port.family, lc1))),
        }
    }

    #[tactic(auto, using(hardware::proofs::Laws::then_assoc))]
    fn after_sgmii(
        managed: Managed,
        step: Step<Job, Sgmii, Result<SgmiiSetup, Error>>,
    ) -> Step<Job, Bringup, Result<Value, Error>>
        ensures { (b : List ℕ) → told_bringup managed b result ≡ answer553 (told_sgmii managed.port b step) }
    {
        match step {
            Step::Ask(job, s) => Step::Ask(job, Bringup::Sgmii(s)),
            Step::Done(Err(e)) => Step::Done(Err(e)),
            Step::Done(Ok(set)) => Step::Done(Ok(Value::X553(Setup553::Sgmii(set)))),
        }
    }

    #[tactic(auto, using(hardware::proofs::Laws::then_assoc), unfolding(reference::specs::X552::kr_autoneg))]
    fn lane(managed: Managed, lane: Lane) -> Step<Job, Bringup, Result<Value, Error>>
        ensures { (b : List ℕ) → told_bringup managed b result ≡ lane_talk managed.port lane }
    {
        match lane {
            Lane::Kr(kr) => {
                let step = Sequence::start(KrPlace::Advertise(kr, true), managed.port);
                Bringup::after_kr(managed, step)
            }
            Lane::Sgmii => Bringup::after_sgmii(managed, Sgmii::start(managed.port)),
        }
    }

    fn after_mmngc(
        managed: Managed,
        lane: Lane,
        got: Result<u32, Error>,
    ) -> Step<Job, Bringup, Result<Value, Error>>
        ensures { (b : List ℕ) → told_bringup managed b result ≡ got_mmngc managed.port lane got }
    {
        match got {
            Err(e) => Step::Done(Err(e)),
            Ok(mmngc) => {
                if mmngc & 1 == 0 {
                    Bringup::lane(managed, lane)
                } else {
                    Step::Done(Ok(veto_value(managed.port.family)))
                }
            }
        }
    }

    // The veto was read before; MMNGC is read again.
    fn vetoed(managed: Managed, lane: Lane) -> Step<Job, Bringup, Result<Value, Error>>
        ensures { (b : List ℕ) → told_bringup managed b result ≡ vetoed_talk managed lane }
    {
        if managed.veto {
            Step::Done(Ok(veto_value(managed.port.family)))
        } else {
            Step::Ask(Job::Read(Port::MMNGC), Bringup::Mmngc(lane))
        }
    }

    // A board strapped for 2.5G backplane is left alone.
    fn after_sel(
        managed: Managed,
        kr: bool,
        got: Result<u32, Error>,
    ) -> Step<Job, Bringup, Result<Value, Error>>
        ensures { (b : List ℕ) → told_bringup managed b result ≡ got_sel managed kr got }
    {
        match got {
            Err(e) => Step::Done(Err(e)),
            Ok(sel) => {
                if sel & Phy::SPEED_2_5G == 0 {
                    Bringup::vetoed(managed, Lane::Kr(kr))
                } else {
                    Step::Done(Ok(Value::X553(Setup553::Kr2500 { sel })))
                }
            }
        }
    }

    #[tactic(auto, using(hardware::proofs::Laws::then_assoc))]
    fn after_link(
        call: CopperCall,
        step: Step<Job, CopperLink, Result<CopperSetup, Error>>,
    ) -> Step<Job, Bringup, Result<Value, Error>>
        ensures { (b : List ℕ) → told_bringup call.managed b result ≡ link_then call.managed.port (told_link call b step) }
    {
        match step {
            Step::Ask(job, s) => Step::Ask(job, Bringup::Link(call.x557, s)),
            Step::Done(Err(e)) => Step::Done(Err(e)),
            Step::Done(Ok(set)) => Step::Done(Ok(copper_value(call.managed.port.family, set))),
        }
    }

    #[tactic(auto, using(hardware::proofs::Laws::then_assoc))]
    fn after_copper(
        managed: Managed,
        step: Step<Job, PrepareCopper, Result<X557, Error>>,
    ) -> Step<Job, Bringup, Result<Value, Error>>
        ensures { (b : List ℕ) → told_bringup managed b result ≡ copper_then managed (copper.told_prepare managed b step) }
    {
        match step {
            Step::Ask(job, s) => Step::Ask(job, Bringup::Copper(s)),
            Step::Done(Err(e)) => Step::Done(Err(e)),
            Step::Done(Ok(x557)) => {
                let call = CopperCall { managed, x557 };
                Bringup::after_link(call, CopperLink::start(call))
            }
        }
    }

    #[tactic(auto, unfolding(reference::specs::X552::prepare_copper))]
    fn copper(managed: Managed) -> Step<Job, Bringup, Result<Value, Error>>
        ensures { (b : List ℕ) → told_bringup managed b result ≡ copper_then managed (prepare_copper managed.port managed.veto) }
    {
        Bringup::after_copper(managed, PrepareCopper::start(managed))
    }

    #[tactic(auto, using(hardware::proofs::Laws::then_assoc))]
    fn after_set(
        managed: Managed,
        step: Step<Job, SetupFirmware, Result<FirmwareSetup, Error>>,
    ) -> Step<Job, Bringup, Result<Value, Error>>
        ensures { (b : List ℕ) → told_bringup managed b result ≡ answer553 (told_firmware managed.port b step) }
    {
        match step {
            Step::Ask(job, s) => Step::Ask(job, Bringup::SetupFirmware(s)),
            Step::Done(Err(e)) => Step::Done(Err(e)),
            Step::Done(Ok(set)) => Step::Done(Ok(Value::X553(Setup553::Firmware(set)))),
        }
    }

    #[tactic(auto, using(hardware::proofs::Laws::then_assoc))]
    fn after_firmware(
        managed: Managed,
        step: Step<Job, PrepareFirmware, Result<FirmwarePrepared, Error>>,
    ) -> Step<Job, Bringup, Result<Value, Error>>
        ensures { (b : List ℕ) → told_bringup managed b result ≡ firmware_then managed (firmware.told_prepare managed b step) }
    {
        match step {
            Step::Ask(job, s) => Step::Ask(job, Bringup::Firmware(s)),
            Step::Done(Err(e)) => Step::Done(Err(e)),
            Step::Done(Ok(p)) => {
                let step = SetupFirmware::start(managed, p);
                Bringup::after_set(managed, step)
            }
        }
    }

    #[tactic(auto, using(hardware::proofs::Laws::then_assoc), unfolding(reference::specs::X553::prepare_firmware))]
    fn firmware(managed: Managed, block: &mut [u32; 80]) -> Step<Job, Bringup, Result<Value, Error>>
        ensures { told_bringup managed block.new result ≡ firmware_then managed (prepare_firmware managed.port managed.veto) }
    {
        let step = PrepareFirmware::start(managed, block);
        Bringup::after_firmware(managed, step)
    }

    // By device, of the X552.
    fn devices552(managed: Managed) -> Step<Job, Bringup, Result<Value, Error>>
        requires { managed.port.family ≡ X552 }
        ensures { (b : List ℕ) → told_bringup managed b result ≡ devices_of managed X552 }
    {
        match managed.port.device {
            0x15ab => Bringup::vetoed(managed, Lane::Kr(true)),
            0x15ad => Bringup::copper(managed),
            0x15ae => Step::Done(Ok(Value::X552(Setup552::FirmwarePhy))),
            0x15b0 => Step::Done(Ok(Value::X552(Setup552::Xfi))),
            _ => Step::Done(Ok(Value::X552(Setup552::Kx4))),
        }
    }

    // By device, of the X553, after set_mdio_speed.
    #[tactic(auto, using(hardware::proofs::Laws::then_assoc))]
    fn devices553(
        managed: Managed,
        block: &mut [u32; 80],
    ) -> Step<Job, Bringup, Result<Value, Error>>
        requires { managed.port.family ≡ X553 }
        ensures { told_bringup managed block.new result ≡ devices_of managed X553 }
    {
        match managed.port.device {
            0x15c2 => Step::Ask(Job::Read(Phy::NW_MNG_IF_SEL), Bringup::Sel(true)),
            0x15c3 => Step::Ask(Job::Read(Phy::NW_MNG_IF_SEL), Bringup::Sel(false)),
            0x15c6 => Bringup::vetoed(managed, Lane::Sgmii),
            0x15c7 => Bringup::vetoed(managed, Lane::Sgmii),
            0x15c8 => Bringup::copper(managed),
            0x15e4 | 0x15e5 => Bringup::firmware(managed, block),
            _ => Step::Done(Err(Error::NoPhy)),
        }
    }

    fn devices(managed: Managed, block: &mut [u32; 80]) -> Step<Job, Bringup, Result<Value, Error>>
        ensures { told_bringup managed block.new result ≡ devices_of managed managed.port.family }
    {
        match managed.port.family {
            Family::X552 => Bringup::devices552(managed),
            Family::X553 => Bringup::devices553(managed, block),
        }
    }

    #[tactic(auto, using(hardware::proofs::Laws::then_assoc))]
    fn after_clock(
        managed: Managed,
        block: &mut [u32; 80],
        fast: bool,
        step: Step<Job, Clock, Result<(), Error>>,
    ) -> Step<Job, Bringup, Result<Value, Error>>
        ensures { told_bringup managed block.new result ≡ clock_then managed (told_clock managed.port fast block.old step) }
    {
        match step {
            Step::Ask(job, s) => Step::Ask(job, Bringup::Clock(fast, s)),
            Step::Done(Err(e)) => Step::Done(Err(e)),
            Step::Done(Ok(())) => Bringup::devices(managed, block),
        }
    }

    #[tactic(auto, using(crate::proofs::Laws::bringup_clocked))]
    fn clocked(managed: Managed, block: &mut [u32; 80]) -> Step<Job, Bringup, Result<Value, Error>>
        requires { managed.port.family ≡ X553 }
        ensures { told_bringup managed block.new result ≡ bringup managed.port.pause managed.port managed.veto }
    {
        match Clock::of(managed.port) {
            None => Bringup::devices(managed, block),
            Some(fast) => {
                let step = Clock::start(fast, managed.port);
                Bringup::after_clock(managed, block, fast, step)
            }
        }
    }

    #[tactic(auto, unfolding(reference::specs::Bringup::bringup))]
    pub fn start(
        managed: Managed,
        block: &mut [u32; 80],
    ) -> Step<Job, Bringup, Result<Value, Error>>
        ensures { told_bringup managed block.new result ≡ bringup managed.port.pause managed.port managed.veto }
    {
        match managed.port.family {
            Family::X552 => Bringup::devices552(managed),
            Family::X553 => Bringup::clocked(managed, block),
        }
    }

    #[tactic(auto, using(hardware::proofs::Laws::then_assoc))]
    pub fn next(
        self,
        managed: Managed,
        block: &mut [u32; 80],
        given: Ended<u32>,
    ) -> Step<Job, Bringup, Result<Value, Error>>
        ensures { told_bringup managed block.new result ≡ resume_bringup managed self given.answer (take given.words block.old) }
    {
        match self {
            Bringup::Clock(fast, s) => {
                let step = s.next(fast, managed.port, given.answer);
                Bringup::after_clock(managed, block, fast, step)
            }
            Bringup::Copper(s) => Bringup::after_copper(managed, s.next(managed, given.answer)),
            Bringup::Firmware(s) => {
                let step = s.next(managed, block, given);
                Bringup::after_firmware(managed, step)
            }
            Bringup::Sel(kr) => Bringup::after_sel(managed, kr, given.answer),
            Bringup::Mmngc(lane) => Bringup::after_mmngc(managed, lane, given.answer),
            Bringup::Kr(s) => Bringup::after_kr(managed, s.next(managed.port, given.answer)),
            Bringup::Sgmii(s) => Bringup::after_sgmii(managed, s.next(managed.port, given.answer)),
            Bringup::Link(x557, s) => {
                let call = CopperCall { managed, x557 };
                Bringup::after_link(call, s.next(call, given.answer))
            }
            Bringup::SetupFirmware(s) => {
                let step = s.next(managed.port, block, given);
                Bringup::after_set(managed, step)
            }
        }
    }
}
