// x553.rs's `setup`, its arm for a PHY that belongs to the firmware.
ghost use Rattle.std.specs.Prelude.{ℕ, List, ◌≡◌, take};
ghost use Rattle.activity.specs.Activity.{told_activity};
ghost use Rattle.reference.specs.X553.{firmware_set, firmware_down, setup_firmware};
ghost use Rattle.x553.specs.Prepare.{link_of};
ghost use Rattle.x553.specs.SgmiiAn.{told_sgmii_an};
ghost use Rattle.x553.specs.Firmware.{
  down_of,
  link_info_of,
  prepared_of,
  info_done,
  link_done,
  internal_then,
  link_then,
  info_then,
  down_then,
  got_mmngc,
  resume_firmware,
  told_firmware,
};

use crate::prepare::{FirmwarePlace, FirmwarePrepared, asked, begin};
use crate::sgmii_an::SgmiiAn;
use activity::Activity;
use answers::{FirmwarePhy, FirmwareSetup, Words};
use hardware::{Error, Managed, Port, Step};
use jobs::job::{Ended, Job};

#[derive(Clone, Copy)]
pub enum SetupFirmware {
    // whether it said that it is down
    Mmngc(FirmwarePhy, bool),
    Internal(FirmwarePhy, SgmiiAn),
    // SETUP_LINK: FLX as written
    Link(FirmwarePhy, u32, Activity),
    // GET_LINK_INFO
    Info(FirmwarePhy, u32, Activity),
    // FORCE_LINK_DOWN
    Down(FirmwarePhy, Option<u32>, Activity),
}

impl SetupFirmware {
    pub const GET_LINK_INFO: u16 = 3;

    // GET_LINK_INFO's first word: the PHY is too hot.
    pub const OVERTEMP: u32 = 0x200_0000;

    pub const FORCE_LINK_DOWN: u16 = 4;

    fn set(
        port: Port,
        phy: FirmwarePhy,
        internal: Option<u32>,
        overtemp: bool,
    ) -> Step<Job, SetupFirmware, Result<FirmwareSetup, Error>>
        ensures { (b : List ℕ) → told_firmware port b result ≡ firmware_set phy internal overtemp }
    {
        Step::Done(Ok(FirmwareSetup {
            phy,
            internal,
            overtemp,
        }))
    }

    #[tactic(auto, using(hardware::proofs::Laws::then_assoc))]
    fn after_down(
        port: Port,
        phy: FirmwarePhy,
        internal: Option<u32>,
        step: Step<Job, Activity, Result<Words, Error>>,
    ) -> Step<Job, SetupFirmware, Result<FirmwareSetup, Error>>
        ensures { (b : List ℕ) → told_firmware port b result ≡ down_then phy internal (told_activity port down_of b step) }
    {
        match step {
            Step::Ask(job, s) => Step::Ask(job, SetupFirmware::Down(phy, internal, s)),
            Step::Done(Err(e)) => Step::Done(Err(e)),
            Step::Done(Ok(_)) => SetupFirmware::set(port, phy, internal, true),
        }
    }

    // Too hot: the link is forced down.
    #[tactic(auto, using(hardware::proofs::Laws::then_assoc))]
    fn down(
        port: Port,
        phy: FirmwarePhy,
        internal: Option<u32>,
        block: &mut [u32; 80],
    ) -> Step<Job, SetupFirmware, Result<FirmwareSetup, Error>>
        ensures { told_firmware port block.new result ≡ firmware_down port phy internal }
    {
        let s = begin(SetupFirmware::FORCE_LINK_DOWN, 1, port, block);
        Step::Ask(Job::Command(6), SetupFirmware::Down(phy, internal, s))
    }

    fn info(
        port: Port,
        phy: FirmwarePhy,
        flx: u32,
        block: &mut [u32; 80],
        out: Words,
    ) -> Step<Job, SetupFirmware, Result<FirmwareSetup, Error>>
        ensures { told_firmware port block.new result ≡ info_done port phy flx out }
    {
        if out.w0 & SetupFirmware::OVERTEMP == 0 {
            SetupFirmware::set(port, phy, Some(flx), false)
        } else {
            SetupFirmware::down(port, phy, Some(flx), block)
        }
    }

    #[tactic(auto, using(hardware::proofs::Laws::then_assoc))]
    fn after_info(
        port: Port,
        phy: FirmwarePhy,
        flx: u32,
        block: &mut [u32; 80],
        step: Step<Job, Activity, Result<Words, Error>>,
    ) -> Step<Job, SetupFirmware, Result<FirmwareSetup, Error>>
        ensures { told_firmware port block.new result ≡ info_then port phy flx (told_activity port link_info_of block.old step) }
    {
        match step {
            Step::Ask(job, s) => Step::Ask(job, SetupFirmware::Info(phy, flx, s)),
            Step::Done(Err(e)) => Step::Done(Err(e)),
            Step::Done(Ok(out)) => SetupFirmware::info(port, phy, flx, block, out),
        }
    }

    #[tactic(auto, using(hardware::proofs::Laws::then_assoc))]
    fn link(
        port: Port,
        phy: FirmwarePhy,
        flx: u32,
        block: &mut [u32; 80],
        out: Words,
    ) -> Step<Job, SetupFirmware, Result<FirmwareSetup, Error>>
        ensures { told_firmware port block.new result ≡ link_done port phy flx out }
    {
        if out.w0 == 1 {
            return SetupFirmware::down(port, phy, Some(flx), block);
        }
        let s = begin(SetupFirmware::GET_LINK_INFO, 0, port, block);
        Step::Ask(Job::Command(6), SetupFirmware::Info(phy, flx, s))
    }

    #[tactic(auto, using(hardware::proofs::Laws::then_assoc))]
    fn after_link(
        port: Port,
        phy: FirmwarePhy,
        flx: u32,
        block: &mut [u32; 80],
        step: Step<Job, Activity, Result<Words, Error>>,
    ) -> Step<Job, SetupFirmware, Result<FirmwareSetup, Error>>
        ensures { told_firmware port block.new result ≡ link_then port phy flx (told_activity port (link_of phy) block.old step) }
    {
        match step {
            Step::Ask(job, s) => Step::Ask(job, SetupFirmware::Link(phy, flx, s)),
            Step::Done(Err(e)) => Step::Done(Err(e)),
            Step::Done(Ok(out)) => SetupFirmware::link(port, phy, flx, block, out),
        }
    }

    #[tactic(auto, using(hardware::proofs::Laws::then_assoc))]
    fn after_internal(
        port: Port,
        phy: FirmwarePhy,
        block: &mut [u32; 80],
        step: Step<Job, SgmiiAn, Result<u32, Error>>,
    ) -> Step<Job, SetupFirmware, Result<FirmwareSetup, Error>>
        ensures { told_firmware port block.new result ≡ internal_then port phy (told_sgmii_an port block.old step) }
    {
        match step {
            Step::Ask(job, s) => Step::Ask(job, SetupFirmware::Internal(phy, s)),
            Step::Done(Err(e)) => Step::Done(Err(e)),
            Step::Done(Ok(flx)) => {
                let data = phy.speeds as u32 | FirmwarePlace::HP | FirmwarePlace::AN;
                let s = begin(FirmwarePlace::SETUP_LINK, data, port, block);
                Step::Ask(Job::Command(6), SetupFirmware::Link(phy, flx, s))
            }
        }
    }

    // One that is down already is not set up again.
    #[tactic(auto, unfolding(reference::specs::X553::setup_firmware))]
    fn free(
        port: Port,
        phy: FirmwarePhy,
        down: bool,
        block: &mut [u32; 80],
    ) -> Step<Job, SetupFirmware, Result<FirmwareSetup, Error>>
        ensures { told_firmware port block.new result ≡ setup_firmware port.pause port phy down }
    {
        if down {
            return SetupFirmware::down(port, phy, None, block);
        }
        let step = SgmiiAn::start(port);
        SetupFirmware::after_internal(port, phy, block, step)
    }

    fn after_mmngc(
        port: Port,
        phy: FirmwarePhy,
        down: bool,
        block: &mut [u32; 80],
        got: Result<u32, Error>,
    ) -> Step<Job, SetupFirmware, Result<FirmwareSetup, Error>>
        ensures { told_firmware port block.new result ≡ got_mmngc port phy down got }
    {
        match got {
            Err(e) => Step::Done(Err(e)),
            Ok(mmngc) => {
                if mmngc & 1 == 0 {
                    SetupFirmware::free(port, phy, down, block)
                } else {
                    SetupFirmware::set(port, phy, None, false)
                }
            }
        }
    }

    // Where the PHY was not reset, MMNGC is not read.
    pub fn start(
        managed: Managed,
        prepared: FirmwarePrepared,
    ) -> Step<Job, SetupFirmware, Result<FirmwareSetup, Error>>
        ensures { (b : List ℕ) → told_firmware managed.port b result ≡ prepared_of managed prepared }
    {
        if managed.veto || !prepared.reset {
            return SetupFirmware::set(managed.port, prepared.phy, None, false);
        }
        Step::Ask(
            Job::Read(Port::MMNGC),
            SetupFirmware::Mmngc(prepared.phy, prepared.down),
        )
    }

    #[tactic(auto, using(hardware::proofs::Laws::then_assoc))]
    pub fn next(
        self,
        port: Port,
        block: &mut [u32; 80],
        given: Ended<u32>,
    ) -> Step<Job, SetupFirmware, Result<FirmwareSetup, Error>>
        ensures { told_firmware port block.new result ≡ resume_firmware port self given.answer (take given.words block.old) }
    {
        match self {
            SetupFirmware::Mmngc(phy, down) => SetupFirmware::after_mmngc(
                port,
                phy,
                down,
                block,
                given.answer,
            ),
            SetupFirmware::Internal(phy, s) => {
                let step = s.next(port, given.answer);
                SetupFirmware::after_internal(port, phy, block, step)
            }
            SetupFirmware::Link(phy, flx, s) => {
                let data = phy.speeds as u32 | FirmwarePlace::HP | FirmwarePlace::AN;
                let link = asked(FirmwarePlace::SETUP_LINK, data);
                let step = s.next(link, port, block, given);
                SetupFirmware::after_link(port, phy, flx, block, step)
            }
            SetupFirmware::Info(phy, flx, s) => {
                let info = asked(SetupFirmware::GET_LINK_INFO, 0);
                let step = s.next(info, port, block, given);
                SetupFirmware::after_info(port, phy, flx, block, step)
            }
            SetupFirmware::Down(phy, internal, s) => {
                let down = asked(SetupFirmware::FORCE_LINK_DOWN, 1);
                let step = s.next(down, port, block, given);
                SetupFirmware::after_down(port, phy, internal, step)
            }
        }
    }
}
