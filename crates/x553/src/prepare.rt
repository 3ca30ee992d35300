// x553.rs's `prepare_firmware`: the firmware's PHY identified, then, unless there is a veto, reset and set up.
ghost use Rattle.std.specs.Prelude.{ℕ, true, List, ◌≡◌, take};
ghost use Rattle.activity.specs.Activity.{told_activity};
ghost use Rattle.reference.specs.Hostif.{phy_activity};
ghost use Rattle.reference.specs.X553.{phy_info, prepare_info, prepare_firmware};
ghost use Rattle.x553.specs.Prepare.{asked_with, begun_with, info_of, asked_of, info_then, place_at, place_then, place_done, resume_prepare, told_prepare};

use activity::Activity;
use answers::{FirmwarePhy, Words};
use arguments::Asked;
use hardware::{Error, Managed, Port, Step};
use jobs::job::{Ended, Job};

// Which activity after the first.
#[derive(Clone, Copy)]
pub enum FirmwarePlace {
    Reset,
    Init,
    Setup,
}

#[derive(Clone, Copy)]
pub enum PrepareFirmware {
    Info(Activity),
    Then(FirmwarePlace, FirmwarePhy, Activity),
}

// Prepared::Firmware: whether the PHY was reset, and whether it then said that it is down.
#[derive(Clone, Copy)]
pub struct FirmwarePrepared {
    pub phy: FirmwarePhy,
    pub reset: bool,
    pub down: bool,
}

// An activity with one word of data.
pub fn asked(activity: u16, word: u32) -> Asked
    ensures { asked_with activity word ≡ result }
{
    let data = Words {
        w0: word,
        w1: 0,
        w2: 0,
        w3: 0,
    };
    Asked { activity, data }
}

// The same, at its first job.
pub fn begin(activity: u16, word: u32, port: Port, block: &mut [u32; 80]) -> Activity
    ensures { begun_with port activity word block.new result ≡ phy_activity port activity word 0 0 0 }
{
    Activity::first(asked(activity, word), port, block)
}

// GET_PHY_INFO's answer.
#[tactic(auto, unfolding(reference::specs::X553::phy_info))]
fn phy_info(info: Words) -> FirmwarePhy
    ensures { phy_info info ≡ result }
{
    FirmwarePhy {
        id: info.w0 & 0xffff_0000 | info.w1 & 0xfff0,
        speeds: (info.w0 & 0xfff) as u16,
    }
}

impl FirmwarePlace {
    pub const INIT_PHY: u16 = 1;

    pub const SETUP_LINK: u16 = 2;

    pub const PHY_SW_RESET: u16 = 5;

    pub const GET_PHY_INFO: u16 = 7;

    // SETUP_LINK's data beside the speeds: high power, auto-negotiation.
    pub const HP: u32 = 0x8_0000;

    pub const AN: u32 = 0x40_0000;

    fn asked(self, phy: FirmwarePhy) -> Asked
        ensures { asked_of self phy ≡ result }
    {
        match self {
            FirmwarePlace::Reset => asked(FirmwarePlace::PHY_SW_RESET, 0),
            FirmwarePlace::Init => asked(FirmwarePlace::INIT_PHY, 0),
            FirmwarePlace::Setup => asked(
                FirmwarePlace::SETUP_LINK,
                phy.speeds as u32 | FirmwarePlace::HP | FirmwarePlace::AN,
            ),
        }
    }
}

impl PrepareFirmware {
    #[tactic(auto, using(hardware::proofs::Laws::then_assoc))]
    fn begin(
        place: FirmwarePlace,
        phy: FirmwarePhy,
        managed: Managed,
        block: &mut [u32; 80],
    ) -> Step<Job, PrepareFirmware, Result<FirmwarePrepared, Error>>
        ensures { told_prepare managed block.new result ≡ place_at managed.port place phy }
    {
        let s = Activity::first(place.asked(phy), managed.port, block);
        Step::Ask(Job::Command(6), PrepareFirmware::Then(place, phy, s))
    }

    fn then(
        place: FirmwarePlace,
        phy: FirmwarePhy,
        managed: Managed,
        block: &mut [u32; 80],
        out: Words,
    ) -> Step<Job, PrepareFirmware, Result<FirmwarePrepared, Error>>
        ensures { told_prepare managed block.new result ≡ place_done managed.port place phy out }
    {
        match place {
            FirmwarePlace::Reset => PrepareFirmware::begin(
                FirmwarePlace::Init,
                phy,
                managed,
                block,
            ),
            FirmwarePlace::Init => PrepareFirmware::begin(
                FirmwarePlace::Setup,
                phy,
                managed,
                block,
            ),
            FirmwarePlace::Setup => Step::Done(Ok(FirmwarePrepared {
                phy,
                reset: true,
                down: out.w0 == 1,
            })),
        }
    }

    #[tactic(auto, using(hardware::proofs::Laws::then_assoc))]
    fn after_place(
        place: FirmwarePlace,
        phy: FirmwarePhy,
        managed: Managed,
        block: &mut [u32; 80],
        step: Step<Job, Activity, Result<Words, Error>>,
    ) -> Step<Job, PrepareFirmware, Result<FirmwarePrepared, Error>>
        ensures { told_prepare managed block.new result ≡ place_then managed.port place phy (told_activity managed.port (asked_of place phy) block.old step) }
    {
        match step {
            Step::Ask(job, s) => Step::Ask(job, PrepareFirmware::Then(place, phy, s)),
            Step::Done(Err(e)) => Step::Done(Err(e)),
            Step::Done(Ok(out)) => PrepareFirmware::then(place, phy, managed, block, out),
        }
    }

    // No PHY has an id of 0 or 0xfffffff0.
    fn info(
        managed: Managed,
        block: &mut [u32; 80],
        out: Words,
    ) -> Step<Job, PrepareFirmware, Result<FirmwarePrepared, Error>>
        ensures { told_prepare managed block.new result ≡ prepare_info managed.port managed.veto (phy_info out) }
    {
        let phy = phy_info(out);
        if phy.id == 0 {
            return Step::Done(Err(Error::NoPhy));
        }
        if phy.id == 0xffff_fff0 {
            return Step::Done(Err(Error::NoPhy));
        }
        if managed.veto {
            return Step::Done(Ok(FirmwarePrepared {
                phy,
                reset: false,
                down: false,
            }));
        }
        PrepareFirmware::begin(FirmwarePlace::Reset, phy, managed, block)
    }

    #[tactic(auto, using(hardware::proofs::Laws::then_assoc))]
    fn after_info(
        managed: Managed,
        block: &mut [u32; 80],
        step: Step<Job, Activity, Result<Words, Error>>,
    ) -> Step<Job, PrepareFirmware, Result<FirmwarePrepared, Error>>
        ensures { told_prepare managed block.new result ≡ info_then managed (told_activity managed.port info_of block.old step) }
    {
        match step {
            Step::Ask(job, s) => Step::Ask(job, PrepareFirmware::Info(s)),
            Step::Done(Err(e)) => Step::Done(Err(e)),
            Step::Done(Ok(out)) => PrepareFirmware::info(managed, block, out),
        }
    }

    #[tactic(auto, using(hardware::proofs::Laws::then_assoc), unfolding(reference::specs::X553::prepare_firmware))]
    pub fn start(
        managed: Managed,
        block: &mut [u32; 80],
    ) -> Step<Job, PrepareFirmware, Result<FirmwarePrepared, Error>>
        ensures { told_prepare managed block.new result ≡ prepare_firmware managed.port managed.veto }
    {
        let s = begin(FirmwarePlace::GET_PHY_INFO, 0, managed.port, block);
        Step::Ask(Job::Command(6), PrepareFirmware::Info(s))
    }

    #[tactic(auto, using(hardware::proofs::Laws::then_assoc))]
    pub fn next(
        self,
        managed: Managed,
        block: &mut [u32; 80],
        given: Ended<u32>,
    ) -> Step<Job, PrepareFirmware, Result<FirmwarePrepared, Error>>
        ensures { told_prepare managed block.new result ≡ resume_prepare managed self given.answer (take given.words block.old) }
    {
        match self {
            PrepareFirmware::Info(s) => {
                let info = asked(FirmwarePlace::GET_PHY_INFO, 0);
                let step = s.next(info, managed.port, block, given);
                PrepareFirmware::after_info(managed, block, step)
            }
            PrepareFirmware::Then(place, phy, s) => {
                let step = s.next(place.asked(phy), managed.port, block, given);
                PrepareFirmware::after_place(place, phy, managed, block, step)
            }
        }
    }
}
