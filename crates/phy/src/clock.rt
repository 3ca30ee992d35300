// The MDIO clock: x552.rs's `slow_mdio` and x553.rs's `set_mdio_speed`.
ghost use Rattle.std.specs.Prelude.{ℕ, List, ◌≡◌};
ghost use Rattle.reference.specs.X552.{mdcspd, mdio_clock};
ghost use Rattle.reference.specs.X553.{firmware_phy, slow_device};
ghost use Rattle.phy.specs.Clock.{speed_of, resume_clock, told_clock};

use hardware::{Error, Family, Port, Step};
use jobs::job::Job;

#[derive(Clone, Copy)]
pub enum Clock {
    Reading,
    Writing,
}

// x553.rs's `firmware_phy`.
fn firmware_phy(device: u16) -> bool
    ensures { firmware_phy device ≡ result }
{
    device == 0x15e4 || device == 0x15e5
}

fn slow_device(device: u16) -> bool
    ensures { slow_device device ≡ result }
{
    matches!(device, 0x15c6 | 0x15c7 | 0x15c8 | 0x15ce)
}

impl Clock {
    pub const MDCSPD: u32 = 0x1_0000;

    // What the clock of a port is set to: whether fast, or nothing.
    pub fn of(port: Port) -> Option<bool>
        ensures { speed_of port ≡ result }
    {
        match port.family {
            Family::X552 => {
                if port.device == 0x15ad {
                    Some(false)
                } else {
                    None
                }
            }
            Family::X553 => {
                if slow_device(port.device) {
                    Some(false)
                } else if firmware_phy(port.device) {
                    Some(true)
                } else {
                    None
                }
            }
        }
    }

    #[tactic(auto, unfolding(reference::specs::X552::mdcspd))]
    fn set(fast: bool, hlreg0: u32) -> u32
        ensures { mdcspd fast hlreg0 ≡ result }
    {
        if fast {
            hlreg0 | Clock::MDCSPD
        } else {
            hlreg0 & !Clock::MDCSPD
        }
    }

    pub fn start(fast: bool, port: Port) -> Step<Job, Clock, Result<(), Error>>
        ensures { (b : List ℕ) → told_clock port fast b result ≡ mdio_clock fast }
    {
        Step::Ask(Job::Read(Port::HLREG0), Clock::Reading)
    }

    pub fn next(
        self,
        fast: bool,
        port: Port,
        got: Result<u32, Error>,
    ) -> Step<Job, Clock, Result<(), Error>>
        ensures { (b : List ℕ) → told_clock port fast b result ≡ resume_clock fast self got }
    {
        match (self, got) {
            (_, Err(e)) => Step::Done(Err(e)),
            (Clock::Reading, Ok(hlreg0)) => {
                let job = Job::Write(Port::HLREG0, Clock::set(fast, hlreg0));
                Step::Ask(job, Clock::Writing)
            }
            (Clock::Writing, Ok(_)) => Step::Done(Ok(())),
        }
    }
}
