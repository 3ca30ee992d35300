// x552.rs's `iosf_idle`: CTRL is read until it is not busy. All ones is busy, so the reads are raw.
ghost use Rattle.std.specs.Prelude.{◌≡◌};
ghost use Rattle.reference.specs.X552.{iosf_idle, iosf_times};
ghost use Rattle.sideband.specs.Idle.{resume_idle, told_idle};

use drive::machine::{Machine, Runs};
use hardware::{Action, Error, Reply, Step, raw};

#[derive(Clone, Copy)]
pub enum Idle {
    // reads left after this one
    Reading(u32),
    // reads left, the last CTRL
    Waiting(u32, u32),
}

impl Idle {
    pub const CTRL: u32 = 0x11144;

    pub const BUSY: u32 = 0x8000_0000;

    #[tactic(auto, using(hardware::proofs::Laws::carry_more, hardware::proofs::Laws::carry_none))]
    fn again(pause: u32, left: u32, last: u32) -> Step<Action, Idle, Result<u32, Error>>
        ensures { told_idle pause result ≡ iosf_times pause left last }
    {
        if left == 0 {
            Step::Done(Err(Error::Timeout {
                register: Idle::CTRL,
                mask: Idle::BUSY,
                expected: 0,
                last,
            }))
        } else {
            Step::Ask(Action::Read(Idle::CTRL), Idle::Reading(left - 1))
        }
    }

    #[tactic(auto, unfolding(reference::specs::X552::iosf_idle))]
    pub fn start(pause: u32) -> Step<Action, Idle, Result<u32, Error>>
        ensures { told_idle pause result ≡ iosf_idle pause }
    {
        Idle::again(pause, 100, 0)
    }
}

impl Machine for Idle {
    // the wait between two reads
    type Context = u32;

    // the CTRL that was not busy
    type Answer = Result<u32, Error>;

    ghost resume = { resume_idle };

    fn next(self, pause: u32, reply: Reply) -> Step<Action, Idle, Result<u32, Error>> {
        match self {
            Idle::Reading(left) => match raw(reply) {
                Err(e) => Step::Done(Err(e)),
                Ok(last) => {
                    if last & Idle::BUSY == 0 {
                        Step::Done(Ok(last))
                    } else {
                        Step::Ask(Action::Wait(pause), Idle::Waiting(left, last))
                    }
                }
            },
            Idle::Waiting(left, last) => Idle::again(pause, left, last),
        }
    }
}

impl Runs for Idle {}
