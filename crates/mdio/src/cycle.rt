// mdio.rs's `cycle`: a command is written to MSCA, which is then polled until the command is done.
ghost use Rattle.std.specs.Prelude.{◌≡◌};
ghost use Rattle.hardware.specs.Talk.{ask};
ghost use Rattle.mdio.specs.declared.cycle.Cycle.TheVariants as cyclev;
ghost use Rattle.reference.specs.Mdio.{cycle, cycle_times};
ghost use Rattle.mdio.specs.Cycle.{resume_cycle, told_cycle};

use drive::machine::{Machine, Runs};
use hardware::{Action, Error, Reply, Step, checked, done};
use words::msca::Command;

// The number is how many reads are left after this one.
#[derive(Clone, Copy)]
pub enum Cycle {
    Starting,
    Waiting(u32),
    Reading(u32),
}

impl Cycle {
    pub const MSCA: u32 = 0x425c;

    #[tactic(auto, using(hardware::proofs::Laws::carry_more, hardware::proofs::Laws::carry_none))]
    fn again(left: u32, last: u32) -> Step<Action, Cycle, Result<(), Error>>
        ensures { told_cycle result ≡ cycle_times left last }
    {
        if left == 0 {
            Step::Done(Err(Error::Timeout {
                register: Cycle::MSCA,
                mask: Command::GO,
                expected: 0,
                last,
            }))
        } else {
            Step::Ask(Action::Wait(10), Cycle::Waiting(left - 1))
        }
    }

    // Its first action, behind which it stands at `Starting`.
    #[tactic(auto, unfolding(reference::specs::Mdio::cycle))]
    pub fn first(command: u32) -> Action
        ensures { cycle command ≡ ask result (λ x. resume_cycle cyclev.Starting x) }
    {
        Action::Write(Cycle::MSCA, command | Command::GO)
    }

    pub fn start(command: u32) -> Step<Action, Cycle, Result<(), Error>>
        ensures { told_cycle result ≡ cycle command }
    {
        Step::Ask(Cycle::first(command), Cycle::Starting)
    }
}

impl Machine for Cycle {
    type Context = ();

    type Answer = Result<(), Error>;

    ghost resume = { λ _. resume_cycle };

    fn next(self, _context: (), reply: Reply) -> Step<Action, Cycle, Result<(), Error>> {
        match self {
            Cycle::Starting => match done(reply) {
                Err(e) => Step::Done(Err(e)),
                Ok(()) => Cycle::again(100, 0),
            },
            Cycle::Waiting(left) => Step::Ask(Action::Read(Cycle::MSCA), Cycle::Reading(left)),
            Cycle::Reading(left) => match checked(reply) {
                Err(e) => Step::Done(Err(e)),
                Ok(last) => {
                    if last & Command::GO == 0 {
                        Step::Done(Ok(()))
                    } else {
                        Cycle::again(left, last)
                    }
                }
            },
        }
    }
}

impl Runs for Cycle {}
