// `release_bits` of sync.rs, suspended at an action.
ghost use Rattle.std.specs.Prelude.{◌≡◌, false};
ghost use Rattle.reference.specs.Sync.{release_bits_locked, release_bits_with};
ghost use Rattle.sync.specs.Lock.{told_clear, told_lock, told_unlock};
ghost use Rattle.sync.specs.Bits.{told_mux, resume_release, told_release, release_after_mux, release_after_lock, release_after_clear, release_after_unlock, release_settle};

use crate::lock::{Clear, Lock, Unlock};
use crate::set_mux::SetMux;
use drive::Host;
use drive::machine::{Machine, Runs, run, single};
use hardware::{Action, Error, Regs, Reply, Step};

// What release_bits was given: the register pair, the bits to clear, and the wait after them.
#[derive(Clone, Copy)]
pub struct Giving {
    pub regs: Regs,
    pub sw: u32,
    pub micros: u32,
}

#[derive(Clone, Copy)]
pub enum ReleaseBits {
    Switching(SetMux),
    Locking(Lock),
    Clearing(Clear),
    // with what clearing the bits gave
    Unlocking(Result<(), Error>, Unlock),
    Waiting,
}

impl ReleaseBits {
    fn after_mux(
        giving: Giving,
        step: Step<Action, SetMux, Result<(), Error>>,
    ) -> Step<Action, ReleaseBits, Result<(), Error>>
        ensures { told_release giving result ≡ release_after_mux giving (told_mux false step) }
    {
        match step {
            Step::Ask(a, s) => Step::Ask(a, ReleaseBits::Switching(s)),
            Step::Done(Ok(())) => ReleaseBits::locking(giving),
            Step::Done(Err(e)) => Step::Done(Err(e)),
        }
    }

    // The mux is back, or there is none.
    #[tactic(auto, using(hardware::proofs::Laws::then_said))]
    fn locking(giving: Giving) -> Step<Action, ReleaseBits, Result<(), Error>>
        ensures { told_release giving result ≡ release_bits_locked giving.regs giving.sw giving.micros }
    {
        ReleaseBits::after_lock(giving, Lock::start(giving.regs))
    }

    fn after_lock(
        giving: Giving,
        step: Step<Action, Lock, Result<(), Error>>,
    ) -> Step<Action, ReleaseBits, Result<(), Error>>
        ensures { told_release giving result ≡ release_after_lock giving (told_lock giving.regs step) }
    {
        match step {
            Step::Ask(a, s) => Step::Ask(a, ReleaseBits::Locking(s)),
            Step::Done(Ok(())) => ReleaseBits::after_clear(
                giving,
                Clear::start(giving.regs.sync, giving.sw),
            ),
            Step::Done(Err(e)) => Step::Done(Err(e)),
        }
    }

    fn after_clear(
        giving: Giving,
        step: Step<Action, Clear, Result<(), Error>>,
    ) -> Step<Action, ReleaseBits, Result<(), Error>>
        ensures { told_release giving result ≡ release_after_clear giving.regs giving.micros (told_clear giving.regs.sync giving.sw step) }
    {
        match step {
            Step::Ask(a, s) => Step::Ask(a, ReleaseBits::Clearing(s)),
            Step::Done(cleared) => ReleaseBits::after_unlock(
                giving,
                cleared,
                Unlock::start(giving.regs),
            ),
        }
    }

    fn after_unlock(
        giving: Giving,
        cleared: Result<(), Error>,
        step: Step<Action, Unlock, Result<(), Error>>,
    ) -> Step<Action, ReleaseBits, Result<(), Error>>
        ensures { told_release giving result ≡ release_after_unlock giving.micros cleared (told_unlock giving.regs step) }
    {
        match step {
            Step::Ask(a, s) => Step::Ask(a, ReleaseBits::Unlocking(cleared, s)),
            Step::Done(Ok(())) => ReleaseBits::settle(giving, cleared),
            Step::Done(Err(e)) => Step::Done(Err(e)),
        }
    }

    fn settle(
        giving: Giving,
        cleared: Result<(), Error>,
    ) -> Step<Action, ReleaseBits, Result<(), Error>>
        ensures { told_release giving result ≡ release_settle giving.micros cleared }
    {
        match cleared {
            Err(e) => Step::Done(Err(e)),
            Ok(()) => Step::Ask(Action::Wait(giving.micros), ReleaseBits::Waiting),
        }
    }

    pub fn start(giving: Giving, mux: bool) -> Step<Action, ReleaseBits, Result<(), Error>>
        ensures { told_release giving result ≡ release_bits_with giving.regs giving.sw giving.micros mux }
    {
        if mux {
            ReleaseBits::after_mux(giving, SetMux::start(false))
        } else {
            ReleaseBits::locking(giving)
        }
    }
}

impl Machine for ReleaseBits {
    type Context = Giving;

    type Answer = Result<(), Error>;

    ghost resume = { resume_release };

    #[tactic(auto, using(hardware::proofs::Laws::then_said))]
    fn next(self, giving: Giving, reply: Reply) -> Step<Action, ReleaseBits, Result<(), Error>> {
        match self {
            ReleaseBits::Switching(s) => ReleaseBits::after_mux(giving, s.next(false, reply)),
            ReleaseBits::Locking(s) => ReleaseBits::after_lock(giving, s.next(giving.regs, reply)),
            ReleaseBits::Clearing(s) => ReleaseBits::after_clear(
                giving,
                s.next(giving.regs.sync, giving.sw, reply),
            ),
            ReleaseBits::Unlocking(cleared, s) => ReleaseBits::after_unlock(
                giving,
                cleared,
                s.next(giving.regs, reply),
            ),
            ReleaseBits::Waiting => Step::Done(Ok(())),
        }
    }
}

impl Runs for ReleaseBits {
    fn advance(
        self,
        a: Action,
        giving: Giving,
        h: &mut Host,
        replies: &[u32],
        t: &mut [u32],
    ) -> Step<Action, ReleaseBits, Result<(), Error>> {
        match self {
            ReleaseBits::Locking(s) => {
                let step = run(s, a, giving.regs, h, replies, t);
                ReleaseBits::after_lock(giving, step)
            }
            ReleaseBits::Unlocking(cleared, s) => {
                let step = run(s, a, giving.regs, h, replies, t);
                ReleaseBits::after_unlock(giving, cleared, step)
            }
            _ => single(self, a, giving, h, replies, t),
        }
    }
}
