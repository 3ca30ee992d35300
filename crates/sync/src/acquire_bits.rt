// `acquire_bits` of sync.rs, suspended at an action.
ghost use Rattle.std.specs.Prelude.{◌≡◌, true};
ghost use Rattle.reference.specs.Sync.{acquire_bits_times};
ghost use Rattle.sync.specs.Lock.{told_lock, told_unlock};
ghost use Rattle.sync.specs.Bits.{told_mux, resume_acquire, told_acquire, acquire_after_lock, acquire_read, acquire_ended, acquire_ending, acquire_held};

use crate::lock::{Lock, Unlock};
use crate::set_mux::SetMux;
use drive::Host;
use drive::machine::{Machine, Runs, run, single};
use hardware::{Action, Error, Regs, Reply, Step, checked, done};
use words::semaphore::Bits;

// What acquire_bits was given: the register pair, the bits, and whether the mux is switched.
#[derive(Clone, Copy)]
pub struct Taking {
    pub regs: Regs,
    pub want: Bits,
    pub mux: bool,
}

// The first number is how many tries are left after this one.
#[derive(Clone, Copy)]
pub enum AcquireBits {
    Locking(u32, Lock),
    Reading(u32),
    Writing,
    // the last unlock, and what is answered if it succeeds
    Ending(Result<(), Error>, Unlock),
    // tries left, held
    Held(u32, u32, Unlock),
    Waiting(u32, u32),
    Switching(SetMux),
}

impl AcquireBits {
    #[tactic(auto, using(hardware::proofs::Laws::carry_more, hardware::proofs::Laws::carry_none, hardware::proofs::Laws::then_said))]
    fn again(taking: Taking, left: u32, held: u32) -> Step<Action, AcquireBits, Result<(), Error>>
        ensures { told_acquire taking result ≡ acquire_bits_times taking.regs taking.want taking.mux left held }
    {
        if left == 0 {
            Step::Done(Err(Error::Semaphore { held }))
        } else {
            AcquireBits::after_lock(taking, left - 1, Lock::start(taking.regs))
        }
    }

    fn after_lock(
        taking: Taking,
        left: u32,
        step: Step<Action, Lock, Result<(), Error>>,
    ) -> Step<Action, AcquireBits, Result<(), Error>>
        ensures { told_acquire taking result ≡ acquire_after_lock taking left (told_lock taking.regs step) }
    {
        match step {
            Step::Ask(a, s) => Step::Ask(a, AcquireBits::Locking(left, s)),
            Step::Done(Ok(())) => Step::Ask(
                Action::Read(taking.regs.sync),
                AcquireBits::Reading(left),
            ),
            Step::Done(Err(e)) => Step::Done(Err(e)),
        }
    }

    fn read(
        taking: Taking,
        left: u32,
        word: Result<u32, Error>,
    ) -> Step<Action, AcquireBits, Result<(), Error>>
        ensures { told_acquire taking result ≡ acquire_read taking left word }
    {
        match word {
            Err(e) => AcquireBits::ending(taking, Err(e), Unlock::start(taking.regs)),
            Ok(value) => {
                let held = value & (taking.want.sw | taking.want.fw | taking.want.hw);
                if held == 0 {
                    Step::Ask(
                        Action::Write(taking.regs.sync, value | taking.want.sw),
                        AcquireBits::Writing,
                    )
                } else {
                    AcquireBits::held(taking, left, held, Unlock::start(taking.regs))
                }
            }
        }
    }

    // The bits are written, or the read failed.
    fn ended(taking: Taking, res: Result<(), Error>) -> Step<Action, AcquireBits, Result<(), Error>>
        ensures { told_acquire taking result ≡ acquire_ended taking.mux res }
    {
        match res {
            Err(e) => Step::Done(Err(e)),
            Ok(()) => {
                if taking.mux {
                    AcquireBits::after_mux(taking, SetMux::start(true))
                } else {
                    Step::Done(Ok(()))
                }
            }
        }
    }

    fn after_mux(
        taking: Taking,
        step: Step<Action, SetMux, Result<(), Error>>,
    ) -> Step<Action, AcquireBits, Result<(), Error>>
        ensures { told_acquire taking result ≡ told_mux true step }
    {
        match step {
            Step::Ask(a, s) => Step::Ask(a, AcquireBits::Switching(s)),
            Step::Done(r) => Step::Done(r),
        }
    }

    // Unlock, then go on with `result`; an error of the unlock comes first.
    fn ending(
        taking: Taking,
        res: Result<(), Error>,
        step: Step<Action, Unlock, Result<(), Error>>,
    ) -> Step<Action, AcquireBits, Result<(), Error>>
        ensures { told_acquire taking result ≡ acquire_ending taking.mux res (told_unlock taking.regs step) }
    {
        match step {
            Step::Ask(a, s) => Step::Ask(a, AcquireBits::Ending(res, s)),
            Step::Done(Ok(())) => AcquireBits::ended(taking, res),
            Step::Done(Err(e)) => Step::Done(Err(e)),
        }
    }

    fn held(
        taking: Taking,
        left: u32,
        held: u32,
        step: Step<Action, Unlock, Result<(), Error>>,
    ) -> Step<Action, AcquireBits, Result<(), Error>>
        ensures { told_acquire taking result ≡ acquire_held taking left held (told_unlock taking.regs step) }
    {
        match step {
            Step::Ask(a, s) => Step::Ask(a, AcquireBits::Held(left, held, s)),
            Step::Done(Ok(())) => Step::Ask(Action::Wait(5000), AcquireBits::Waiting(left, held)),
            Step::Done(Err(e)) => Step::Done(Err(e)),
        }
    }
}

impl Machine for AcquireBits {
    type Context = Taking;

    type Answer = Result<(), Error>;

    ghost resume = { resume_acquire };

    #[tactic(auto, using(hardware::proofs::Laws::then_said))]
    fn next(self, taking: Taking, reply: Reply) -> Step<Action, AcquireBits, Result<(), Error>> {
        match self {
            AcquireBits::Locking(left, s) => AcquireBits::after_lock(
                taking,
                left,
                s.next(taking.regs, reply),
            ),
            AcquireBits::Reading(left) => AcquireBits::read(taking, left, checked(reply)),
            AcquireBits::Writing => AcquireBits::ending(
                taking,
                done(reply),
                Unlock::start(taking.regs),
            ),
            AcquireBits::Ending(result, s) => AcquireBits::ending(
                taking,
                result,
                s.next(taking.regs, reply),
            ),
            AcquireBits::Held(left, held, s) => AcquireBits::held(
                taking,
                left,
                held,
                s.next(taking.regs, reply),
            ),
            AcquireBits::Waiting(left, held) => AcquireBits::again(taking, left, held),
            AcquireBits::Switching(s) => AcquireBits::after_mux(taking, s.next(true, reply)),
        }
    }
}

impl Runs for AcquireBits {
    fn advance(
        self,
        a: Action,
        taking: Taking,
        h: &mut Host,
        replies: &[u32],
        t: &mut [u32],
    ) -> Step<Action, AcquireBits, Result<(), Error>> {
        match self {
            AcquireBits::Locking(left, s) => {
                let step = run(s, a, taking.regs, h, replies, t);
                AcquireBits::after_lock(taking, left, step)
            }
            AcquireBits::Ending(result, s) => {
                let step = run(s, a, taking.regs, h, replies, t);
                AcquireBits::ending(taking, result, step)
            }
            AcquireBits::Held(left, held, s) => {
                let step = run(s, a, taking.regs, h, replies, t);
                AcquireBits::held(taking, left, held, step)
            }
            _ => single(self, a, taking, h, replies, t),
        }
    }
}
