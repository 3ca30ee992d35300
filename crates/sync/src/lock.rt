// The register semaphore: `smbi`, `clear`, `lock` and `unlock` of sync.rs, each suspended at an action.
ghost use Rattle.std.specs.Prelude.{◌≡◌};
ghost use Rattle.reference.specs.Sync.{smbi, smbi_times, clear, regsmp_times, lock, unlock};
ghost use Rattle.sync.specs.Lock.{resume_smbi, told_smbi, resume_clear, told_clear, resume_lock, told_lock, lock_after_smbi, lock_after_clear, lock_read, resume_unlock, told_unlock, unlock_after_sync, unlock_after_smbi};

use drive::Host;
use drive::machine::{Machine, Runs, run, single};
use hardware::{Action, Error, Port, Regs, Reply, Step, checked, done};

// smbi. The number is how many reads are left after this one. A read that finds SMBI clear takes it.
#[derive(Clone, Copy)]
pub enum Smbi {
    Reading(u32),
    Waiting(u32),
}

impl Smbi {
    #[tactic(auto, using(hardware::proofs::Laws::times_more, hardware::proofs::Laws::times_none))]
    fn again(swsm: u32, left: u32) -> Step<Action, Smbi, Result<(), Error>>
        ensures { told_smbi swsm result ≡ smbi_times swsm left }
    {
        if left == 0 {
            Step::Done(Err(Error::Semaphore { held: Lock::SMBI }))
        } else {
            Step::Ask(Action::Read(swsm), Smbi::Reading(left - 1))
        }
    }

    pub fn start(swsm: u32) -> Step<Action, Smbi, Result<(), Error>>
        ensures { told_smbi swsm result ≡ smbi swsm }
    {
        Smbi::again(swsm, 2000)
    }
}

impl Machine for Smbi {
    type Context = u32;

    type Answer = Result<(), Error>;

    ghost resume = { resume_smbi };

    fn next(self, swsm: u32, reply: Reply) -> Step<Action, Smbi, Result<(), Error>> {
        match self {
            Smbi::Reading(left) => match checked(reply) {
                Err(e) => Step::Done(Err(e)),
                Ok(value) => {
                    if value & Lock::SMBI == 0 {
                        Step::Done(Ok(()))
                    } else {
                        Step::Ask(Action::Wait(50), Smbi::Waiting(left))
                    }
                }
            },
            Smbi::Waiting(left) => Smbi::again(swsm, left),
        }
    }
}

impl Runs for Smbi {}

// clear: read, then write with some bits clear.
#[derive(Clone, Copy)]
pub enum Clear {
    Reading,
    Writing,
}

impl Clear {
    pub fn start(reg: u32, bits: u32) -> Step<Action, Clear, Result<(), Error>>
        ensures { told_clear reg bits result ≡ clear reg bits }
    {
        Step::Ask(Action::Read(reg), Clear::Reading)
    }

    pub fn next(self, reg: u32, bits: u32, reply: Reply) -> Step<Action, Clear, Result<(), Error>>
        ensures { told_clear reg bits result ≡ resume_clear reg bits self reply }
    {
        match self {
            Clear::Reading => match checked(reply) {
                Err(e) => Step::Done(Err(e)),
                Ok(value) => Step::Ask(Action::Write(reg, value & !bits), Clear::Writing),
            },
            Clear::Writing => Step::Done(done(reply)),
        }
    }
}

// lock: SMBI, then REGSMP. The number is how many reads are left after this one.
#[derive(Clone, Copy)]
pub enum Lock {
    Smbi(Smbi),
    Reading(u32),
    Waiting(u32),
    Clearing(Clear),
    Flushing,
}

impl Lock {
    pub const SMBI: u32 = 1;

    pub const REGSMP: u32 = 0x8000_0000;

    // at its first action, a read of SWSM
    pub const FIRST: Lock = Lock::Smbi(Smbi::Reading(1999));

    #[tactic(auto, using(hardware::proofs::Laws::times_more, hardware::proofs::Laws::times_none))]
    fn again(regs: Regs, left: u32) -> Step<Action, Lock, Result<(), Error>>
        ensures { told_lock regs result ≡ regsmp_times regs left }
    {
        if left == 0 {
            Lock::after_clear(regs, Clear::start(regs.swsm, Lock::SMBI))
        } else {
            Step::Ask(Action::Read(regs.sync), Lock::Reading(left - 1))
        }
    }

    fn after_smbi(
        regs: Regs,
        step: Step<Action, Smbi, Result<(), Error>>,
    ) -> Step<Action, Lock, Result<(), Error>>
        ensures { told_lock regs result ≡ lock_after_smbi regs (told_smbi regs.swsm step) }
    {
        match step {
            Step::Ask(a, s) => Step::Ask(a, Lock::Smbi(s)),
            Step::Done(Ok(())) => Lock::again(regs, 2000),
            Step::Done(Err(e)) => Step::Done(Err(e)),
        }
    }

    fn after_clear(
        regs: Regs,
        step: Step<Action, Clear, Result<(), Error>>,
    ) -> Step<Action, Lock, Result<(), Error>>
        ensures { told_lock regs result ≡ lock_after_clear (told_clear regs.swsm 1 step) }
    {
        match step {
            Step::Ask(a, s) => Step::Ask(a, Lock::Clearing(s)),
            Step::Done(Ok(())) => Step::Ask(Action::Read(Port::STATUS), Lock::Flushing),
            Step::Done(Err(e)) => Step::Done(Err(e)),
        }
    }

    fn read(
        regs: Regs,
        left: u32,
        word: Result<u32, Error>,
    ) -> Step<Action, Lock, Result<(), Error>>
        ensures { told_lock regs result ≡ lock_read regs left word }
    {
        match word {
            Err(e) => Step::Done(Err(e)),
            Ok(value) => {
                if value & Lock::REGSMP == 0 {
                    Step::Done(Ok(()))
                } else {
                    Step::Ask(Action::Wait(50), Lock::Waiting(left))
                }
            }
        }
    }

    #[tactic(auto, using(hardware::proofs::Laws::then_said))]
    pub fn start(regs: Regs) -> Step<Action, Lock, Result<(), Error>>
        ensures { told_lock regs result ≡ lock regs }
    {
        Lock::after_smbi(regs, Smbi::start(regs.swsm))
    }
}

impl Machine for Lock {
    type Context = Regs;

    type Answer = Result<(), Error>;

    ghost resume = { resume_lock };

    #[tactic(auto, using(hardware::proofs::Laws::then_said))]
    fn next(self, regs: Regs, reply: Reply) -> Step<Action, Lock, Result<(), Error>> {
        match self {
            Lock::Smbi(s) => Lock::after_smbi(regs, s.next(regs.swsm, reply)),
            Lock::Reading(left) => Lock::read(regs, left, checked(reply)),
            Lock::Waiting(left) => Lock::again(regs, left),
            Lock::Clearing(s) => Lock::after_clear(regs, s.next(regs.swsm, Lock::SMBI, reply)),
            Lock::Flushing => {
                let failed = Err(Error::Semaphore { held: Lock::REGSMP });
                Step::Done(done(reply).and(failed))
            }
        }
    }
}

impl Runs for Lock {
    fn advance(
        self,
        a: Action,
        regs: Regs,
        h: &mut Host,
        replies: &[u32],
        t: &mut [u32],
    ) -> Step<Action, Lock, Result<(), Error>> {
        if let Lock::Smbi(s) = self {
            let step = run(s, a, regs.swsm, h, replies, t);
            return Lock::after_smbi(regs, step);
        }
        single(self, a, regs, h, replies, t)
    }
}

// unlock
#[derive(Clone, Copy)]
pub enum Unlock {
    Sync(Clear),
    Smbi(Clear),
    Flushing,
}

impl Unlock {
    fn after_sync(
        regs: Regs,
        step: Step<Action, Clear, Result<(), Error>>,
    ) -> Step<Action, Unlock, Result<(), Error>>
        ensures { told_unlock regs result ≡ unlock_after_sync regs (told_clear regs.sync 0x80000000 step) }
    {
        match step {
            Step::Ask(a, s) => Step::Ask(a, Unlock::Sync(s)),
            Step::Done(Ok(())) => Unlock::after_smbi(regs, Clear::start(regs.swsm, Lock::SMBI)),
            Step::Done(Err(e)) => Step::Done(Err(e)),
        }
    }

    fn after_smbi(
        regs: Regs,
        step: Step<Action, Clear, Result<(), Error>>,
    ) -> Step<Action, Unlock, Result<(), Error>>
        ensures { told_unlock regs result ≡ unlock_after_smbi (told_clear regs.swsm 1 step) }
    {
        match step {
            Step::Ask(a, s) => Step::Ask(a, Unlock::Smbi(s)),
            Step::Done(Ok(())) => Step::Ask(Action::Read(Port::STATUS), Unlock::Flushing),
            Step::Done(Err(e)) => Step::Done(Err(e)),
        }
    }

    pub fn start(regs: Regs) -> Step<Action, Unlock, Result<(), Error>>
        ensures { told_unlock regs result ≡ unlock regs }
    {
        Unlock::after_sync(regs, Clear::start(regs.sync, Lock::REGSMP))
    }
}

impl Machine for Unlock {
    type Context = Regs;

    type Answer = Result<(), Error>;

    ghost resume = { resume_unlock };

    #[tactic(auto, using(hardware::proofs::Laws::then_said))]
    fn next(self, regs: Regs, reply: Reply) -> Step<Action, Unlock, Result<(), Error>> {
        match self {
            Unlock::Sync(s) => Unlock::after_sync(regs, s.next(regs.sync, Lock::REGSMP, reply)),
            Unlock::Smbi(s) => Unlock::after_smbi(regs, s.next(regs.swsm, Lock::SMBI, reply)),
            Unlock::Flushing => Step::Done(done(reply)),
        }
    }
}

impl Runs for Unlock {}
