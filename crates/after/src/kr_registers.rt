// The operations of x552.rs that have more than one access of the KR registers.
ghost use Rattle.std.specs.Prelude.{ℕ, List, ◌≡◌};
ghost use Rattle.answers.specs.declared.Value.TheVariants as value;
ghost use Rattle.reference.specs.Out.{answer};
ghost use Rattle.kr.specs.Modify.{told_modify};
ghost use Rattle.kr.specs.Sequence.{told_sequence};
ghost use Rattle.after.specs.After.{after_word, told_after};
ghost use Rattle.after.specs.Kr.{resume_kr};

use crate::After;
use answers::Value;
use arguments::Change;
use hardware::{Error, Port, Step};
use jobs::job::{Ended, Job};
use kr::modify::KrModify;
use kr::sequence::Sequence;

#[derive(Clone, Copy)]
pub enum Kr {
    Modify(Change, KrModify),
    // restart_an, kr_autoneg
    Sequence(Sequence),
}

impl Kr {
    #[tactic(auto, using(hardware::proofs::Laws::then_assoc))]
    pub fn modify(
        port: Port,
        change: Change,
        step: Step<Job, KrModify, Result<u32, Error>>,
    ) -> Step<Job, After, Ended<Value>>
        ensures { (b : List ℕ) → told_after port b result ≡ answer value.Word (told_modify port change b step) }
    {
        match step {
            Step::Ask(job, s) => Step::Ask(job, After::Kr(Kr::Modify(change, s))),
            Step::Done(r) => After::word(port, r),
        }
    }

    #[tactic(auto, using(hardware::proofs::Laws::then_assoc))]
    pub fn sequence(
        port: Port,
        step: Step<Job, Sequence, Result<u32, Error>>,
    ) -> Step<Job, After, Ended<Value>>
        ensures { (b : List ℕ) → told_after port b result ≡ answer value.Word (told_sequence port b step) }
    {
        match step {
            Step::Ask(job, s) => Step::Ask(job, After::Kr(Kr::Sequence(s))),
            Step::Done(r) => After::word(port, r),
        }
    }

    #[tactic(auto, using(hardware::proofs::Laws::then_assoc))]
    pub fn next(self, port: Port, got: Result<u32, Error>) -> Step<Job, After, Ended<Value>>
        ensures { (b : List ℕ) → told_after port b result ≡ resume_kr port self got }
    {
        match self {
            Kr::Modify(change, s) => Kr::modify(port, change, s.next(change, port, got)),
            Kr::Sequence(s) => Kr::sequence(port, s.next(port, got)),
        }
    }
}
