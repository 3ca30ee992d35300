// x552.rs's `kr_modify`: a read and a write, each an access of its own.
ghost use Rattle.std.specs.Prelude.{ℕ, List, ◌≡◌};
ghost use Rattle.kr.specs.Modify.{modify_of, begun_modify, resume_modify, told_modify};

use arguments::Change;
use hardware::{Error, Port, Step};
use jobs::job::Job;
use words::kr_address::krm;

// It ends with the value written.
#[derive(Clone, Copy)]
pub enum KrModify {
    Reading,
    // the value written
    Writing(u32),
}

impl KrModify {
    // The job that it begins with, as Reading.
    #[tactic(auto, using(hardware::proofs::Laws::then_assoc), unfolding(reference::specs::X552::kr_modify))]
    pub fn first(change: Change, port: Port) -> Job
        ensures { (b : List ℕ) → begun_modify port change b result ≡ modify_of port change }
    {
        Job::KrRead(krm(port.lan, change.port0))
    }

    pub fn start(change: Change, port: Port) -> Step<Job, KrModify, Result<u32, Error>>
        ensures { (b : List ℕ) → told_modify port change b result ≡ modify_of port change }
    {
        Step::Ask(KrModify::first(change, port), KrModify::Reading)
    }

    pub fn next(
        self,
        change: Change,
        port: Port,
        got: Result<u32, Error>,
    ) -> Step<Job, KrModify, Result<u32, Error>>
        ensures { (b : List ℕ) → told_modify port change b result ≡ resume_modify port change self got }
    {
        match (self, got) {
            (_, Err(e)) => Step::Done(Err(e)),
            (KrModify::Reading, Ok(v)) => {
                let value = v & change.keep | change.set;
                let address = krm(port.lan, change.port0);
                Step::Ask(Job::KrWrite(address, value), KrModify::Writing(value))
            }
            (KrModify::Writing(value), Ok(_)) => Step::Done(Ok(value)),
        }
    }
}
