// mdio.rs's `modify`: a read and a write, each an access of its own.
ghost use Rattle.std.specs.Prelude.{ℕ, List, ◌≡◌};
ghost use Rattle.phy.specs.Modify.{modify_of, begun_modify, resume_modify, told_modify};

use arguments::Register;
use hardware::{Error, Port, Step};
use jobs::job::Job;

// It ends with the value written.
#[derive(Clone, Copy)]
pub enum Modify {
    Reading,
    // the value written
    Writing(u16),
}

impl Modify {
    // The job that it begins with, as Reading.
    #[tactic(auto, using(hardware::proofs::Laws::then_assoc), unfolding(reference::specs::Mdio::modify))]
    pub fn first(at: Register, port: Port) -> Job
        ensures { (b : List ℕ) → begun_modify port at b result ≡ modify_of port at }
    {
        Job::ReadReg(at.phy, at.device, at.register)
    }

    pub fn start(at: Register, port: Port) -> Step<Job, Modify, Result<u32, Error>>
        ensures { (b : List ℕ) → told_modify port at b result ≡ modify_of port at }
    {
        Step::Ask(Modify::first(at, port), Modify::Reading)
    }

    pub fn next(
        self,
        at: Register,
        port: Port,
        got: Result<u32, Error>,
    ) -> Step<Job, Modify, Result<u32, Error>>
        ensures { (b : List ℕ) → told_modify port at b result ≡ resume_modify port at self got }
    {
        match (self, got) {
            (_, Err(e)) => Step::Done(Err(e)),
            (Modify::Reading, Ok(v)) => {
                let value = (v & at.keep as u32 | at.set as u32) as u16;
                let job = Job::WriteReg(at.phy, at.device, at.register, value);
                Step::Ask(job, Modify::Writing(value))
            }
            (Modify::Writing(value), Ok(_)) => Step::Done(Ok(value as u32)),
        }
    }
}
