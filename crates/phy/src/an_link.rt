// mdio.rs's `an_link`.
ghost use Rattle.std.specs.Prelude.{ℕ, List, ◌≡◌};
ghost use Rattle.reference.specs.Mdio.{an_link};
ghost use Rattle.phy.specs.AnLink.{resume_an_link, told_an_link};

use arguments::Register;
use hardware::{Error, Port, Step};
use jobs::job::Job;

// Which read. The bit latches low, so the first says what was. It ends with whether the link is up.
#[derive(Clone, Copy)]
pub enum AnLink {
    First,
    Second,
}

impl AnLink {
    #[tactic(auto, using(hardware::proofs::Laws::then_assoc), unfolding(reference::specs::Mdio::an_link))]
    pub fn start(phy: u32, port: Port) -> Step<Job, AnLink, Result<bool, Error>>
        ensures { (b : List ℕ) → told_an_link port phy b result ≡ an_link port phy }
    {
        Step::Ask(
            Job::ReadReg(phy, Register::AN, Register::STATUS),
            AnLink::First,
        )
    }

    #[tactic(auto, using(hardware::proofs::Laws::then_assoc))]
    pub fn next(
        self,
        phy: u32,
        port: Port,
        got: Result<u32, Error>,
    ) -> Step<Job, AnLink, Result<bool, Error>>
        ensures { (b : List ℕ) → told_an_link port phy b result ≡ resume_an_link port phy self got }
    {
        match (self, got) {
            (_, Err(e)) => Step::Done(Err(e)),
            (AnLink::First, Ok(_)) => {
                Step::Ask(
                    Job::ReadReg(phy, Register::AN, Register::STATUS),
                    AnLink::Second,
                )
            }
            (AnLink::Second, Ok(v)) => Step::Done(Ok(v & 4 != 0)),
        }
    }
}
