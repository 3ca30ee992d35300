// mdio.rs's `probe`.
ghost use Rattle.std.specs.Prelude.{ℕ, List, ◌≡◌};
ghost use Rattle.reference.specs.Mdio.{probe, probe_high};
ghost use Rattle.phy.specs.Probe.{begun_probe, resume_probe, told_probe};

use arguments::Register;
use hardware::{Error, Port, Step};
use jobs::job::Job;
use words::phy_identifier::phy_id;

// It ends with the PHY's id, or None where no PHY answers.
#[derive(Clone, Copy)]
pub enum Probe {
    High,
    // 1.2
    Low(u32),
}

impl Probe {
    // The job that it begins with, as High.
    #[tactic(auto, using(hardware::proofs::Laws::then_assoc), unfolding(reference::specs::Mdio::probe))]
    pub fn first(phy: u32, port: Port) -> Job
        ensures { (b : List ℕ) → begun_probe port phy b result ≡ probe port phy }
    {
        Job::ReadReg(phy, Register::PMA, Register::ID_1)
    }

    pub fn start(phy: u32, port: Port) -> Step<Job, Probe, Result<Option<u32>, Error>>
        ensures { (b : List ℕ) → told_probe port phy b result ≡ probe port phy }
    {
        Step::Ask(Probe::first(phy, port), Probe::High)
    }

    #[tactic(auto, using(hardware::proofs::Laws::then_assoc))]
    fn high(phy: u32, port: Port, high: u32) -> Step<Job, Probe, Result<Option<u32>, Error>>
        ensures { (b : List ℕ) → told_probe port phy b result ≡ probe_high port phy high }
    {
        if high == 0 || high == 0xffff {
            return Step::Done(Ok(None));
        }
        Step::Ask(
            Job::ReadReg(phy, Register::PMA, Register::ID_2),
            Probe::Low(high),
        )
    }

    pub fn next(
        self,
        phy: u32,
        port: Port,
        got: Result<u32, Error>,
    ) -> Step<Job, Probe, Result<Option<u32>, Error>>
        ensures { (b : List ℕ) → told_probe port phy b result ≡ resume_probe port phy self got }
    {
        match (self, got) {
            (_, Err(e)) => Step::Done(Err(e)),
            (Probe::High, Ok(v)) => Probe::high(phy, port, v),
            (Probe::Low(high), Ok(v)) => Step::Done(Ok(phy_id(high, v))),
        }
    }
}
