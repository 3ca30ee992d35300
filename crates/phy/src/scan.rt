// mdio.rs's `scan`.
ghost use Rattle.std.specs.Prelude.{ℕ, List, ◌≡◌};
ghost use Rattle.reference.specs.Mdio.{scan, scan_from};
ghost use Rattle.phy.specs.Probe.{told_probe};
ghost use Rattle.phy.specs.Scan.{scan_after, resume_scan, told_scan};

use crate::probe::Probe;
use hardware::{Error, Port, Step};
use jobs::job::Job;

// The PHY that is probed. It ends with the first PHY that answers and its id, or None.
#[derive(Clone, Copy)]
pub struct Scan {
    pub phy: u8,
    pub probe: Probe,
}

impl Scan {
    #[tactic(auto, using(hardware::proofs::Laws::each_more, hardware::proofs::Laws::each_none, hardware::proofs::Laws::then_assoc))]
    fn each(port: Port, phy: u32) -> Step<Job, Scan, Result<Option<(u8, u32)>, Error>>
        ensures { (b : List ℕ) → told_scan port b result ≡ scan_from port phy }
    {
        if phy < 32 {
            let probe = Probe::High;
            Step::Ask(
                Probe::first(phy, port),
                Scan {
                    phy: phy as u8,
                    probe,
                },
            )
        } else {
            Step::Done(Ok(None))
        }
    }

    #[tactic(auto, using(hardware::proofs::Laws::then_assoc))]
    fn after_probe(
        port: Port,
        phy: u8,
        step: Step<Job, Probe, Result<Option<u32>, Error>>,
    ) -> Step<Job, Scan, Result<Option<(u8, u32)>, Error>>
        ensures { (b : List ℕ) → told_scan port b result ≡ scan_after port phy (told_probe port phy b step) }
    {
        match step {
            Step::Ask(job, probe) => Step::Ask(job, Scan { phy, probe }),
            Step::Done(Err(e)) => Step::Done(Err(e)),
            Step::Done(Ok(None)) => Scan::each(port, phy as u32 + 1),
            Step::Done(Ok(Some(id))) => Step::Done(Ok(Some((phy, id)))),
        }
    }

    #[tactic(auto, unfolding(reference::specs::Mdio::scan))]
    pub fn start(port: Port) -> Step<Job, Scan, Result<Option<(u8, u32)>, Error>>
        ensures { (b : List ℕ) → told_scan port b result ≡ scan port }
    {
        Scan::each(port, 0)
    }

    #[tactic(auto, using(hardware::proofs::Laws::then_assoc))]
    pub fn next(
        self,
        port: Port,
        got: Result<u32, Error>,
    ) -> Step<Job, Scan, Result<Option<(u8, u32)>, Error>>
        ensures { (b : List ℕ) → told_scan port b result ≡ resume_scan port self got }
    {
        let step = self.probe.next(self.phy as u32, port, got);
        Scan::after_probe(port, self.phy, step)
    }
}
