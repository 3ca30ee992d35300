// x553.rs's `sgmii`: the internal PHY in SGMII at 1G.
ghost use Rattle.std.specs.Prelude.{ℕ, List, ◌≡◌};
ghost use Rattle.kr.specs.Modify.{told_modify};
ghost use Rattle.kr.specs.Sequence.{told_sequence};
ghost use Rattle.reference.specs.X553.{sgmii};
ghost use Rattle.x553.specs.Sgmii.{ctrl_of, force_of, lane_of, ctrl_then, force_then, lane_then, restart_then, resume_sgmii, told_sgmii};

use answers::SgmiiSetup;
use arguments::Change;
use hardware::{Error, Port, Step};
use jobs::job::Job;
use kr::modify::KrModify;
use kr::sequence::{KrPlace, Sequence};

// The numbers are LINK_CTRL_1 and SGMII_CTRL as written.
#[derive(Clone, Copy)]
pub enum Sgmii {
    Ctrl(KrModify),
    Force(u32, KrModify),
    Lane(u32, u32, KrModify),
    Restart(SgmiiSetup, Sequence),
}

impl Sgmii {
    fn ctrl() -> Change
        ensures { ctrl_of ≡ result }
    {
        Change::of(Change::LINK_CTRL_1, Change::AN_AND_SPEED, 0x3200)
    }

    fn force() -> Change
        ensures { force_of ≡ result }
    {
        Change::of(Change::SGMII_CTRL, 0, Change::FORCE_10_AND_100)
    }

    fn lane() -> Change
        ensures { lane_of ≡ result }
    {
        Change::of(Change::FLX, Change::FLX_AN_AND_SPEED, 0x2600_0000)
    }

    #[tactic(auto, using(hardware::proofs::Laws::then_assoc))]
    fn after_restart(
        port: Port,
        set: SgmiiSetup,
        step: Step<Job, Sequence, Result<u32, Error>>,
    ) -> Step<Job, Sgmii, Result<SgmiiSetup, Error>>
        ensures { (b : List ℕ) → told_sgmii port b result ≡ restart_then set (told_sequence port b step) }
    {
        match step {
            Step::Ask(job, s) => Step::Ask(job, Sgmii::Restart(set, s)),
            Step::Done(Err(e)) => Step::Done(Err(e)),
            Step::Done(Ok(_)) => Step::Done(Ok(set)),
        }
    }

    #[tactic(auto, using(hardware::proofs::Laws::then_assoc), unfolding(reference::specs::X552::restart_an))]
    fn after_lane(
        port: Port,
        lc1: u32,
        sgmii: u32,
        step: Step<Job, KrModify, Result<u32, Error>>,
    ) -> Step<Job, Sgmii, Result<SgmiiSetup, Error>>
        ensures { (b : List ℕ) → told_sgmii port b result ≡ lane_then port lc1 sgmii (told_modify port lane_of b step) }
    {
        match step {
            Step::Ask(job, s) => Step::Ask(job, Sgmii::Lane(lc1, sgmii, s)),
            Step::Done(Err(e)) => Step::Done(Err(e)),
            Step::Done(Ok(flx)) => {
                let set = SgmiiSetup {
                    link_ctrl: lc1,
                    sgmii,
                    flx,
                };
                let step = Sequence::start(KrPlace::Restart, port);
                Sgmii::after_restart(port, set, step)
            }
        }
    }

    #[tactic(auto, using(hardware::proofs::Laws::then_assoc))]
    fn after_force(
        port: Port,
        lc1: u32,
        step: Step<Job, KrModify, Result<u32, Error>>,
    ) -> Step<Job, Sgmii, Result<SgmiiSetup, Error>>
        ensures { (b : List ℕ) → told_sgmii port b result ≡ force_then port lc1 (told_modify port force_of b step) }
    {
        match step {
            Step::Ask(job, s) => Step::Ask(job, Sgmii::Force(lc1, s)),
            Step::Done(Err(e)) => Step::Done(Err(e)),
            Step::Done(Ok(sgmii)) => {
                let step = KrModify::start(Sgmii::lane(), port);
                Sgmii::after_lane(port, lc1, sgmii, step)
            }
        }
    }

    #[tactic(auto, using(hardware::proofs::Laws::then_assoc))]
    fn after_ctrl(
        port: Port,
        step: Step<Job, KrModify, Result<u32, Error>>,
    ) -> Step<Job, Sgmii, Result<SgmiiSetup, Error>>
        ensures { (b : List ℕ) → told_sgmii port b result ≡ ctrl_then port (told_modify port ctrl_of b step) }
    {
        match step {
            Step::Ask(job, s) => Step::Ask(job, Sgmii::Ctrl(s)),
            Step::Done(Err(e)) => Step::Done(Err(e)),
            Step::Done(Ok(lc1)) => {
                let step = KrModify::start(Sgmii::force(), port);
                Sgmii::after_force(port, lc1, step)
            }
        }
    }

    #[tactic(auto, using(hardware::proofs::Laws::then_assoc), unfolding(reference::specs::X553::sgmii))]
    pub fn start(port: Port) -> Step<Job, Sgmii, Result<SgmiiSetup, Error>>
        ensures { (b : List ℕ) → told_sgmii port b result ≡ sgmii port.pause port }
    {
        let step = KrModify::start(Sgmii::ctrl(), port);
        Sgmii::after_ctrl(port, step)
    }

    #[tactic(auto, using(hardware::proofs::Laws::then_assoc))]
    pub fn next(
        self,
        port: Port,
        got: Result<u32, Error>,
    ) -> Step<Job, Sgmii, Result<SgmiiSetup, Error>>
        ensures { (b : List ℕ) → told_sgmii port b result ≡ resume_sgmii port self got }
    {
        match self {
            Sgmii::Ctrl(s) => Sgmii::after_ctrl(port, s.next(Sgmii::ctrl(), port, got)),
            Sgmii::Force(lc1, s) => {
                let step = s.next(Sgmii::force(), port, got);
                Sgmii::after_force(port, lc1, step)
            }
            Sgmii::Lane(lc1, sgmii, s) => {
                let step = s.next(Sgmii::lane(), port, got);
                Sgmii::after_lane(port, lc1, sgmii, step)
            }
            Sgmii::Restart(set, s) => Sgmii::after_restart(port, set, s.next(port, got)),
        }
    }
}
