// x553.rs's `sgmii_an`: SGMII with auto-negotiation to the firmware's PHY.
ghost use Rattle.std.specs.Prelude.{ℕ, List, ◌≡◌};
ghost use Rattle.kr.specs.Modify.{told_modify};
ghost use Rattle.kr.specs.Sequence.{told_sequence};
ghost use Rattle.reference.specs.X553.{sgmii_an};
ghost use Rattle.x553.specs.SgmiiAn.{ctrl_of, force_of, lane_of, ctrl_then, force_then, lane_then, restart_then, got_again, resume_sgmii_an, told_sgmii_an};

use arguments::Change;
use hardware::{Error, Port, Step};
use jobs::job::Job;
use kr::modify::KrModify;
use kr::sequence::{KrPlace, Sequence};
use words::kr_address::krm;

// Its answer is FLX as written.
#[derive(Clone, Copy)]
pub enum SgmiiAn {
    Ctrl(KrModify),
    // LINK_CTRL_1 as written
    Force(u32, KrModify),
    // kr_write of the same
    Again,
    Lane(KrModify),
    // FLX as written
    Restart(u32, Sequence),
}

impl SgmiiAn {
    fn ctrl() -> Change
        ensures { ctrl_of ≡ result }
    {
        Change::of(Change::LINK_CTRL_1, Change::AN_AND_SPEED, 0x3000)
    }

    fn force() -> Change
        ensures { force_of ≡ result }
    {
        Change::of(Change::SGMII_CTRL, Change::FORCE_10_AND_100, 0)
    }

    fn lane() -> Change
        ensures { lane_of ≡ result }
    {
        Change::of(Change::FLX, Change::FLX_AN_AND_SPEED, 0x4600_0000)
    }

    #[tactic(auto, using(hardware::proofs::Laws::then_assoc))]
    fn after_restart(
        port: Port,
        flx: u32,
        step: Step<Job, Sequence, Result<u32, Error>>,
    ) -> Step<Job, SgmiiAn, Result<u32, Error>>
        ensures { (b : List ℕ) → told_sgmii_an port b result ≡ restart_then flx (told_sequence port b step) }
    {
        match step {
            Step::Ask(job, s) => Step::Ask(job, SgmiiAn::Restart(flx, s)),
            Step::Done(Err(e)) => Step::Done(Err(e)),
            Step::Done(Ok(_)) => Step::Done(Ok(flx)),
        }
    }

    #[tactic(auto, using(hardware::proofs::Laws::then_assoc), unfolding(reference::specs::X552::restart_an))]
    fn after_lane(
        port: Port,
        step: Step<Job, KrModify, Result<u32, Error>>,
    ) -> Step<Job, SgmiiAn, Result<u32, Error>>
        ensures { (b : List ℕ) → told_sgmii_an port b result ≡ lane_then port (told_modify port lane_of b step) }
    {
        match step {
            Step::Ask(job, s) => Step::Ask(job, SgmiiAn::Lane(s)),
            Step::Done(Err(e)) => Step::Done(Err(e)),
            Step::Done(Ok(flx)) => {
                let step = Sequence::start(KrPlace::Restart, port);
                SgmiiAn::after_restart(port, flx, step)
            }
        }
    }

    #[tactic(auto, using(hardware::proofs::Laws::then_assoc))]
    fn after_again(port: Port, got: Result<u32, Error>) -> Step<Job, SgmiiAn, Result<u32, Error>>
        ensures { (b : List ℕ) → told_sgmii_an port b result ≡ got_again port got }
    {
        match got {
            Err(e) => Step::Done(Err(e)),
            Ok(_) => {
                let step = KrModify::start(SgmiiAn::lane(), port);
                SgmiiAn::after_lane(port, step)
            }
        }
    }

    #[tactic(auto, using(hardware::proofs::Laws::then_assoc, jobs::proofs::Laws::wrote))]
    fn after_force(
        port: Port,
        lc1: u32,
        step: Step<Job, KrModify, Result<u32, Error>>,
    ) -> Step<Job, SgmiiAn, Result<u32, Error>>
        ensures { (b : List ℕ) → told_sgmii_an port b result ≡ force_then port lc1 (told_modify port force_of b step) }
    {
        match step {
            Step::Ask(job, s) => Step::Ask(job, SgmiiAn::Force(lc1, s)),
            Step::Done(Err(e)) => Step::Done(Err(e)),
            Step::Done(Ok(_)) => {
                let address = krm(port.lan, Change::LINK_CTRL_1);
                Step::Ask(Job::KrWrite(address, lc1), SgmiiAn::Again)
            }
        }
    }

    #[tactic(auto, using(hardware::proofs::Laws::then_assoc))]
    fn after_ctrl(
        port: Port,
        step: Step<Job, KrModify, Result<u32, Error>>,
    ) -> Step<Job, SgmiiAn, Result<u32, Error>>
        ensures { (b : List ℕ) → told_sgmii_an port b result ≡ ctrl_then port (told_modify port ctrl_of b step) }
    {
        match step {
            Step::Ask(job, s) => Step::Ask(job, SgmiiAn::Ctrl(s)),
            Step::Done(Err(e)) => Step::Done(Err(e)),
            Step::Done(Ok(lc1)) => {
                let step = KrModify::start(SgmiiAn::force(), port);
                SgmiiAn::after_force(port, lc1, step)
            }
        }
    }

    #[tactic(auto, using(hardware::proofs::Laws::then_assoc), unfolding(reference::specs::X553::sgmii_an))]
    pub fn start(port: Port) -> Step<Job, SgmiiAn, Result<u32, Error>>
        ensures { (b : List ℕ) → told_sgmii_an port b result ≡ sgmii_an port.pause port }
    {
        let step = KrModify::start(SgmiiAn::ctrl(), port);
        SgmiiAn::after_ctrl(port, step)
    }

    #[tactic(auto, using(hardware::proofs::Laws::then_assoc))]
    pub fn next(self, port: Port, got: Result<u32, Error>) -> Step<Job, SgmiiAn, Result<u32, Error>>
        ensures { (b : List ℕ) → told_sgmii_an port b result ≡ resume_sgmii_an port self got }
    {
        match self {
            SgmiiAn::Ctrl(s) => SgmiiAn::after_ctrl(port, s.next(SgmiiAn::ctrl(), port, got)),
            SgmiiAn::Force(lc1, s) => {
                let step = s.next(SgmiiAn::force(), port, got);
                SgmiiAn::after_force(port, lc1, step)
            }
            SgmiiAn::Again => SgmiiAn::after_again(port, got),
            SgmiiAn::Lane(s) => SgmiiAn::after_lane(port, s.next(SgmiiAn::lane(), port, got)),
            SgmiiAn::Restart(flx, s) => SgmiiAn::after_restart(port, flx, s.next(port, got)),
        }
    }
}
