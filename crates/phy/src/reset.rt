// mdio.rs's `reset`: up to 30 polls, 100 ms apart.
ghost use Rattle.std.specs.Prelude.{ℕ, List, ◌≡◌};
ghost use Rattle.hardware.specs.Talk.{end};
ghost use Rattle.reference.specs.Mdio.{reset, reset_times, reset_poll};
ghost use Rattle.phy.specs.Reset.{reset_checked, reset_seen, resume_reset, told_reset};

use arguments::Register;
use hardware::{Error, Port, Step};
use jobs::job::Job;

// The number is how many polls are left after this one.
#[derive(Clone, Copy)]
pub enum Reset {
    Starting,
    Waiting(u32),
    Polling(u32),
    Settling,
    Checking,
}

impl Reset {
    // After the polls, whatever they saw, the register is read once more.
    #[tactic(auto, using(hardware::proofs::Laws::then_assoc, hardware::proofs::Laws::times_more, hardware::proofs::Laws::times_none))]
    fn again(phy: u32, x557: bool, port: Port, left: u32) -> Step<Job, Reset, Result<(), Error>>
        ensures { (b : List ℕ) → told_reset port phy x557 b result ≡ reset_times port phy x557 left }
    {
        if left == 0 {
            Step::Ask(
                Job::ReadReg(phy, Register::PHY_XS, Register::CONTROL),
                Reset::Checking,
            )
        } else {
            Step::Ask(Job::Wait(100_000), Reset::Waiting(left - 1))
        }
    }

    #[tactic(auto, using(hardware::proofs::Laws::then_assoc))]
    fn poll(phy: u32, x557: bool, port: Port, left: u32) -> Step<Job, Reset, Result<(), Error>>
        ensures { (b : List ℕ) → told_reset port phy x557 b result ≡ reset_poll port phy x557 (reset_times port phy x557 left) }
    {
        if x557 {
            Step::Ask(
                Job::ReadReg(phy, Register::PMA, Register::TX_VENDOR_ALARMS_3),
                Reset::Polling(left),
            )
        } else {
            Step::Ask(
                Job::ReadReg(phy, Register::PHY_XS, Register::CONTROL),
                Reset::Polling(left),
            )
        }
    }

    // The X557 sets a bit when it is done, any other PHY clears one.
    fn seen(
        phy: u32,
        x557: bool,
        port: Port,
        left: u32,
        v: u32,
    ) -> Step<Job, Reset, Result<(), Error>>
        ensures { (b : List ℕ) → told_reset port phy x557 b result ≡ reset_seen port phy x557 left v }
    {
        if x557 {
            if v & Register::RESET_DONE == 0 {
                return Reset::again(phy, x557, port, left);
            }
        } else if v & Register::RESET as u32 != 0 {
            return Reset::again(phy, x557, port, left);
        }
        Step::Ask(Job::Wait(2), Reset::Settling)
    }

    fn checked(v: u32) -> Result<(), Error>
        ensures { reset_checked v ≡ end result }
    {
        if v & Register::RESET as u32 == 0 {
            Ok(())
        } else {
            Err(Error::PhyReset)
        }
    }

    #[tactic(auto, using(hardware::proofs::Laws::then_assoc, jobs::proofs::Laws::wrote), unfolding(reference::specs::Mdio::reset))]
    pub fn start(phy: u32, x557: bool, port: Port) -> Step<Job, Reset, Result<(), Error>>
        ensures { (b : List ℕ) → told_reset port phy x557 b result ≡ reset port phy x557 }
    {
        Step::Ask(
            Job::WriteReg(phy, Register::PHY_XS, Register::CONTROL, Register::RESET),
            Reset::Starting,
        )
    }

    #[tactic(auto, using(hardware::proofs::Laws::then_assoc))]
    pub fn next(
        self,
        phy: u32,
        x557: bool,
        port: Port,
        got: Result<u32, Error>,
    ) -> Step<Job, Reset, Result<(), Error>>
        ensures { (b : List ℕ) → told_reset port phy x557 b result ≡ resume_reset port phy x557 self got }
    {
        match (self, got) {
            (_, Err(e)) => Step::Done(Err(e)),
            (Reset::Starting, Ok(_)) => Reset::again(phy, x557, port, 30),
            (Reset::Waiting(left), Ok(_)) => Reset::poll(phy, x557, port, left),
            (Reset::Polling(left), Ok(v)) => Reset::seen(phy, x557, port, left, v),
            (Reset::Settling, Ok(_)) => {
                let job = Job::ReadReg(phy, Register::PHY_XS, Register::CONTROL);
                Step::Ask(job, Reset::Checking)
            }
            (Reset::Checking, Ok(v)) => Step::Done(Reset::checked(v)),
        }
    }
}
