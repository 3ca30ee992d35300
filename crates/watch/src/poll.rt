// x552.rs's `Watch::poll`. On each link-up or change of speed the internal link is forced anew to the copper's speed; inside a
// window (document 02) it is held.
ghost use Rattle.std.specs.Prelude.{◌≡◌, ℕ, List};
ghost use Rattle.kr.specs.Sequence.{told_sequence};
ghost use Rattle.phy.specs.AnLink.{told_an_link};
ghost use Rattle.reference.specs.Watch.{is_forced, poll_down};
ghost use Rattle.watch.specs.Poll.{poll_of, same_of, held_of, force_of, speed_of, force_then, second_then, first_then, got_status, resume_poll, told_poll};

use answers::{Copper, Internal};
use arguments::{Left, Register, Windowed};
use hardware::{Error, Port, Step};
use jobs::job::Job;
use kr::sequence::{KrPlace, Sequence};
use phy::an_link::AnLink;
use words::link::copper;

// The number is 7.c800's low three bits.
#[derive(Clone, Copy)]
pub enum Poll {
    First(AnLink),
    Status,
    Second(u16, AnLink),
    // with the megabits: kr_autoneg, ixfi
    Force(u16, u32, Sequence),
}

// The copper link as it was seen, and what is left in the Watch.
#[derive(Clone, Copy)]
pub struct Polled {
    pub copper: Copper,
    pub left: Left,
}

// Whether the internal link was forced for this status.
#[tactic(auto, unfolding(reference::specs::Watch::is_forced))]
fn is_forced(forced: Option<u16>, status: u16) -> bool
    ensures { is_forced forced status ≡ result }
{
    forced == Some(status)
}

impl Poll {
    // Down forgets the forced status.
    fn down(asked: Windowed, port: Port) -> Step<Job, Poll, Result<Polled, Error>>
        ensures { (b : List ℕ) → told_poll port asked b result ≡ poll_down asked.watch.reforced }
    {
        let left = Left {
            forced: None,
            reforced: asked.watch.reforced,
        };
        let copper = Copper::Down;
        Step::Done(Ok(Polled { copper, left }))
    }

    // The link is up at a speed that it was forced to before, or at none that the internal link carries.
    fn same(asked: Windowed, port: Port, seen: Copper) -> Step<Job, Poll, Result<Polled, Error>>
        ensures { (b : List ℕ) → told_poll port asked b result ≡ same_of asked.watch seen }
    {
        let left = Left {
            forced: asked.watch.forced,
            reforced: asked.watch.reforced,
        };
        Step::Done(Ok(Polled { copper: seen, left }))
    }

    #[tactic(auto, using(hardware::proofs::Laws::then_assoc))]
    fn after_force(
        asked: Windowed,
        port: Port,
        status: u16,
        megabits: u32,
        step: Step<Job, Sequence, Result<u32, Error>>,
    ) -> Step<Job, Poll, Result<Polled, Error>>
        ensures { (b : List ℕ) → told_poll port asked b result ≡ force_then asked.watch status megabits (told_sequence port b step) }
    {
        match step {
            Step::Ask(job, s) => Step::Ask(job, Poll::Force(status, megabits, s)),
            Step::Done(Err(e)) => Step::Done(Err(e)),
            Step::Done(Ok(_)) => {
                let left = Left {
                    forced: Some(status),
                    reforced: asked.watch.reforced.wrapping_add(1),
                };
                let copper = Copper::Up { megabits };
                Step::Done(Ok(Polled { copper, left }))
            }
        }
    }

    #[tactic(auto, using(hardware::proofs::Laws::then_assoc), unfolding(reference::specs::X552::kr_autoneg, reference::specs::X552::ixfi))]
    fn force(
        asked: Windowed,
        port: Port,
        status: u16,
        megabits: u32,
    ) -> Step<Job, Poll, Result<Polled, Error>>
        ensures { (b : List ℕ) → told_poll port asked b result ≡ force_of port asked.watch status megabits }
    {
        match asked.watch.internal {
            Internal::Kr => {
                let step = Sequence::start(KrPlace::Advertise(true, true), port);
                Poll::after_force(asked, port, status, megabits, step)
            }
            Internal::Ixfi => {
                let step = Sequence::start(KrPlace::Force(megabits == 10_000), port);
                Poll::after_force(asked, port, status, megabits, step)
            }
        }
    }

    // A re-force is due, inside a window: the Watch stays as it was.
    fn held(asked: Windowed, port: Port, megabits: u32) -> Step<Job, Poll, Result<Polled, Error>>
        ensures { (b : List ℕ) → told_poll port asked b result ≡ held_of asked.watch megabits }
    {
        Poll::same(asked, port, Copper::Held { megabits })
    }

    // The one place that decides whether the internal link is forced anew.
    fn speed(asked: Windowed, port: Port, status: u16) -> Step<Job, Poll, Result<Polled, Error>>
        ensures { (b : List ℕ) → told_poll port asked b result ≡ speed_of port asked status }
    {
        match copper(status as u32) {
            None => Poll::same(asked, port, Copper::Invalid { status }),
            Some(megabits) => {
                if is_forced(asked.watch.forced, status) {
                    Poll::same(asked, port, Copper::Up { megabits })
                } else if asked.inside {
                    Poll::held(asked, port, megabits)
                } else {
                    Poll::force(asked, port, status, megabits)
                }
            }
        }
    }

    #[tactic(auto, using(hardware::proofs::Laws::then_assoc))]
    fn after_second(
        asked: Windowed,
        port: Port,
        status: u16,
        step: Step<Job, AnLink, Result<bool, Error>>,
    ) -> Step<Job, Poll, Result<Polled, Error>>
        ensures { (b : List ℕ) → told_poll port asked b result ≡ second_then port asked status (told_an_link port asked.watch.phy b step) }
    {
        match step {
            Step::Ask(job, s) => Step::Ask(job, Poll::Second(status, s)),
            Step::Done(Err(e)) => Step::Done(Err(e)),
            Step::Done(Ok(true)) => Poll::speed(asked, port, status),
            Step::Done(Ok(false)) => Poll::down(asked, port),
        }
    }

    #[tactic(auto, using(hardware::proofs::Laws::then_assoc))]
    fn after_status(
        asked: Windowed,
        port: Port,
        got: Result<u32, Error>,
    ) -> Step<Job, Poll, Result<Polled, Error>>
        ensures { (b : List ℕ) → told_poll port asked b result ≡ got_status port asked got }
    {
        match got {
            Err(e) => Step::Done(Err(e)),
            Ok(v) => {
                let step = AnLink::start(asked.watch.phy, port);
                Poll::after_second(asked, port, (v % 8) as u16, step)
            }
        }
    }

    #[tactic(auto, using(hardware::proofs::Laws::then_assoc))]
    fn after_first(
        asked: Windowed,
        port: Port,
        step: Step<Job, AnLink, Result<bool, Error>>,
    ) -> Step<Job, Poll, Result<Polled, Error>>
        ensures { (b : List ℕ) → told_poll port asked b result ≡ first_then port asked (told_an_link port asked.watch.phy b step) }
    {
        match step {
            Step::Ask(job, s) => Step::Ask(job, Poll::First(s)),
            Step::Done(Err(e)) => Step::Done(Err(e)),
            Step::Done(Ok(true)) => {
                Step::Ask(
                    Job::ReadReg(asked.watch.phy, Register::AN, Register::VENDOR_STATUS),
                    Poll::Status,
                )
            }
            Step::Done(Ok(false)) => Poll::down(asked, port),
        }
    }

    #[tactic(auto, using(hardware::proofs::Laws::then_assoc), unfolding(reference::specs::Window::window_poll, reference::specs::Window::due))]
    pub fn start(asked: Windowed, port: Port) -> Step<Job, Poll, Result<Polled, Error>>
        ensures { (b : List ℕ) → told_poll port asked b result ≡ poll_of port asked }
    {
        let step = AnLink::start(asked.watch.phy, port);
        Poll::after_first(asked, port, step)
    }

    #[tactic(auto, using(hardware::proofs::Laws::then_assoc))]
    pub fn next(
        self,
        asked: Windowed,
        port: Port,
        got: Result<u32, Error>,
    ) -> Step<Job, Poll, Result<Polled, Error>>
        ensures { (b : List ℕ) → told_poll port asked b result ≡ resume_poll port asked self got }
    {
        match self {
            Poll::First(s) => Poll::after_first(asked, port, s.next(asked.watch.phy, port, got)),
            Poll::Status => Poll::after_status(asked, port, got),
            Poll::Second(status, s) => {
                let step = s.next(asked.watch.phy, port, got);
                Poll::after_second(asked, port, status, step)
            }
            Poll::Force(status, megabits, s) => {
                let step = s.next(port, got);
                Poll::after_force(asked, port, status, megabits, step)
            }
        }
    }
}
