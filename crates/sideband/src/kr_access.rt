// The closures of x552.rs's `kr_read` and `kr_write`. CTRL selects the register; then a read waits before DATA, a write after it.
ghost use Rattle.std.specs.Prelude.{◌≡◌};
ghost use Rattle.reference.specs.X552.{iosf_check, iosf_idle};
ghost use Rattle.sideband.specs.Idle.{told_idle};
ghost use Rattle.sideband.specs.Kr.{kr_address, kr_body, kr_rest, kr_checked, kr_selected, kr_first, kr_data, resume_kr, told_kr};

use crate::idle::Idle;
use drive::Host;
use drive::machine::{Machine, Runs, run, single};
use hardware::{Action, Error, Reply, Step, done, raw};

// What is asked of the KR PHY.
#[derive(Clone, Copy)]
pub enum KrWanted {
    // address
    Read(u32),
    // with the value
    Write(u32, u32),
}

// What a closure was made with: iosf_idle's wait between two reads, and what is asked.
#[derive(Clone, Copy)]
pub struct KrCall {
    pub pause: u32,
    pub wanted: KrWanted,
}

#[derive(Clone, Copy)]
pub enum Kr {
    // the wait before CTRL is written
    First(Idle),
    Select,
    // the wait whose CTRL has the response
    Second(Idle),
    Data,
}

impl KrWanted {
    fn address(self) -> u32
        ensures { kr_address self ≡ result }
    {
        match self {
            KrWanted::Read(address) => address,
            KrWanted::Write(address, _) => address,
        }
    }
}

impl Kr {
    pub const DATA: u32 = 0x11148;

    pub const RESP_STAT: u32 = 0xc0000;

    fn rest(call: KrCall) -> Step<Action, Kr, Result<u32, Error>>
        ensures { told_kr call.pause call.wanted result ≡ kr_rest call.wanted }
    {
        match call.wanted {
            KrWanted::Read(_) => Step::Ask(Action::Read(Kr::DATA), Kr::Data),
            KrWanted::Write(_, _) => Step::Done(Ok(0)),
        }
    }

    fn check(call: KrCall, ctrl: u32) -> Step<Action, Kr, Result<u32, Error>>
        ensures { told_kr call.pause call.wanted result ≡ iosf_check (kr_address call.wanted) ctrl (kr_rest call.wanted) }
    {
        if ctrl & Kr::RESP_STAT == 0 {
            Kr::rest(call)
        } else {
            Step::Done(Err(Error::Sideband {
                address: call.wanted.address(),
                ctrl,
            }))
        }
    }

    fn second(
        call: KrCall,
        step: Step<Action, Idle, Result<u32, Error>>,
    ) -> Step<Action, Kr, Result<u32, Error>>
        ensures { told_kr call.pause call.wanted result ≡ kr_checked call.wanted (told_idle call.pause step) }
    {
        match step {
            Step::Ask(a, s) => Step::Ask(a, Kr::Second(s)),
            Step::Done(Err(e)) => Step::Done(Err(e)),
            Step::Done(Ok(ctrl)) => Kr::check(call, ctrl),
        }
    }

    // The second wait.
    #[tactic(auto, using(hardware::proofs::Laws::then_said))]
    fn settled(call: KrCall) -> Step<Action, Kr, Result<u32, Error>>
        ensures { told_kr call.pause call.wanted result ≡ kr_checked call.wanted (iosf_idle call.pause) }
    {
        Kr::second(call, Idle::start(call.pause))
    }

    fn selected(call: KrCall, done: Result<(), Error>) -> Step<Action, Kr, Result<u32, Error>>
        ensures { told_kr call.pause call.wanted result ≡ kr_selected call.pause call.wanted done }
    {
        match done {
            Err(e) => Step::Done(Err(e)),
            Ok(()) => match call.wanted {
                KrWanted::Read(_) => Kr::settled(call),
                KrWanted::Write(_, value) => Step::Ask(Action::Write(Kr::DATA, value), Kr::Data),
            },
        }
    }

    fn first(
        call: KrCall,
        step: Step<Action, Idle, Result<u32, Error>>,
    ) -> Step<Action, Kr, Result<u32, Error>>
        ensures { told_kr call.pause call.wanted result ≡ kr_first call.pause call.wanted (told_idle call.pause step) }
    {
        match step {
            Step::Ask(a, s) => Step::Ask(a, Kr::First(s)),
            Step::Done(Err(e)) => Step::Done(Err(e)),
            Step::Done(Ok(_)) => Step::Ask(
                Action::Write(Idle::CTRL, call.wanted.address()),
                Kr::Select,
            ),
        }
    }

    fn data(call: KrCall, reply: Reply) -> Step<Action, Kr, Result<u32, Error>>
        ensures { told_kr call.pause call.wanted result ≡ kr_data call.pause call.wanted reply }
    {
        match call.wanted {
            KrWanted::Read(_) => Step::Done(raw(reply)),
            KrWanted::Write(_, _) => match done(reply) {
                Err(e) => Step::Done(Err(e)),
                Ok(()) => Kr::settled(call),
            },
        }
    }

    #[tactic(auto, using(hardware::proofs::Laws::then_said, crate::proofs::Laws::begun))]
    pub fn start(call: KrCall) -> Step<Action, Kr, Result<u32, Error>>
        ensures { told_kr call.pause call.wanted result ≡ kr_body call.pause call.wanted }
    {
        Kr::first(call, Idle::start(call.pause))
    }
}

impl Machine for Kr {
    type Context = KrCall;

    // DATA's word; 0 after a write
    type Answer = Result<u32, Error>;

    ghost resume = { λ c. resume_kr c.pause c.wanted };

    #[tactic(auto, using(hardware::proofs::Laws::then_said))]
    fn next(self, call: KrCall, reply: Reply) -> Step<Action, Kr, Result<u32, Error>> {
        match self {
            Kr::First(s) => Kr::first(call, s.next(call.pause, reply)),
            Kr::Select => Kr::selected(call, done(reply)),
            Kr::Second(s) => Kr::second(call, s.next(call.pause, reply)),
            Kr::Data => Kr::data(call, reply),
        }
    }
}

impl Runs for Kr {
    fn advance(
        self,
        a: Action,
        call: KrCall,
        h: &mut Host,
        replies: &[u32],
        t: &mut [u32],
    ) -> Step<Action, Kr, Result<u32, Error>> {
        match self {
            Kr::First(s) => {
                let step = run(s, a, call.pause, h, replies, t);
                Kr::first(call, step)
            }
            Kr::Second(s) => {
                let step = run(s, a, call.pause, h, replies, t);
                Kr::second(call, step)
            }
            Kr::Select | Kr::Data => single(self, a, call, h, replies, t),
        }
    }
}
