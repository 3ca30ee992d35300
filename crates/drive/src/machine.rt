// A machine that is suspended at an action, by itself and over a script.
ghost use Rattle.hardware.specs.Talk.{Talk, Reply, ask};
ghost use Rattle.hardware.specs.Told.{told};
ghost use Rattle.drive.specs.Moves.{tape, Moves};
ghost use Rattle.std.specs.Prelude.{◌≡◌};

use crate::{Host, act};
use hardware::{Action, Reply, Step};

pub trait Machine: Copy {
    // What it was given to begin with, and is given again at each reply.
    type Context: Copy;

    type Answer: Copy;

    // What a suspended state still says.
    ghost resume: { Self.Context → Self → Reply → Talk Self.Answer };

    fn next(self, context: Self::Context, reply: Reply) -> Step<Action, Self, Self::Answer>
        ensures { told (resume context) result ≡ resume context self reply };
}

// One action over a script, where there are a reply and room for it.
#[tactic(auto, using(crate::proofs::Laws::single_short, crate::proofs::Laws::single_done))]
pub fn single<M: Machine>(
    s: M,
    a: Action,
    context: M::Context,
    h: &mut Host,
    replies: &[u32],
    t: &mut [u32],
) -> Step<Action, M, M::Answer>
    ensures { Moves replies.now (ask a (M.resume context s)) (tape h.old t.old) (told (M.resume context) result) (tape h.new t.new) }
{
    match act(h, a, replies, t) {
        Err(_) => Step::Ask(a, s),
        Ok(reply) => s.next(context, reply),
    }
}

// A machine in which others may stand that go on over a script by themselves.
pub trait Runs: Machine {
    // One action, or as much as a machine inside takes.
    fn advance(
        self,
        a: Action,
        context: Self::Context,
        h: &mut Host,
        replies: &[u32],
        t: &mut [u32],
    ) -> Step<Action, Self, Self::Answer>
        ensures { Moves replies.now (ask a (Self.resume context self)) (tape h.old t.old) (told (Self.resume context) result) (tape h.new t.new) }
    {
        single(self, a, context, h, replies, t)
    }
}

// Over a script, as far as it goes. By a loop: each turn goes on from where the last one came, and how far is not known before.
#[tactic(auto, using(crate::specs::Moves::stays, crate::proofs::Laws::then, crate::proofs::Laws::then_asks, crate::proofs::Laws::moves_less))]
pub fn run<M: Runs>(
    from: M,
    first: Action,
    context: M::Context,
    h: &mut Host,
    replies: &[u32],
    t: &mut [u32],
) -> Step<Action, M, M::Answer>
    ensures { Moves replies.now (ask first (M.resume context from)) (tape h.old t.old) (told (M.resume context) result) (tape h.new t.new) }
{
    let mut s = from;
    let mut a = first;
    loop {
        let at = h.at;
        let step = s.advance(a, context, h, replies, t);
        if h.at == at {
            return step;
        }
        match step {
            Step::Done(_) => return step,
            Step::Ask(b, n) => {
                a = b;
                s = n;
            }
        }
    }
}
