// A machine that is lent a host block, by itself and over a script. It is beside drive's Machine, whose clauses have no block:
// what is said here is said with the block as it is then.
ghost use Rattle.std.specs.Prelude.{ℕ, List, ◌≡◌};
ghost use Rattle.hardware.specs.Talk.{Talk, Reply, ask};
ghost use Rattle.hardware.specs.Told.{told_by};
ghost use Rattle.drive.specs.Moves.{tape, Moves};

use drive::{Host, act};
use hardware::{Action, Reply, Step};

pub trait Lent: Copy {
    // What it was given to begin with, and is given again at each reply.
    type Context: Copy;

    type Answer: Copy;

    // What its conversation ends with.
    type End;

    // What a suspended state still says, with the block as it is.
    ghost resume: { Self.Context → Self → List ℕ → Reply → Talk Self.End };

    // The end, by the answer and the block.
    ghost end: { Self.Context → List ℕ → Self.Answer → Self.End };

    fn next(
        self,
        context: Self::Context,
        block: &mut [u32; 80],
        reply: Reply,
    ) -> Step<Action, Self, Self::Answer>
        ensures { told_by (end context block.new) (λ s r. resume context s block.new r) result ≡ resume context self block.old reply };
}

// One action over a script, where there are a reply and room for it.
#[tactic(auto, using(drive::specs::Moves::stays, drive::proofs::Laws::act_done))]
pub fn single<M: Lent>(
    s: M,
    a: Action,
    context: M::Context,
    block: &mut [u32; 80],
    h: &mut Host,
    replies: &[u32],
    t: &mut [u32],
) -> Step<Action, M, M::Answer>
    ensures { Moves replies.now (ask a (M.resume context s block.old)) (tape h.old t.old) (told_by (M.end context block.new) (λ s r. M.resume context s block.new r) result) (tape h.new t.new) }
{
    match act(h, a, replies, t) {
        Err(_) => Step::Ask(a, s),
        Ok(reply) => s.next(context, block, reply),
    }
}

// A machine in which others may stand that go on over a script by themselves.
pub trait Runs: Lent {
    // One action, or as much as a machine inside takes.
    fn advance(
        self,
        a: Action,
        context: Self::Context,
        block: &mut [u32; 80],
        h: &mut Host,
        replies: &[u32],
        t: &mut [u32],
    ) -> Step<Action, Self, Self::Answer>
        ensures { Moves replies.now (ask a (Self.resume context self block.old)) (tape h.old t.old) (told_by (Self.end context block.new) (λ s r. Self.resume context s block.new r) result) (tape h.new t.new) };
}

// Over a script, as far as it goes. By a loop, as in drive.
#[tactic(auto, using(drive::specs::Moves::stays, drive::proofs::Laws::then, drive::proofs::Laws::moves_less))]
pub fn run<M: Runs>(
    from: M,
    first: Action,
    context: M::Context,
    block: &mut [u32; 80],
    h: &mut Host,
    replies: &[u32],
    t: &mut [u32],
) -> Step<Action, M, M::Answer>
    ensures { Moves replies.now (ask first (M.resume context from block.old)) (tape h.old t.old) (told_by (M.end context block.new) (λ s r. M.resume context s block.new r) result) (tape h.new t.new) }
{
    let mut s = from;
    let mut a = first;
    loop {
        let at = h.at;
        let step = s.advance(a, context, block, h, replies, t);
        if h.at == at {
            return step;
        }
        match step {
            Step::Done(_) => return step,
            Step::Ask(b, n) => {
                a = b;
                s = n;
            }
        }
    }
}
