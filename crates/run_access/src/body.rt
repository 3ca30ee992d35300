// The body of a lock over a script.
ghost use Rattle.std.specs.Prelude.{ℕ, List};
ghost use Rattle.access.specs.Body.{told_body};
ghost use Rattle.drive.specs.Moves.{tape, Moves};

use access::body::Body;
use drive::{Host, machine};
use hardware::{Action, Error, Step};

// MDIO cycles and the sideband's as far as they go; the NVM's command stays where it is.
#[tactic(auto, using(drive::specs::Moves::stays))]
pub fn run(
    s: Body,
    a: Action,
    h: &mut Host,
    replies: &[u32],
    t: &mut [u32],
) -> Step<Action, Body, Result<u32, Error>>
    ensures { (b : List ℕ) → Moves replies.now (told_body b (Step.Ask a s)) (tape h.old t.old) (told_body b result) (tape h.new t.new) }
{
    match s {
        Body::Mdio(wanted, m) => {
            let step = machine::run(m, a, wanted, h, replies, t);
            Body::mdio(wanted, step)
        }
        Body::Kr(call, m) => {
            let step = machine::run(m, a, call, h, replies, t);
            Body::kr(call, step)
        }
        Body::Nvm(_) => Step::Ask(a, s),
    }
}
