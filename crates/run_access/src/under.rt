// An access over a script.
ghost use Rattle.std.specs.Prelude.{take};
ghost use Rattle.access.specs.Access.{resume_access};

use crate::body;
use crate::lent::{Lent, Runs, run, single};
use access::place::{Access, AccessPlace};
use drive::{Host, machine};
use hardware::{Action, Error, Reply, Step};
use jobs::job::Ended;

impl Lent for Access {
    // all that it was given is in its frame
    type Context = ();

    type Answer = Ended<u32>;

    // the word, and the words of the block that belong to it
    type End = (Result<u32, Error>, [u32; 80]);

    ghost resume = { λ c s b r. resume_access s b r };

    ghost end = { λ c b given. (given.answer, take given.words b) };

    fn next(
        self,
        context: (),
        block: &mut [u32; 80],
        reply: Reply,
    ) -> Step<Action, Access, Ended<u32>> {
        Access::next(self, block, reply)
    }
}

impl Runs for Access {
    // acquire_bits, release_bits, the exchange and the body as far as they go; of anything else, one action.
    fn advance(
        self,
        a: Action,
        context: (),
        block: &mut [u32; 80],
        h: &mut Host,
        replies: &[u32],
        t: &mut [u32],
    ) -> Step<Action, Access, Ended<u32>> {
        let under = self.under;
        match self.place {
            AccessPlace::Sync(why, m) => {
                let step = machine::run(m, a, under.call(why), h, replies, t);
                under.synced(block, why, step)
            }
            AccessPlace::Exchange(whose, m) => {
                let step = run(m, a, whose, block, h, replies, t);
                under.exchanged(whose, step)
            }
            AccessPlace::Body(m) => {
                let step = body::run(m, a, h, replies, t);
                under.bodied(block, step)
            }
            _ => single(self, a, context, block, h, replies, t),
        }
    }
}
