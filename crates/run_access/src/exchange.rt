// The host exchange over a script: an action at a time, in the words that are the command's.
ghost use Rattle.std.specs.Prelude.{take};
ghost use Rattle.access.specs.Access.{rest_of, resume_command, words_of};

use crate::lent::{Lent, Runs, single};
use access::place::CommandFor;
use drive::Host;
use hardware::{Action, Error, Reply, Step};
use hostif::exchange::Exchange;

impl Lent for Exchange {
    // whose command it is
    type Context = CommandFor;

    // the status
    type Answer = Result<u32, Error>;

    // the status, and those words; the list's, as they were
    type End = ((Result<u32, Error>, [u32; 80]), [u32; 80]);

    ghost resume = { λ c s b r. resume_command c s b r };

    ghost end = { λ c b status. ((status, take (words_of c) b), rest_of c b) };

    fn next(
        self,
        whose: CommandFor,
        block: &mut [u32; 80],
        reply: Reply,
    ) -> Step<Action, Exchange, Result<u32, Error>> {
        whose.next(self, block, reply)
    }
}

impl Runs for Exchange {
    fn advance(
        self,
        a: Action,
        whose: CommandFor,
        block: &mut [u32; 80],
        h: &mut Host,
        replies: &[u32],
        t: &mut [u32],
    ) -> Step<Action, Exchange, Result<u32, Error>> {
        single(self, a, whose, block, h, replies, t)
    }
}
