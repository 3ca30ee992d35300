// The reply to a pending action, read when it is due.
ghost use Rattle.std.specs.Prelude.{◌≡◌};
ghost use Rattle.streams.specs.Due.{number, due_of, Due};

use crate::input::{Fetched, Input, Next, fetch};
use crate::part::part;
use drive::uses_of;
use hardware::{Action, Stop};
use lines::reply::reply_line;
use std::io::Read;

// Why a listing stops at a reply that is due: the line cannot be read, or there is none.
#[derive(Clone, Copy)]
pub enum Fault {
    BadLine,
    NoReply,
}

impl Fault {
    // The number of the listing's last line.
    pub fn number(self) -> u32
        ensures { number self ≡ result }
    {
        match self {
            Fault::BadLine => Stop::BadReply.number(),
            Fault::NoReply => Stop::NoReply.number(),
        }
    }
}

// What a pending action is answered: nothing for a wait, a reply's two words for a read or a write.
#[derive(Clone, Copy)]
pub struct Answered {
    pub due: Result<Option<(u32, u32)>, Fault>,
    pub input: Input,
}

// What was fetched for a read or a write.
fn read_reply(buf: &[u8], next: Next) -> Result<(u32, u32), Fault>
    ensures { due_of buf.now next ≡ result }
{
    match next {
        Next::Ended => Err(Fault::NoReply),
        Next::Long => Err(Fault::BadLine),
        Next::Line(start, end) => reply_line(part(buf, start, end)).ok_or(Fault::BadLine),
    }
}

// A reply line is read only when its reply is due.
pub fn answer<R: Read>(a: Action, source: &mut R, buf: &mut [u8], input: Input) -> Answered
    ensures { Due a buf.old input buf.new result }
{
    if uses_of(a) == 0 {
        return Answered {
            due: Ok(None),
            input,
        };
    }
    let Fetched { next, input } = fetch(source, buf, input);
    Answered {
        due: read_reply(buf, next).map(Some),
        input,
    }
}
