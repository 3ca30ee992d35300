// Lines from a reader to their end, and their answers to a writer.
use crate::answer::print_answer;
use crate::kept::Kept;
use crate::turn::next_turn;
use std::io;
use std::io::{Read, Write};
use streams::input::{Input, fetch};
use streams::output::Waiting;

// A loop has to end, so its turns are counted: no input has as many lines. A write that fails ends it.
pub fn talk<R: Read, W: Write>(
    source: &mut R,
    buf: &mut [u8],
    sink: &mut W,
    waiting: &mut Waiting,
) -> io::Result<()> {
    let mut kept = Kept::new();
    let mut judged = None;
    let mut input = Input::new(false);
    for _ in 0..u64::MAX {
        let fetched = fetch(source, buf, input);
        input = fetched.input;
        let turn = next_turn(&mut kept, judged, buf, fetched.next);
        judged = turn.judged;
        if let Some(answer) = turn.answer {
            print_answer(answer, sink, waiting)?;
        }
        if turn.ended {
            break;
        }
    }
    waiting.flush(sink)
}
