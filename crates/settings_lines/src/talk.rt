// Lines from a reader to their end, and their answers to a writer.
use crate::answer::{Answer, print_answer};
use crate::kept::Kept;
use crate::turn::next_turn;
use std::io;
use std::io::{Read, Write};
use streams::input::{Input, fetch};
use streams::output::Waiting;

// Where a store that was done is put, before its answer is printed.
pub trait Keeper {
    fn keep(&mut self, words: &[u32]) -> io::Result<()>;
}

// A loop has to end, so its turns are counted: no input has as many lines. A write that fails ends it.
pub fn talk<R: Read, W: Write, K: Keeper>(
    kept: &mut Kept,
    keeper: &mut K,
    source: &mut R,
    buf: &mut [u8],
    sink: &mut W,
    waiting: &mut Waiting,
) -> io::Result<()> {
    let mut input = Input::new(false);
    for _ in 0..u64::MAX {
        let fetched = fetch(source, buf, input);
        input = fetched.input;
        let turn = next_turn(kept, buf, fetched.next);
        if let Some(answer) = turn.answer {
            if let Answer::Stored(_) = answer {
                keeper.keep(kept.as_slice())?;
            }
            print_answer(answer, kept.as_slice(), sink, waiting)?;
            waiting.flush(sink)?;
        }
        if turn.ended {
            break;
        }
    }
    Ok(())
}
