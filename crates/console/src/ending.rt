// What is printed at the conversation's end.
ghost use Rattle.console.specs.Ending.{kept_line, kept_text, lent_text};
ghost use Rattle.streams.specs.Output.{PrintsAll};

use crate::moved::{Moved, first_words};
use answers::Value;
use conversation::conversation::Conversation;
use hardware::Error;
use started::standing::command_answer;
use std::io;
use std::io::Write;
use streams::ending::{last, print_left};
use streams::output::Waiting;

// The host block as an ended `command` leaves it, or the values of a list, after errors too. The listing has them after `end ok`
// alone.
fn left<W: Write>(
    c: Conversation,
    words: usize,
    sink: &mut W,
    waiting: &mut Waiting,
) -> io::Result<()>
    ensures { PrintsAll result (W.contents sink.old) waiting.old (kept_line c words) (W.contents sink.new) waiting.new }
{
    if words == 0 || words > 64 {
        return Ok(());
    }
    let mut host = [0u32; 80];
    if c.hand_back(&mut host[..words]).is_err() {
        return Ok(());
    }
    print_left(&host[..words], sink, waiting)
}

// The last line, and the host block's where it is asked for.
pub fn ended<W: Write>(
    answer: Result<Value, Error>,
    words: usize,
    c: Conversation,
    asked: bool,
    sink: &mut W,
    waiting: &mut Waiting,
) -> io::Result<()>
    ensures { PrintsAll result (W.contents sink.old) waiting.old (kept_text answer c words asked) (W.contents sink.new) waiting.new }
{
    last(answer, &c.block, c.actions, c.micros, sink, waiting)?;
    if asked {
        return left(c, words, sink, waiting);
    }
    Ok(())
}

// The same of a command whose words were lent: they are where they were lent from.
pub fn lent_ended<W: Write>(
    at: Moved,
    words: u32,
    status: Result<u32, Error>,
    asked: bool,
    sink: &mut W,
    waiting: &mut Waiting,
) -> io::Result<()>
    ensures { PrintsAll result (W.contents sink.old) waiting.old (lent_text at words status asked) (W.contents sink.new) waiting.new }
{
    let c = at.to;
    let lent = first_words(&at.words, words as usize);
    last(
        command_answer(words, status),
        lent,
        c.actions,
        c.micros,
        sink,
        waiting,
    )?;
    if asked {
        return print_left(lent, sink, waiting);
    }
    Ok(())
}
