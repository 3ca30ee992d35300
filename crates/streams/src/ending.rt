// The listing's last lines.
ghost use Rattle.lines.specs.Listing.{end_text, stop_text, left_text};
ghost use Rattle.streams.specs.Output.{PrintsAll};

use crate::output::Waiting;
use answers::Value;
use hardware::Error;
use lines::listing::{Line, end_line, left_line, stop_line};
use std::io;
use std::io::Write;

// The last line where the listing stops before the conversation's end.
pub fn stop<W: Write>(
    number: u32,
    actions: u64,
    micros: u64,
    sink: &mut W,
    waiting: &mut Waiting,
) -> io::Result<()>
    ensures { PrintsAll result (W.contents sink.old) waiting.old (stop_text number actions micros) (W.contents sink.new) waiting.new }
{
    let mut line = Line::new();
    stop_line(number, actions, micros, &mut line);
    waiting.print(sink, line.as_slice())
}

// The last line of a conversation that has ended.
pub fn last<W: Write>(
    answer: Result<Value, Error>,
    block: &[u32],
    actions: u64,
    micros: u64,
    sink: &mut W,
    waiting: &mut Waiting,
) -> io::Result<()>
    ensures { PrintsAll result (W.contents sink.old) waiting.old (end_text answer block.now actions micros) (W.contents sink.new) waiting.new }
{
    let mut line = Line::new();
    end_line(answer, block, actions, micros, &mut line);
    waiting.print(sink, line.as_slice())
}

// The host block that a `command` leaves.
pub fn print_left<W: Write>(words: &[u32], sink: &mut W, waiting: &mut Waiting) -> io::Result<()>
    ensures { PrintsAll result (W.contents sink.old) waiting.old (left_text words.now) (W.contents sink.new) waiting.new }
{
    let mut line = Line::new();
    left_line(words, &mut line);
    waiting.print(sink, line.as_slice())
}
