// Replies that are in the buffer already, for one run, and the lines of what it wrote.
ghost use Rattle.std.specs.Prelude.{◌≡◌, ◌≤◌, ◌<◌, ◌*◌, ◌/◌, [], length, take};
ghost use Rattle.std.proofs.lemmas.List.Edits.{sets};
ghost use Rattle.lines.specs.Listing.{action_text, lines_text};
ghost use Rattle.streams.specs.Batch.{reply_at, replies_ahead, words_ahead, places_ahead, used_input};
ghost use Rattle.streams.specs.Output.{PrintsAll, line_count};

use crate::input::{Input, look};
use crate::output::Waiting;
use crate::part::part;
use lines::buffer::Seen;
use lines::listing::{Line, action_line};
use lines::reply::reply_line;
use std::io;
use std::io::Write;

// The two words of the next line's reply, and where the input goes on behind it.
fn reply_at(buf: &[u8], input: Input) -> Option<(u32, u32, usize)>
    ensures { reply_at buf.now input ≡ result }
{
    match look(buf, input) {
        Seen::Line { start, end, next } => {
            reply_line(part(buf, start, end)).map(|(kind, value)| (kind, value, next))
        }
        _ => None,
    }
}

// The words of the next replies, and where the input goes on behind each: as many as there are whole lines that can be read.
#[tactic(auto, using(crate::proofs::BatchLaws::none_left, crate::proofs::BatchLaws::none_more))]
pub fn read_ahead(buf: &[u8], input: Input, words: &mut [u32], behind: &mut [usize]) -> usize
    ensures count { result ≡ length (replies_ahead buf.now input words.old behind.old) }
    ensures replies { words.new ≡ sets words.old 0 (words_ahead (replies_ahead buf.now input words.old behind.old)) }
    ensures places { behind.new ≡ sets behind.old 0 (places_ahead (replies_ahead buf.now input words.old behind.old)) }
{
    let most = (words.len() / 2).min(behind.len()).min(64);
    let mut from = input.from;
    for count in 0..most {
        let Some((kind, value, next)) = reply_at(buf, Input { from, ..input }) else {
            return count;
        };
        words[2 * count] = kind;
        words[2 * count + 1] = value;
        behind[count] = next;
        from = next;
    }
    most
}

// An action's line, in the memory of the last one's, since there may be many.
fn print_action<W: Write>(
    kind: u32,
    register: u32,
    value: u32,
    line: &mut Line,
    sink: &mut W,
    waiting: &mut Waiting,
) -> io::Result<()>
    ensures { PrintsAll result (W.contents sink.old) waiting.old (action_text kind register value) (W.contents sink.new) waiting.new }
{
    action_line(kind, register, value, line);
    waiting.print(sink, line.as_slice())
}

// The lines of a transcript's first words.
#[tactic(auto)]
pub fn print_lines<W: Write>(
    t: &[u32],
    at: usize,
    sink: &mut W,
    waiting: &mut Waiting,
) -> io::Result<()>
    ensures { PrintsAll result (W.contents sink.old) waiting.old (lines_text (take (3 * line_count at t.now) t.now)) (W.contents sink.new) waiting.new }
{
    let mut line = Line::new();
    for action in t.chunks_exact(3).take(at.div_ceil(3).min(128)) {
        print_action(action[0], action[1], action[2], &mut line, sink, waiting)?;
    }
    Ok(())
}

// Behind the replies that were used.
pub fn behind_used(input: Input, behind: &[usize], used: usize) -> Input
    ensures { used_input input behind.now used ≡ result }
{
    match behind.get(..used / 2).and_then(|lines| lines.last()) {
        Some(from) => Input {
            from: *from,
            ..input
        },
        None => input,
    }
}

// The words of so many replies; none where there are not so many.
pub fn first(words: &[u32], count: usize) -> &[u32]
    ensures fits { count ≤ length words.now / 2 → result.now ≡ take (2 * count) words.now }
    ensures none { length words.now / 2 < count → result.now ≡ [] }
{
    if count > words.len() / 2 {
        return &[];
    }
    &words[..2 * count]
}
