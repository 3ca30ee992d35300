// Lines out of a buffer that is filled piece by piece.
ghost use Rattle.std.specs.Prelude.{◌≡◌};
ghost use Rattle.lines.specs.Buffer.{look_at, rest_at, moved};

use text::{line_end, line_length};

// What is in the buffer from a place on.
#[derive(Clone, Copy)]
pub enum Seen {
    // A line from `start` up to `end`, without its newline and the carriage return before that; the next one starts at `next`.
    Line {
        start: usize,
        end: usize,
        next: usize,
    },
    // No newline yet: more is to be read.
    More,
    // The input has ended.
    Ended,
}

// What is left behind the last newline of an input that has ended.
#[tactic(auto, using(crate::proofs::BufferLaws::bare_part))]
fn rest(buf: &[u8], from: usize) -> Seen
    ensures { rest_at buf.now from ≡ result }
{
    let to = buf.len();
    if from >= to {
        return Seen::Ended;
    }
    Seen::Line {
        start: from,
        end: from + line_length(&buf[from..]),
        next: to,
    }
}

// The line that starts at `from`, where the bytes read so far are all of `buf`.
#[tactic(auto, using(crate::proofs::BufferLaws::bare_part))]
pub fn look(buf: &[u8], from: usize, ended: bool) -> Seen
    ensures { look_at buf.now from ended ≡ result }
{
    match line_end(buf, from) {
        Some(e) => Seen::Line {
            start: from,
            end: from + line_length(&buf[from..e]),
            next: e + 1,
        },
        None if ended => rest(buf, from),
        None => Seen::More,
    }
}

// Moves what is not used yet to the front, so that there is room behind it, and says how much it is.
#[tactic(auto, using(crate::proofs::BufferLaws::moved_front))]
pub fn to_front(buf: &mut [u8], from: usize, to: usize) -> usize
    ensures { moved buf.old from to ≡ (result, buf.new) }
{
    if from > to || to > buf.len() {
        return 0;
    }
    buf.copy_within(from..to, 0);
    to - from
}
