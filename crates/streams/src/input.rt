// A reader's bytes, a line at a time.
ghost use Rattle.std.specs.Prelude.{◌≡◌, false, ◌≤◌, length, Some, ◌⊎◌};
ghost use Rattle.streams.specs.Input.{input, is_case, look_in, is_full, found_in, there, Fetches};
ghost use Rattle.streams.specs.declared.input.Input.{Input};
ghost use Rattle.streams.specs.declared.input.Next.TheVariants.{Long};

use crate::part::part;
use lines::buffer::Seen;
use std::io::Read;

// Bytes of the buffer that were read and are not used yet. With `cases`, a line that begins a case ends the input.
#[derive(Clone, Copy)]
pub struct Input {
    pub from: usize,
    pub to: usize,
    pub ended: bool,
    pub cases: bool,
}

// A line of the buffer; an input that has ended; a line that is longer than the buffer.
#[derive(Clone, Copy)]
pub enum Next {
    Line(usize, usize),
    Ended,
    Long,
}

#[derive(Clone, Copy)]
pub struct Fetched {
    pub next: Next,
    pub input: Input,
}

impl Input {
    // Nothing is read yet.
    pub fn new(cases: bool) -> Input
        ensures { input 0 0 false cases ≡ result }
    {
        Input {
            from: 0,
            to: 0,
            ended: false,
            cases,
        }
    }

    // The same place, where a case ends the input or does not.
    pub fn within(self, cases: bool) -> Input
        ensures { input self.from self.to self.ended cases ≡ result }
    {
        Input { cases, ..self }
    }
}

// Whether a line begins a case.
pub fn is_case(line: &[u8]) -> bool
    ensures { is_case line.now ≡ result }
{
    text::is(line, 0, 5, b"case ")
}

// One read behind what is there. A failed read counts as the end.
fn fill<R: Read>(source: &mut R, buf: &mut [u8], input: Input) -> Input {
    let to = lines::buffer::to_front(buf, input.from, input.to);
    if to >= buf.len() {
        return Input {
            from: 0,
            to,
            ended: true,
            ..input
        };
    }
    let n = read_to(source, &mut buf[to..]);
    Input {
        from: 0,
        to: to + n,
        ended: n == 0,
        ..input
    }
}

fn read_to<R: Read>(source: &mut R, part: &mut [u8]) -> usize
    ensures { result ≤ length part.old }
{
    source.read(part).unwrap_or(0)
}

// What is there of the next line.
pub fn look(buf: &[u8], input: Input) -> Seen
    ensures { look_in buf.now input ≡ result }
{
    match buf.get(..input.to) {
        Some(there) => lines::buffer::look(there, input.from, input.ended),
        None => Seen::Ended,
    }
}

// Nothing is read where the buffer is full already.
fn is_full(buf: &[u8], input: Input) -> bool
    ensures { is_full buf.now input ≡ result }
{
    input.from == 0 && input.to >= buf.len()
}

// A line that was seen is used up, unless it begins a case that ends the input.
fn found(buf: &[u8], input: Input, start: usize, end: usize, next: usize) -> Fetched
    ensures { found_in buf.now input start end next ≡ result }
{
    if input.cases && is_case(part(buf, start, end)) {
        return Fetched {
            next: Next::Ended,
            input,
        };
    }
    Fetched {
        next: Next::Line(start, end),
        input: Input {
            from: next,
            ..input
        },
    }
}

// What the buffer gives as it is; none where more is to be read.
fn there(buf: &[u8], input: Input) -> Option<Fetched>
    ensures { there buf.now input ≡ result }
{
    match look(buf, input) {
        Seen::Line { start, end, next } => Some(found(buf, input, start, end, next)),
        Seen::Ended => Some(Fetched {
            next: Next::Ended,
            input,
        }),
        Seen::More => {
            if is_full(buf, input) {
                return Some(Fetched {
                    next: Next::Long,
                    input,
                });
            }
            None
        }
    }
}

// A loop has to end, so its turns are counted: a read that adds nothing ends the input, so it takes no more turns than the
// buffer has bytes, and two.
fn read_on<R: Read>(source: &mut R, buf: &mut [u8], input: Input) -> Fetched
    ensures { ((i : Input) × (there buf.new i ≡ Some result)) ⊎ (result.next ≡ Long) }
{
    let mut now = input;
    for _ in 0..70000 {
        now = fill(source, buf, now);
        if let Some(fetched) = there(buf, now) {
            return fetched;
        }
    }
    Fetched {
        next: Next::Long,
        input: now,
    }
}

// The next line. Nothing is read where the buffer has it, or its end.
pub fn fetch<R: Read>(source: &mut R, buf: &mut [u8], input: Input) -> Fetched
    ensures { Fetches buf.old input buf.new result }
{
    match there(buf, input) {
        Some(fetched) => fetched,
        None => read_on(source, buf, input),
    }
}
