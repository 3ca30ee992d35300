// Replays stored cases. Standard input has a `case` line for each and then the tracer's input; the same `case` lines are
// printed, each with its listing.
#![tactic(auto)]

use console::listing::listing;
use std::io;
use std::io::{Read, Write};
use streams::input::{Fetched, Input, Next, fetch, is_case};
use streams::output::Waiting;
use streams::part::part;

// A case: its line, then its listing, whose input ends where the next case begins.
fn replay<R: Read, W: Write>(
    source: &mut R,
    buf: &mut [u8],
    input: Input,
    start: usize,
    end: usize,
    sink: &mut W,
    waiting: &mut Waiting,
) -> io::Result<Input> {
    waiting.print(sink, part(buf, start, end))?;
    waiting.print(sink, b"\n")?;
    listing(source, buf, input.within(true), sink, waiting, false)
}

// A line outside a listing. One that begins no case is what a listing left unread, and is passed over.
fn line<R: Read, W: Write>(
    source: &mut R,
    buf: &mut [u8],
    input: Input,
    start: usize,
    end: usize,
    sink: &mut W,
    waiting: &mut Waiting,
) -> io::Result<Input> {
    if is_case(part(buf, start, end)) {
        return replay(source, buf, input, start, end, sink, waiting);
    }
    Ok(input)
}

// All cases up to the end of the input. A loop has to end, so its turns are counted; no input has as many lines.
fn cases<R: Read, W: Write>(
    source: &mut R,
    buf: &mut [u8],
    sink: &mut W,
    waiting: &mut Waiting,
) -> io::Result<()> {
    let mut left = Input::new(false);
    for _ in 0..u64::MAX {
        let Fetched { next, input } = fetch(source, buf, left.within(false));
        let Next::Line(start, end) = next else {
            break;
        };
        left = line(source, buf, input, start, end, sink, waiting)?;
    }
    Ok(())
}

fn main(rt: HostRuntime) -> io::Result<()> {
    let mut buf = [0u8; 65536];
    let mut waiting = Waiting::new();
    let mut source = rt.stdin();
    let mut sink = rt.stdout();
    cases(&mut source, &mut buf, &mut sink, &mut waiting)?;
    waiting.flush(&mut sink)
}
