// The replies that are in the buffer already, in one run. One action at a time would do; this is faster.
ghost use Rattle.std.specs.Prelude.{IfOk, OnOk};
ghost use Rattle.console.specs.Turn.{printed};
ghost use Rattle.console.specs.Ahead.{ran_from, Ahead};
ghost use Rattle.streams.specs.Output.{Prints};

use crate::moved::{Moved, run_in};
use std::io;
use std::io::Write;
use streams::batch::{behind_used, first, print_lines, read_ahead};
use streams::output::Waiting;

pub fn ahead<W: Write>(
    from: Moved,
    buf: &[u8],
    sink: &mut W,
    waiting: &mut Waiting,
) -> io::Result<Moved>
    ensures ahead { IfOk result (Ahead from buf.now) }
    ensures printed { OnOk result (Prints (W.contents sink.old) waiting.old (printed (ran_from from buf.now)) (W.contents sink.new) waiting.new) }
{
    let mut words = [0u32; 128];
    let mut behind = [0usize; 64];
    let mut t = [0u32; 384];
    let count = read_ahead(buf, from.input, &mut words, &mut behind);
    let mut lent = from.words;
    let ran = run_in(from.to, &mut lent, first(&words, count), &mut t);
    print_lines(&t, ran.at, sink, waiting)?;
    Ok(Moved {
        to: ran.to,
        words: lent,
        input: behind_used(from.input, &behind, ran.used),
    })
}
