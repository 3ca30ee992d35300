// A listing, from the port's line on.
ghost use Rattle.std.specs.Prelude.{◌≡◌, ℕ, List, true, take, drop, IfOk};
ghost use Rattle.calls.specs.Conversation.{begun};
ghost use Rattle.console.specs.Moved.{conv_at, lent_at, first_448};
ghost use Rattle.console.specs.Opened.{Opened, Listing};
ghost use Rattle.streams.specs.Output.{Prints};

use crate::moved::Moved;
use crate::talk::talk;
use conversation::conversation::Conversation;
use hardware::Port;
use lines::port::port_line;
use operations::Operation;
use std::io;
use std::io::{Read, Write};
use streams::due::Fault;
use streams::ending::stop;
use streams::input::{Fetched, Input, fetch};
use streams::output::Waiting;
use streams::part::line_of;
use trace::operation::{OperationLine, operation_line};

// As many words as a command may have, over zeros.
fn copied(lent: &[u32]) -> [u32; 448]
    ensures { result ≡ first_448 lent.now }
{
    let mut own = [0u32; 448];
    if lent.len() < 448 {
        own[..lent.len()].copy_from_slice(lent);
    } else {
        own.copy_from_slice(&lent[..448]);
    }
    own
}

// What is begun, with the words that are lent to `begin`.
#[tactic(auto, using(crate::proofs::BeginLaws::begun_in, crate::proofs::BeginLaws::lent_in))]
fn begin(port: Port, what: Operation, lent: &[u32], input: Input) -> Moved
    ensures begun { conv_at result ≡ begun port what lent.now }
    ensures lent { lent_at result ≡ true }
    ensures there { result.input ≡ input }
{
    Moved {
        to: Conversation::begin(port, what, lent),
        words: copied(lent),
        input,
    }
}

// So many words are lent, or all of them.
fn begin_first(port: Port, what: Operation, args: &[u32], words: usize, input: Input) -> Moved
    ensures begun { conv_at result ≡ begun port what (take words args.now) }
    ensures lent { lent_at result ≡ true }
    ensures there { result.input ≡ input }
{
    begin(port, what, args.get(..words).unwrap_or(args), input)
}

// Those from a place of the arguments on.
fn begin_named(port: Port, named: OperationLine, args: &[u32], input: Input) -> Moved
    ensures begun { conv_at result ≡ begun port named.what (take named.words (drop named.from args.now)) }
    ensures lent { lent_at result ≡ true }
    ensures there { result.input ≡ input }
{
    let lent = args.get(named.from..).unwrap_or(&[]);
    begin_first(port, named.what, lent, named.words, input)
}

// 25 where a line was missing or cannot be read.
fn opened<R: Read, W: Write>(
    port: Option<Port>,
    named: Option<OperationLine>,
    args: &[u32; 7282],
    source: &mut R,
    buf: &mut [u8],
    input: Input,
    sink: &mut W,
    waiting: &mut Waiting,
    asked: bool,
) -> io::Result<Input>
    ensures { IfOk result (λ rest. (text : List ℕ) × (Opened port named args.now input asked buf.old buf.new text rest) × (Prints (W.contents sink.old) waiting.old text (W.contents sink.new) waiting.new)) }
{
    let (Some(port), Some(named)) = (port, named) else {
        stop(Fault::BadLine.number(), 0, 0, sink, waiting)?;
        return Ok(input);
    };
    let from = begin_named(port, named, args, input);
    talk(from, source, buf, sink, waiting, asked)
}

// The listing of one input, behind the bytes that wait; answers what is left of the input. Both lines are read before
// anything else. Where it is asked for, a line with the host block that a `command` leaves follows.
pub fn listing<R: Read, W: Write>(
    source: &mut R,
    buf: &mut [u8],
    input: Input,
    sink: &mut W,
    waiting: &mut Waiting,
    asked: bool,
) -> io::Result<Input>
    ensures { IfOk result (λ rest. (text : List ℕ) × (Listing buf.old input asked buf.new text rest) × (Prints (W.contents sink.old) waiting.old text (W.contents sink.new) waiting.new)) }
{
    let mut args = [0u32; 7282];
    let Fetched { next, input } = fetch(source, buf, input);
    let port = port_line(line_of(buf, next));
    let Fetched { next, input } = fetch(source, buf, input);
    let named = operation_line(line_of(buf, next), &mut args);
    opened(port, named, &args, source, buf, input, sink, waiting, asked)
}
