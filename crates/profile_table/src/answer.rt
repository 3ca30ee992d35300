// What is answered, as a line.
ghost use Rattle.text.specs.Digits.{decimal_digits};
ghost use Rattle.streams.specs.Output.{PrintsAll};
ghost use Rattle.profile_table.specs.Answer.{half_digits, place_text, fault_text, said_text, answer_text};

use crate::fault::Fault;
use std::io;
use std::io::Write;
use streams::output::Waiting;
use text::{decimal_digits, hex_digits};

// A table that is taken; a profile, or none; the table's error; a line that cannot be read.
#[derive(Clone, Copy)]
pub enum Answer {
    Taken,
    Profile(u32),
    Nothing,
    Refused(Fault),
    Unread,
}

fn print_decimal<W: Write>(value: u64, sink: &mut W, waiting: &mut Waiting) -> io::Result<()>
    ensures { PrintsAll result (W.contents sink.old) waiting.old (decimal_digits value) (W.contents sink.new) waiting.new }
{
    let (digits, from) = decimal_digits(value);
    waiting.print(sink, &digits[from..])
}

// Four hexadecimal digits.
fn print_half<W: Write>(value: u32, sink: &mut W, waiting: &mut Waiting) -> io::Result<()>
    ensures { PrintsAll result (W.contents sink.old) waiting.old (half_digits value) (W.contents sink.new) waiting.new }
{
    waiting.print(sink, &hex_digits(value)[4..])
}

#[tactic(auto, using(streams::proofs::OutputLaws::prints_on))]
fn print_place<W: Write>(
    device: u32,
    version: u32,
    sink: &mut W,
    waiting: &mut Waiting,
) -> io::Result<()>
    ensures { PrintsAll result (W.contents sink.old) waiting.old (place_text device version) (W.contents sink.new) waiting.new }
{
    print_half(device, sink, waiting)?;
    waiting.print(sink, b" ")?;
    print_half(version, sink, waiting)
}

// The number of an error, and what it names.
#[tactic(auto, using(streams::proofs::OutputLaws::prints_on))]
fn print_fault<W: Write>(fault: Fault, sink: &mut W, waiting: &mut Waiting) -> io::Result<()>
    ensures { PrintsAll result (W.contents sink.old) waiting.old (fault_text fault) (W.contents sink.new) waiting.new }
{
    match fault {
        Fault::BadRow(row) => {
            waiting.print(sink, b"28 ")?;
            print_decimal(row as u64, sink, waiting)
        }
        Fault::Gap(device, version) => {
            waiting.print(sink, b"29 ")?;
            print_place(device, version, sink, waiting)
        }
        Fault::Overlap(device, version) => {
            waiting.print(sink, b"30 ")?;
            print_place(device, version, sink, waiting)
        }
    }
}

#[tactic(auto, using(streams::proofs::OutputLaws::prints_on))]
fn print_said<W: Write>(answer: Answer, sink: &mut W, waiting: &mut Waiting) -> io::Result<()>
    ensures { PrintsAll result (W.contents sink.old) waiting.old (said_text answer) (W.contents sink.new) waiting.new }
{
    match answer {
        Answer::Taken => waiting.print(sink, b"taken"),
        Answer::Nothing => waiting.print(sink, b"none"),
        Answer::Unread => waiting.print(sink, b"no 25"),
        Answer::Profile(profile) => {
            waiting.print(sink, b"profile ")?;
            print_decimal(profile as u64, sink, waiting)
        }
        Answer::Refused(fault) => {
            waiting.print(sink, b"no ")?;
            print_fault(fault, sink, waiting)
        }
    }
}

// An answer's line, behind the bytes that wait.
#[tactic(auto, using(streams::proofs::OutputLaws::prints_on))]
pub fn print_answer<W: Write>(answer: Answer, sink: &mut W, waiting: &mut Waiting) -> io::Result<()>
    ensures { PrintsAll result (W.contents sink.old) waiting.old (answer_text answer) (W.contents sink.new) waiting.new }
{
    print_said(answer, sink, waiting)?;
    waiting.print(sink, b"\n")
}
