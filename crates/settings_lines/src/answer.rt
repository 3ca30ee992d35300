// What is answered, as lines.
ghost use Rattle.std.specs.Prelude.{◌∷◌, [], ◌++◌, ◌≡◌, ◌<◌, length, eqb, ◌+◌};
ghost use Rattle.text.specs.Digits.{hex_digits, decimal_digits};
ghost use Rattle.streams.specs.Output.{PrintsAll};
ghost use Rattle.settings_lines.specs.Answer.{setting_text, behind, shown_from, answer_text};

use settings::fault::Fault;
use settings::setting::Setting;
use std::io;
use std::io::Write;
use streams::output::Waiting;
use text::{decimal_digits, hex_digits};

// A new version; what was found, or nothing; a call's error; the words; a line that cannot be read.
#[derive(Clone, Copy)]
pub enum Answer {
    Stored(u32),
    Found(Setting),
    Nothing,
    Refused(Fault),
    Shown,
    Unread,
}

fn print_decimal<W: Write>(value: u32, sink: &mut W, waiting: &mut Waiting) -> io::Result<()>
    ensures { PrintsAll result (W.contents sink.old) waiting.old (decimal_digits value) (W.contents sink.new) waiting.new }
{
    let (digits, from) = decimal_digits(value as u64);
    waiting.print(sink, &digits[from..])
}

#[tactic(auto, using(streams::proofs::OutputLaws::prints_on))]
fn print_setting<W: Write>(setting: Setting, sink: &mut W, waiting: &mut Waiting) -> io::Result<()>
    ensures { PrintsAll result (W.contents sink.old) waiting.old (setting_text setting) (W.contents sink.new) waiting.new }
{
    waiting.print(sink, b"version ")?;
    print_decimal(setting.version, sink, waiting)?;
    waiting.print(sink, b" pause ")?;
    print_decimal(setting.pause, sink, waiting)?;
    waiting.print(sink, b" veto ")?;
    if setting.veto {
        waiting.print(sink, b"1")
    } else {
        waiting.print(sink, b"0")
    }
}

// A newline behind every eighth word and the last, a blank behind the others.
fn behind(place: usize, last: bool) -> u8
    ensures { behind place last ≡ result }
{
    if place % 8 == 7 || last { b'\n' } else { b' ' }
}

fn print_word<W: Write>(
    word: u32,
    behind: u8,
    sink: &mut W,
    waiting: &mut Waiting,
) -> io::Result<()>
    ensures { PrintsAll result (W.contents sink.old) waiting.old (hex_digits word ++ behind ∷ []) (W.contents sink.new) waiting.new }
{
    waiting.print(sink, &hex_digits(word))?;
    waiting.print(sink, &[behind])
}

// Eight words to a line.
fn print_words<W: Write>(words: &[u32], sink: &mut W, waiting: &mut Waiting) -> io::Result<()>
    ensures { PrintsAll result (W.contents sink.old) waiting.old (shown_from 0 words.now) (W.contents sink.new) waiting.new }
{
    for place in 0..words.len() {
        let behind = behind(place, place + 1 == words.len());
        print_word(words[place], behind, sink, waiting)?;
    }
    Ok(())
}

// An answer's lines, behind the bytes that wait.
#[tactic(auto, using(streams::proofs::OutputLaws::prints_on))]
pub fn print_answer<W: Write>(
    answer: Answer,
    words: &[u32],
    sink: &mut W,
    waiting: &mut Waiting,
) -> io::Result<()>
    ensures { PrintsAll result (W.contents sink.old) waiting.old (answer_text words.now answer) (W.contents sink.new) waiting.new }
{
    match answer {
        Answer::Shown => return print_words(words, sink, waiting),
        Answer::Found(setting) => print_setting(setting, sink, waiting)?,
        Answer::Nothing => waiting.print(sink, b"none")?,
        Answer::Unread => waiting.print(sink, b"no 25")?,
        Answer::Stored(version) => {
            waiting.print(sink, b"stored ")?;
            print_decimal(version, sink, waiting)?;
        }
        Answer::Refused(fault) => {
            waiting.print(sink, b"no ")?;
            print_decimal(fault.number(), sink, waiting)?;
        }
    }
    waiting.print(sink, b"\n")
}
