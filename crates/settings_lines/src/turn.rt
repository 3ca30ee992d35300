// Lines in turn, over the words of the store.
ghost use Rattle.std.specs.Prelude.{◌≡◌, [], Some, drop};
ghost use Rattle.text.specs.Words.{words};
ghost use Rattle.settings_lines.specs.Turn.{turn, passed, answered, unread, load, behind_first, read_answer, pause_of, version_of, entry_turn, line_turn, next_turn};
ghost use Rattle.settings_lines.specs.declared.entry.Entry.TheVariants.{Store};

use crate::answer::Answer;
use crate::entry::{Entry, line_entry};
use crate::kept::Kept;
use settings::fault::Fault;
use settings::setting::Setting;
use settings::store::{named, newest};
use streams::input::Next;
use streams::part::part;
use text::{hex, word};

// What is answered, if anything; whether that was all.
#[derive(Clone, Copy)]
pub struct Turn {
    pub answer: Option<Answer>,
    pub ended: bool,
}

fn passed() -> Turn
    ensures { passed ≡ result }
{
    Turn {
        answer: None,
        ended: false,
    }
}

fn answered(answer: Answer) -> Turn
    ensures { answered answer ≡ result }
{
    Turn {
        answer: Some(answer),
        ended: false,
    }
}

fn unread() -> Turn
    ensures { unread ≡ result }
{
    Turn {
        answer: Some(Answer::Unread),
        ended: true,
    }
}

// The words of a line from a place on.
fn load(kept: &mut Kept, line: &[u8], from: usize) -> Turn
    ensures { load kept.old (words (drop from line.now)) ≡ (result, kept.new) }
{
    let mut at = from;
    while let Some((start, end)) = word(line, at) {
        let Some(value) = hex(line, start, end, 8, 8) else {
            return unread();
        };
        if !kept.add(value) {
            return unread();
        }
        at = end;
    }
    passed()
}

// The words behind the line's first.
fn load_turn(kept: &mut Kept, line: &[u8]) -> Turn
    ensures { load kept.old (behind_first (words line.now)) ≡ (result, kept.new) }
{
    match word(line, 0) {
        Some((_, end)) => load(kept, line, end),
        None => passed(),
    }
}

fn store_turn(kept: &mut Kept, lan: u32, pause: u64, veto: bool) -> Turn
    ensures { entry_turn kept.old [] (Some (Store lan pause veto)) ≡ (result, kept.new) }
{
    match kept.store(lan, pause_of(pause), veto) {
        Ok(version) => answered(Answer::Stored(version)),
        Err(fault) => answered(Answer::Refused(fault)),
    }
}

fn read_answer(read: Result<Option<Setting>, Fault>) -> Answer
    ensures { read_answer read ≡ result }
{
    match read {
        Ok(Some(setting)) => Answer::Found(setting),
        Ok(None) => Answer::Nothing,
        Err(fault) => Answer::Refused(fault),
    }
}

// A pause that fits in no word is out of range as any above 100.
fn pause_of(pause: u64) -> u32
    ensures { pause_of pause ≡ result }
{
    pause.min(0xffff_ffff) as u32
}

// A version that fits in no word is in no store, as 0 is not.
fn version_of(version: u64) -> u32
    ensures { version_of version ≡ result }
{
    if version <= 0xffff_ffff {
        return version as u32;
    }
    0
}

// What a line is answered.
pub fn line_turn(kept: &mut Kept, line: &[u8]) -> Turn
    ensures { line_turn kept.old line.now ≡ (result, kept.new) }
{
    match line_entry(line) {
        None => unread(),
        Some(Entry::Blank) => passed(),
        Some(Entry::Load) => load_turn(kept, line),
        Some(Entry::Store(lan, pause, veto)) => store_turn(kept, lan, pause, veto),
        Some(Entry::Newest(lan)) => answered(read_answer(newest(kept.as_slice(), lan))),
        Some(Entry::Named(lan, version)) => {
            answered(read_answer(named(kept.as_slice(), lan, version_of(version))))
        }
        Some(Entry::Show) => answered(Answer::Shown),
    }
}

// What was fetched into a buffer. A line that is longer than the buffer cannot be read.
pub fn next_turn(kept: &mut Kept, buf: &[u8], next: Next) -> Turn
    ensures { next_turn kept.old buf.now next ≡ (result, kept.new) }
{
    match next {
        Next::Line(start, end) => line_turn(kept, part(buf, start, end)),
        Next::Ended => Turn {
            answer: None,
            ended: true,
        },
        Next::Long => unread(),
    }
}
