// Lines in turn: all rows, then look-ups. The table is judged once, at the first look-up or at the end.
ghost use Rattle.std.specs.Prelude.{◌≡◌, None, Some, false};
ghost use Rattle.profile_table.specs.declared.entry.Entry.TheVariants.{Look};
ghost use Rattle.profile_table.specs.Turn.{turn, verdict, look_answer, table_answer, unread, line_turn, last_turn, next_turn};

use crate::answer::Answer;
use crate::entry::{Entry, entry_in};
use crate::fault::Fault;
use crate::kept::Kept;
use crate::table::{check, profile};
use streams::input::Next;

// The table's judgement, or nothing before the first look-up; what is answered, if anything; whether that was all.
#[derive(Clone, Copy)]
pub struct Turn {
    pub judged: Option<Result<(), Fault>>,
    pub answer: Option<Answer>,
    pub ended: bool,
}

fn verdict(words: &[u32], judged: Option<Result<(), Fault>>) -> Result<(), Fault>
    ensures { verdict words.now judged ≡ result }
{
    match judged {
        Some(verdict) => verdict,
        None => check(words),
    }
}

fn look_answer(words: &[u32], verdict: Result<(), Fault>, device: u16, version: u16) -> Answer
    ensures { look_answer words.now verdict device version ≡ result }
{
    match verdict {
        Err(fault) => Answer::Refused(fault),
        Ok(()) => match profile(words, device, version) {
            Some(profile) => Answer::Profile(profile),
            None => Answer::Nothing,
        },
    }
}

fn table_answer(verdict: Result<(), Fault>) -> Answer
    ensures { table_answer verdict ≡ result }
{
    match verdict {
        Err(fault) => Answer::Refused(fault),
        Ok(()) => Answer::Taken,
    }
}

fn unread(judged: Option<Result<(), Fault>>) -> Turn
    ensures { unread judged ≡ result }
{
    Turn {
        judged,
        answer: Some(Answer::Unread),
        ended: true,
    }
}

fn look_turn(words: &[u32], judged: Option<Result<(), Fault>>, device: u16, version: u16) -> Turn
    ensures { line_turn words.now judged (Some (Look device version)) ≡ (result, words.now) }
{
    let verdict = verdict(words, judged);
    Turn {
        judged: Some(verdict),
        answer: Some(look_answer(words, verdict, device, version)),
        ended: false,
    }
}

fn passed(judged: Option<Result<(), Fault>>) -> Turn
    ensures { turn judged None false ≡ result }
{
    Turn {
        judged,
        answer: None,
        ended: false,
    }
}

fn line_turn(kept: &mut Kept, judged: Option<Result<(), Fault>>, line: Option<Entry>) -> Turn
    ensures { line_turn kept.old judged line ≡ (result, kept.new) }
{
    match line {
        None => unread(judged),
        Some(Entry::Blank) => passed(judged),
        Some(Entry::Look(device, version)) => look_turn(kept.as_slice(), judged, device, version),
        Some(Entry::Ranged(row)) => {
            if judged.is_some() {
                return unread(judged);
            }
            kept.add(row);
            passed(judged)
        }
    }
}

fn last_turn(words: &[u32], judged: Option<Result<(), Fault>>) -> Turn
    ensures { last_turn words.now judged ≡ result }
{
    if judged.is_some() {
        return Turn {
            judged,
            answer: None,
            ended: true,
        };
    }
    let verdict = check(words);
    Turn {
        judged: Some(verdict),
        answer: Some(table_answer(verdict)),
        ended: true,
    }
}

// What was fetched into a buffer. A line that is longer than the buffer cannot be read.
pub fn next_turn(
    kept: &mut Kept,
    judged: Option<Result<(), Fault>>,
    buf: &mut [u8],
    next: Next,
) -> Turn
    ensures { next_turn kept.old judged buf.old next ≡ (result, kept.new) }
{
    match next {
        Next::Line(start, end) => line_turn(kept, judged, entry_in(buf, start, end)),
        Next::Ended => last_turn(kept.as_slice(), judged),
        Next::Long => unread(judged),
    }
}
