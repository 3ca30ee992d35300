// A line: nothing, a row, or a look-up. Fields stand between blanks, tabs and commas.
ghost use Rattle.std.specs.Prelude.{◌≡◌, drop, map};
ghost use Rattle.text.specs.Words.{words};
ghost use Rattle.streams.specs.Part.{part_of};
ghost use Rattle.profile_table.specs.Entry.{blank, fields, hex_field, decimal_field, left_of, profile_word, IsShort, row_entry, look_entry, entry_of};

use crate::row::Row;
use text::decimal::number;
use text::{hex, is, word};

#[derive(Clone, Copy)]
pub enum Entry {
    Blank,
    Ranged(Row),
    // A device and a version.
    Look(u16, u16),
}

// A comma parts fields as a blank does.
fn blank(b: u8) -> u8
    ensures { blank b ≡ result }
{
    if b == b',' { b' ' } else { b }
}

fn blank_commas(line: &mut [u8])
    ensures { line.new ≡ map blank line.old }
{
    for b in line.iter_mut() {
        *b = blank(*b);
    }
}

// The next field as four hexadecimal digits, and where it ends.
#[tactic(auto, using(lines::proofs::Laws::found_hex, lines::proofs::Laws::four_below))]
fn hex_field(line: &[u8], at: usize) -> Option<(u32, usize)>
    ensures value { hex_field (words (drop at line.now)) ≡ left_of line.now result }
    ensures short { IsShort result }
{
    let (start, end) = word(line, at)?;
    let value = hex(line, start, end, 4, 4)?;
    Some((value, end))
}

#[tactic(auto, unfolding(crate::specs::Entry::profile_word))]
fn profile(word: &[u8]) -> Option<u32>
    ensures { profile_word word.now ≡ result }
{
    if word.len() > 3 {
        return None;
    }
    let v = number(word)?;
    if v > 255 {
        return None;
    }
    Some(v as u32)
}

#[tactic(auto, using(text::proofs::PartLaws::part_slice))]
fn decimal_field(line: &[u8], at: usize) -> Option<(u32, usize)>
    ensures { decimal_field (words (drop at line.now)) ≡ left_of line.now result }
{
    let (start, end) = word(line, at)?;
    let value = profile(line.get(start..end)?)?;
    Some((value, end))
}

#[tactic(auto, unfolding(crate::specs::Entry::row_entry))]
fn row_entry(line: &[u8]) -> Option<Row>
    ensures { row_entry (words line.now) ≡ result }
{
    let (device, at) = hex_field(line, 0)?;
    let (first, at) = hex_field(line, at)?;
    let (last, at) = hex_field(line, at)?;
    let (profile, at) = decimal_field(line, at)?;
    if word(line, at).is_some() {
        return None;
    }
    Some(Row {
        device,
        first,
        last,
        profile,
    })
}

#[tactic(auto, unfolding(crate::specs::Entry::look_entry))]
fn look_entry(line: &[u8], at: usize) -> Option<Entry>
    ensures { look_entry (words (drop at line.now)) ≡ result }
{
    let (device, at) = hex_field(line, at)?;
    let (version, at) = hex_field(line, at)?;
    if word(line, at).is_some() {
        return None;
    }
    Some(Entry::Look(device as u16, version as u16))
}

// None where the line cannot be read.
#[tactic(auto, using(lines::proofs::Laws::found_is))]
fn line_entry(line: &[u8]) -> Option<Entry>
    ensures { entry_of (words line.now) ≡ result }
{
    let Some((start, end)) = word(line, 0) else {
        return Some(Entry::Blank);
    };
    if is(line, start, end, b"look") {
        return look_entry(line, end);
    }
    row_entry(line).map(Entry::Ranged)
}

// The line from `start` up to `end`, whose commas become blanks. Where the buffer has no such part, it is empty.
#[tactic(auto, using(text::proofs::PartLaws::part_slice, text::proofs::WordLaws::words_none), unfolding(streams::specs::Part::part_of))]
pub fn entry_in(buf: &mut [u8], start: usize, end: usize) -> Option<Entry>
    ensures { entry_of (fields (part_of buf.old start end)) ≡ result }
{
    match buf.get_mut(start..end) {
        Some(line) => {
            blank_commas(line);
            line_entry(line)
        }
        None => Some(Entry::Blank),
    }
}
