// A line: nothing, words to load, a store, a look-up, or that the words are to be shown.
ghost use Rattle.std.specs.Prelude.{◌≡◌, drop};
ghost use Rattle.text.specs.Words.{words};
ghost use Rattle.profile_table.specs.Entry.{left_of, last_of};
ghost use Rattle.settings_lines.specs.Entry.{lan_field, number_field, veto_field, store_entry, newest_entry, named_entry, entry_of};
ghost use Rattle.settings_lines.specs.declared.entry.Entry.TheVariants.{Show};

use text::decimal::number;
use text::{hex, is, word};

#[derive(Clone, Copy)]
pub enum Entry {
    Blank,
    Load,
    // A lan, a pause and a veto; the pause in ten decimal digits may be more than a word holds.
    Store(u32, u64, bool),
    Newest(u32),
    // A lan and a version.
    Named(u32, u64),
    Show,
}

// The next field as one to eight hexadecimal digits, and where it ends.
#[tactic(auto, using(lines::proofs::Laws::found_hex))]
fn lan_field(line: &[u8], at: usize) -> Option<(u32, usize)>
    ensures { lan_field (words (drop at line.now)) ≡ left_of line.now result }
{
    let (start, end) = word(line, at)?;
    let lan = hex(line, start, end, 1, 8)?;
    Some((lan, end))
}

// The next field as one to ten decimal digits.
#[tactic(auto, using(text::proofs::PartLaws::part_slice))]
fn number_field(line: &[u8], at: usize) -> Option<(u64, usize)>
    ensures { number_field (words (drop at line.now)) ≡ left_of line.now result }
{
    let (start, end) = word(line, at)?;
    let value = number(line.get(start..end)?)?;
    Some((value, end))
}

// The next field as `0` or `1`.
#[tactic(auto, using(lines::proofs::Laws::found_is))]
fn veto_field(line: &[u8], at: usize) -> Option<(u32, usize)>
    ensures { veto_field (words (drop at line.now)) ≡ left_of line.now result }
{
    let (start, end) = word(line, at)?;
    if is(line, start, end, b"1") {
        return Some((1, end));
    }
    if is(line, start, end, b"0") {
        return Some((0, end));
    }
    None
}

#[tactic(auto, unfolding(crate::specs::Entry::store_entry))]
fn store_entry(line: &[u8], at: usize) -> Option<Entry>
    ensures { store_entry (words (drop at line.now)) ≡ result }
{
    let (lan, at) = lan_field(line, at)?;
    let (pause, at) = number_field(line, at)?;
    let (veto, at) = veto_field(line, at)?;
    if word(line, at).is_some() {
        return None;
    }
    Some(Entry::Store(lan, pause, veto == 1))
}

#[tactic(auto, unfolding(crate::specs::Entry::newest_entry))]
fn newest_entry(line: &[u8], at: usize) -> Option<Entry>
    ensures { newest_entry (words (drop at line.now)) ≡ result }
{
    let (lan, at) = lan_field(line, at)?;
    if word(line, at).is_some() {
        return None;
    }
    Some(Entry::Newest(lan))
}

#[tactic(auto, unfolding(crate::specs::Entry::named_entry))]
fn named_entry(line: &[u8], at: usize) -> Option<Entry>
    ensures { named_entry (words (drop at line.now)) ≡ result }
{
    let (lan, at) = lan_field(line, at)?;
    let (version, at) = number_field(line, at)?;
    if word(line, at).is_some() {
        return None;
    }
    Some(Entry::Named(lan, version))
}

fn show_entry(line: &[u8], at: usize) -> Option<Entry>
    ensures { last_of Show (words (drop at line.now)) ≡ result }
{
    if word(line, at).is_some() {
        return None;
    }
    Some(Entry::Show)
}

// By the line's first word; none where the line cannot be read.
#[tactic(auto, using(lines::proofs::Laws::found_is))]
pub fn line_entry(line: &[u8]) -> Option<Entry>
    ensures { entry_of (words line.now) ≡ result }
{
    let Some((start, end)) = word(line, 0) else {
        return Some(Entry::Blank);
    };
    if is(line, start, end, b"load") {
        return Some(Entry::Load);
    }
    if is(line, start, end, b"store") {
        return store_entry(line, end);
    }
    if is(line, start, end, b"newest") {
        return newest_entry(line, end);
    }
    if is(line, start, end, b"version") {
        return named_entry(line, end);
    }
    if is(line, start, end, b"show") {
        return show_entry(line, end);
    }
    None
}
