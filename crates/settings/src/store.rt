// The calls on a store, lent as words, eight to a record.
ghost use Rattle.std.specs.Prelude.{◌≡◌, ◌≤◌, ◌<◌};
ghost use Rattle.settings.specs.Records.{records};
ghost use Rattle.settings.specs.Calls.{next_version, put, newest, named, store};
ghost use Rattle.settings.specs.Walk.{port, in_range, walked_or_damaged};

use crate::fault::Fault;
use crate::free::free;
use crate::layout::{RECORD, VERSION, is_pause, setting_of, word};
use crate::setting::Setting;
use crate::walk::{Both, walks};

// One above the head's, 1 in an empty chain; none behind the last that fits in a word.
fn next_version(words: &[u32], lan: u32) -> Option<u32>
    ensures { next_version words.now lan ≡ result }
{
    let head = word(words, lan as usize);
    if head == 0 {
        return Some(1);
    }
    word(words, RECORD * head as usize + VERSION).checked_add(1)
}

// The record first, then the head that leads to it.
fn put(words: &mut [u32], lan: u32, index: u32, version: u32, pause: u32, veto: bool)
    requires port { lan ≤ 1 }
    requires above { 0 < index }
    requires inside { index < records words.old }
    ensures { put words.old lan index version pause veto ≡ words.new }
{
    let at = RECORD * index as usize;
    let next = words[lan as usize];
    words[at..at + RECORD].copy_from_slice(&[next, version, pause, u32::from(veto), 0, 0, 0, 0]);
    words[lan as usize] = index;
}

fn port(lan: u32) -> Result<(), Fault>
    ensures { port lan ≡ result }
{
    if lan > 1 { Err(Fault::Lan) } else { Ok(()) }
}

fn in_range(pause: u32) -> Result<(), Fault>
    ensures { in_range pause ≡ result }
{
    if is_pause(pause) {
        Ok(())
    } else {
        Err(Fault::Pause)
    }
}

// The walks along the chains of a store that is not damaged.
fn walked(words: &[u32], wanted: u32) -> Result<Both, Fault>
    ensures { walked_or_damaged words.now wanted ≡ result }
{
    match walks(words, wanted) {
        Some(walks) => Ok(walks),
        None => Err(Fault::Damaged),
    }
}

// A new version before the others of a lan. It answers the version; a refused call changes no word.
#[tactic(auto, unfolding(crate::specs::Calls::store))]
pub fn store(words: &mut [u32], lan: u32, pause: u32, veto: bool) -> Result<u32, Fault>
    ensures { store words.old lan pause veto ≡ (result, words.new) }
{
    port(lan)?;
    in_range(pause)?;
    walked(words, 0)?;
    let Some(version) = next_version(words, lan) else {
        return Err(Fault::Full);
    };
    let Some(index) = free(words) else {
        return Err(Fault::Full);
    };
    put(words, lan, index, version, pause, veto);
    Ok(version)
}

// What a lan has now, if anything.
pub fn newest(words: &[u32], lan: u32) -> Result<Option<Setting>, Fault>
    ensures { newest words.now lan ≡ result }
{
    port(lan)?;
    walked(words, 0)?;
    let head = word(words, lan as usize);
    if head == 0 {
        return Ok(None);
    }
    Ok(Some(setting_of(words, head)))
}

// What a lan had by a version, if there is such a one.
pub fn named(words: &[u32], lan: u32, version: u32) -> Result<Option<Setting>, Fault>
    ensures { named words.now lan version ≡ result }
{
    port(lan)?;
    let walks = walked(words, version)?;
    match walks.of_lan(lan).found {
        Some(index) => Ok(Some(setting_of(words, index))),
        None => Ok(None),
    }
}
