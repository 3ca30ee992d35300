// The words of a store: eight to a record. Record 0 has the heads of the two chains.
ghost use Rattle.std.specs.Prelude.{◌≡◌, ◌≤◌, ◌+◌, length};
ghost use Rattle.settings.specs.Records.{word, setting};
ghost use Rattle.settings.specs.Whole.{zeros, is_pause, is_good, has_form};

use crate::setting::Setting;

// Words to a record.
pub const RECORD: usize = 8;

// Places of a record's fields; four zeros stand behind them.
pub const VERSION: usize = 1;

pub const PAUSE: usize = 2;

pub const VETO: usize = 3;

const ZEROS: usize = 4;

// A word of the store; 0 behind its end.
pub fn word(words: &[u32], at: usize) -> u32
    ensures { word words.now at ≡ result }
{
    match words.get(at) {
        Some(word) => *word,
        None => 0,
    }
}

// Whether so many words from a place on are all zero.
fn zeros(words: &[u32], at: usize, count: usize) -> bool
    requires { at + count ≤ length words.now }
    ensures { zeros words.now at count ≡ result }
{
    words[at..at + count].iter().all(|word| *word == 0)
}

// A pause is from 1 to 100 microseconds.
pub fn is_pause(pause: u32) -> bool
    ensures { is_pause pause ≡ result }
{
    1 <= pause && pause <= 100
}

// Whether a record may stand in a chain.
#[tactic(auto, unfolding(crate::specs::Whole::is_good))]
pub fn is_good(words: &[u32], index: u32) -> bool
    ensures { is_good words.now index ≡ result }
{
    let at = RECORD * index as usize;
    (index as usize) < words.len() / RECORD
        && 1 <= words[at + VERSION]
        && is_pause(words[at + PAUSE])
        && words[at + VETO] <= 1
        && zeros(words, at + ZEROS, 4)
}

// Whole records, record 0 among them, and the zeros behind the heads.
pub fn has_form(words: &[u32]) -> bool
    ensures { has_form words.now ≡ result }
{
    words.len() % RECORD == 0 && words.len() >= RECORD && zeros(words, 2, 6)
}

// What a record has set.
pub fn setting_of(words: &[u32], index: u32) -> Setting
    ensures { setting words.now index ≡ result }
{
    let at = RECORD * index as usize;
    Setting {
        version: word(words, at + VERSION),
        pause: word(words, at + PAUSE),
        veto: word(words, at + VETO) == 1,
    }
}
