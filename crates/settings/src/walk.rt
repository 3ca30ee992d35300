// A walk along a chain: whether it is whole, and what is found on the way.
ghost use Rattle.std.specs.Prelude.{◌≡◌, None};
ghost use Rattle.settings.specs.Records.{records};
ghost use Rattle.settings.specs.Walk.{walked, seen, walk_on, part, walks_of, of_lan};

use crate::layout::{RECORD, VERSION, has_form, is_good};

// The last record of a chain, 0 where it is empty; its record that has the version that is looked for.
#[derive(Clone, Copy)]
pub struct Walked {
    pub last: u32,
    pub found: Option<u32>,
}

#[derive(Clone, Copy)]
pub struct Both {
    pub first: Walked,
    pub second: Walked,
}

fn seen(version: u32, wanted: u32, index: u32, found: Option<u32>) -> Option<u32>
    ensures { seen version wanted index found ≡ result }
{
    found.or((version == wanted).then_some(index))
}

// Versions fall, so no record comes twice, and a whole chain has ended before the turns have.
fn walk(words: &[u32], head: u32, wanted: u32) -> Option<Walked>
    ensures { walk_on (records words.now) words.now wanted (walked 0 None) 4294967296 head ≡ result }
{
    let mut walked = Walked {
        last: 0,
        found: None,
    };
    let mut below: u64 = 1 << 32;
    let mut index = head;
    for _ in 0..words.len() / RECORD {
        if index == 0 {
            return Some(walked);
        }
        if !is_good(words, index) {
            return None;
        }
        let at = RECORD * index as usize;
        let version = words[at + VERSION];
        if version as u64 >= below {
            return None;
        }
        below = version as u64;
        walked = Walked {
            last: index,
            found: seen(version, wanted, index, walked.found),
        };
        index = words[at];
    }
    None
}

impl Both {
    pub fn of_lan(self, lan: u32) -> Walked
        ensures { of_lan self lan ≡ result }
    {
        if lan == 0 { self.first } else { self.second }
    }
}

// Chains that have a record in common have what follows it in common, and so the last.
fn part(a: Walked, b: Walked) -> bool
    ensures { part a b ≡ result }
{
    a.last == 0 || a.last != b.last
}

// One walk along each chain; nothing where the store is damaged.
#[tactic(auto, using(crate::proofs::WholeLaws::walks_are))]
pub fn walks(words: &[u32], wanted: u32) -> Option<Both>
    ensures { walks_of words.now wanted ≡ result }
{
    if !has_form(words) {
        return None;
    }
    let first = walk(words, words[0], wanted)?;
    let second = walk(words, words[1], wanted)?;
    if part(first, second) {
        Some(Both { first, second })
    } else {
        None
    }
}
