// The first record that is in neither chain.
ghost use Rattle.std.specs.Prelude.{ℕ, ◌≡◌, ◌<◌, ◌+◌, ◌^◌, ◌||◌, eqb, not, min};
ghost use Rattle.settings.specs.Records.{records, chain_from};
ghost use Rattle.settings.specs.Whole.{has};
ghost use Rattle.settings.specs.Calls.{is_free, first, free};
ghost use Rattle.settings.specs.Walk.{is_marked};

use crate::layout::{RECORD, word};
use crate::marks::{MARKS, Marks};

// A mark for a record, if it is one of the 65,536 from `base` on.
fn mark_record(index: u32, base: usize, marks: &mut Marks)
    ensures { (k : ℕ) → k < 65536 → is_marked marks.new.words k ≡ (eqb index (base + k) || is_marked marks.old.words k) }
{
    let at = index as usize;
    if at >= base && at - base < MARKS {
        marks.set(at - base);
    }
}

// The same for each record of a chain.
fn mark(words: &[u32], head: u32, base: usize, marks: &mut Marks)
    ensures { (k : ℕ) → k < 65536 → is_marked marks.new.words k ≡ (has (base + k) (chain_from (records words.now) words.now head) || is_marked marks.old.words k) }
{
    let mut index = head;
    for _ in 0..words.len() / RECORD {
        if index == 0 {
            return;
        }
        mark_record(index, base, marks);
        index = word(words, RECORD * index as usize);
    }
}

// The first place that has no mark.
fn unmarked(marks: &Marks, count: usize) -> Option<usize>
    ensures { first (λ k. not (is_marked marks.now.words k)) 0 (min count 65536) ≡ result }
{
    for place in 0..count.min(MARKS) {
        if !marks.has(place) {
            return Some(place);
        }
    }
    None
}

fn free_from(words: &[u32], base: usize, count: usize) -> Option<usize>
    requires { base + count < 2 ^ 64 }
    ensures { first (is_free words.now) base (min count 65536) ≡ result }
{
    let mut marks = Marks::new();
    mark(words, word(words, 0), base, &mut marks);
    mark(words, word(words, 1), base, &mut marks);
    match unmarked(&marks, count) {
        Some(place) => Some(base + place),
        None => None,
    }
}

// One pass over the chains for 65,536 records: in a larger store there may be none free among the first.
pub fn free(words: &[u32]) -> Option<u32>
    ensures { free words.now ≡ result }
{
    let end = (words.len() / RECORD).min(1 << 32);
    let mut base = 1;
    while base < end {
        if let Some(index) = free_from(words, base, end - base) {
            return Some(index as u32);
        }
        base += MARKS;
    }
    None
}
