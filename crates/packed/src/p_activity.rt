// The states of activity as words, and back.
ghost use Rattle.packed.specs.Activity.{get_activity, words_activity};

use crate::packed::Packed;
use crate::read::{byte, word_at};
use crate::tape::{wide_byte, word};
use activity::Activity;

impl Packed for Activity {
    ghost words = { words_activity };

    ghost read = { get_activity };

    #[tactic(auto, unfolding(crate::specs::Activity::words_activity, crate::specs::Activity::get_activity, crate::specs::Tape::word_at))]
    fn put(self, tape: &mut [u32; 68], at: usize) -> usize {
        match self {
            Activity::Exchanging(x) => {
                let at = word(tape, at, 1);
                let at = word(tape, at, x);
                word(tape, at, 0)
            },
            Activity::Pausing(x, y) => {
                let at = word(tape, at, 2);
                let at = word(tape, at, x);
                word(tape, at, wide_byte(y))
            },
        }
    }

    #[tactic(auto, unfolding(crate::specs::Activity::get_activity))]
    fn get(tape: &[u32], at: usize) -> Activity {
        let kind = word_at(tape, at, 0);
        if kind == 1 {
            Activity::Exchanging(word_at(tape, at, 1))
        } else {
            Activity::Pausing(word_at(tape, at, 1), byte(word_at(tape, at, 2)))
        }
    }
}
