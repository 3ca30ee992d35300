// The states of words as words, and back.
ghost use Rattle.packed.specs.Words.{get_link, words_link};

use crate::packed::Packed;
use crate::read::{after, word_at};
use crate::tape::{word, zeros};
use words::link::Link;

impl Packed for Link {
    ghost words = { words_link };

    ghost read = { get_link };

    #[tactic(auto, using(crate::proofs::Laws::word_then), unfolding(crate::specs::Words::words_link, crate::specs::Words::get_link, crate::specs::Tape::word_at))]
    fn put(self, tape: &mut [u32; 68], at: usize) -> usize {
        match self {
            Link::Down => {
                let at = word(tape, at, 1);
                zeros(tape, at, 2)
            },
            Link::Up { megabits } => {
                let at = word(tape, at, 2);
                megabits.put(tape, at)
            },
        }
    }

    #[tactic(auto, unfolding(crate::specs::Words::get_link))]
    fn get(tape: &[u32], at: usize) -> Link {
        let kind = word_at(tape, at, 0);
        if kind == 1 {
            Link::Down
        } else {
            Link::Up {
                megabits: Option::get(tape, after(tape, at, 1)),
            }
        }
    }
}
