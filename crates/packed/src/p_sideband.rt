// The states of sideband as words, and back.
ghost use Rattle.packed.specs.Sideband.{get_idle, get_kr, get_kr_wanted, get_nvm, words_idle, words_kr, words_kr_wanted, words_nvm};

use crate::packed::Packed;
use crate::read::{after, word_at};
use crate::tape::{word, zeros};
use hostif::post::Post;
use sideband::idle::Idle;
use sideband::kr_access::{Kr, KrWanted};
use sideband::nvm::Nvm;

impl Packed for KrWanted {
    ghost words = { words_kr_wanted };

    ghost read = { get_kr_wanted };

    #[tactic(auto, unfolding(crate::specs::Sideband::words_kr_wanted, crate::specs::Sideband::get_kr_wanted, crate::specs::Tape::word_at))]
    fn put(self, tape: &mut [u32; 68], at: usize) -> usize {
        match self {
            KrWanted::Read(x) => {
                let at = word(tape, at, 1);
                let at = word(tape, at, x);
                word(tape, at, 0)
            },
            KrWanted::Write(x, y) => {
                let at = word(tape, at, 2);
                let at = word(tape, at, x);
                word(tape, at, y)
            },
        }
    }

    #[tactic(auto, unfolding(crate::specs::Sideband::get_kr_wanted))]
    fn get(tape: &[u32], at: usize) -> KrWanted {
        let kind = word_at(tape, at, 0);
        if kind == 1 {
            KrWanted::Read(word_at(tape, at, 1))
        } else {
            KrWanted::Write(word_at(tape, at, 1), word_at(tape, at, 2))
        }
    }
}

impl Packed for Idle {
    ghost words = { words_idle };

    ghost read = { get_idle };

    #[tactic(auto, unfolding(crate::specs::Sideband::words_idle, crate::specs::Sideband::get_idle, crate::specs::Tape::word_at))]
    fn put(self, tape: &mut [u32; 68], at: usize) -> usize {
        match self {
            Idle::Reading(x) => {
                let at = word(tape, at, 1);
                let at = word(tape, at, x);
                word(tape, at, 0)
            },
            Idle::Waiting(x, y) => {
                let at = word(tape, at, 2);
                let at = word(tape, at, x);
                word(tape, at, y)
            },
        }
    }

    #[tactic(auto, unfolding(crate::specs::Sideband::get_idle))]
    fn get(tape: &[u32], at: usize) -> Idle {
        let kind = word_at(tape, at, 0);
        if kind == 1 {
            Idle::Reading(word_at(tape, at, 1))
        } else {
            Idle::Waiting(word_at(tape, at, 1), word_at(tape, at, 2))
        }
    }
}

impl Packed for Kr {
    ghost words = { words_kr };

    ghost read = { get_kr };

    #[tactic(auto, using(crate::proofs::Laws::word_then), unfolding(crate::specs::Sideband::words_kr, crate::specs::Sideband::get_kr, crate::specs::Tape::word_at))]
    fn put(self, tape: &mut [u32; 68], at: usize) -> usize {
        match self {
            Kr::First(idle) => {
                let at = word(tape, at, 1);
                idle.put(tape, at)
            },
            Kr::Select => {
                let at = word(tape, at, 2);
                zeros(tape, at, 3)
            },
            Kr::Second(idle) => {
                let at = word(tape, at, 3);
                idle.put(tape, at)
            },
            Kr::Data => {
                let at = word(tape, at, 4);
                zeros(tape, at, 3)
            },
        }
    }

    #[tactic(auto, unfolding(crate::specs::Sideband::get_kr))]
    fn get(tape: &[u32], at: usize) -> Kr {
        let kind = word_at(tape, at, 0);
        if kind == 1 {
            Kr::First(Idle::get(tape, after(tape, at, 1)))
        } else if kind == 2 {
            Kr::Select
        } else if kind == 3 {
            Kr::Second(Idle::get(tape, after(tape, at, 1)))
        } else {
            Kr::Data
        }
    }
}

impl Packed for Nvm {
    ghost words = { words_nvm };

    ghost read = { get_nvm };

    #[tactic(auto, using(crate::proofs::Laws::word_then), unfolding(crate::specs::Sideband::words_nvm, crate::specs::Sideband::get_nvm, crate::specs::Tape::word_at))]
    fn put(self, tape: &mut [u32; 68], at: usize) -> usize {
        match self {
            Nvm::Post(post) => {
                let at = word(tape, at, 1);
                post.put(tape, at)
            },
            Nvm::Data => {
                let at = word(tape, at, 2);
                zeros(tape, at, 4)
            },
        }
    }

    #[tactic(auto, unfolding(crate::specs::Sideband::get_nvm))]
    fn get(tape: &[u32], at: usize) -> Nvm {
        let kind = word_at(tape, at, 0);
        if kind == 1 {
            Nvm::Post(Post::get(tape, after(tape, at, 1)))
        } else {
            Nvm::Data
        }
    }
}
