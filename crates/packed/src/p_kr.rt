// The states of kr as words, and back.
ghost use Rattle.packed.specs.Kr.{get_kr_modify, get_kr_place, words_kr_modify, words_kr_place};

use crate::packed::Packed;
use crate::read::{is, word_at};
use crate::tape::{flag, word, zeros};
use kr::modify::KrModify;
use kr::sequence::KrPlace;

impl Packed for KrModify {
    ghost words = { words_kr_modify };

    ghost read = { get_kr_modify };

    #[tactic(auto, using(crate::proofs::Laws::word_then), unfolding(crate::specs::Kr::words_kr_modify, crate::specs::Kr::get_kr_modify, crate::specs::Tape::word_at))]
    fn put(self, tape: &mut [u32; 68], at: usize) -> usize {
        match self {
            KrModify::Reading => {
                let at = word(tape, at, 1);
                word(tape, at, 0)
            },
            KrModify::Writing(x) => {
                let at = word(tape, at, 2);
                word(tape, at, x)
            },
        }
    }

    #[tactic(auto, unfolding(crate::specs::Kr::get_kr_modify))]
    fn get(tape: &[u32], at: usize) -> KrModify {
        let kind = word_at(tape, at, 0);
        if kind == 1 {
            KrModify::Reading
        } else {
            KrModify::Writing(word_at(tape, at, 1))
        }
    }
}

impl Packed for KrPlace {
    ghost words = { words_kr_place };

    ghost read = { get_kr_place };

    #[tactic(auto, using(crate::proofs::Laws::is_flag), unfolding(crate::specs::Kr::words_kr_place, crate::specs::Kr::get_kr_place, crate::specs::Tape::word_at))]
    fn put(self, tape: &mut [u32; 68], at: usize) -> usize {
        match self {
            KrPlace::Advertise(x, y) => {
                let at = word(tape, at, 1);
                let at = flag(tape, at, x);
                flag(tape, at, y)
            },
            KrPlace::Lane => {
                let at = word(tape, at, 2);
                zeros(tape, at, 2)
            },
            KrPlace::Force(x) => {
                let at = word(tape, at, 3);
                let at = flag(tape, at, x);
                word(tape, at, 0)
            },
            KrPlace::Train => {
                let at = word(tape, at, 4);
                zeros(tape, at, 2)
            },
            KrPlace::Ffe4 => {
                let at = word(tape, at, 5);
                zeros(tape, at, 2)
            },
            KrPlace::Ffe5 => {
                let at = word(tape, at, 6);
                zeros(tape, at, 2)
            },
            KrPlace::Coeff => {
                let at = word(tape, at, 7);
                zeros(tape, at, 2)
            },
            KrPlace::Restart => {
                let at = word(tape, at, 8);
                zeros(tape, at, 2)
            },
            KrPlace::RestartLane => {
                let at = word(tape, at, 9);
                zeros(tape, at, 2)
            },
        }
    }

    #[tactic(auto, unfolding(crate::specs::Kr::get_kr_place))]
    fn get(tape: &[u32], at: usize) -> KrPlace {
        let kind = word_at(tape, at, 0);
        if kind == 1 {
            KrPlace::Advertise(is(word_at(tape, at, 1)), is(word_at(tape, at, 2)))
        } else if kind == 2 {
            KrPlace::Lane
        } else if kind == 3 {
            KrPlace::Force(is(word_at(tape, at, 1)))
        } else if kind == 4 {
            KrPlace::Train
        } else if kind == 5 {
            KrPlace::Ffe4
        } else if kind == 6 {
            KrPlace::Ffe5
        } else if kind == 7 {
            KrPlace::Coeff
        } else if kind == 8 {
            KrPlace::Restart
        } else {
            KrPlace::RestartLane
        }
    }
}
