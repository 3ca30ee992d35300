// The states of mdio as words, and back.
ghost use Rattle.packed.specs.Mdio.{get_cycle, get_mdio, get_mdio_place, get_wanted, words_cycle, words_mdio, words_mdio_place, words_wanted};

use crate::packed::Packed;
use crate::read::{after, half, word_at};
use crate::tape::{wide, word, zeros};
use mdio::cycle::Cycle;
use mdio::mdio::{Mdio, MdioPlace, Wanted};

impl Packed for Wanted {
    ghost words = { words_wanted };

    ghost read = { get_wanted };

    #[tactic(auto, unfolding(crate::specs::Mdio::words_wanted, crate::specs::Mdio::get_wanted, crate::specs::Tape::word_at))]
    fn put(self, tape: &mut [u32; 68], at: usize) -> usize {
        match self {
            Wanted::Read(x) => {
                let at = word(tape, at, 1);
                let at = word(tape, at, x);
                word(tape, at, 0)
            },
            Wanted::Write(x, y) => {
                let at = word(tape, at, 2);
                let at = word(tape, at, x);
                word(tape, at, wide(y))
            },
        }
    }

    #[tactic(auto, unfolding(crate::specs::Mdio::get_wanted))]
    fn get(tape: &[u32], at: usize) -> Wanted {
        let kind = word_at(tape, at, 0);
        if kind == 1 {
            Wanted::Read(word_at(tape, at, 1))
        } else {
            Wanted::Write(word_at(tape, at, 1), half(word_at(tape, at, 2)))
        }
    }
}

impl Packed for MdioPlace {
    ghost words = { words_mdio_place };

    ghost read = { get_mdio_place };

    #[tactic(auto, unfolding(crate::specs::Mdio::words_mdio_place, crate::specs::Mdio::get_mdio_place, crate::specs::Tape::word_at))]
    fn put(self, tape: &mut [u32; 68], at: usize) -> usize {
        match self {
            MdioPlace::Address => word(tape, at, 1),
            MdioPlace::Operation => word(tape, at, 2),
        }
    }

    #[tactic(auto, unfolding(crate::specs::Mdio::get_mdio_place))]
    fn get(tape: &[u32], at: usize) -> MdioPlace {
        let kind = word_at(tape, at, 0);
        if kind == 1 {
            MdioPlace::Address
        } else {
            MdioPlace::Operation
        }
    }
}

impl Packed for Cycle {
    ghost words = { words_cycle };

    ghost read = { get_cycle };

    #[tactic(auto, using(crate::proofs::Laws::word_then), unfolding(crate::specs::Mdio::words_cycle, crate::specs::Mdio::get_cycle, crate::specs::Tape::word_at))]
    fn put(self, tape: &mut [u32; 68], at: usize) -> usize {
        match self {
            Cycle::Starting => {
                let at = word(tape, at, 1);
                word(tape, at, 0)
            },
            Cycle::Waiting(x) => {
                let at = word(tape, at, 2);
                word(tape, at, x)
            },
            Cycle::Reading(x) => {
                let at = word(tape, at, 3);
                word(tape, at, x)
            },
        }
    }

    #[tactic(auto, unfolding(crate::specs::Mdio::get_cycle))]
    fn get(tape: &[u32], at: usize) -> Cycle {
        let kind = word_at(tape, at, 0);
        if kind == 1 {
            Cycle::Starting
        } else if kind == 2 {
            Cycle::Waiting(word_at(tape, at, 1))
        } else {
            Cycle::Reading(word_at(tape, at, 1))
        }
    }
}

impl Packed for Mdio {
    ghost words = { words_mdio };

    ghost read = { get_mdio };

    #[tactic(auto, unfolding(crate::specs::Mdio::words_mdio, crate::specs::Mdio::get_mdio, crate::specs::Tape::word_at))]
    fn put(self, tape: &mut [u32; 68], at: usize) -> usize {
        match self {
            Mdio::Value => {
                let at = word(tape, at, 1);
                zeros(tape, at, 3)
            },
            Mdio::Cycling(mdio_place, cycle) => {
                let at = word(tape, at, 2);
                let at = mdio_place.put(tape, at);
                cycle.put(tape, at)
            },
            Mdio::Data => {
                let at = word(tape, at, 3);
                zeros(tape, at, 3)
            },
        }
    }

    #[tactic(auto, unfolding(crate::specs::Mdio::get_mdio))]
    fn get(tape: &[u32], at: usize) -> Mdio {
        let kind = word_at(tape, at, 0);
        if kind == 1 {
            Mdio::Value
        } else if kind == 2 {
            Mdio::Cycling(
                MdioPlace::get(tape, after(tape, at, 1)),
                Cycle::get(tape, after(tape, at, 2)),
            )
        } else {
            Mdio::Data
        }
    }
}
