// The states of phy as words, and back.
ghost use Rattle.packed.specs.Phy.{get_advertise_place, get_an_link, get_clock, get_modify, get_probe, get_reset, words_advertise_place, words_an_link, words_clock, words_modify, words_probe, words_reset};

use crate::packed::Packed;
use crate::read::{half, word_at};
use crate::tape::{wide, word};
use phy::advertise::AdvertisePlace;
use phy::an_link::AnLink;
use phy::clock::Clock;
use phy::modify::Modify;
use phy::probe::Probe;
use phy::reset::Reset;

impl Packed for Modify {
    ghost words = { words_modify };

    ghost read = { get_modify };

    #[tactic(auto, using(crate::proofs::Laws::word_then), unfolding(crate::specs::Phy::words_modify, crate::specs::Phy::get_modify, crate::specs::Tape::word_at))]
    fn put(self, tape: &mut [u32; 68], at: usize) -> usize {
        match self {
            Modify::Reading => {
                let at = word(tape, at, 1);
                word(tape, at, 0)
            },
            Modify::Writing(x) => {
                let at = word(tape, at, 2);
                word(tape, at, wide(x))
            },
        }
    }

    #[tactic(auto, unfolding(crate::specs::Phy::get_modify))]
    fn get(tape: &[u32], at: usize) -> Modify {
        let kind = word_at(tape, at, 0);
        if kind == 1 {
            Modify::Reading
        } else {
            Modify::Writing(half(word_at(tape, at, 1)))
        }
    }
}

impl Packed for Probe {
    ghost words = { words_probe };

    ghost read = { get_probe };

    #[tactic(auto, using(crate::proofs::Laws::word_then), unfolding(crate::specs::Phy::words_probe, crate::specs::Phy::get_probe, crate::specs::Tape::word_at))]
    fn put(self, tape: &mut [u32; 68], at: usize) -> usize {
        match self {
            Probe::High => {
                let at = word(tape, at, 1);
                word(tape, at, 0)
            },
            Probe::Low(x) => {
                let at = word(tape, at, 2);
                word(tape, at, x)
            },
        }
    }

    #[tactic(auto, unfolding(crate::specs::Phy::get_probe))]
    fn get(tape: &[u32], at: usize) -> Probe {
        let kind = word_at(tape, at, 0);
        if kind == 1 {
            Probe::High
        } else {
            Probe::Low(word_at(tape, at, 1))
        }
    }
}

impl Packed for Reset {
    ghost words = { words_reset };

    ghost read = { get_reset };

    #[tactic(auto, using(crate::proofs::Laws::word_then), unfolding(crate::specs::Phy::words_reset, crate::specs::Phy::get_reset, crate::specs::Tape::word_at))]
    fn put(self, tape: &mut [u32; 68], at: usize) -> usize {
        match self {
            Reset::Starting => {
                let at = word(tape, at, 1);
                word(tape, at, 0)
            },
            Reset::Waiting(x) => {
                let at = word(tape, at, 2);
                word(tape, at, x)
            },
            Reset::Polling(x) => {
                let at = word(tape, at, 3);
                word(tape, at, x)
            },
            Reset::Settling => {
                let at = word(tape, at, 4);
                word(tape, at, 0)
            },
            Reset::Checking => {
                let at = word(tape, at, 5);
                word(tape, at, 0)
            },
        }
    }

    #[tactic(auto, unfolding(crate::specs::Phy::get_reset))]
    fn get(tape: &[u32], at: usize) -> Reset {
        let kind = word_at(tape, at, 0);
        if kind == 1 {
            Reset::Starting
        } else if kind == 2 {
            Reset::Waiting(word_at(tape, at, 1))
        } else if kind == 3 {
            Reset::Polling(word_at(tape, at, 1))
        } else if kind == 4 {
            Reset::Settling
        } else {
            Reset::Checking
        }
    }
}

impl Packed for AnLink {
    ghost words = { words_an_link };

    ghost read = { get_an_link };

    #[tactic(auto, unfolding(crate::specs::Phy::words_an_link, crate::specs::Phy::get_an_link, crate::specs::Tape::word_at))]
    fn put(self, tape: &mut [u32; 68], at: usize) -> usize {
        match self {
            AnLink::First => word(tape, at, 1),
            AnLink::Second => word(tape, at, 2),
        }
    }

    #[tactic(auto, unfolding(crate::specs::Phy::get_an_link))]
    fn get(tape: &[u32], at: usize) -> AnLink {
        let kind = word_at(tape, at, 0);
        if kind == 1 {
            AnLink::First
        } else {
            AnLink::Second
        }
    }
}

impl Packed for AdvertisePlace {
    ghost words = { words_advertise_place };

    ghost read = { get_advertise_place };

    #[tactic(auto, unfolding(crate::specs::Phy::words_advertise_place, crate::specs::Phy::get_advertise_place, crate::specs::Tape::word_at))]
    fn put(self, tape: &mut [u32; 68], at: usize) -> usize {
        match self {
            AdvertisePlace::Ten => word(tape, at, 1),
            AdvertisePlace::One => word(tape, at, 2),
            AdvertisePlace::Hundred => word(tape, at, 3),
            AdvertisePlace::Restart => word(tape, at, 4),
        }
    }

    #[tactic(auto, unfolding(crate::specs::Phy::get_advertise_place))]
    fn get(tape: &[u32], at: usize) -> AdvertisePlace {
        let kind = word_at(tape, at, 0);
        if kind == 1 {
            AdvertisePlace::Ten
        } else if kind == 2 {
            AdvertisePlace::One
        } else if kind == 3 {
            AdvertisePlace::Hundred
        } else {
            AdvertisePlace::Restart
        }
    }
}

impl Packed for Clock {
    ghost words = { words_clock };

    ghost read = { get_clock };

    #[tactic(auto, unfolding(crate::specs::Phy::words_clock, crate::specs::Phy::get_clock, crate::specs::Tape::word_at))]
    fn put(self, tape: &mut [u32; 68], at: usize) -> usize {
        match self {
            Clock::Reading => word(tape, at, 1),
            Clock::Writing => word(tape, at, 2),
        }
    }

    #[tactic(auto, unfolding(crate::specs::Phy::get_clock))]
    fn get(tape: &[u32], at: usize) -> Clock {
        let kind = word_at(tape, at, 0);
        if kind == 1 {
            Clock::Reading
        } else {
            Clock::Writing
        }
    }
}
