// The states of x552 as words, and back.
ghost use Rattle.packed.specs.X552.{get_copper_link, get_prepare_copper, words_copper_link, words_prepare_copper};

use crate::packed::Packed;
use crate::read::{after, byte, is, word_at};
use crate::tape::{flag, wide_byte, word, zeros};
use answers::Speeds;
use kr::modify::KrModify;
use kr::sequence::{KrPlace, Sequence};
use phy::advertise::{Advertise, AdvertisePlace};
use phy::an_link::AnLink;
use phy::clock::Clock;
use phy::modify::Modify;
use phy::probe::Probe;
use phy::reset::Reset;
use phy::scan::Scan;
use x552::link::CopperLink;
use x552::prepare::{Phy, PrepareCopper};

impl Packed for PrepareCopper {
    ghost words = { words_prepare_copper };

    ghost read = { get_prepare_copper };

    #[tactic(auto, using(crate::proofs::Laws::is_flag), unfolding(crate::specs::X552::words_prepare_copper, crate::specs::X552::get_prepare_copper, crate::specs::Tape::word_at))]
    fn put(self, tape: &mut [u32; 68], at: usize) -> usize {
        match self {
            PrepareCopper::Clock(clock) => {
                let at = word(tape, at, 1);
                let at = clock.put(tape, at);
                zeros(tape, at, 5)
            },
            PrepareCopper::Sel => {
                let at = word(tape, at, 2);
                zeros(tape, at, 6)
            },
            PrepareCopper::Probe(x, probe) => {
                let at = word(tape, at, 3);
                let at = word(tape, at, x);
                let at = probe.put(tape, at);
                zeros(tape, at, 3)
            },
            PrepareCopper::Scan(x, scan) => {
                let at = word(tape, at, 4);
                let at = word(tape, at, x);
                let at = word(tape, at, wide_byte(scan.phy));
                let at = scan.probe.put(tape, at);
                zeros(tape, at, 2)
            },
            PrepareCopper::Alarms(phy) => {
                let at = word(tape, at, 5);
                let at = word(tape, at, wide_byte(phy.phy));
                let at = word(tape, at, phy.id);
                let at = word(tape, at, phy.sel);
                zeros(tape, at, 3)
            },
            PrepareCopper::Unstall(phy, modify) => {
                let at = word(tape, at, 6);
                let at = word(tape, at, wide_byte(phy.phy));
                let at = word(tape, at, phy.id);
                let at = word(tape, at, phy.sel);
                let at = modify.put(tape, at);
                word(tape, at, 0)
            },
            PrepareCopper::Reset(phy, y, reset) => {
                let at = word(tape, at, 7);
                let at = word(tape, at, wide_byte(phy.phy));
                let at = word(tape, at, phy.id);
                let at = word(tape, at, phy.sel);
                let at = flag(tape, at, y);
                reset.put(tape, at)
            },
        }
    }

    #[tactic(auto, unfolding(crate::specs::X552::get_prepare_copper))]
    fn get(tape: &[u32], at: usize) -> PrepareCopper {
        let kind = word_at(tape, at, 0);
        if kind == 1 {
            PrepareCopper::Clock(Clock::get(tape, after(tape, at, 1)))
        } else if kind == 2 {
            PrepareCopper::Sel
        } else if kind == 3 {
            PrepareCopper::Probe(word_at(tape, at, 1), Probe::get(tape, after(tape, at, 2)))
        } else if kind == 4 {
            PrepareCopper::Scan(
                word_at(tape, at, 1),
                Scan {
                    phy: byte(word_at(tape, at, 2)),
                    probe: Probe::get(tape, after(tape, at, 3)),
                },
            )
        } else if kind == 5 {
            PrepareCopper::Alarms(Phy {
                phy: byte(word_at(tape, at, 1)),
                id: word_at(tape, at, 2),
                sel: word_at(tape, at, 3),
            })
        } else if kind == 6 {
            PrepareCopper::Unstall(
                Phy {
                    phy: byte(word_at(tape, at, 1)),
                    id: word_at(tape, at, 2),
                    sel: word_at(tape, at, 3),
                },
                Modify::get(tape, after(tape, at, 4)),
            )
        } else {
            PrepareCopper::Reset(
                Phy {
                    phy: byte(word_at(tape, at, 1)),
                    id: word_at(tape, at, 2),
                    sel: word_at(tape, at, 3),
                },
                is(word_at(tape, at, 4)),
                Reset::get(tape, after(tape, at, 5)),
            )
        }
    }
}

impl Packed for CopperLink {
    ghost words = { words_copper_link };

    ghost read = { get_copper_link };

    #[tactic(auto, using(crate::proofs::Laws::is_flag), unfolding(crate::specs::X552::words_copper_link, crate::specs::X552::get_copper_link, crate::specs::Tape::word_at))]
    fn put(self, tape: &mut [u32; 68], at: usize) -> usize {
        match self {
            CopperLink::Abilities => {
                let at = word(tape, at, 1);
                zeros(tape, at, 10)
            },
            CopperLink::Ixfi(speeds, sequence) => {
                let at = word(tape, at, 2);
                let at = flag(tape, at, speeds.g10);
                let at = flag(tape, at, speeds.g1);
                let at = flag(tape, at, speeds.m100);
                let at = sequence.place.put(tape, at);
                let at = sequence.first.put(tape, at);
                sequence.modify.put(tape, at)
            },
            CopperLink::Waiting(speeds, y) => {
                let at = word(tape, at, 3);
                let at = flag(tape, at, speeds.g10);
                let at = flag(tape, at, speeds.g1);
                let at = flag(tape, at, speeds.m100);
                let at = word(tape, at, y);
                zeros(tape, at, 6)
            },
            CopperLink::Links(speeds, y) => {
                let at = word(tape, at, 4);
                let at = flag(tape, at, speeds.g10);
                let at = flag(tape, at, speeds.g1);
                let at = flag(tape, at, speeds.m100);
                let at = word(tape, at, y);
                zeros(tape, at, 6)
            },
            CopperLink::Linking(speeds, y, an_link) => {
                let at = word(tape, at, 5);
                let at = flag(tape, at, speeds.g10);
                let at = flag(tape, at, speeds.g1);
                let at = flag(tape, at, speeds.m100);
                let at = word(tape, at, y);
                let at = an_link.put(tape, at);
                zeros(tape, at, 5)
            },
            CopperLink::Advertise(speeds, advertise) => {
                let at = word(tape, at, 6);
                let at = flag(tape, at, speeds.g10);
                let at = flag(tape, at, speeds.g1);
                let at = flag(tape, at, speeds.m100);
                let at = advertise.place.put(tape, at);
                let at = advertise.modify.put(tape, at);
                zeros(tape, at, 4)
            },
        }
    }

    #[tactic(auto, unfolding(crate::specs::X552::get_copper_link))]
    fn get(tape: &[u32], at: usize) -> CopperLink {
        let kind = word_at(tape, at, 0);
        if kind == 1 {
            CopperLink::Abilities
        } else if kind == 2 {
            CopperLink::Ixfi(
                Speeds {
                    g10: is(word_at(tape, at, 1)),
                    g1: is(word_at(tape, at, 2)),
                    m100: is(word_at(tape, at, 3)),
                },
                Sequence {
                    place: KrPlace::get(tape, after(tape, at, 4)),
                    first: Option::get(tape, after(tape, at, 7)),
                    modify: KrModify::get(tape, after(tape, after(tape, at, 7), 2)),
                },
            )
        } else if kind == 3 {
            CopperLink::Waiting(
                Speeds {
                    g10: is(word_at(tape, at, 1)),
                    g1: is(word_at(tape, at, 2)),
                    m100: is(word_at(tape, at, 3)),
                },
                word_at(tape, at, 4),
            )
        } else if kind == 4 {
            CopperLink::Links(
                Speeds {
                    g10: is(word_at(tape, at, 1)),
                    g1: is(word_at(tape, at, 2)),
                    m100: is(word_at(tape, at, 3)),
                },
                word_at(tape, at, 4),
            )
        } else if kind == 5 {
            CopperLink::Linking(
                Speeds {
                    g10: is(word_at(tape, at, 1)),
                    g1: is(word_at(tape, at, 2)),
                    m100: is(word_at(tape, at, 3)),
                },
                word_at(tape, at, 4),
                AnLink::get(tape, after(tape, at, 5)),
            )
        } else {
            CopperLink::Advertise(
                Speeds {
                    g10: is(word_at(tape, at, 1)),
                    g1: is(word_at(tape, at, 2)),
                    m100: is(word_at(tape, at, 3)),
                },
                Advertise {
                    place: AdvertisePlace::get(tape, after(tape, at, 4)),
                    modify: Modify::get(tape, after(tape, at, 5)),
                },
            )
        }
    }
}
