// The states of bringup as words, and back.
ghost use Rattle.packed.specs.Bringup.{get_bringup, get_lane, words_bringup, words_lane};

use crate::packed::Packed;
use crate::read::{after, byte, is, word_at};
use crate::tape::{flag, wide_byte, word, zeros};
use answers::{Internal, X557};
use bringup::{Bringup, Lane};
use kr::modify::KrModify;
use kr::sequence::{KrPlace, Sequence};
use phy::clock::Clock;
use x552::link::CopperLink;
use x552::prepare::PrepareCopper;
use x553::firmware::SetupFirmware;
use x553::prepare::PrepareFirmware;
use x553::sgmii::Sgmii;

impl Packed for Lane {
    ghost words = { words_lane };

    ghost read = { get_lane };

    #[tactic(auto, using(crate::proofs::Laws::word_then, crate::proofs::Laws::is_flag), unfolding(crate::specs::Bringup::words_lane, crate::specs::Bringup::get_lane, crate::specs::Tape::word_at))]
    fn put(self, tape: &mut [u32; 68], at: usize) -> usize {
        match self {
            Lane::Kr(x) => {
                let at = word(tape, at, 1);
                flag(tape, at, x)
            },
            Lane::Sgmii => {
                let at = word(tape, at, 2);
                word(tape, at, 0)
            },
        }
    }

    #[tactic(auto, unfolding(crate::specs::Bringup::get_lane))]
    fn get(tape: &[u32], at: usize) -> Lane {
        let kind = word_at(tape, at, 0);
        if kind == 1 {
            Lane::Kr(is(word_at(tape, at, 1)))
        } else {
            Lane::Sgmii
        }
    }
}

impl Packed for Bringup {
    ghost words = { words_bringup };

    ghost read = { get_bringup };

    #[tactic(auto, using(crate::proofs::Laws::is_flag), unfolding(crate::specs::Bringup::words_bringup, crate::specs::Bringup::get_bringup, crate::specs::Tape::word_at))]
    fn put(self, tape: &mut [u32; 68], at: usize) -> usize {
        match self {
            Bringup::Clock(x, clock) => {
                let at = word(tape, at, 1);
                let at = flag(tape, at, x);
                let at = clock.put(tape, at);
                zeros(tape, at, 15)
            },
            Bringup::Copper(prepare_copper) => {
                let at = word(tape, at, 2);
                let at = prepare_copper.put(tape, at);
                zeros(tape, at, 10)
            },
            Bringup::Firmware(prepare_firmware) => {
                let at = word(tape, at, 3);
                let at = prepare_firmware.put(tape, at);
                zeros(tape, at, 10)
            },
            Bringup::Sel(x) => {
                let at = word(tape, at, 4);
                let at = flag(tape, at, x);
                zeros(tape, at, 16)
            },
            Bringup::Mmngc(lane) => {
                let at = word(tape, at, 5);
                let at = lane.put(tape, at);
                zeros(tape, at, 15)
            },
            Bringup::Kr(sequence) => {
                let at = word(tape, at, 6);
                let at = sequence.place.put(tape, at);
                let at = sequence.first.put(tape, at);
                let at = sequence.modify.put(tape, at);
                zeros(tape, at, 10)
            },
            Bringup::Sgmii(sgmii) => {
                let at = word(tape, at, 7);
                let at = sgmii.put(tape, at);
                zeros(tape, at, 6)
            },
            Bringup::Link(x557, copper_link) => {
                let at = word(tape, at, 8);
                let at = word(tape, at, wide_byte(x557.phy));
                let at = word(tape, at, x557.id);
                let at = word(tape, at, x557.sel);
                let at = flag(tape, at, x557.unstalled);
                let at = flag(tape, at, x557.reset);
                let at = x557.internal.put(tape, at);
                copper_link.put(tape, at)
            },
            Bringup::SetupFirmware(setup_firmware) => {
                let at = word(tape, at, 9);
                let at = setup_firmware.put(tape, at);
                zeros(tape, at, 5)
            },
        }
    }

    #[tactic(auto, unfolding(crate::specs::Bringup::get_bringup))]
    fn get(tape: &[u32], at: usize) -> Bringup {
        let kind = word_at(tape, at, 0);
        if kind == 1 {
            Bringup::Clock(
                is(word_at(tape, at, 1)),
                Clock::get(tape, after(tape, at, 2)),
            )
        } else if kind == 2 {
            Bringup::Copper(PrepareCopper::get(tape, after(tape, at, 1)))
        } else if kind == 3 {
            Bringup::Firmware(PrepareFirmware::get(tape, after(tape, at, 1)))
        } else if kind == 4 {
            Bringup::Sel(is(word_at(tape, at, 1)))
        } else if kind == 5 {
            Bringup::Mmngc(Lane::get(tape, after(tape, at, 1)))
        } else if kind == 6 {
            Bringup::Kr(Sequence {
                place: KrPlace::get(tape, after(tape, at, 1)),
                first: Option::get(tape, after(tape, at, 4)),
                modify: KrModify::get(tape, after(tape, after(tape, at, 4), 2)),
            })
        } else if kind == 7 {
            Bringup::Sgmii(Sgmii::get(tape, after(tape, at, 1)))
        } else if kind == 8 {
            Bringup::Link(
                X557 {
                    phy: byte(word_at(tape, at, 1)),
                    id: word_at(tape, at, 2),
                    sel: word_at(tape, at, 3),
                    unstalled: is(word_at(tape, at, 4)),
                    reset: is(word_at(tape, at, 5)),
                    internal: Internal::get(tape, after(tape, at, 6)),
                },
                CopperLink::get(tape, after(tape, at, 7)),
            )
        } else {
            Bringup::SetupFirmware(SetupFirmware::get(tape, after(tape, at, 1)))
        }
    }
}
