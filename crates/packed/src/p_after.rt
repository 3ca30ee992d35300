// The states of after as words, and back.
ghost use Rattle.packed.specs.After.{get_after, get_kr, get_mdio, words_after, words_kr, words_mdio};

use crate::packed::Packed;
use crate::read::{after, byte, half, is, word_at};
use crate::tape::{flag, wide, wide_byte, word, zeros};
use activity::Activity;
use after::After;
use after::kr_registers::Kr;
use after::registers::Mdio;
use answers::{Internal, Speeds, Words};
use arguments::{Advertised, Asked, Change, Register, Watch, Windowed};
use bringup::Bringup;
use kr::modify::KrModify;
use kr::sequence::{KrPlace, Sequence};
use phy::advertise::{Advertise, AdvertisePlace};
use phy::an_link::AnLink;
use phy::clock::Clock;
use phy::modify::Modify;
use phy::probe::Probe;
use phy::reset::Reset;
use phy::scan::Scan;
use watch::poll::Poll;

impl Packed for Mdio {
    ghost words = { words_mdio };

    ghost read = { get_mdio };

    #[tactic(auto, using(crate::proofs::Laws::is_flag), unfolding(crate::specs::After::words_mdio, crate::specs::After::get_mdio, crate::specs::Tape::word_at))]
    fn put(self, tape: &mut [u32; 68], at: usize) -> usize {
        match self {
            Mdio::Modify(register, modify) => {
                let at = word(tape, at, 1);
                let at = word(tape, at, register.phy);
                let at = word(tape, at, register.device);
                let at = word(tape, at, wide(register.register));
                let at = word(tape, at, wide(register.keep));
                let at = word(tape, at, wide(register.set));
                let at = modify.put(tape, at);
                zeros(tape, at, 3)
            },
            Mdio::Probe(x, probe) => {
                let at = word(tape, at, 2);
                let at = word(tape, at, x);
                let at = probe.put(tape, at);
                zeros(tape, at, 7)
            },
            Mdio::Scan(scan) => {
                let at = word(tape, at, 3);
                let at = word(tape, at, wide_byte(scan.phy));
                let at = scan.probe.put(tape, at);
                zeros(tape, at, 7)
            },
            Mdio::Reset(x, y, reset) => {
                let at = word(tape, at, 4);
                let at = word(tape, at, x);
                let at = flag(tape, at, y);
                let at = reset.put(tape, at);
                zeros(tape, at, 6)
            },
            Mdio::AnLink(x, an_link) => {
                let at = word(tape, at, 5);
                let at = word(tape, at, x);
                let at = an_link.put(tape, at);
                zeros(tape, at, 8)
            },
            Mdio::Advertise(advertised, advertise) => {
                let at = word(tape, at, 6);
                let at = word(tape, at, advertised.phy);
                let at = flag(tape, at, advertised.speeds.g10);
                let at = flag(tape, at, advertised.speeds.g1);
                let at = flag(tape, at, advertised.speeds.m100);
                let at = flag(tape, at, advertised.veto);
                let at = advertised.nbase.put(tape, at);
                let at = advertise.place.put(tape, at);
                advertise.modify.put(tape, at)
            },
            Mdio::Clock(x, clock) => {
                let at = word(tape, at, 7);
                let at = flag(tape, at, x);
                let at = clock.put(tape, at);
                zeros(tape, at, 8)
            },
        }
    }

    #[tactic(auto, unfolding(crate::specs::After::get_mdio))]
    fn get(tape: &[u32], at: usize) -> Mdio {
        let kind = word_at(tape, at, 0);
        if kind == 1 {
            Mdio::Modify(
                Register {
                    phy: word_at(tape, at, 1),
                    device: word_at(tape, at, 2),
                    register: half(word_at(tape, at, 3)),
                    keep: half(word_at(tape, at, 4)),
                    set: half(word_at(tape, at, 5)),
                },
                Modify::get(tape, after(tape, at, 6)),
            )
        } else if kind == 2 {
            Mdio::Probe(word_at(tape, at, 1), Probe::get(tape, after(tape, at, 2)))
        } else if kind == 3 {
            Mdio::Scan(Scan {
                phy: byte(word_at(tape, at, 1)),
                probe: Probe::get(tape, after(tape, at, 2)),
            })
        } else if kind == 4 {
            Mdio::Reset(
                word_at(tape, at, 1),
                is(word_at(tape, at, 2)),
                Reset::get(tape, after(tape, at, 3)),
            )
        } else if kind == 5 {
            Mdio::AnLink(word_at(tape, at, 1), AnLink::get(tape, after(tape, at, 2)))
        } else if kind == 6 {
            Mdio::Advertise(
                Advertised {
                    phy: word_at(tape, at, 1),
                    speeds: Speeds {
                        g10: is(word_at(tape, at, 2)),
                        g1: is(word_at(tape, at, 3)),
                        m100: is(word_at(tape, at, 4)),
                    },
                    nbase: Option::get(tape, after(tape, at, 6)),
                    veto: is(word_at(tape, at, 5)),
                },
                Advertise {
                    place: AdvertisePlace::get(tape, after(tape, at, 8)),
                    modify: Modify::get(tape, after(tape, after(tape, at, 8), 1)),
                },
            )
        } else {
            Mdio::Clock(
                is(word_at(tape, at, 1)),
                Clock::get(tape, after(tape, at, 2)),
            )
        }
    }
}

impl Packed for Kr {
    ghost words = { words_kr };

    ghost read = { get_kr };

    #[tactic(auto, unfolding(crate::specs::After::words_kr, crate::specs::After::get_kr, crate::specs::Tape::word_at))]
    fn put(self, tape: &mut [u32; 68], at: usize) -> usize {
        match self {
            Kr::Modify(change, kr_modify) => {
                let at = word(tape, at, 1);
                let at = word(tape, at, change.port0);
                let at = word(tape, at, change.keep);
                let at = word(tape, at, change.set);
                let at = kr_modify.put(tape, at);
                zeros(tape, at, 2)
            },
            Kr::Sequence(sequence) => {
                let at = word(tape, at, 2);
                let at = sequence.place.put(tape, at);
                let at = sequence.first.put(tape, at);
                sequence.modify.put(tape, at)
            },
        }
    }

    #[tactic(auto, unfolding(crate::specs::After::get_kr))]
    fn get(tape: &[u32], at: usize) -> Kr {
        let kind = word_at(tape, at, 0);
        if kind == 1 {
            Kr::Modify(
                Change {
                    port0: word_at(tape, at, 1),
                    keep: word_at(tape, at, 2),
                    set: word_at(tape, at, 3),
                },
                KrModify::get(tape, after(tape, at, 4)),
            )
        } else {
            Kr::Sequence(Sequence {
                place: KrPlace::get(tape, after(tape, at, 1)),
                first: Option::get(tape, after(tape, at, 4)),
                modify: KrModify::get(tape, after(tape, after(tape, at, 4), 2)),
            })
        }
    }
}

impl Packed for After {
    ghost words = { words_after };

    ghost read = { get_after };

    #[tactic(auto, using(crate::proofs::Laws::is_flag), unfolding(crate::specs::After::words_after, crate::specs::After::get_after, crate::specs::Tape::word_at))]
    fn put(self, tape: &mut [u32; 68], at: usize) -> usize {
        match self {
            After::Nothing => {
                let at = word(tape, at, 1);
                zeros(tape, at, 19)
            },
            After::Word => {
                let at = word(tape, at, 2);
                zeros(tape, at, 19)
            },
            After::Veto => {
                let at = word(tape, at, 3);
                zeros(tape, at, 19)
            },
            After::Link => {
                let at = word(tape, at, 4);
                zeros(tape, at, 19)
            },
            After::Abilities => {
                let at = word(tape, at, 5);
                zeros(tape, at, 19)
            },
            After::Command(x) => {
                let at = word(tape, at, 6);
                let at = word(tape, at, x);
                zeros(tape, at, 18)
            },
            After::List(x) => {
                let at = word(tape, at, 7);
                let at = word(tape, at, x);
                zeros(tape, at, 18)
            },
            After::Token(x) => {
                let at = word(tape, at, 8);
                let at = flag(tape, at, x);
                zeros(tape, at, 18)
            },
            After::Activity(asked, activity) => {
                let at = word(tape, at, 9);
                let at = word(tape, at, wide(asked.activity));
                let at = word(tape, at, asked.data.w0);
                let at = word(tape, at, asked.data.w1);
                let at = word(tape, at, asked.data.w2);
                let at = word(tape, at, asked.data.w3);
                let at = activity.put(tape, at);
                zeros(tape, at, 11)
            },
            After::Mdio(mdio) => {
                let at = word(tape, at, 10);
                let at = mdio.put(tape, at);
                zeros(tape, at, 8)
            },
            After::Kr(kr) => {
                let at = word(tape, at, 11);
                let at = kr.put(tape, at);
                zeros(tape, at, 11)
            },
            After::Bringup(x, bringup) => {
                let at = word(tape, at, 12);
                let at = flag(tape, at, x);
                bringup.put(tape, at)
            },
            After::Poll(windowed, poll) => {
                let at = word(tape, at, 13);
                let at = word(tape, at, windowed.watch.phy);
                let at = word(tape, at, windowed.watch.reforced);
                let at = flag(tape, at, windowed.inside);
                let at = windowed.watch.internal.put(tape, at);
                let at = windowed.watch.forced.put(tape, at);
                let at = poll.put(tape, at);
                zeros(tape, at, 3)
            },
        }
    }

    #[tactic(auto, unfolding(crate::specs::After::get_after))]
    fn get(tape: &[u32], at: usize) -> After {
        let kind = word_at(tape, at, 0);
        if kind == 1 {
            After::Nothing
        } else if kind == 2 {
            After::Word
        } else if kind == 3 {
            After::Veto
        } else if kind == 4 {
            After::Link
        } else if kind == 5 {
            After::Abilities
        } else if kind == 6 {
            After::Command(word_at(tape, at, 1))
        } else if kind == 7 {
            After::List(word_at(tape, at, 1))
        } else if kind == 8 {
            After::Token(is(word_at(tape, at, 1)))
        } else if kind == 9 {
            After::Activity(
                Asked {
                    activity: half(word_at(tape, at, 1)),
                    data: Words {
                        w0: word_at(tape, at, 2),
                        w1: word_at(tape, at, 3),
                        w2: word_at(tape, at, 4),
                        w3: word_at(tape, at, 5),
                    },
                },
                Activity::get(tape, after(tape, at, 6)),
            )
        } else if kind == 10 {
            After::Mdio(Mdio::get(tape, after(tape, at, 1)))
        } else if kind == 11 {
            After::Kr(Kr::get(tape, after(tape, at, 1)))
        } else if kind == 12 {
            After::Bringup(
                is(word_at(tape, at, 1)),
                Bringup::get(tape, after(tape, at, 2)),
            )
        } else {
            After::Poll(
                Windowed {
                    watch: Watch {
                        phy: word_at(tape, at, 1),
                        internal: Internal::get(tape, after(tape, at, 4)),
                        forced: Option::get(tape, after(tape, at, 5)),
                        reforced: word_at(tape, at, 2),
                    },
                    inside: is(word_at(tape, at, 3)),
                },
                Poll::get(tape, after(tape, after(tape, at, 5), 2)),
            )
        }
    }
}
