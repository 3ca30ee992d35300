// The states of answers as words, and back.
ghost use Rattle.packed.specs.Answers.{get_copper, get_internal, get_setup552, get_setup553, get_value, words_copper, words_internal, words_setup552, words_setup553, words_value};

use crate::packed::{Packed, Part};
use crate::read::{after, byte, half, is, word_at};
use crate::tape::{flag, wide, wide_byte, word, zeros};
use answers::{
    Copper, CopperSetup, FirmwarePhy, FirmwareSetup, Internal, Setup552, Setup553, SgmiiSetup,
    Speeds, Value, Words, X557,
};
use words::link::Link;

impl Packed for Internal {
    ghost words = { words_internal };

    ghost read = { get_internal };

    #[tactic(auto, unfolding(crate::specs::Answers::words_internal, crate::specs::Answers::get_internal, crate::specs::Tape::word_at))]
    fn put(self, tape: &mut [u32; 68], at: usize) -> usize {
        match self {
            Internal::Ixfi => word(tape, at, 1),
            Internal::Kr => word(tape, at, 2),
        }
    }

    #[tactic(auto, unfolding(crate::specs::Answers::get_internal))]
    fn get(tape: &[u32], at: usize) -> Internal {
        let kind = word_at(tape, at, 0);
        if kind == 1 {
            Internal::Ixfi
        } else {
            Internal::Kr
        }
    }
}

impl Packed for Setup552 {
    ghost words = { words_setup552 };

    ghost read = { get_setup552 };

    #[tactic(auto, using(crate::proofs::Laws::is_flag), unfolding(crate::specs::Answers::words_setup552, crate::specs::Answers::get_setup552, crate::specs::Tape::word_at))]
    fn put(self, tape: &mut [u32; 68], at: usize) -> usize {
        match self {
            Setup552::Kx4 => {
                let at = word(tape, at, 1);
                zeros(tape, at, 10)
            },
            Setup552::Xfi => {
                let at = word(tape, at, 2);
                zeros(tape, at, 10)
            },
            Setup552::FirmwarePhy => {
                let at = word(tape, at, 3);
                zeros(tape, at, 10)
            },
            Setup552::Kr { link_ctrl } => {
                let at = word(tape, at, 4);
                let at = word(tape, at, link_ctrl);
                zeros(tape, at, 9)
            },
            Setup552::ManageabilityVeto => {
                let at = word(tape, at, 5);
                zeros(tape, at, 10)
            },
            Setup552::Copper(copper_setup) => {
                let at = word(tape, at, 6);
                let at = word(tape, at, wide_byte(copper_setup.x557.phy));
                let at = word(tape, at, copper_setup.x557.id);
                let at = word(tape, at, copper_setup.x557.sel);
                let at = flag(tape, at, copper_setup.x557.unstalled);
                let at = flag(tape, at, copper_setup.x557.reset);
                let at = flag(tape, at, copper_setup.advertised.g10);
                let at = flag(tape, at, copper_setup.advertised.g1);
                let at = flag(tape, at, copper_setup.advertised.m100);
                let at = flag(tape, at, copper_setup.restarted);
                copper_setup.x557.internal.put(tape, at)
            },
        }
    }

    #[tactic(auto, unfolding(crate::specs::Answers::get_setup552))]
    fn get(tape: &[u32], at: usize) -> Setup552 {
        let kind = word_at(tape, at, 0);
        if kind == 1 {
            Setup552::Kx4
        } else if kind == 2 {
            Setup552::Xfi
        } else if kind == 3 {
            Setup552::FirmwarePhy
        } else if kind == 4 {
            Setup552::Kr {
                link_ctrl: word_at(tape, at, 1),
            }
        } else if kind == 5 {
            Setup552::ManageabilityVeto
        } else {
            Setup552::Copper(CopperSetup {
                x557: X557 {
                    phy: byte(word_at(tape, at, 1)),
                    id: word_at(tape, at, 2),
                    sel: word_at(tape, at, 3),
                    unstalled: is(word_at(tape, at, 4)),
                    reset: is(word_at(tape, at, 5)),
                    internal: Internal::get(tape, after(tape, at, 10)),
                },
                advertised: Speeds {
                    g10: is(word_at(tape, at, 6)),
                    g1: is(word_at(tape, at, 7)),
                    m100: is(word_at(tape, at, 8)),
                },
                restarted: is(word_at(tape, at, 9)),
            })
        }
    }
}

impl Packed for Setup553 {
    ghost words = { words_setup553 };

    ghost read = { get_setup553 };

    #[tactic(auto, using(crate::proofs::Laws::is_flag), unfolding(crate::specs::Answers::words_setup553, crate::specs::Answers::get_setup553, crate::specs::Tape::word_at))]
    fn put(self, tape: &mut [u32; 68], at: usize) -> usize {
        match self {
            Setup553::Kr { link_ctrl } => {
                let at = word(tape, at, 1);
                let at = word(tape, at, link_ctrl);
                zeros(tape, at, 10)
            },
            Setup553::Kr2500 { sel } => {
                let at = word(tape, at, 2);
                let at = word(tape, at, sel);
                zeros(tape, at, 10)
            },
            Setup553::Sgmii(sgmii_setup) => {
                let at = word(tape, at, 3);
                let at = word(tape, at, sgmii_setup.link_ctrl);
                let at = word(tape, at, sgmii_setup.sgmii);
                let at = word(tape, at, sgmii_setup.flx);
                zeros(tape, at, 8)
            },
            Setup553::ManageabilityVeto => {
                let at = word(tape, at, 4);
                zeros(tape, at, 11)
            },
            Setup553::X557(setup552) => {
                let at = word(tape, at, 5);
                setup552.put(tape, at)
            },
            Setup553::Firmware(firmware_setup) => {
                let at = word(tape, at, 6);
                let at = word(tape, at, firmware_setup.phy.id);
                let at = word(tape, at, wide(firmware_setup.phy.speeds));
                let at = flag(tape, at, firmware_setup.overtemp);
                let at = firmware_setup.internal.put(tape, at);
                zeros(tape, at, 6)
            },
        }
    }

    #[tactic(auto, unfolding(crate::specs::Answers::get_setup553))]
    fn get(tape: &[u32], at: usize) -> Setup553 {
        let kind = word_at(tape, at, 0);
        if kind == 1 {
            Setup553::Kr {
                link_ctrl: word_at(tape, at, 1),
            }
        } else if kind == 2 {
            Setup553::Kr2500 {
                sel: word_at(tape, at, 1),
            }
        } else if kind == 3 {
            Setup553::Sgmii(SgmiiSetup {
                link_ctrl: word_at(tape, at, 1),
                sgmii: word_at(tape, at, 2),
                flx: word_at(tape, at, 3),
            })
        } else if kind == 4 {
            Setup553::ManageabilityVeto
        } else if kind == 5 {
            Setup553::X557(Setup552::get(tape, after(tape, at, 1)))
        } else {
            Setup553::Firmware(FirmwareSetup {
                phy: FirmwarePhy {
                    id: word_at(tape, at, 1),
                    speeds: half(word_at(tape, at, 2)),
                },
                internal: Option::get(tape, after(tape, at, 4)),
                overtemp: is(word_at(tape, at, 3)),
            })
        }
    }
}

impl Packed for Copper {
    ghost words = { words_copper };

    ghost read = { get_copper };

    #[tactic(auto, using(crate::proofs::Laws::word_then), unfolding(crate::specs::Answers::words_copper, crate::specs::Answers::get_copper, crate::specs::Tape::word_at))]
    fn put(self, tape: &mut [u32; 68], at: usize) -> usize {
        match self {
            Copper::Down => {
                let at = word(tape, at, 1);
                word(tape, at, 0)
            },
            Copper::Up { megabits } => {
                let at = word(tape, at, 2);
                word(tape, at, megabits)
            },
            Copper::Invalid { status } => {
                let at = word(tape, at, 3);
                word(tape, at, wide(status))
            },
            Copper::Held { megabits } => {
                let at = word(tape, at, 4);
                word(tape, at, megabits)
            },
        }
    }

    #[tactic(auto, unfolding(crate::specs::Answers::get_copper))]
    fn get(tape: &[u32], at: usize) -> Copper {
        let kind = word_at(tape, at, 0);
        if kind == 1 {
            Copper::Down
        } else if kind == 2 {
            Copper::Up {
                megabits: word_at(tape, at, 1),
            }
        } else if kind == 3 {
            Copper::Invalid {
                status: half(word_at(tape, at, 1)),
            }
        } else {
            Copper::Held {
                megabits: word_at(tape, at, 1),
            }
        }
    }
}

impl Packed for Value {
    ghost words = { words_value };

    ghost read = { get_value };

    #[tactic(auto, using(crate::proofs::Laws::is_flag), unfolding(crate::specs::Answers::words_value, crate::specs::Answers::get_value, crate::specs::Tape::word_at))]
    fn put(self, tape: &mut [u32; 68], at: usize) -> usize {
        match self {
            Value::Nothing => {
                let at = word(tape, at, 1);
                zeros(tape, at, 12)
            },
            Value::Flag(x) => {
                let at = word(tape, at, 2);
                let at = flag(tape, at, x);
                zeros(tape, at, 11)
            },
            Value::Word(x) => {
                let at = word(tape, at, 3);
                let at = word(tape, at, x);
                zeros(tape, at, 11)
            },
            Value::Link(link) => {
                let at = word(tape, at, 4);
                let at = link.put(tape, at);
                zeros(tape, at, 9)
            },
            Value::Command { status, words } => {
                let at = word(tape, at, 5);
                let at = word(tape, at, wide_byte(status));
                let at = word(tape, at, words);
                zeros(tape, at, 10)
            },
            Value::List(x) => {
                let at = word(tape, at, 6);
                let at = word(tape, at, x);
                zeros(tape, at, 11)
            },
            Value::Activity(x) => {
                let at = word(tape, at, 7);
                let at = word(tape, at, x.w0);
                let at = word(tape, at, x.w1);
                let at = word(tape, at, x.w2);
                let at = word(tape, at, x.w3);
                zeros(tape, at, 8)
            },
            Value::Probe(maybe_word) => {
                let at = word(tape, at, 8);
                let at = maybe_word.put(tape, at);
                zeros(tape, at, 10)
            },
            Value::Scan(maybe_byte_word) => {
                let at = word(tape, at, 9);
                let at = maybe_byte_word.put(tape, at);
                zeros(tape, at, 9)
            },
            Value::Abilities(speeds) => {
                let at = word(tape, at, 10);
                let at = flag(tape, at, speeds.g10);
                let at = flag(tape, at, speeds.g1);
                let at = flag(tape, at, speeds.m100);
                zeros(tape, at, 9)
            },
            Value::X552(setup552) => {
                let at = word(tape, at, 11);
                let at = setup552.put(tape, at);
                word(tape, at, 0)
            },
            Value::X553(setup553) => {
                let at = word(tape, at, 12);
                setup553.put(tape, at)
            },
            Value::Poll {
                copper,
                forced,
                reforced,
            } => {
                let at = word(tape, at, 13);
                let at = word(tape, at, reforced);
                let at = copper.put(tape, at);
                let at = forced.put(tape, at);
                zeros(tape, at, 7)
            },
        }
    }

    #[tactic(auto, unfolding(crate::specs::Answers::get_value))]
    fn get(tape: &[u32], at: usize) -> Value {
        let kind = word_at(tape, at, 0);
        if kind == 1 {
            Value::Nothing
        } else if kind == 2 {
            Value::Flag(is(word_at(tape, at, 1)))
        } else if kind == 3 {
            Value::Word(word_at(tape, at, 1))
        } else if kind == 4 {
            Value::Link(Link::get(tape, after(tape, at, 1)))
        } else if kind == 5 {
            Value::Command {
                status: byte(word_at(tape, at, 1)),
                words: word_at(tape, at, 2),
            }
        } else if kind == 6 {
            Value::List(word_at(tape, at, 1))
        } else if kind == 7 {
            Value::Activity(Words {
                w0: word_at(tape, at, 1),
                w1: word_at(tape, at, 2),
                w2: word_at(tape, at, 3),
                w3: word_at(tape, at, 4),
            })
        } else if kind == 8 {
            Value::Probe(Option::get(tape, after(tape, at, 1)))
        } else if kind == 9 {
            Value::Scan(Option::get(tape, after(tape, at, 1)))
        } else if kind == 10 {
            Value::Abilities(Speeds {
                g10: is(word_at(tape, at, 1)),
                g1: is(word_at(tape, at, 2)),
                m100: is(word_at(tape, at, 3)),
            })
        } else if kind == 11 {
            Value::X552(Setup552::get(tape, after(tape, at, 1)))
        } else if kind == 12 {
            Value::X553(Setup553::get(tape, after(tape, at, 1)))
        } else {
            Value::Poll {
                copper: Copper::get(tape, after(tape, at, 2)),
                forced: Option::get(tape, after(tape, at, 4)),
                reforced: word_at(tape, at, 1),
            }
        }
    }
}

impl Part for Value {
    ghost WIDTH = { 13 };

    fn width() -> usize {
        13
    }
}
