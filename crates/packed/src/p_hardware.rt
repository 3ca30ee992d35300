// The states of hardware as words, and back.
ghost use Rattle.packed.specs.Hardware.{get_action, get_error, get_family, words_action, words_error, words_family};

use crate::packed::{Packed, Part};
use crate::read::{byte, word_at};
use crate::tape::{wide_byte, word, zeros};
use hardware::{Action, Error, Family};

impl Packed for Error {
    ghost words = { words_error };

    ghost read = { get_error };

    #[tactic(auto, unfolding(crate::specs::Hardware::words_error, crate::specs::Hardware::get_error, crate::specs::Tape::word_at))]
    fn put(self, tape: &mut [u32; 68], at: usize) -> usize {
        match self {
            Error::Io(x) => {
                let at = word(tape, at, 1);
                let at = word(tape, at, x);
                zeros(tape, at, 3)
            },
            Error::Removed => {
                let at = word(tape, at, 2);
                zeros(tape, at, 4)
            },
            Error::Timeout {
                register,
                mask,
                expected,
                last,
            } => {
                let at = word(tape, at, 3);
                let at = word(tape, at, register);
                let at = word(tape, at, mask);
                let at = word(tape, at, expected);
                word(tape, at, last)
            },
            Error::Sideband { address, ctrl } => {
                let at = word(tape, at, 4);
                let at = word(tape, at, address);
                let at = word(tape, at, ctrl);
                zeros(tape, at, 2)
            },
            Error::Semaphore { held } => {
                let at = word(tape, at, 5);
                let at = word(tape, at, held);
                zeros(tape, at, 3)
            },
            Error::HostInterface { hicr } => {
                let at = word(tape, at, 6);
                let at = word(tape, at, hicr);
                zeros(tape, at, 3)
            },
            Error::Firmware { command, status } => {
                let at = word(tape, at, 7);
                let at = word(tape, at, wide_byte(command));
                let at = word(tape, at, wide_byte(status));
                zeros(tape, at, 2)
            },
            Error::NoPhy => {
                let at = word(tape, at, 8);
                zeros(tape, at, 4)
            },
            Error::PhyReset => {
                let at = word(tape, at, 9);
                zeros(tape, at, 4)
            },
            Error::Lan => {
                let at = word(tape, at, 10);
                zeros(tape, at, 4)
            },
            Error::Fiber => {
                let at = word(tape, at, 11);
                zeros(tape, at, 4)
            },
            Error::Address => {
                let at = word(tape, at, 12);
                zeros(tape, at, 4)
            },
            Error::KrAddress => {
                let at = word(tape, at, 13);
                zeros(tape, at, 4)
            },
            Error::Pairs => {
                let at = word(tape, at, 14);
                zeros(tape, at, 4)
            },
            Error::Block => {
                let at = word(tape, at, 15);
                zeros(tape, at, 4)
            },
            Error::Pause => {
                let at = word(tape, at, 16);
                zeros(tape, at, 4)
            },
            Error::Windows => {
                let at = word(tape, at, 17);
                zeros(tape, at, 4)
            },
        }
    }

    #[tactic(auto, unfolding(crate::specs::Hardware::get_error))]
    fn get(tape: &[u32], at: usize) -> Error {
        let kind = word_at(tape, at, 0);
        if kind == 1 {
            Error::Io(word_at(tape, at, 1))
        } else if kind == 2 {
            Error::Removed
        } else if kind == 3 {
            Error::Timeout {
                register: word_at(tape, at, 1),
                mask: word_at(tape, at, 2),
                expected: word_at(tape, at, 3),
                last: word_at(tape, at, 4),
            }
        } else if kind == 4 {
            Error::Sideband {
                address: word_at(tape, at, 1),
                ctrl: word_at(tape, at, 2),
            }
        } else if kind == 5 {
            Error::Semaphore {
                held: word_at(tape, at, 1),
            }
        } else if kind == 6 {
            Error::HostInterface {
                hicr: word_at(tape, at, 1),
            }
        } else if kind == 7 {
            Error::Firmware {
                command: byte(word_at(tape, at, 1)),
                status: byte(word_at(tape, at, 2)),
            }
        } else if kind == 8 {
            Error::NoPhy
        } else if kind == 9 {
            Error::PhyReset
        } else if kind == 10 {
            Error::Lan
        } else if kind == 11 {
            Error::Fiber
        } else if kind == 12 {
            Error::Address
        } else if kind == 13 {
            Error::KrAddress
        } else if kind == 14 {
            Error::Pairs
        } else if kind == 15 {
            Error::Block
        } else if kind == 16 {
            Error::Pause
        } else {
            Error::Windows
        }
    }
}

impl Part for Error {
    ghost WIDTH = { 5 };

    fn width() -> usize {
        5
    }
}

impl Packed for Family {
    ghost words = { words_family };

    ghost read = { get_family };

    #[tactic(auto, unfolding(crate::specs::Hardware::words_family, crate::specs::Hardware::get_family, crate::specs::Tape::word_at))]
    fn put(self, tape: &mut [u32; 68], at: usize) -> usize {
        match self {
            Family::X552 => word(tape, at, 1),
            Family::X553 => word(tape, at, 2),
        }
    }

    #[tactic(auto, unfolding(crate::specs::Hardware::get_family))]
    fn get(tape: &[u32], at: usize) -> Family {
        let kind = word_at(tape, at, 0);
        if kind == 1 {
            Family::X552
        } else {
            Family::X553
        }
    }
}

impl Packed for Action {
    ghost words = { words_action };

    ghost read = { get_action };

    #[tactic(auto, unfolding(crate::specs::Hardware::words_action, crate::specs::Hardware::get_action, crate::specs::Tape::word_at))]
    fn put(self, tape: &mut [u32; 68], at: usize) -> usize {
        match self {
            Action::Read(x) => {
                let at = word(tape, at, 1);
                let at = word(tape, at, x);
                word(tape, at, 0)
            },
            Action::Write(x, y) => {
                let at = word(tape, at, 2);
                let at = word(tape, at, x);
                word(tape, at, y)
            },
            Action::Wait(x) => {
                let at = word(tape, at, 3);
                let at = word(tape, at, x);
                word(tape, at, 0)
            },
        }
    }

    #[tactic(auto, unfolding(crate::specs::Hardware::get_action))]
    fn get(tape: &[u32], at: usize) -> Action {
        let kind = word_at(tape, at, 0);
        if kind == 1 {
            Action::Read(word_at(tape, at, 1))
        } else if kind == 2 {
            Action::Write(word_at(tape, at, 1), word_at(tape, at, 2))
        } else {
            Action::Wait(word_at(tape, at, 1))
        }
    }
}
