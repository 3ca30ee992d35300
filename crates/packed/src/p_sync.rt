// The states of sync as words, and back.
ghost use Rattle.packed.specs.Sync.{get_acquire_bits, get_clear, get_lock, get_release_bits, get_set_mux, get_smbi, get_sync, get_unlock, words_acquire_bits, words_clear, words_lock, words_release_bits, words_set_mux, words_smbi, words_sync, words_unlock};

use crate::packed::Packed;
use crate::read::{after, word_at};
use crate::tape::{word, zeros};
use sync::acquire_bits::AcquireBits;
use sync::lock::{Clear, Lock, Smbi, Unlock};
use sync::release_bits::ReleaseBits;
use sync::set_mux::SetMux;
use sync::sync::Sync;

impl Packed for Smbi {
    ghost words = { words_smbi };

    ghost read = { get_smbi };

    #[tactic(auto, using(crate::proofs::Laws::word_then), unfolding(crate::specs::Sync::words_smbi, crate::specs::Sync::get_smbi, crate::specs::Tape::word_at))]
    fn put(self, tape: &mut [u32; 68], at: usize) -> usize {
        match self {
            Smbi::Reading(x) => {
                let at = word(tape, at, 1);
                word(tape, at, x)
            },
            Smbi::Waiting(x) => {
                let at = word(tape, at, 2);
                word(tape, at, x)
            },
        }
    }

    #[tactic(auto, unfolding(crate::specs::Sync::get_smbi))]
    fn get(tape: &[u32], at: usize) -> Smbi {
        let kind = word_at(tape, at, 0);
        if kind == 1 {
            Smbi::Reading(word_at(tape, at, 1))
        } else {
            Smbi::Waiting(word_at(tape, at, 1))
        }
    }
}

impl Packed for Clear {
    ghost words = { words_clear };

    ghost read = { get_clear };

    #[tactic(auto, unfolding(crate::specs::Sync::words_clear, crate::specs::Sync::get_clear, crate::specs::Tape::word_at))]
    fn put(self, tape: &mut [u32; 68], at: usize) -> usize {
        match self {
            Clear::Reading => word(tape, at, 1),
            Clear::Writing => word(tape, at, 2),
        }
    }

    #[tactic(auto, unfolding(crate::specs::Sync::get_clear))]
    fn get(tape: &[u32], at: usize) -> Clear {
        let kind = word_at(tape, at, 0);
        if kind == 1 {
            Clear::Reading
        } else {
            Clear::Writing
        }
    }
}

impl Packed for Lock {
    ghost words = { words_lock };

    ghost read = { get_lock };

    #[tactic(auto, unfolding(crate::specs::Sync::words_lock, crate::specs::Sync::get_lock, crate::specs::Tape::word_at))]
    fn put(self, tape: &mut [u32; 68], at: usize) -> usize {
        match self {
            Lock::Smbi(smbi) => {
                let at = word(tape, at, 1);
                smbi.put(tape, at)
            },
            Lock::Reading(x) => {
                let at = word(tape, at, 2);
                let at = word(tape, at, x);
                word(tape, at, 0)
            },
            Lock::Waiting(x) => {
                let at = word(tape, at, 3);
                let at = word(tape, at, x);
                word(tape, at, 0)
            },
            Lock::Clearing(clear) => {
                let at = word(tape, at, 4);
                let at = clear.put(tape, at);
                word(tape, at, 0)
            },
            Lock::Flushing => {
                let at = word(tape, at, 5);
                zeros(tape, at, 2)
            },
        }
    }

    #[tactic(auto, unfolding(crate::specs::Sync::get_lock))]
    fn get(tape: &[u32], at: usize) -> Lock {
        let kind = word_at(tape, at, 0);
        if kind == 1 {
            Lock::Smbi(Smbi::get(tape, after(tape, at, 1)))
        } else if kind == 2 {
            Lock::Reading(word_at(tape, at, 1))
        } else if kind == 3 {
            Lock::Waiting(word_at(tape, at, 1))
        } else if kind == 4 {
            Lock::Clearing(Clear::get(tape, after(tape, at, 1)))
        } else {
            Lock::Flushing
        }
    }
}

impl Packed for Unlock {
    ghost words = { words_unlock };

    ghost read = { get_unlock };

    #[tactic(auto, using(crate::proofs::Laws::word_then), unfolding(crate::specs::Sync::words_unlock, crate::specs::Sync::get_unlock, crate::specs::Tape::word_at))]
    fn put(self, tape: &mut [u32; 68], at: usize) -> usize {
        match self {
            Unlock::Sync(clear) => {
                let at = word(tape, at, 1);
                clear.put(tape, at)
            },
            Unlock::Smbi(clear) => {
                let at = word(tape, at, 2);
                clear.put(tape, at)
            },
            Unlock::Flushing => {
                let at = word(tape, at, 3);
                word(tape, at, 0)
            },
        }
    }

    #[tactic(auto, unfolding(crate::specs::Sync::get_unlock))]
    fn get(tape: &[u32], at: usize) -> Unlock {
        let kind = word_at(tape, at, 0);
        if kind == 1 {
            Unlock::Sync(Clear::get(tape, after(tape, at, 1)))
        } else if kind == 2 {
            Unlock::Smbi(Clear::get(tape, after(tape, at, 1)))
        } else {
            Unlock::Flushing
        }
    }
}

impl Packed for SetMux {
    ghost words = { words_set_mux };

    ghost read = { get_set_mux };

    #[tactic(auto, unfolding(crate::specs::Sync::words_set_mux, crate::specs::Sync::get_set_mux, crate::specs::Tape::word_at))]
    fn put(self, tape: &mut [u32; 68], at: usize) -> usize {
        match self {
            SetMux::Reading => word(tape, at, 1),
            SetMux::Writing => word(tape, at, 2),
            SetMux::Flushing => word(tape, at, 3),
        }
    }

    #[tactic(auto, unfolding(crate::specs::Sync::get_set_mux))]
    fn get(tape: &[u32], at: usize) -> SetMux {
        let kind = word_at(tape, at, 0);
        if kind == 1 {
            SetMux::Reading
        } else if kind == 2 {
            SetMux::Writing
        } else {
            SetMux::Flushing
        }
    }
}

impl Packed for AcquireBits {
    ghost words = { words_acquire_bits };

    ghost read = { get_acquire_bits };

    #[tactic(auto, unfolding(crate::specs::Sync::words_acquire_bits, crate::specs::Sync::get_acquire_bits, crate::specs::Tape::word_at))]
    fn put(self, tape: &mut [u32; 68], at: usize) -> usize {
        match self {
            AcquireBits::Locking(x, lock) => {
                let at = word(tape, at, 1);
                let at = word(tape, at, x);
                let at = lock.put(tape, at);
                zeros(tape, at, 4)
            },
            AcquireBits::Reading(x) => {
                let at = word(tape, at, 2);
                let at = word(tape, at, x);
                zeros(tape, at, 7)
            },
            AcquireBits::Writing => {
                let at = word(tape, at, 3);
                zeros(tape, at, 8)
            },
            AcquireBits::Ending(nothing_or_error, unlock) => {
                let at = word(tape, at, 4);
                let at = nothing_or_error.put(tape, at);
                unlock.put(tape, at)
            },
            AcquireBits::Held(x, y, unlock) => {
                let at = word(tape, at, 5);
                let at = word(tape, at, x);
                let at = word(tape, at, y);
                let at = unlock.put(tape, at);
                zeros(tape, at, 4)
            },
            AcquireBits::Waiting(x, y) => {
                let at = word(tape, at, 6);
                let at = word(tape, at, x);
                let at = word(tape, at, y);
                zeros(tape, at, 6)
            },
            AcquireBits::Switching(set_mux) => {
                let at = word(tape, at, 7);
                let at = set_mux.put(tape, at);
                zeros(tape, at, 7)
            },
        }
    }

    #[tactic(auto, unfolding(crate::specs::Sync::get_acquire_bits))]
    fn get(tape: &[u32], at: usize) -> AcquireBits {
        let kind = word_at(tape, at, 0);
        if kind == 1 {
            AcquireBits::Locking(word_at(tape, at, 1), Lock::get(tape, after(tape, at, 2)))
        } else if kind == 2 {
            AcquireBits::Reading(word_at(tape, at, 1))
        } else if kind == 3 {
            AcquireBits::Writing
        } else if kind == 4 {
            AcquireBits::Ending(
                Result::get(tape, after(tape, at, 1)),
                Unlock::get(tape, after(tape, at, 7)),
            )
        } else if kind == 5 {
            AcquireBits::Held(
                word_at(tape, at, 1),
                word_at(tape, at, 2),
                Unlock::get(tape, after(tape, at, 3)),
            )
        } else if kind == 6 {
            AcquireBits::Waiting(word_at(tape, at, 1), word_at(tape, at, 2))
        } else {
            AcquireBits::Switching(SetMux::get(tape, after(tape, at, 1)))
        }
    }
}

impl Packed for ReleaseBits {
    ghost words = { words_release_bits };

    ghost read = { get_release_bits };

    #[tactic(auto, unfolding(crate::specs::Sync::words_release_bits, crate::specs::Sync::get_release_bits, crate::specs::Tape::word_at))]
    fn put(self, tape: &mut [u32; 68], at: usize) -> usize {
        match self {
            ReleaseBits::Switching(set_mux) => {
                let at = word(tape, at, 1);
                let at = set_mux.put(tape, at);
                zeros(tape, at, 7)
            },
            ReleaseBits::Locking(lock) => {
                let at = word(tape, at, 2);
                let at = lock.put(tape, at);
                zeros(tape, at, 5)
            },
            ReleaseBits::Clearing(clear) => {
                let at = word(tape, at, 3);
                let at = clear.put(tape, at);
                zeros(tape, at, 7)
            },
            ReleaseBits::Unlocking(nothing_or_error, unlock) => {
                let at = word(tape, at, 4);
                let at = nothing_or_error.put(tape, at);
                unlock.put(tape, at)
            },
            ReleaseBits::Waiting => {
                let at = word(tape, at, 5);
                zeros(tape, at, 8)
            },
        }
    }

    #[tactic(auto, unfolding(crate::specs::Sync::get_release_bits))]
    fn get(tape: &[u32], at: usize) -> ReleaseBits {
        let kind = word_at(tape, at, 0);
        if kind == 1 {
            ReleaseBits::Switching(SetMux::get(tape, after(tape, at, 1)))
        } else if kind == 2 {
            ReleaseBits::Locking(Lock::get(tape, after(tape, at, 1)))
        } else if kind == 3 {
            ReleaseBits::Clearing(Clear::get(tape, after(tape, at, 1)))
        } else if kind == 4 {
            ReleaseBits::Unlocking(
                Result::get(tape, after(tape, at, 1)),
                Unlock::get(tape, after(tape, at, 7)),
            )
        } else {
            ReleaseBits::Waiting
        }
    }
}

impl Packed for Sync {
    ghost words = { words_sync };

    ghost read = { get_sync };

    #[tactic(auto, using(crate::proofs::Laws::word_then), unfolding(crate::specs::Sync::words_sync, crate::specs::Sync::get_sync, crate::specs::Tape::word_at))]
    fn put(self, tape: &mut [u32; 68], at: usize) -> usize {
        match self {
            Sync::Take(acquire_bits) => {
                let at = word(tape, at, 1);
                acquire_bits.put(tape, at)
            },
            Sync::Give(release_bits) => {
                let at = word(tape, at, 2);
                release_bits.put(tape, at)
            },
        }
    }

    #[tactic(auto, unfolding(crate::specs::Sync::get_sync))]
    fn get(tape: &[u32], at: usize) -> Sync {
        let kind = word_at(tape, at, 0);
        if kind == 1 {
            Sync::Take(AcquireBits::get(tape, after(tape, at, 1)))
        } else {
            Sync::Give(ReleaseBits::get(tape, after(tape, at, 1)))
        }
    }
}
