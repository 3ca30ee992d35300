// What is put down as words and read back. Here are the impls of numbers, one for every Option and one for every Result; those of
// the states are in the file of their crate (p_sync and the others).
ghost use Rattle.std.specs.Prelude.{◌≡◌, ℕ, List, ◌++◌, drop};
ghost use Rattle.packed.specs.Tape.{Adds};
ghost use Rattle.packed.specs.Packed.{words_word, words_flag, words_nothing, words_byte_word, words_option, words_result, padding, get_byte, get_half, get_word, get_flag, get_nothing, get_byte_word, get_option, get_result};

use crate::read::{after, byte, half, is, word_at};
use crate::tape::{flag, wide, wide_byte, word, zeros};

pub trait Packed: Copy {
    ghost words: { Self → List ℕ };

    ghost read: { List ℕ → Self };

    // The answer is the place behind the words.
    fn put(self, tape: &mut [u32; 68], at: usize) -> usize
        ensures adds { Adds at tape.old (words self) result tape.new }
        ensures back { (rest : List ℕ) → read (words self ++ rest) ≡ self };

    fn get(tape: &[u32], at: usize) -> Self
        ensures { result ≡ read (drop at tape.now) };
}

// What an Option or a Result may hold, and how many words it is.
pub trait Part: Packed {
    ghost WIDTH: { ℕ };

    fn width() -> usize
        ensures { result ≡ WIDTH };
}

impl Packed for u8 {
    ghost words = { words_word };

    ghost read = { get_byte };

    #[tactic(auto, unfolding(crate::specs::Tape::word_at))]
    fn put(self, tape: &mut [u32; 68], at: usize) -> usize {
        word(tape, at, wide_byte(self))
    }

    fn get(tape: &[u32], at: usize) -> u8 {
        byte(word_at(tape, at, 0))
    }
}

impl Packed for u16 {
    ghost words = { words_word };

    ghost read = { get_half };

    #[tactic(auto, unfolding(crate::specs::Tape::word_at))]
    fn put(self, tape: &mut [u32; 68], at: usize) -> usize {
        word(tape, at, wide(self))
    }

    fn get(tape: &[u32], at: usize) -> u16 {
        half(word_at(tape, at, 0))
    }
}

impl Packed for u32 {
    ghost words = { words_word };

    ghost read = { get_word };

    #[tactic(auto, unfolding(crate::specs::Tape::word_at))]
    fn put(self, tape: &mut [u32; 68], at: usize) -> usize {
        word(tape, at, self)
    }

    fn get(tape: &[u32], at: usize) -> u32 {
        word_at(tape, at, 0)
    }
}

impl Packed for bool {
    ghost words = { words_flag };

    ghost read = { get_flag };

    #[tactic(auto, using(crate::proofs::Laws::is_flag), unfolding(crate::specs::Tape::word_at))]
    fn put(self, tape: &mut [u32; 68], at: usize) -> usize {
        flag(tape, at, self)
    }

    fn get(tape: &[u32], at: usize) -> bool {
        is(word_at(tape, at, 0))
    }
}

impl Packed for () {
    ghost words = { words_nothing };

    ghost read = { get_nothing };

    fn put(self, tape: &mut [u32; 68], at: usize) -> usize {
        zeros(tape, at, 0)
    }

    fn get(tape: &[u32], at: usize) {}
}

impl Packed for (u8, u32) {
    ghost words = { words_byte_word };

    ghost read = { get_byte_word };

    #[tactic(auto, using(crate::proofs::Laws::word_then), unfolding(crate::specs::Tape::word_at))]
    fn put(self, tape: &mut [u32; 68], at: usize) -> usize {
        let (a, b) = self;
        let at = word(tape, at, wide_byte(a));
        word(tape, at, b)
    }

    fn get(tape: &[u32], at: usize) -> (u8, u32) {
        (byte(word_at(tape, at, 0)), word_at(tape, at, 1))
    }
}

impl<T: Part> Packed for Option<T> {
    ghost words = { words_option T.WIDTH T.words };

    ghost read = { get_option T.read };

    #[tactic(auto, using(crate::proofs::Laws::word_then), unfolding(crate::specs::Packed::words_option, crate::specs::Packed::get_option, crate::specs::Tape::word_at))]
    fn put(self, tape: &mut [u32; 68], at: usize) -> usize {
        match self {
            None => {
                let at = word(tape, at, 1);
                zeros(tape, at, T::width())
            },
            Some(x) => {
                let at = word(tape, at, 2);
                x.put(tape, at)
            },
        }
    }

    #[tactic(auto, unfolding(crate::specs::Packed::get_option))]
    fn get(tape: &[u32], at: usize) -> Option<T> {
        let kind = word_at(tape, at, 0);
        if kind == 1 {
            None
        } else {
            Some(T::get(tape, after(tape, at, 1)))
        }
    }
}

// Zeros up to the wider of two.
fn pad(tape: &mut [u32; 68], at: usize, used: usize, other: usize) -> usize
    ensures { Adds at tape.old (padding used other) result tape.new }
{
    if used < other {
        zeros(tape, at, other - used)
    } else {
        at
    }
}

impl<T: Part, E: Part> Packed for Result<T, E> {
    ghost words = { words_result T.WIDTH E.WIDTH T.words E.words };

    ghost read = { get_result T.read E.read };

    #[tactic(auto, using(std::proofs::lemmas::List::append_assoc), unfolding(crate::specs::Packed::words_result, crate::specs::Packed::get_result, crate::specs::Tape::word_at))]
    fn put(self, tape: &mut [u32; 68], at: usize) -> usize {
        match self {
            Ok(x) => {
                let at = word(tape, at, 1);
                let at = x.put(tape, at);
                pad(tape, at, T::width(), E::width())
            },
            Err(e) => {
                let at = word(tape, at, 2);
                let at = e.put(tape, at);
                pad(tape, at, E::width(), T::width())
            },
        }
    }

    #[tactic(auto, unfolding(crate::specs::Packed::get_result))]
    fn get(tape: &[u32], at: usize) -> Result<T, E> {
        let kind = word_at(tape, at, 0);
        if kind == 1 {
            Ok(T::get(tape, after(tape, at, 1)))
        } else {
            Err(E::get(tape, after(tape, at, 1)))
        }
    }
}

impl Part for u8 {
    ghost WIDTH = { 1 };

    fn width() -> usize {
        1
    }
}

impl Part for u16 {
    ghost WIDTH = { 1 };

    fn width() -> usize {
        1
    }
}

impl Part for u32 {
    ghost WIDTH = { 1 };

    fn width() -> usize {
        1
    }
}

impl Part for bool {
    ghost WIDTH = { 1 };

    fn width() -> usize {
        1
    }
}

impl Part for () {
    ghost WIDTH = { 0 };

    fn width() -> usize {
        0
    }
}

impl Part for (u8, u32) {
    ghost WIDTH = { 2 };

    fn width() -> usize {
        2
    }
}
