// hostif.rs and x552.rs `nvm_word`: where the words stand, byte order, and the length of a reply.
ghost use Rattle.std.specs.Prelude.{◌≡◌};
ghost use Rattle.words.specs.Hostif.{flex_mng, swap_bytes, nvm_address, fits, reply_words};

use hardware::Port;

// The register of the host block's word i. A block above 2^30 words wraps, as in the Rust's release build.
pub fn flex_mng(i: usize) -> u32
    ensures { flex_mng i ≡ result }
{
    let low = (i % 0x4000_0000) as u32;
    Port::FLEX_MNG.wrapping_add(4 * low)
}

#[tactic(auto, unfolding(crate::specs::Hostif::swap_bytes))]
pub fn swap_bytes(word: u32) -> u32
    ensures { swap_bytes word ≡ result }
{
    (word % 256) * 0x100_0000
        + (word >> 8) % 256 * 0x1_0000
        + (word >> 16) % 256 * 0x100
        + (word >> 24)
}

// Where `nvm_word` finds a word.
#[tactic(auto, unfolding(crate::specs::Hostif::nvm_address))]
pub fn nvm_address(word: u16) -> u32
    ensures { nvm_address word ≡ result }
{
    swap_bytes(2 * (word as u32))
}

// The words that a reply of len bytes takes behind its header.
#[tactic(auto, unfolding(crate::specs::Hostif::reply_words))]
pub fn reply_words(len: u32) -> usize
    ensures { reply_words len ≡ result }
{
    (len as usize + 3) / 4
}

// Does a reply of len bytes fit a block of so many words?
#[tactic(auto, using(crate::proofs::Theorems::Hostif::fits_words))]
pub fn fits(len: u32, words: usize) -> bool
    ensures { fits len words ≡ result }
{
    reply_words(len) < words
}
