// Words read from a place on; behind the end they are 0.
ghost use Rattle.std.specs.Prelude.{◌≡◌, ◌%◌, drop};
ghost use Rattle.packed.specs.Tape.{word_at, is as is_of, joined as joined_of};

#[tactic(auto, unfolding(crate::specs::Tape::word_at))]
pub fn word_at(words: &[u32], at: usize, k: usize) -> u32
    ensures { result ≡ word_at (drop at words.now) k }
{
    let n = words.len();
    if at < n {
        if k < n - at { words[at + k] } else { 0 }
    } else {
        0
    }
}

// The place that is k words on, or the end.
pub fn after(words: &[u32], at: usize, k: usize) -> usize
    ensures { drop result words.now ≡ drop k (drop at words.now) }
{
    let n = words.len();
    if at < n {
        if k < n - at { at + k } else { n }
    } else {
        n
    }
}

pub fn half(w: u32) -> u16
    ensures { result ≡ w % 65536 }
{
    (w % 65536) as u16
}

pub fn byte(w: u32) -> u8
    ensures { result ≡ w % 256 }
{
    (w % 256) as u8
}

// As in C, any number but 0 is true.
pub fn is(w: u32) -> bool
    ensures { result ≡ is_of w }
{
    w != 0
}

pub fn joined(low: u32, high: u32) -> usize
    ensures { result ≡ joined_of low high }
{
    low as usize + high as usize * 4294967296
}
