// Words written one behind the other, as far as there is room.
ghost use Rattle.std.specs.Prelude.{◌≡◌, ◌%◌, ◌/◌, [], ◌∷◌, replicate};
ghost use Rattle.packed.specs.Tape.{Adds, flag_of};

// A word too many is left out; a conversation has none. The answer is the place behind it.
pub fn word(tape: &mut [u32], at: usize, w: u32) -> usize
    ensures { Adds at tape.old (w ∷ []) result tape.new }
{
    if at < tape.len() {
        tape[at] = w;
        at + 1
    } else {
        at
    }
}

pub fn zeros(tape: &mut [u32], at: usize, n: usize) -> usize
    ensures { Adds at tape.old (replicate n 0) result tape.new }
{
    let mut to = at;
    for _ in 0..n {
        to = word(tape, to, 0);
    }
    to
}

pub fn flag(tape: &mut [u32], at: usize, b: bool) -> usize
    ensures { Adds at tape.old (flag_of b ∷ []) result tape.new }
{
    word(tape, at, b as u32)
}

// A number of 64 bits is two words, the low one first.
pub fn long(tape: &mut [u32], at: usize, n: usize) -> usize
    ensures { Adds at tape.old (n % 4294967296 ∷ n / 4294967296 ∷ []) result tape.new }
{
    let low = (n % 4294967296) as u32;
    let high = (n / 4294967296) as u32;
    let at = word(tape, at, low);
    word(tape, at, high)
}

pub fn wide(h: u16) -> u32
    ensures same { result ≡ h }
    ensures fits { h % 65536 ≡ h }
{
    h as u32
}

pub fn wide_byte(b: u8) -> u32
    ensures same { result ≡ b }
    ensures fits { b % 256 ≡ b }
{
    b as u32
}
