// Numbers in one to ten decimal digits.
ghost use Rattle.std.specs.Prelude.{◌≡◌, ◌≤◌, length};
ghost use Rattle.text.specs.Decimal.{digit as Decimal·digit, value as Decimal·value, decimal_number, decimal_u32};

fn digit(b: u8) -> Option<u64>
    ensures { Decimal·digit b ≡ result }
{
    match b {
        b'0'..=b'9' => Some((b - b'0') as u64),
        _ => None,
    }
}

#[tactic(auto, using(crate::proofs::NumberLaws::value_end, crate::proofs::NumberLaws::value_stop, crate::proofs::DecimalLaws::room))]
fn value(word: &[u8]) -> Option<u64>
    requires { length word.now ≤ 10 }
    ensures { Decimal·value 0 word.now ≡ result }
{
    let mut v: u64 = 0;
    for b in word {
        let d = digit(*b)?;
        v = 10 * v + d;
    }
    Some(v)
}

#[tactic(auto, unfolding(crate::specs::Decimal::decimal_number))]
pub fn number(word: &[u8]) -> Option<u64>
    ensures { decimal_number word.now ≡ result }
{
    if word.is_empty() || word.len() > 10 {
        return None;
    }
    value(word)
}

// One that fits 32 bits.
pub fn number_u32(word: &[u8]) -> Option<u32>
    ensures { decimal_u32 word.now ≡ result }
{
    let v = number(word)?;
    if v > 0xffff_ffff {
        return None;
    }
    Some(v as u32)
}
