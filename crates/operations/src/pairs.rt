// The words that are lent for a list's pairs of device and register.
ghost use Rattle.std.specs.Prelude.{◌≡◌, length};
ghost use Rattle.operations.specs.Pairs.{outside, pairs_of};

// How many pairs they are.
#[tactic(auto, using(crate::proofs::PairLaws::half))]
pub fn count(words: &[u32]) -> usize
    ensures { length (pairs_of words.now) ≡ result }
{
    words.len() / 2
}

// A device above 31, a register above 0xffff, or a device without a register.
#[tactic(auto, using(crate::proofs::PairLaws::outside_short, crate::proofs::PairLaws::outside_device, crate::proofs::PairLaws::outside_register, crate::proofs::PairLaws::outside_then))]
pub fn is_outside(words: &[u32]) -> bool
    ensures { outside words.now ≡ result }
{
    for pair in words.chunks(2) {
        if pair.len() < 2 || pair[0] > 31 || pair[1] > 0xffff {
            return true;
        }
    }
    false
}
