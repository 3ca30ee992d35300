// The kinds of arguments. Each is taken from the front of the words that are left, and comes with those behind it.
ghost use Rattle.std.specs.Prelude.{◌≡◌};
ghost use Rattle.std.specs.Option.{option_map};
ghost use Rattle.text.specs.Same.{same};
ghost use Rattle.trace.specs.Kinds.{no_more, word_of, half_of, truth_of, maybe_of, status_of};

use operations::Operation;

#[tactic(auto, using(text::proofs::SameLaws::same_pointwise))]
pub fn is_name(word: &[u8], name: &[u8]) -> bool
    ensures { same word.now name.now ≡ result }
{
    word == name
}

// The operation, where no word is left. None is lent.
#[tactic(auto, unfolding(crate::specs::Kinds::no_more))]
pub fn no_more(what: Operation, args: &[u32]) -> Option<(Operation, usize)>
    ensures { no_more what args.now ≡ result }
{
    if args.is_empty() {
        Some((what, 0))
    } else {
        None
    }
}

#[tactic(auto, unfolding(crate::specs::Kinds::word_of))]
pub fn word(args: &[u32]) -> Option<(u32, &[u32])>
    ensures { word_of args.now ≡ option_map (λ p. (p.0, p.1.now)) result }
{
    let (v, rest) = args.split_first()?;
    Some((*v, rest))
}

// A word whose upper half is clear.
#[tactic(auto, unfolding(crate::specs::Kinds::half_of))]
pub fn half(args: &[u32]) -> Option<(u16, &[u32])>
    ensures { half_of args.now ≡ option_map (λ p. (p.0, p.1.now)) result }
{
    let (v, rest) = word(args)?;
    let half = u16::try_from(v).ok()?;
    Some((half, rest))
}

// 0 or 1.
#[tactic(auto, unfolding(crate::specs::Kinds::truth_of))]
pub fn truth(args: &[u32]) -> Option<(bool, &[u32])>
    ensures { truth_of args.now ≡ option_map (λ p. (p.0, p.1.now)) result }
{
    let (v, rest) = word(args)?;
    match v {
        0 => Some((false, rest)),
        1 => Some((true, rest)),
        _ => None,
    }
}

// 0 where there is none, or 1 and then its 0 or 1.
#[tactic(auto, unfolding(crate::specs::Kinds::maybe_of, crate::specs::Kinds::truth_of))]
pub fn maybe(args: &[u32]) -> Option<(Option<bool>, &[u32])>
    ensures { maybe_of args.now ≡ option_map (λ p. (p.0, p.1.now)) result }
{
    let (given, rest) = truth(args)?;
    if !given {
        return Some((None, rest));
    }
    truth(rest).map(|(value, rest)| (Some(value), rest))
}

// The same with a word whose upper half is clear.
#[tactic(auto, unfolding(crate::specs::Kinds::status_of, crate::specs::Kinds::truth_of))]
pub fn status(args: &[u32]) -> Option<(Option<u16>, &[u32])>
    ensures { status_of args.now ≡ option_map (λ p. (p.0, p.1.now)) result }
{
    let (given, rest) = truth(args)?;
    if !given {
        return Some((None, rest));
    }
    half(rest).map(|(value, rest)| (Some(value), rest))
}
