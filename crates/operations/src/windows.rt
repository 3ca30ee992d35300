// The windows of a poll, in which it does not force the internal link anew: words, two each, the minute at which one starts
// (included) and at which it ends (excluded), of the week from Monday 00:00.
ghost use Rattle.std.specs.Prelude.{◌≡◌};
ghost use Rattle.operations.specs.Windows.{holds, in_some, inside, is_window, are_windows, are_good, are_bad};

// The minutes of a week.
const WEEK: u32 = 10_080;

// The windows that may be lent, two words each.
const MOST: usize = 32;

// Whether a window holds a minute. One whose start is above its end runs over the end of the week.
fn holds(start: u32, end: u32, minute: u32) -> bool
    ensures { holds start end minute ≡ result }
{
    if start < end {
        start <= minute && minute < end
    } else {
        start <= minute || minute < end
    }
}

// Whether some window holds it.
#[tactic(auto, using(crate::proofs::WindowLaws::half_holds, crate::proofs::WindowLaws::first_holds, crate::proofs::WindowLaws::then_in))]
fn in_some(minute: u32, windows: &[u32]) -> bool
    ensures { in_some minute windows.now ≡ result }
{
    for pair in windows.chunks(2) {
        if pair.len() < 2 {
            return false;
        }
        if holds(pair[0], pair[1], minute) {
            return true;
        }
    }
    false
}

// Whether a poll of this minute lies in a window. Without a minute there is none, whatever words are lent.
pub fn inside(minute: Option<u32>, windows: &[u32]) -> bool
    ensures { inside minute windows.now ≡ result }
{
    match minute {
        None => false,
        Some(minute) => in_some(minute, windows),
    }
}

fn is_window(start: u32, end: u32) -> bool
    ensures { is_window start end ≡ result }
{
    start < WEEK && end < WEEK && start != end
}

// Each pair of words is a window, and no word is left over.
#[tactic(auto, using(crate::proofs::WindowLaws::half_bad, crate::proofs::WindowLaws::first_bad, crate::proofs::WindowLaws::then_windows))]
fn are_windows(words: &[u32]) -> bool
    ensures { are_windows words.now ≡ result }
{
    for pair in words.chunks(2) {
        if pair.len() < 2 || !is_window(pair[0], pair[1]) {
            return false;
        }
    }
    true
}

fn are_good(minute: u32, windows: &[u32]) -> bool
    ensures { are_good minute windows.now ≡ result }
{
    minute < WEEK && windows.len() <= 2 * MOST && are_windows(windows)
}

// Whether a poll is turned away for its minute, or for its windows.
pub fn are_bad(minute: Option<u32>, windows: &[u32]) -> bool
    ensures { are_bad minute windows.now ≡ result }
{
    match minute {
        None => false,
        Some(minute) => !are_good(minute, windows),
    }
}
