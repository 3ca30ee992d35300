// The operation lines of `bringup` and of the Watch's `poll`.
ghost use Rattle.std.specs.Prelude.{◌≡◌};
ghost use Rattle.trace.specs.Setups.{internal_at, at_minute, with_bringup, with_poll, setup_name};

use crate::kinds::{is_name, no_more, status, truth, word};
use answers::Internal;
use arguments::Watch;
use operations::Operation;

fn bringup(args: &[u32]) -> Option<(Operation, usize)>
    ensures { with_bringup args.now ≡ result }
{
    let (veto, args) = truth(args)?;
    no_more(Operation::Bringup(veto), args)
}

fn internal_at(kr: bool) -> Internal
    ensures { internal_at kr ≡ result }
{
    if kr { Internal::Kr } else { Internal::Ixfi }
}

// The minute, where there is one, and the windows behind it, two words each.
#[tactic(auto, unfolding(crate::specs::Setups::at_minute))]
fn at_minute(watch: Watch, args: &[u32]) -> Option<(Operation, usize)>
    ensures { at_minute watch args.now ≡ result }
{
    let Some((minute, windows)) = args.split_first() else {
        return Some((Operation::Poll(watch, None), 0));
    };
    if windows.len() % 2 == 0 {
        Some((Operation::Poll(watch, Some(*minute)), windows.len()))
    } else {
        None
    }
}

fn poll(args: &[u32]) -> Option<(Operation, usize)>
    ensures { with_poll args.now ≡ result }
{
    let (phy, args) = word(args)?;
    let (kr, args) = truth(args)?;
    let (forced, args) = status(args)?;
    let (reforced, args) = word(args)?;
    let watch = Watch {
        phy,
        internal: internal_at(kr),
        forced,
        reforced,
    };
    at_minute(watch, args)
}

#[tactic(auto, unfolding(crate::specs::Setups::setup_name))]
pub fn setup_named(name: &[u8], args: &[u32]) -> Option<(Operation, usize)>
    ensures { setup_name name.now args.now ≡ result }
{
    if is_name(name, b"bringup") {
        return bringup(args);
    }
    if is_name(name, b"poll") {
        return poll(args);
    }
    None
}
