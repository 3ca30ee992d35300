// hardware.rs `link` and x552.rs `Watch::poll`: what LINKS and the vendor status say of the speed.
ghost use Rattle.std.specs.Prelude.{◌≡◌};
ghost use Rattle.words.specs.Link.{link_of, copper};

use hardware::Family;

#[derive(Clone, Copy)]
pub enum Link {
    Down,
    Up { megabits: Option<u32> },
}

impl Link {
    pub const LINK_UP: u32 = 0x4000_0000;

    // With bits 29:28 both set: 2500 megabits, not 10000.
    pub const NON_STD: u32 = 0x0800_0000;

    // Of two arguments, so no From.
    #[tactic(auto, using(crate::proofs::Bits::is_clear_lem, crate::proofs::Bits::is_set, crate::proofs::Theorems::Link::speed_rust), unfolding(crate::specs::Link::link_of))]
    pub fn of(family: Family, links: u32) -> Link
        ensures { link_of family links ≡ result }
    {
        if links & Link::LINK_UP == 0 {
            return Link::Down;
        }
        let megabits = match (links >> 28) & 3 {
            0 => match family {
                Family::X552 => None,
                Family::X553 => Some(10),
            },
            1 => Some(100),
            2 => Some(1000),
            _ => {
                if links & Link::NON_STD == 0 {
                    Some(10000)
                } else {
                    Some(2500)
                }
            }
        };
        Link::Up { megabits }
    }
}

// The copper side's speed. `None` is the Rust's `Invalid`.
#[tactic(auto, using(crate::proofs::Theorems::Link::status_rust), unfolding(crate::specs::Link::copper))]
pub fn copper(status: u32) -> Option<u32>
    ensures { copper status ≡ result }
{
    match status & 7 {
        7 => Some(10000),
        5 => Some(1000),
        _ => None,
    }
}
