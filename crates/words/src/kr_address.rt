// x552.rs: the address of a KR register.
ghost use Rattle.std.specs.Prelude.{◌≡◌};
ghost use Rattle.words.specs.Kr.{krm};

// Past 32 bits it wraps, where the Rust's debug build panics.
#[tactic(auto, unfolding(crate::specs::Kr::krm))]
pub fn krm(lan: u32, port0: u32) -> u32
    ensures { krm lan port0 ≡ result }
{
    if lan == 1 {
        port0.wrapping_add(0x4000)
    } else {
        port0
    }
}
