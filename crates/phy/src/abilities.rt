// mdio.rs's `abilities`: one read.
ghost use Rattle.std.specs.Prelude.{◌≡◌};
ghost use Rattle.reference.specs.Mdio.{speeds_of};

use answers::Speeds;

#[tactic(auto, unfolding(reference::specs::Mdio::speeds_of))]
pub fn speeds_of(v: u32) -> Speeds
    ensures { speeds_of v ≡ result }
{
    Speeds {
        g10: v & 1 != 0,
        g1: v & 0x10 != 0,
        m100: v & 0x20 != 0,
    }
}
