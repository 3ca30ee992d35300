// mdio.rs: the identifier of a PHY.
ghost use Rattle.std.specs.Prelude.{◌≡◌};
ghost use Rattle.words.specs.Phy.{phy_id};

// What `probe` makes of registers 2 and 3, each in the low half of a word.
#[tactic(auto, using(crate::proofs::Theorems::Phy::identifier_rust), unfolding(crate::specs::Phy::phy_id))]
pub fn phy_id(high: u32, low: u32) -> Option<u32>
    ensures { phy_id high low ≡ result }
{
    if high == 0 || high == 0xffff {
        return None;
    }
    Some(high << 16 | low & 0xfff0)
}
