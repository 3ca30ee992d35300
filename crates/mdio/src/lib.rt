// mdio.rs, tier 1: what read_reg and write_reg do while they hold the mask.
#![tactic(auto)]

pub mod cycle;
pub mod mdio;
