// hostif.rs, tier 1: what a command of the firmware's host interface does while it holds SW_MNG.
#![tactic(auto)]

pub mod exchange;
pub mod post;
