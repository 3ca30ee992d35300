// How each operation begins.
#![tactic(auto)]

pub mod start;
