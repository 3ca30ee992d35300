// x552.rs's Watch: its poll by value, suspended at a job; inside a window it does not force.
#![tactic(auto)]

pub mod poll;
