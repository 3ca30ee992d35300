// An operation that was begun: its next place from a reply, and as far as it goes over a script.
#![tactic(auto)]

pub mod operation;
pub mod standing;
