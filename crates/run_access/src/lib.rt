// What is done under a lock, over a script: as many actions in one call as there are replies and room for.
#![tactic(auto)]

pub mod body;
pub mod exchange;
pub mod lent;
pub mod under;
