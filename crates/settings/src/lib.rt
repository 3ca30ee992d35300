// Settings with their past: a port's pause and veto, and every version before, in words that the caller lends.
#![tactic(auto)]

pub mod fault;
mod free;
mod layout;
mod marks;
pub mod setting;
pub mod store;
mod walk;
