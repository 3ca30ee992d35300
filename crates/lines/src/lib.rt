// The tracer's lines but for the operation's: what is read, and what is printed.
#![tactic(auto)]

pub mod buffer;
pub mod listing;
pub mod port;
pub mod reply;
