// A conversation over a reader and a writer: its lines are read, and its listing is printed.
#![tactic(auto)]

pub mod ahead;
pub mod ending;
pub mod listing;
pub mod moved;
pub mod talk;
pub mod turn;
