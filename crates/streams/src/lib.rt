// A reader's lines and a writer's, a line at a time.
#![tactic(auto)]

pub mod batch;
pub mod due;
pub mod ending;
pub mod input;
pub mod output;
pub mod part;
