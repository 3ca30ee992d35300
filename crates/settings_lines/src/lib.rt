// Settings by lines, for service people: words to load, stores and look-ups; their answers.
#![tactic(auto)]

pub mod answer;
pub mod bytes;
pub mod entry;
pub mod kept;
pub mod talk;
pub mod turn;
