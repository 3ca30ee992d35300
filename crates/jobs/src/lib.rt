// What an operation asks for between two decisions of its own, and what the token's command is: values alone, no machine.
#![tactic(auto)]

pub mod job;
pub mod token;
