// The line that names an operation and its arguments.
#![tactic(auto)]

pub mod argument_words;
pub mod kinds;
pub mod kr_registers;
pub mod operation;
pub mod registers;
pub mod setups;
