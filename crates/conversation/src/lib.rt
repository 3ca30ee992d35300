// A conversation: begun, moved by one reply, or run over a script of replies.
#![tactic(auto)]

pub mod conversation;
pub mod run;
