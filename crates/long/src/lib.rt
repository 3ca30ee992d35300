// hostif.rs's `command` of a host block that stays with its caller, who lends it to each step.
#![tactic(auto)]

pub mod command;
