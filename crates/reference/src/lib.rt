// The Rust as definitions: specs/ has one file beside each Rust file, and no code.
#![tactic(auto)]
