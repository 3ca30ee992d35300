// What the calls that a host makes come to, on a conversation's meaning. The crate has definitions and theorems, and no code.
#![tactic(auto)]
