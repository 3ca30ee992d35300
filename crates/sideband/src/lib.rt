// x552.rs, tier 1: what kr_read, kr_write and nvm_word do while they hold their bits.
#![tactic(auto)]

pub mod idle;
pub mod kr_access;
pub mod nvm;
