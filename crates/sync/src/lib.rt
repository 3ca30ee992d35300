// sync.rs, tier 1: the register semaphore, and the bits of SW_FW_SYNC.
#![tactic(auto)]

pub mod acquire_bits;
pub mod lock;
pub mod release_bits;
pub mod set_mux;
pub mod sync;
