// sync.rs, tier 2: acquire, release and locked with TOKEN, hostif.rs's `command`, and what is done under a lock: an access, as one
// machine, suspended at an action.
#![tactic(auto)]

pub mod access;
pub mod body;
pub mod command;
pub mod frame;
pub mod hold;
pub mod list;
pub mod place;
