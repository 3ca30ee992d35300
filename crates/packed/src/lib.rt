// A conversation's states as words, and back: for a caller that cannot hold an enum.
#![tactic(auto)]

pub mod p_access;
pub mod p_activity;
pub mod p_after;
pub mod p_answers;
pub mod p_bringup;
pub mod p_hardware;
pub mod p_hostif;
pub mod p_kr;
pub mod p_long;
pub mod p_mdio;
pub mod p_phy;
pub mod p_sideband;
pub mod p_started;
pub mod p_sync;
pub mod p_watch;
pub mod p_words;
pub mod p_x552;
pub mod p_x553;
pub mod packed;
pub mod read;
pub mod tape;
