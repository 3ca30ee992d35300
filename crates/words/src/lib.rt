// The words of the public documents: each is defined in specs/ from its document, and the functions here compute it.
#![tactic(auto)]

pub mod host_words;
pub mod kr_address;
pub mod link;
pub mod msca;
pub mod phy_identifier;
pub mod semaphore;
