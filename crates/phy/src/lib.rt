// mdio.rs: what is made of reads and writes of a PHY's registers. Each machine is suspended at a job.
#![tactic(auto)]

pub mod abilities;
pub mod advertise;
pub mod an_link;
pub mod clock;
pub mod modify;
pub mod probe;
pub mod reset;
pub mod scan;
