// x553.rs: SGMII on the KR PHY's registers, and the PHY that belongs to the firmware. Each machine is suspended at a job.
#![tactic(auto)]

pub mod firmware;
pub mod prepare;
pub mod sgmii;
pub mod sgmii_an;
