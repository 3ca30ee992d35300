// x552.rs: what is made of reads and writes of the KR registers. Each machine is suspended at a job.
#![tactic(auto)]

pub mod modify;
pub mod sequence;
