// x552.rs's X557: found and reset before the MAC reset, its link set up after it. Each machine is suspended at a job.
#![tactic(auto)]

pub mod link;
pub mod prepare;
