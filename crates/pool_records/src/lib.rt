//! The records of one pool: its cores, and its domains with their vCPUs, changed in place. Nothing here scans the waiting units to choose one.
#![tactic(auto)]

pub mod changes;
pub mod cores;
pub mod doing;
pub mod leaving;
pub mod opening;
pub mod pausing;
pub mod rows;
pub mod runnable;
pub mod units;
pub mod vcpus;
