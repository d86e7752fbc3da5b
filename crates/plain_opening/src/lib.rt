//! The state at the opening of a machine, and the pools that its commands may make later. All memory of a run is taken here.
#![tactic(auto)]

pub mod cores;
pub mod opening;
pub mod spare;
