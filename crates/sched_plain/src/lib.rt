//! A machine that keeps the state of the definitions plainly, and scans it.
#![tactic(auto)]

pub mod command;
pub mod dom_moves;
pub mod enabled;
pub mod first;
pub mod floors;
pub mod homes;
pub mod moves;
pub mod perform;
pub mod plain;
pub mod pool_floors;
pub mod scan;
pub mod settled;
pub mod soonest;
pub mod stall;
pub mod waits;
