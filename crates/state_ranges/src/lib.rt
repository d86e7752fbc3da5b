//! Laws of what a state holds: every number of a state that a run leads to stays in range, and the scheduler of a pool keeps records of the
//! domains that the pool has. Each function does nothing, and its contract is the law.
#![tactic(auto)]

pub mod ranges;
pub mod records;
