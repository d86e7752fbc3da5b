//! Laws of a scheduler behind `Policy` and of the pool that has it: which units its records have on a core, what comes next among its
//! timers, and what the pool keeps from event to event. Each function does nothing, and its contract is the law.
#![tactic(auto)]

pub mod pools;
pub mod running;
pub mod timers;
