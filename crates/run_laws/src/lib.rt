//! Laws of the form of runs. Each function does nothing, and its contract is the law.
#![tactic(auto)]

pub mod laws;
