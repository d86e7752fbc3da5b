//! Laws of reservations: what an RTDS unit gets in each of its terms. Each function does nothing, and its contract is the law.
#![tactic(auto)]

pub mod examples;
pub mod reservations;
