//! Laws of queues that are sorted by key, then by arrival: what a scheduler sees of them is the order of arrival.
//! Each function does nothing, and its contract is the law.
#![tactic(auto)]

pub mod laws;
