//! What guests get, worked out: runs of a few nanoseconds, and what the laws of service count in them. Each function does nothing, and its contract is the
//! example.
#![tactic(auto)]

pub mod counted;
