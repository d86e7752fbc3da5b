//! The laws of terms: how long an RTDS unit is on a core between two replenishments, and the units of a capped domain between two
//! refills, with worked examples. Each function does nothing, and its contract is the law or the example.
#![tactic(auto)]

pub mod caps;
pub mod caps_examples;
pub mod rtds;
pub mod rtds_examples;
