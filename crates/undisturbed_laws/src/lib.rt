//! Laws of a machine to which nothing happens from outside: it keeps its configuration. Each function does nothing, and its contract is the law.
#![tactic(auto)]

pub mod undisturbed;
