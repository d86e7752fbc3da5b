//! Worked examples of the machine: what a run of a small machine is, entry by entry. Each function does nothing, and its contract is the example.
//!
//! A machine and the entries of its run stand in `specs/`. That its ordered run has these entries is computed from the definitions.
#![tactic(auto)]

pub mod affinity;
pub mod arinc;
pub mod caps;
pub mod commands;
pub mod credit2;
pub mod free_orders;
pub mod null;
pub mod numbers;
pub mod realistic;
pub mod reports;
pub mod rtds;
pub mod scripts;
pub mod siblings;
pub mod timers;
