//! The acts of the tool on the parts of a machine: stalls, moves of cores and of domains, and commands, each over the places of the pools
//! and what the tool knows.
//!
//! A call has a trail as its witness, as those of `machine_parts` have: the input and the history, which contracts alone see. It answers
//! the event, and leaves the parts of the state that the trail leads to with that event's entry added.
#![tactic(auto)]

pub mod acts;
pub mod carrying;
pub mod commands;
pub mod cores;
pub mod domains;
pub mod making;
pub mod stalls;
pub mod verdicts;

pub use acts::act_of_tool;
pub use commands::{command, command_at};
pub use cores::move_core;
pub use domains::move_domain;
pub use stalls::stall;
