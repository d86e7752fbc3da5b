//! The plain types of the simulator. The definitions of its machine are in `specs/`.
//!
//! Moments and spans are in nanoseconds, unless said otherwise.
#![tactic(auto)]

pub mod action;
pub mod ask;
pub mod command;
pub mod config;
pub mod event;
pub mod facts;
pub mod machine;
pub mod places;
pub mod plan;
pub mod row;
pub mod short;
pub mod state;
pub mod units;
pub mod work;
