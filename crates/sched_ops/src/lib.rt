//! What a scheduler is to the pool that has it: Xen's table of scheduler hooks, as a trait.
//!
//! The framework knows no scheduler but by `Policy`, and a new scheduler is a new crate.
#![tactic(auto)]

pub mod choice;
pub mod policy;
pub mod timer;
pub mod walk;

pub use choice::Choice;
pub use policy::{Places, Policy};
pub use timer::Timer;
pub use walk::wanted_where;
