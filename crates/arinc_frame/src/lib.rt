//! The scheduler ARINC 653: a frame of windows, run again and again, each of them for one unit.
//!
//! Only the unit of the present window is ever chosen, so no call looks through the units that wait. The window that was found
//! last is kept with its end: a question inside it does not walk the frame.
#![tactic(auto)]

pub mod arinc;
pub mod window;

pub use arinc::Arinc;
