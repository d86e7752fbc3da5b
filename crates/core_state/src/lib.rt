//! The cores of one pool, and from when on their events may come.
//!
//! Each core is in the form of the machine's own definitions. Beside the cores stand sets of moments, one for each kind of event, so
//! that the first event that may come is found without a look at each core. A change of one core arms anew what belongs to that core.
#![tactic(auto)]

mod changes;
pub mod cores;
mod counts;
mod dues;
mod ends;
pub mod laws;

pub use cores::CoreState;
pub use dues::earlier;
