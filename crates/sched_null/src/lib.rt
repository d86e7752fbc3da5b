//! The null scheduler: each core is given to one unit for good.
//!
//! A core that is given to a unit is asked about that unit alone; the other units that wait are looked through only for a core
//! that is given to none. A unit that comes to wait is known by its core, which is read from a table.
#![tactic(auto)]

pub mod kept;
pub mod null;
pub mod state;

pub use null::Null;
