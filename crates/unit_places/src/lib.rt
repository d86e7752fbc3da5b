//! The places of schedule units in tables, 32 for each of 64 domains, and the table of the cores on which each unit may run.
#![tactic(auto)]

pub mod masks;
pub mod places;

pub use masks::Masks;
pub use places::{PLACES, has_place, index_of, place_of};
