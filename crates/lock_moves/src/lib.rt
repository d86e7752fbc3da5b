//! A set of locks whose free values are the parts of the one state to which the history of a book leads, and names that move between them.
#![tactic(auto)]

mod content;
pub mod laws;
mod names;
mod open;
mod rule;
mod seat;
mod set;
mod view;

pub use content::{Held, HeldBook, LockId, NameId, Part, TOOL, WordId};
pub use names::Names;
pub use seat::LockSeat;
pub use set::LockSet;
