//! The hall: one machine for callers in threads of their own, each with a seat. Whatever the order of their steps, the history is the beginning
//! of a run.
//!
//! The parts of the machine lie under locks, one for each pool, one for what the tool keeps, and one for the book with the history. A call takes
//! the locks that it needs in the order of their numbers, does its one entry, and gives them back.
#![tactic(auto)]

mod act;
mod all;
mod book;
mod close;
mod hall;
mod hints;
mod hold;
mod parts;
mod pools;
mod seat;
mod serve;
mod turns;
mod value;
mod whole;

pub use hall::Hall;
pub use hints::Hints;
pub use seat::{Arrival, HallSeat};
pub use turns::{Acted, Done, Full, Turn, Waits};
pub use value::{PartState, ToolKept};
