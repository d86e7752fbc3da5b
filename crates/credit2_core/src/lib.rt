//! Credit2 behind the calls of a scheduler: the run queue finds the unit of greatest credit.
#![tactic(auto)]

mod below;
mod choice;
pub mod credit2;
mod decide;
mod domains;
mod params;
mod queue;
mod room;
mod run_queue;
mod slice;
mod state;
mod timers;
mod wanted;

pub use credit2::Credit2;
