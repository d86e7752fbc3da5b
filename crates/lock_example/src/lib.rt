//! A worked example of the locks: a core joins a pool, under two seats.
#![tactic(auto)]

mod adding;
mod alone;
mod counter;
mod input;
mod threads;
mod visits;

pub use adding::{add_core, command_done, core_moved};
pub use alone::do_command;
pub use counter::Counter;
pub use input::{book, opened};
pub use threads::{add_beside_visit, visit_all, visit_both};
pub use visits::visit;
