//! A status board: a writer publishes the entries of a run, and readers that never wait see the totals of what was published.
#![tactic(auto)]

mod core_sums;
mod opening;
mod reader;
mod rule;
mod sums;
mod totals;
mod writer;

pub use opening::open;
pub use reader::{BoardReader, Told};
pub use totals::{CoreTotals, Totals};
pub use writer::BoardWriter;
