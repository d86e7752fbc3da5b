//! Runs of a machine under the locks of its hall: the ordered run, and the run in which each processor is simulated by a worker of its own.
//!
//! No contract says that a thread gets on, or how often it is its turn: what the threads leave undone, the caller does when it ends the moment.
#![tactic(auto)]

mod bell;
mod closing;
mod crew;
mod ends;
mod free;
mod heard;
mod ordered;
mod patience;
mod progress;
mod pulse;
mod word;
mod workers;

pub use bell::Bell;
pub use closing::{close_down, join_all};
pub use crew::run_crew;
pub use ends::RunEnd;
pub use free::{run_free, threads_for};
pub use hall::Hall;
pub use heard::{Listener, Scribe, run_heard, split_crew};
pub use ordered::run_ordered;
pub use patience::Patience;
pub use progress::Progress;
pub use pulse::FIRST_MOMENTS;
pub use workers::{split_workers, work_all};
