//! The commands and the moves of cores and domains, judged and carried out on what the tool keeps of the machine's state.
#![tactic(auto)]

pub mod advance;
pub mod arrivals;
pub mod copies;
pub mod dues;
pub mod judge;
pub mod judge_domains;
pub mod judge_lists;
pub mod judge_pools;
pub mod moves;
pub mod named;
pub mod opening;
pub mod outline;
pub mod pools;
pub mod reading;
pub mod stalls;
pub mod steps;
pub mod tool;

pub use moves::Move;
pub use steps::ToolEvent;
pub use tool::ToolState;
