//! What a run is made of.

use crate::config::Config;
use crate::work::Work;

/// The latest moment, and the longest span, of any file, in nanoseconds.
pub const MOST_SPAN: u64 = 10_000_000_000_000;

/// As many pools as a machine has places for.
pub const MOST_POOLS: u8 = 16;

/// The machine as it is at the opening, and its workload. All that a run may be follows from these.
#[derive(Drop)]
pub struct Machine {
    pub config: Config,
    pub work: Work,
}
