//! What the lines of a report tell.

use sched_base::{ResId, UnitId};

/// What a unit did in a run. Times are in nanoseconds.
#[derive(Clone, Copy)]
pub struct UnitLine {
    pub unit: UnitId,
    /// The time of all its stays on cores.
    pub run: u128,
    /// How many stays it had.
    pub picks: u32,
    /// How often it was replenished.
    pub repl: u32,
    /// How late in all the decisions were that found it on their core.
    pub late: u128,
}

/// What a core did in a run. Times are in nanoseconds.
#[derive(Clone, Copy)]
pub struct CoreLine {
    pub core: ResId,
    /// The time of all stays on it.
    pub run: u128,
    /// The rest of the time, from 0 to the last entry.
    pub idle: u128,
    /// How many decisions it took.
    pub decides: u32,
}
