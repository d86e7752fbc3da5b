//! What a scheduler answers to a core.

use sched_base::{Moment, UnitId};

/// The answer to a core: its unit, none where it is to idle, the moment at which it is to ask again at the latest, and how many
/// resets there were.
#[derive(Clone, Copy)]
pub struct Decided {
    pub unit: Option<UnitId>,
    pub due: Option<Moment>,
    pub reset: u64,
}
