//! What a core asks its scheduler.

use sched_base::{Cores, Moment, ResId, UnitId};

/// A core's question: its unit, whether that is runnable, since when it runs, whether the core is leaving its pool,
/// the moment, the core, and the set of the pool's cores. Moments are in nanoseconds.
#[derive(Clone, Copy)]
pub struct Ask {
    pub cur: Option<UnitId>,
    pub runnable: bool,
    pub since: Moment,
    pub leaving: bool,
    pub at: Moment,
    pub core: ResId,
    pub home: Cores,
}
