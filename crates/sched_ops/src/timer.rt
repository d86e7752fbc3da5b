//! What comes at a moment of its own, without being asked for.

use sched_base::{DomId, UnitId};

/// A timer of a scheduler: the replenishment of an RTDS unit, or the refill of a Credit2 domain's budget.
#[derive(Clone, Copy)]
pub enum Timer {
    Repl(UnitId),
    Refill(DomId),
}
