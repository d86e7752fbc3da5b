//! What a board shows.

ghost use Rattle.std.specs.Prelude.{◌≡◌};

use arrayvec::ArrayVec;
use sched_base::{Moment, Span};

/// What a core did.
#[derive(Clone, Copy, Default, PartialEq, Eq)]
pub struct CoreTotals {
    /// How long units were on the core.
    pub run: Span,
    /// The rest of the time up to the last moment.
    pub idle: Span,
    /// How often the core decided.
    pub decides: u64,
}

/// The totals of a list of entries. A sum stops at 2^64 - 1, which none of a run reaches.
#[derive(Drop)]
pub struct Totals {
    /// How many entries there are.
    pub entries: u64,
    /// The moment of the last of them, in nanoseconds; 0 where there is none.
    pub moment: Moment,
    /// What each core did, in order of the cores' numbers.
    pub cores: ArrayVec<CoreTotals, 64>,
}

impl Totals {
    /// The same totals again. It takes no memory.
    pub fn duplicate(&self) -> Totals
        ensures { result ≡ self.now }
    {
        let mut cores = ArrayVec::new();
        let _ = cores.try_extend_from_slice(self.cores.as_slice());
        Totals {
            entries: self.entries,
            moment: self.moment,
            cores,
        }
    }
}
