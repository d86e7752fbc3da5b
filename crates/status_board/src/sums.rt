//! What the board keeps of the entries that it was told.

ghost use Rattle.std.specs.Prelude.{◌≡◌, ◌≤◌, length, map};
ghost use Rattle.status_board.specs.Sums.{totals_in};

use crate::core_sums::{CoreSums, count_decision, none_decided};
use crate::totals::{CoreTotals, Totals};
use arrayvec::ArrayVec;
use left_right::Absorb;
use sched_base::Moment;
use sched_model::event::Entry;
use sched_report::Past;
use std::alloc::AllocError;
use std::marker::Model;
use std::snapshot::Snapshot;

/// The sums over a list of entries. Contracts see the list, which no memory holds.
#[derive(Drop)]
pub(crate) struct Sums {
    past: Snapshot<Past>,
    entries: u64,
    last: Moment,
    cores: [CoreSums; 64],
}

impl Model for Sums {
    ghost use Rattle.std.specs.Prelude.{List};
    ghost use Rattle.sched_model.specs.declared.event.Entry.{Entry};
    ghost use Rattle.status_board.specs.Sums.{AreSums};

    ghost Value = { List Entry };

    ghost view = { λ s. s.past.value };

    ghost invariant = { λ s. AreSums s.past.value s.entries s.last.0 s.cores };
}

/// What the first so many cores did up to the last moment.
fn core_totals(cores: &[CoreSums], last: Moment) -> ArrayVec<CoreTotals, 64>
    requires { length cores.now ≤ 64 }
    ensures { result.items ≡ map (totals_in last.0) cores.now }
{
    let mut all = ArrayVec::new();
    for core in cores {
        all.push(core.totals(last));
    }
    all
}

impl Sums {
    ghost use Rattle.std.specs.Prelude.{◌≡◌, ◌≤◌, ◌++◌, ◌∷◌, []};
    ghost use Rattle.status_board.specs.Totals.{totals_of};

    /// The sums over no entry.
    pub(crate) fn new() -> Sums
        ensures { result ≡ [] }
    {
        Sums {
            past: Past::nothing(),
            entries: 0,
            last: Moment(0),
            cores: none_decided(),
        }
    }

    /// Counts one entry more.
    fn count(&mut self, e: &Entry)
        ensures { self.new ≡ self.old ++ e.now ∷ [] }
    {
        Past::push(&mut self.past, e);
        count_decision(&mut self.cores, e);
        self.entries = self.entries.saturating_add(1);
        self.last = e.at;
    }

    /// The totals of the entries, of so many cores.
    pub(crate) fn totals(&self, cores: u8) -> Totals
        requires { cores ≤ 64 }
        ensures { result ≡ totals_of cores self.now }
    {
        Totals {
            entries: self.entries,
            moment: self.last,
            cores: core_totals(&self.cores[..cores as usize], self.last),
        }
    }
}

impl Absorb<Entry> for Sums {
    type State = [Entry; 0];

    ghost use Rattle.std.specs.Prelude.{[], ◌∷◌, ◌++◌};

    ghost state = { λ s. s };

    ghost applied = { λ entries e. entries ++ e ∷ [] };

    ghost never_fails = { Unit {0} };

    fn absorb_first(&mut self, e: &Entry, _other: &Sums) -> Result<(), AllocError> {
        self.count(e);
        Ok(())
    }
}
