//! What the board keeps of each core, and how an entry changes it.

ghost use Rattle.std.specs.Prelude.{◌≡◌, ℕ, ◌<◌, length, slice_index_or};
ghost use Rattle.sched_model.specs.Pool.{same_choice};
ghost use Rattle.sched_report.specs.Stays.{entry_choice};
ghost use Rattle.status_board.specs.Sums.{cores_after, no_sums};

use crate::totals::CoreTotals;
use sched_base::{Moment, Span, UnitId};
use sched_model::event::{Entry, Event};

/// The unit that is on a core and since when, and what the core did up to now, but for the stay that goes on.
#[derive(Clone, Copy)]
pub(crate) struct CoreSums {
    cur: Option<UnitId>,
    since: Moment,
    run: u64,
    decides: u64,
}

/// Whether the choice leaves on the core what is there.
fn is_kept(cur: Option<UnitId>, chosen: Option<UnitId>) -> bool
    ensures { result ≡ same_choice cur chosen }
{
    match cur {
        None => chosen.is_none(),
        Some(u) => match chosen {
            None => false,
            Some(w) => u.dom.0 == w.dom.0 && u.n == w.n,
        },
    }
}

impl CoreSums {
    ghost use Rattle.std.specs.Prelude.{◌≡◌, true};
    ghost use Rattle.sched_report.specs.Tallies as tallies;
    ghost use Rattle.status_board.specs.Sums.{choice_of, sums_after, tally_in, totals_in};

    /// A core that has not decided.
    pub(crate) const NONE: CoreSums = CoreSums {
        cur: None,
        since: Moment(0),
        run: 0,
        decides: 0,
    };

    /// How long the stay was that the choice ends, 0 where it ends none.
    fn ended(&self, at: Moment, unit: Option<UnitId>) -> u64
        ensures { result ≡ tallies.ended_span (tally_in self.now) (choice_of at unit) }
    {
        if self.cur.is_none() || is_kept(self.cur, unit) {
            0
        } else {
            at.0.saturating_sub(self.since.0)
        }
    }

    /// The core after it chose the unit, or none, at the moment.
    fn decided(&self, at: Moment, unit: Option<UnitId>) -> CoreSums
        ensures { result ≡ sums_after self.now (choice_of at unit) }
    {
        let kept = is_kept(self.cur, unit);
        CoreSums {
            cur: if kept { self.cur } else { unit },
            since: if kept { self.since } else { at },
            run: self.run.saturating_add(self.ended(at, unit)),
            decides: self.decides.saturating_add(1),
        }
    }

    /// The time of the stay that goes on, up to the last moment.
    fn open_time(&self, last: Moment) -> u64
        ensures { result ≡ tallies.open_stay_time (λ u. true) last.0 (tally_in self.now) }
    {
        match self.cur {
            None => 0,
            Some(_) => last.0.saturating_sub(self.since.0),
        }
    }

    /// What the core did up to the last moment.
    pub(crate) fn totals(&self, last: Moment) -> CoreTotals
        ensures { result ≡ totals_in last.0 self.now }
    {
        let run = self.run.saturating_add(self.open_time(last));
        CoreTotals {
            run: Span(run),
            idle: Span(last.0.saturating_sub(run)),
            decides: self.decides,
        }
    }
}

/// No core has decided.
pub(crate) fn none_decided() -> [CoreSums; 64]
    ensures cores { length result ≡ 64 }
    ensures none { (r : ℕ) → r < 64 → slice_index_or result r no_sums ≡ no_sums }
{
    [CoreSums::NONE; 64]
}

/// Counts the entry, where it is a decision of a core that is there.
pub(crate) fn count_decision(cores: &mut [CoreSums; 64], e: &Entry)
    ensures { cores.new ≡ cores_after (entry_choice e.now) cores.old }
{
    if let Event::Decide { r, unit, .. } = e.event {
        let core = r.0 as usize;
        if core < 64 {
            cores[core] = cores[core].decided(e.at, unit);
        }
    }
}
