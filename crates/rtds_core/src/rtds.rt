//! RTDS as a scheduler of a pool.
//!
//! *Design.* Each unit has a period, a budget and a deadline. It may run for its budget until a timer replenishes it at its deadline: its
//! newest parameters take effect, the budget is full, and the deadline is the next one after now on the grid of its periods. The unit of
//! the earliest deadline runs; a unit with extra time that has used up its budget has it again one level higher, and a higher level goes
//! behind every lower one. A unit without extra time waits for its replenishment. The core asks again when the budget of the chosen unit is
//! used up. A unit is charged when its core decides and when it is replenished.
//!
//! *Queue scheme.* The units that wait with some budget left stand in a queue sorted by level and deadline, those without in one by arrival
//! (`rtds_queue`). A waiting unit is charged nothing, so only a replenishment moves it. A decision compares the core's own unit with the
//! first that may have the core. Settling a pool finds the first unit once: a core that may have it is compared with it alone, and the
//! queue is searched only for a core that may not, and whose own unit it would go before. The timers of the units that wait or run stand in
//! a heap of moments by unit (`Alarms`).
//!
//! *Locking.* There is none here: a scheduler is owned by its pool, and a pool is what a schedule lock guards (`hall`). Only `reserve`
//! takes memory.
//!
//! *Ordering.* Among equal levels and deadlines the unit that came to wait earlier goes first, and the core's own unit before all others. A
//! replenishment keeps a waiting unit's arrival. Of the timers that have come the first is that of the least domain and unit; where none
//! has, it is the least by moment.
//!
//! `Rtds` has an `RtdsState`, or none before the first `reserve`.

ghost use Rattle.sched_model.specs.CheckedMachine.{most_span};
ghost use Rattle.std.specs.Prelude.{◌≡◌, ◌≤◌};
ghost use Rattle.sched_model.specs.Policy.{records_kind};
ghost use Rattle.sched_model.specs.declared.config.SchedKind.{SchedKind};
ghost use Rattle.rtds_core.specs.RtdsView.{seen_by};

use crate::state::RtdsState;
use sched_base::{Cores, DomId, Moment, NoMemory, Span, UnitId};
use sched_model::ask::Ask;
use sched_model::config::{DomParams, ParamChange, PoolParams};
use sched_model::event::Event;
use sched_model::facts::Stored;
use sched_model::state::Resource;
use sched_ops::{Choice, Places, Policy, Timer};
use std::alloc::Global;
use std::marker::Model;
use std::mem;

/// The RTDS scheduler. It holds no memory until the first `reserve`, and has no place for a domain then.
#[derive(Drop)]
pub struct Rtds {
    state: Option<RtdsState>,
    early: u64,
}

impl Model for Rtds {
    ghost use Rattle.sched_ops.specs.Seen.{Seen};

    ghost Value = { Seen };

    ghost use Rattle.rtds_core.specs.RtdsView.{seen_by, IsEarly};

    ghost view = { λ a. seen_by a.state a.early };

    ghost invariant = { λ a. IsEarly a.early };
}

/// The greatest moment that was given, in nanoseconds.
fn latest_of(state: &Option<RtdsState>, early: u64) -> u64
    requires { early ≤ most_span }
    ensures latest { result ≡ (seen_by state.now early).latest }
    ensures early { result ≤ most_span }
    ensures kind { records_kind (seen_by state.now early).scheduler.records ≡ SchedKind.Rtds }
{
    match state {
        None => early,
        Some(state) => {
            state.keeps();
            state.latest()
        }
    }
}

/// Does nothing, and tells that the records are of RTDS.
fn law_kind(state: &Option<RtdsState>, early: u64)
    ensures { records_kind (seen_by state.now early).scheduler.records ≡ SchedKind.Rtds }
{
    match state {
        None => {}
        Some(state) => state.keeps(),
    }
}

/// Stands where there is no unit to replenish.
fn no_event(u: UnitId) -> Event {
    Event::Repl {
        u,
        start: Moment(0),
        deadline: Moment(0),
        budget: Span(0),
        extra: false,
    }
}

impl Rtds {
    ghost use Rattle.std.specs.Prelude.{◌≡◌};
    ghost use Rattle.rtds_core.specs.RtdsParts.{bare_pool};

    /// A scheduler without memory.
    pub fn empty() -> Self
        ensures { result ≡ bare_pool 0 }
    {
        Rtds {
            state: None,
            early: 0,
        }
    }
}

impl Policy for Rtds {
    ghost seen = { λ s. s };

    fn reserve(&mut self, alloc: Global, places: Places, units: usize) -> Result<(), NoMemory> {
        let latest = latest_of(&self.state, self.early);
        let state = RtdsState::room(alloc, places, units, latest)?;
        drop(mem::replace(&mut self.state, Some(state)));
        Ok(())
    }

    /// Does nothing, since RTDS has no parameters of a pool, and without domains its records are fresh.
    fn restart(&mut self, _params: &PoolParams) {
        match &self.state {
            None => {}
            Some(state) => state.law_vacant(),
        }
    }

    fn join(&mut self, d: DomId, units: u8, params: &DomParams, t: Moment) {
        match &mut self.state {
            None => {}
            Some(state) => state.join(d, units, params, t),
        }
    }

    fn part(&mut self, d: DomId) {
        match &mut self.state {
            None => {}
            Some(state) => state.part(d),
        }
    }

    fn enqueue(&mut self, u: UnitId) {
        match &mut self.state {
            None => {}
            Some(state) => state.enqueue(u),
        }
    }

    fn dequeue(&mut self, u: UnitId) {
        match &mut self.state {
            None => {}
            Some(state) => state.dequeue(u),
        }
    }

    fn choose(&mut self, ask: &Ask) -> Choice {
        if let Some(state) = &mut self.state {
            return state.choose(ask);
        }
        self.early = ask.at.0;
        Choice {
            unit: None,
            due: None,
            reset: 0,
        }
    }

    fn wanted(&self, cores: &[Option<Resource>], t: Moment, home: Cores) -> Cores {
        match &self.state {
            None => Cores(0),
            Some(state) => state.wanted(cores, t, home),
        }
    }

    fn wanted_for(&self, u: UnitId, cores: &[Option<Resource>], t: Moment, home: Cores) -> Cores {
        match &self.state {
            None => Cores(0),
            Some(state) => state.wanted_for(u, cores, t, home),
        }
    }

    /// No: a unit that waits is charged nothing, and one that runs is compared by what it had when its core last decided.
    fn asks_moment(&self) -> bool {
        law_kind(&self.state, self.early);
        false
    }

    /// No: a core that leaves or idles lets no unit go elsewhere that could not before.
    fn frees(&self, _cur: Option<UnitId>, _leaving: bool) -> bool {
        law_kind(&self.state, self.early);
        false
    }

    fn timer_due(&self, t: Moment) -> Option<(Moment, Timer)> {
        match &self.state {
            None => None,
            Some(state) => state.timer_due(t),
        }
    }

    fn timer(&mut self, which: Timer, t: Moment) -> Event {
        match which {
            Timer::Repl(u) => match &mut self.state {
                None => no_event(u),
                Some(state) => state.replenish(u, t),
            },
            Timer::Refill(d) => {
                law_kind(&self.state, self.early);
                no_event(UnitId { dom: d, n: 0 })
            }
        }
    }

    fn set_params(&mut self, change: &ParamChange, t: Moment) {
        match &mut self.state {
            None => {}
            Some(state) => state.set_params(change, t),
        }
    }

    fn stored(&self, u: UnitId) -> Stored {
        match &self.state {
            None => Stored::Null,
            Some(state) => state.stored(u),
        }
    }

    fn rate(&self) -> u32 {
        match &self.state {
            None => 0,
            Some(state) => state.rate(),
        }
    }

    fn keeps(&self) {
        match &self.state {
            None => {}
            Some(state) => state.keeps(),
        }
    }
}
