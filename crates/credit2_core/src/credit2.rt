//! Credit2 as a scheduler of a pool.
//!
//! *Design.* Each unit has a credit. Running burns it, the faster the less the unit's domain weighs, and the unit of greatest credit runs.
//! Where the credit of the chosen unit is used up, the pool is reset: the credit of every unit rises by 10 milliseconds, or more where the
//! chosen one is far below 0, up to 10.5. A unit that runs is charged when its core decides, at a reset, at a refill of its domain, and
//! where its domain's cap is set. The core asks again after a slice, which is the longer the further the chosen unit is ahead of the next
//! one, within limits. A core keeps a unit that may go on and has run for less than the rate limit. A domain with a cap pays for its units
//! from a budget that a timer fills every 10 milliseconds; the chosen unit takes a part of that with it, and its slice is no longer than
//! this part lasts.
//!
//! *Queue scheme.* A pool has one run queue, sorted by falling credit (`runq`). A unit that waits burns nothing, so only a reset changes
//! its credit; a reset puts all that wait at their places again. Beside the queue stand the set of the domains whose caps let them run, the
//! first waiting unit of such a domain, and the greatest weight of the pool (`Ready`). They are followed from change to change: the first
//! unit is looked for only where another one may have become it. A decision, and the question whether a better unit waits, look at this one
//! unit, and search the queue only where it may not have the core. The refills stand in a heap of moments by domain.
//!
//! *Locking.* There is none here: a scheduler is owned by its pool, and a pool is what a schedule lock guards (`hall`). Only `reserve`
//! takes memory.
//!
//! *Ordering.* Among equal credits the unit that came to wait earlier goes first, and the core's own unit before all others. Of the refills
//! that have come the first is that of the least domain; where none has, it is the least by moment.

ghost use Rattle.std.specs.Prelude.{◌≡◌, ◌≤◌};
ghost use Rattle.credit2_core.specs.Whole.{seen_by};

use crate::room::DEFAULT_LIMIT;
use crate::run_queue::{Ready, ready_in};
use crate::state::Credit2State;
use crate::{decide, params, queue, room, timers, wanted};
use runq::Allowed;
use sched_base::{Cores, DomId, Moment, NoMemory, UnitId};
use sched_model::ask::Ask;
use sched_model::config::{DomParams, ParamChange, PoolParams};
use sched_model::event::Event;
use sched_model::facts::Stored;
use sched_model::state::Resource;
use sched_ops::{Choice, Places, Policy, Timer};
use std::alloc::Global;
use std::marker::Model;
use std::mem;

/// The Credit2 scheduler of one pool. It holds no memory until the first `reserve`, and has no place for a domain then.
///
/// Contracts see what they see of every scheduler: the waiting units in order of arrival, the sets of cores of all units, and
/// the records, with the rate limit in microseconds.
#[derive(Drop)]
pub struct Credit2 {
    state: Option<Credit2State>,
    limit: u32,
    early: u64,
    ready: Ready,
}

impl Model for Credit2 {
    ghost use Rattle.sched_ops.specs.Seen.{Seen};

    ghost Value = { Seen };

    ghost use Rattle.credit2_core.specs.Whole.{seen_by, IsReady};

    ghost view = { λ a. seen_by a.state a.limit a.early };

    ghost invariant = { λ a. IsReady a.state a.ready };
}

/// The greatest moment that was given, in nanoseconds.
fn latest_of(state: &Option<Credit2State>, early: u64) -> u64
    ensures { result ≡ (seen_by state.now 0 early).latest }
{
    match state {
        None => early,
        Some(state) => state.latest,
    }
}

/// Stands where there is nothing to refill.
fn no_event(d: DomId) -> Event {
    Event::Refill {
        d,
        periods: 0,
        budget: 0,
    }
}

impl Credit2 {
    ghost use Rattle.std.specs.Prelude.{◌≡◌, ◌≤◌, ◌<◌};
    ghost use Rattle.credit2_core.specs.Whole.{bare_pool};

    /// A scheduler without memory, with the rate limit of 1000 microseconds.
    pub fn empty() -> Self
        ensures { result ≡ bare_pool 1000 0 }
    {
        Credit2 {
            state: None,
            limit: DEFAULT_LIMIT,
            early: 0,
            ready: Ready {
                domains: Allowed(0),
                first: None,
                most: 0,
            },
        }
    }
}

impl Policy for Credit2 {
    ghost seen = { λ s. s };

    fn reserve(&mut self, alloc: Global, places: Places, units: usize) -> Result<(), NoMemory> {
        let latest = latest_of(&self.state, self.early);
        let state = room::reserve(alloc, places.domains, units, latest)?;
        self.ready = ready_in(&state);
        drop(mem::replace(&mut self.state, Some(state)));
        Ok(())
    }

    fn restart(&mut self, params: &PoolParams) {
        if let PoolParams::Credit2 { limit } = params {
            let limit = *limit;
            match &mut self.state {
                None => self.limit = limit,
                Some(state) => {
                    queue::restart(state, limit);
                    self.ready = ready_in(state);
                }
            }
        }
    }

    fn join(&mut self, d: DomId, units: u8, params: &DomParams, t: Moment) {
        if let DomParams::Credit2 { weight, cap } = *params {
            if let Some(state) = &mut self.state {
                params::join(state, &mut self.ready, d, units, weight, cap, t);
            }
        }
    }

    fn part(&mut self, d: DomId) {
        if let Some(state) = &mut self.state {
            params::part(state, &mut self.ready, d);
        }
    }

    fn enqueue(&mut self, u: UnitId) {
        if let Some(state) = &mut self.state {
            queue::enqueue(state, &mut self.ready, u);
        }
    }

    fn dequeue(&mut self, u: UnitId) {
        if let Some(state) = &mut self.state {
            queue::dequeue(state, &mut self.ready, u);
        }
    }

    fn choose(&mut self, ask: &Ask) -> Choice {
        match &mut self.state {
            None => {
                self.early = ask.at.0;
                Choice {
                    unit: None,
                    due: None,
                    reset: 0,
                }
            }
            Some(state) => decide::choose(state, &mut self.ready, ask),
        }
    }

    fn wanted(&self, cores: &[Option<Resource>], t: Moment, home: Cores) -> Cores {
        match &self.state {
            None => Cores(0),
            Some(state) => wanted::wanted(state, &self.ready, cores, t, home),
        }
    }

    fn wanted_for(&self, u: UnitId, cores: &[Option<Resource>], t: Moment, home: Cores) -> Cores {
        match &self.state {
            None => Cores(0),
            Some(state) => wanted::wanted_for(state, &self.ready, u, cores, t, home),
        }
    }

    fn asks_moment(&self) -> bool {
        let _ = &self.state;
        true
    }

    fn frees(&self, cur: Option<UnitId>, leaving: bool) -> bool {
        match &self.state {
            None => cur.is_some(),
            Some(state) => wanted::frees(state, &self.ready, cur),
        }
    }

    fn timer_due(&self, t: Moment) -> Option<(Moment, Timer)> {
        match &self.state {
            None => None,
            Some(state) => timers::timer_due(state, t),
        }
    }

    fn timer(&mut self, which: Timer, t: Moment) -> Event {
        match which {
            Timer::Repl(u) => no_event(u.dom),
            Timer::Refill(d) => match &mut self.state {
                None => no_event(d),
                Some(state) => timers::refill(state, &mut self.ready, d, t),
            },
        }
    }

    fn set_params(&mut self, change: &ParamChange, t: Moment) {
        match &mut self.state {
            None => {
                if let ParamChange::Rate { limit } = change {
                    self.limit = *limit;
                }
                self.early = t.0;
            }
            Some(state) => params::set_params(state, &mut self.ready, change, t),
        }
    }

    fn stored(&self, u: UnitId) -> Stored {
        match &self.state {
            None => Stored::Null,
            Some(state) => queue::stored(state, u),
        }
    }

    fn rate(&self) -> u32 {
        match &self.state {
            None => self.limit,
            Some(state) => state.records.limit,
        }
    }

    fn keeps(&self) {
        if let Some(state) = &self.state {
            queue::keeps(state);
        }
    }
}
