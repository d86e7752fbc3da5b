//! Whose turn it is: in which order the cores of a pool act within a moment.
//!
//! Hints: no contract speaks of them. Whoever follows one asks the actor for its first event, and each order of actors is a lawful one. This
//! order is the one nearest to Xen's, where a processor that has begun to switch goes through its whole switch before another begins.

use core_state::CoreState;
use pool_records::cores::{all_held, any_held, is_held, is_open, is_up};
use sched_base::{Moment, ProcId, ResId, UnitId};
use sched_model::action::{Action, Actor};
use sched_model::state::Resource;
use unit_state::Guests;

/// How many cores a pool has at most.
const CORES: usize = 64;

/// A unit that a core chose, and the moment at which it did.
#[derive(Clone, Copy)]
struct Visit {
    unit: UnitId,
    at: Moment,
}

/// The last unit that each core chose.
#[derive(Clone, Copy)]
pub struct Visits {
    last: [Option<Visit>; CORES],
}

impl Visits {
    /// No core has chosen a unit yet.
    pub fn none() -> Visits {
        Visits {
            last: [None; CORES],
        }
    }

    /// The core, which has decided at t, chose the unit that it has now.
    pub fn note(&mut self, cores: &CoreState, r: ResId, t: Moment) {
        let Some(core) = cores.core(r) else {
            return;
        };
        if let (Some(unit), Some(place)) = (core.cur, self.last.get_mut(usize::from(r.0))) {
            *place = Some(Visit { unit, at: t });
        }
    }

    /// When the core with this number chose the unit that it ran last, where that unit waits now.
    fn left_at(&self, guests: &Guests, cores: &CoreState, number: u8) -> Option<Moment> {
        let visit = (*self.last.get(usize::from(number))?)?;
        if guests.runnable(visit.unit) && !cores.has_unit(visit.unit) {
            Some(visit.at)
        } else {
            None
        }
    }
}

/// The core whose switch the event belongs to.
fn core_of(done: Action, granularity: u8) -> Option<ResId> {
    match done {
        Action::Arrive(p) | Action::Leave(p) => p.0.checked_div(granularity).map(|r| ResId(r)),
        Action::Decide(r) => Some(r),
        _ => None,
    }
}

/// The number of the first processor of the core that is up at t and waits for its siblings, or that does not.
fn first_that(core: &Resource, first: u8, held: bool, t: Moment) -> Option<ProcId> {
    let mut number = first;
    for p in core.processors.as_slice() {
        if is_held(p) == held && is_up(t, p) {
            return Some(ProcId(number));
        }
        number = number.wrapping_add(1);
    }
    None
}

/// Who goes on with the switch that the core has begun, if it has: the next processor that arrives, the first one for the decision, the
/// next one that leaves, and the first one again, to save the unit that is switched out.
fn who_goes_on(core: &Resource, first: u8, t: Moment) -> Option<ProcId> {
    let processors = core.processors.as_slice();
    if !is_open(core) {
        first_that(core, first, true, t)
    } else if core.saving.is_some() || all_held(processors) {
        Some(ProcId(first))
    } else if any_held(processors) {
        first_that(core, first, false, t)
    } else {
        None
    }
}

/// A core that has begun to switch goes on with it before another begins. So the unit that it puts out waits again before the next core
/// looks for one, and a pool does not reset its credits for want of a unit that is on its way back to the queue.
pub fn goes_on(cores: &CoreState, done: Action, t: Moment) -> Option<Actor> {
    let granularity = cores.granularity();
    let r = core_of(done, granularity)?;
    let core = cores.core(r)?;
    let p = who_goes_on(core, r.0.wrapping_mul(granularity), t)?;
    Some(Actor::Proc(p))
}

/// Whether the core is asked to decide, runs nothing, and is in no switch.
fn is_idle_and_asked(core: &Resource) -> bool {
    core.pending && core.cur.is_none() && core.saving.is_none() && is_open(core)
}

/// Of the cores that are to begin a switch, one that runs nothing begins first, so that a unit which comes to wait takes an idle core and does
/// not displace another. Of these it is the one on which a unit that waits now ran last, and most lately, so that the unit stays where it was;
/// or else the first.
pub fn begins(visits: &Visits, guests: &Guests, cores: &CoreState) -> Option<Actor> {
    let mut number = 0u8;
    let mut found: Option<(u8, Option<Moment>)> = None;
    for place in cores.cores() {
        if let Some(core) = place {
            if is_idle_and_asked(core) {
                let left = visits.left_at(guests, cores, number);
                found = Some(later(found, (number, left)));
            }
        }
        number = number.wrapping_add(1);
    }
    let (core, _) = found?;
    let first = core.wrapping_mul(cores.granularity());
    Some(Actor::Proc(ProcId(first)))
}

/// Of two cores the one whose moment is later; the first one, where the second has none that is.
fn later(
    first: Option<(u8, Option<Moment>)>,
    second: (u8, Option<Moment>),
) -> (u8, Option<Moment>) {
    let Some(first) = first else {
        return second;
    };
    match (first.1, second.1) {
        (None, Some(_)) => second,
        (Some(a), Some(b)) if a.0 < b.0 => second,
        _ => first,
    }
}
