//! The unit that a core takes: its own, or the first of the queue that may have the core.

ghost use Rattle.sched_model.specs.CheckedMachine.{most_span};
ghost use Rattle.std.specs.Prelude.{◌≡◌, ◌+◌, ◌<◌, ◌≤◌, ◌++◌, Some};
ghost use Rattle.std.specs.Option.{ForSome};
ghost use Rattle.sched_base.specs.declared.UnitId.{UnitId as UnitName};
ghost use Rattle.sched_model.specs.declared.state.Records.TheVariants.{RtdsPool};
ghost use Rattle.sched_model.specs.Rtds.{unit_left_budget, first_of_units, rtds_choice, off_domains};
ghost use Rattle.arrival_queue.specs.Order.{IsInOrder, EachRankOnce, EachUnitOnce};
ghost use Rattle.scheduler_records.specs.Parts.{scheduler_of};
ghost use Rattle.unit_places.specs.Places.{unit_index};
ghost use Rattle.rtds_core.specs.Best.{queue_of, key_by, AreQueued, AreMasks, list_of, is_waiting_first, due_at, deadline_in, run_from, queues_without, dues_with, dues_without, IsCharged};
ghost use Rattle.rtds_core.specs.RtdsParts.{IsShaped};

use crate::alarms::Alarms;
use rtds_queue::{RtdsKey, RtdsQueues};
use sched_base::{Cores, Moment, ResId, UnitId};
use sched_model::ask::Ask;
use sched_model::config::Pins;
use sched_model::row::Row;
use sched_model::state::{RtdsUnit, RtdsUnits};
use sched_model::units::is_same_choice;
use scheduler_records::rtds::{budget_left, own_candidate, rtds_unit, set_running, unit_before};
use unit_places::Masks;

/// The level and the deadline of a unit.
pub fn key_of(x: &RtdsUnit) -> RtdsKey
    ensures { result ≡ key_by x.now }
{
    RtdsKey {
        level: x.level,
        deadline: Moment(x.deadline),
    }
}

/// The unit's deadline, and 0 where there is no such unit.
fn deadline_of(domains: &[Option<RtdsUnits>], u: UnitId) -> u64
    ensures { result ≡ deadline_in domains.now u }
{
    match rtds_unit(domains, u) {
        None => 0,
        Some(unit) => unit.deadline,
    }
}

/// Whether the first that waits, if one does, goes before the core's own.
pub fn goes_first(domains: &[Option<RtdsUnits>], first: Option<UnitId>, own: UnitId) -> bool
    ensures { result ≡ is_waiting_first domains.now first own }
{
    match first {
        None => false,
        Some(u) => unit_before(domains, u, own),
    }
}

/// The core's own unit, unless the first that waits goes before it.
fn better_of(
    domains: &[Option<RtdsUnits>],
    own: Option<UnitId>,
    first: Option<UnitId>,
) -> Option<UnitId>
    ensures { result ≡ first_of_units domains.now own (list_of first) }
{
    match own {
        None => first,
        Some(u) => {
            if goes_first(domains, first, u) {
                first
            } else {
                own
            }
        }
    }
}

/// The choice, after the core's own unit was charged.
pub fn pick(
    domains: &[Option<RtdsUnits>],
    affinity: &[Option<Pins>],
    queues: &RtdsQueues,
    masks: &Masks,
    ask: &Ask,
) -> Option<UnitId>
    requires core { ask.now.core.0 < 64 }
    requires queues { AreQueued domains.now queues.now }
    requires order { IsInOrder queues.now.eligible }
    requires ranks { EachRankOnce (queues.now.eligible ++ queues.now.spent) }
    requires units { EachUnitOnce (queues.now.eligible ++ queues.now.spent) }
    requires shape { IsShaped domains.now affinity.now }
    requires masks { AreMasks affinity.now masks.now }
    ensures { result ≡ rtds_choice ask.now (scheduler_of (queue_of queues.now) affinity.now
        (RtdsPool domains.now)) domains.now }
{
    if ask.leaving {
        return None;
    }
    let first = queues.first_on(masks, ask.core, ask.home);
    better_of(domains, own_candidate(domains, affinity, ask), first)
}

/// The moment at which the budget of the chosen unit is used up.
pub fn due_of(domains: &[Option<RtdsUnits>], at: u64, chosen: Option<UnitId>) -> Option<Moment>
    requires early { at ≤ most_span }
    requires left { (u : UnitName) → unit_left_budget domains.now u ≤ 1000000000000 }
    ensures { result ≡ due_at domains.now at chosen }
{
    match chosen {
        None => None,
        Some(u) => Some(Moment(at + budget_left(domains, u))),
    }
}

/// The core's own unit runs no more. As it does not wait, it is not armed either.
fn stop(cur: Option<UnitId>, domains: &mut Row<Option<RtdsUnits>>, alarms: &mut Alarms)
    requires known { ForSome cur (λ u. unit_index u < 2048) }
    ensures domains { domains.new ≡ off_domains cur domains.old }
    ensures alarms { alarms.new ≡ dues_without cur alarms.old }
{
    if let Some(u) = cur {
        set_running(None, u, domains);
        alarms.disarm(u);
    }
}

/// The chosen unit runs from a moment on. It waits no more, and its deadline is armed.
fn start(
    at: u64,
    chosen: Option<UnitId>,
    domains: &mut Row<Option<RtdsUnits>>,
    queues: &mut RtdsQueues,
    alarms: &mut Alarms,
)
    requires known { ForSome chosen (λ u. unit_index u < 2048) }
    ensures domains { domains.new ≡ run_from at chosen domains.old }
    ensures queues { queues.new ≡ queues_without chosen queues.old }
    ensures alarms { alarms.new ≡ dues_with domains.old chosen alarms.old }
{
    if let Some(u) = chosen {
        let deadline = deadline_of(domains.as_slice(), u);
        set_running(Some(at), u, domains);
        let _ = queues.remove(u);
        alarms.arm(u, Moment(deadline));
    }
}

/// The core's own unit runs no more, and the chosen unit runs from a moment on. Where they are the same nothing changes, since the unit was
/// charged up to that moment, does not wait, and is armed.
pub fn switch(
    at: u64,
    cur: Option<UnitId>,
    chosen: Option<UnitId>,
    domains: &mut Row<Option<RtdsUnits>>,
    queues: &mut RtdsQueues,
    alarms: &mut Alarms,
)
    requires own { ForSome cur (λ u. unit_index u < 2048) }
    requires charged { ForSome cur (IsCharged at domains.old queues.old alarms.old) }
    requires known { ForSome chosen (λ u. unit_index u < 2048) }
    ensures domains { domains.new ≡ run_from at chosen (off_domains cur domains.old) }
    ensures queues { queues.new ≡ queues_without chosen queues.old }
    ensures alarms { alarms.new ≡ dues_with (off_domains cur domains.old) chosen
        (dues_without cur alarms.old) }
{
    if is_same_choice(chosen, cur) {
        return;
    }
    stop(cur, domains, alarms);
    start(at, chosen, domains, queues, alarms);
}
