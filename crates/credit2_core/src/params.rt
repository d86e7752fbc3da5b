//! Domains that join and part, and changes of parameters. Moments are in nanoseconds.

ghost use Rattle.std.specs.Prelude.{◌≡◌, ◌==◌, ◌&&◌, ◌^◌, ◌≤◌, ◌<◌, ◌+◌, ◌-◌, length, Some, None, true};
ghost use Rattle.std.specs.Option.{ForSome};
ghost use Rattle.sched_base.specs.declared.UnitId.{UnitId as Unit};
ghost use Rattle.unit_places.specs.Masks.{mask_of};
ghost use Rattle.sched_model.specs.declared.config.SchedKind.TheVariants as kinds;
ghost use Rattle.sched_model.specs.declared.config.DomParams.TheVariants as dom_params;
ghost use Rattle.sched_model.specs.declared.config.ParamChange.TheVariants as changes;
ghost use Rattle.sched_model.specs.Places.{at_place};
ghost use Rattle.sched_model.specs.Policy.{joined_scheduler, parted_scheduler, changed_scheduler};
ghost use Rattle.sched_ops.specs.Seen.{seen_at, units_of};
ghost use Rattle.sched_ops.specs.Conditions.{IsNow, HasNoneBusy, IsChange, has_joined_domain};
ghost use Rattle.sched_laws.specs.RecordRanges.{IsWeight, IsCap};
ghost use Rattle.credit2_core.specs.Credit2State.{IsSound, scheduler_in, seen_in};
ghost use Rattle.arrival_queue.specs.Filters.{first_that, has_core_bit};
ghost use Rattle.credit2_core.specs.Domains.{AreRunnableBut, refreshed_cores};
ghost use Rattle.credit2_core.specs.Whole.{IsReadyIn};

use crate::domains::{count_at, rearm, set_masks};
use crate::run_queue::{Ready, follow};
use crate::state::Credit2State;
use sched_base::{Cores, DomId, Moment};
use sched_model::config::{ParamChange, Pins};
use sched_model::places::{item_at, set_place};
use sched_model::short::copies;
use scheduler_records::credit2_running::max_weight;
use scheduler_records::{credit2_params, pins};
use unit_places::Masks;

/// The table of masks has the sets of cores of the domain's units again.
fn refresh(masks: &mut Masks, affinity: &[Option<Pins>], d: DomId)
    requires { length affinity.now ≤ 64 }
    ensures { (u : Unit) → u.n < 256 → mask_of masks.new u
        ≡ refreshed_cores masks.old affinity.now d.0 u }
{
    if let Some(sets) = item_at(affinity, d.0 as usize) {
        set_masks(masks, d, sets.as_slice());
    }
}

/// What is kept follows the domain, whose record was written; its weight may be another.
fn reweigh(state: &Credit2State, ready: &mut Ready, d: DomId)
    requires few { length state.now.records.domains ≤ 64 }
    requires domains { AreRunnableBut d.0 state.now.records.domains ready.old.domains.0 }
    requires first { ready.old.first ≡ first_that (λ u. has_core_bit ready.old.domains.0 u.dom.0)
        state.now.queue.units }
    ensures { IsReadyIn state.now ready.new }
{
    ready.most = max_weight(&state.records);
    *ready = follow(state, *ready, d, true);
}

/// The domain joins at t, with so many units, 1 to 32. Its units may have all cores.
pub fn join(
    state: &mut Credit2State,
    ready: &mut Ready,
    d: DomId,
    units: u8,
    weight: u32,
    cap: u32,
    t: Moment,
)
    requires sound { IsSound state.old }
    requires ready { IsReadyIn state.old ready.old }
    requires place { d.0 < length state.old.affinity }
    requires absent { at_place state.old.affinity d.0 ≡ None }
    requires few { units ≤ 32 }
    requires room { units ≤ state.old.spare }
    requires weight { IsWeight weight }
    requires cap { IsCap cap }
    requires now { IsNow (seen_in state.old) t.0 }
    ensures scheduler { scheduler_in state.new
        ≡ joined_scheduler d.0 units (dom_params.Credit2 weight cap) t.0 (scheduler_in state.old) }
    ensures spare { state.new.spare ≡ state.old.spare - units }
    ensures latest { state.new.latest ≡ t.0 }
    ensures sound { IsSound state.new }
    ensures ready { IsReadyIn state.new ready.new }
{
    let sets = copies(Cores(u64::MAX), units);
    set_place(&mut state.affinity, d.0, Some(sets));
    refresh(&mut state.masks, state.affinity.as_slice(), d);
    let domain = credit2_params::fresh_domain(weight, cap, units, t);
    set_place(&mut state.records.domains, d.0, Some(domain));
    rearm(&mut state.refills, state.records.domains.as_slice(), d);
    state.spare -= units as usize;
    state.latest = t.0;
    reweigh(state, ready, d);
}

/// The domain parts. None of its units waits or is on.
pub fn part(state: &mut Credit2State, ready: &mut Ready, d: DomId)
    requires sound { IsSound state.old }
    requires ready { IsReadyIn state.old ready.old }
    requires joined { has_joined_domain (scheduler_in state.old) d.0 ≡ true }
    requires idle { HasNoneBusy (scheduler_in state.old) d.0 }
    ensures scheduler { scheduler_in state.new ≡ parted_scheduler d.0 (scheduler_in state.old) }
    ensures spare { state.new.spare ≡ state.old.spare + units_of (scheduler_in state.old) d.0 }
    ensures latest { state.new.latest ≡ state.old.latest }
    ensures sound { IsSound state.new }
    ensures ready { IsReadyIn state.new ready.new }
{
    let units = count_at(state.affinity.as_slice(), d);
    set_place(&mut state.affinity, d.0, None);
    set_place(&mut state.records.domains, d.0, None);
    rearm(&mut state.refills, state.records.domains.as_slice(), d);
    state.spare += units as usize;
    reweigh(state, ready, d);
}

/// The domain's weight and cap change at t, where they are given.
pub fn set_domain(
    state: &mut Credit2State,
    ready: &mut Ready,
    d: DomId,
    weight: Option<u32>,
    cap: Option<u32>,
    t: Moment,
)
    requires sound { IsSound state.old }
    requires ready { IsReadyIn state.old ready.old }
    requires joined { has_joined_domain (scheduler_in state.old) d.0 ≡ true }
    requires weight { ForSome weight IsWeight }
    requires cap { ForSome cap IsCap }
    requires now { IsNow (seen_in state.old) t.0 }
    ensures seen { seen_in state.new ≡ seen_at t.0
        (changed_scheduler (changes.Dom d weight cap) t.0 (scheduler_in state.old))
        (seen_in state.old) }
    ensures sound { IsSound state.new }
    ensures ready { IsReadyIn state.new ready.new }
{
    credit2_params::set_domain(t, d, weight, cap, &mut state.records);
    rearm(&mut state.refills, state.records.domains.as_slice(), d);
    state.latest = t.0;
    reweigh(state, ready, d);
}

/// The rate limit, in microseconds, changes at t.
pub fn set_rate(state: &mut Credit2State, limit: u32, t: Moment)
    requires sound { IsSound state.old }
    requires limit { limit ≤ 500000 }
    requires now { IsNow (seen_in state.old) t.0 }
    ensures seen { seen_in state.new ≡ seen_at t.0
        (changed_scheduler (changes.Rate limit) t.0 (scheduler_in state.old)) (seen_in state.old) }
    ensures sound { IsSound state.new }
    ensures rest { state.new ≡ record state.old
        { records = record state.old.records { limit = limit }; latest = t.0 } }
{
    state.records.limit = limit;
    state.latest = t.0;
}

/// Whether each unit may have all cores still, where some units are given this set.
fn stay_unpinned(unpinned: bool, cores: Cores) -> bool
    ensures { result ≡ (unpinned && cores.0 == 2 ^ 64 - 1) }
{
    unpinned && cores.0 == u64::MAX
}

/// The set of cores of one of the domain's units, or of all of them, changes at t.
pub fn pin(state: &mut Credit2State, d: DomId, unit: Option<u8>, cores: Cores, t: Moment)
    requires sound { IsSound state.old }
    requires joined { has_joined_domain (scheduler_in state.old) d.0 ≡ true }
    requires now { IsNow (seen_in state.old) t.0 }
    ensures seen { seen_in state.new ≡ seen_at t.0
        (changed_scheduler (changes.Pin d unit cores) t.0 (scheduler_in state.old))
        (seen_in state.old) }
    ensures sound { IsSound state.new }
    ensures rest { state.new ≡ record state.old {
      affinity = state.new.affinity;
      masks = state.new.masks;
      latest = t.0;
      unpinned = state.new.unpinned;
    } }
{
    pins::pin(d, unit, cores, &mut state.affinity);
    refresh(&mut state.masks, state.affinity.as_slice(), d);
    state.unpinned = stay_unpinned(state.unpinned, cores);
    state.latest = t.0;
}

/// The parameters change at t.
pub fn set_params(state: &mut Credit2State, ready: &mut Ready, change: &ParamChange, t: Moment)
    requires sound { IsSound state.old }
    requires ready { IsReadyIn state.old ready.old }
    requires now { IsNow (seen_in state.old) t.0 }
    requires change { IsChange kinds.Credit2 (scheduler_in state.old) change.now }
    ensures seen { seen_in state.new ≡ seen_at t.0
        (changed_scheduler change.now t.0 (scheduler_in state.old)) (seen_in state.old) }
    ensures sound { IsSound state.new }
    ensures ready { IsReadyIn state.new ready.new }
{
    match change {
        ParamChange::Dom { dom, weight, cap } => {
            set_domain(state, ready, *dom, *weight, *cap, t);
        }
        ParamChange::Rate { limit } => set_rate(state, *limit, t),
        ParamChange::Pin { dom, unit, cores } => pin(state, *dom, *unit, *cores, t),
        _ => {}
    }
}
