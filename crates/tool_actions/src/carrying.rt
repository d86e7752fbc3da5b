//! An accepted command, carried out on the place of its pool. After each the cores of the pool are looked at, also where nothing changed.

ghost use Rattle.std.specs.Prelude.{◌≡◌, ◌==◌, None, Some, option_map, if◌then◌else◌};
ghost use Rattle.std.specs.Option.{ForSome, IsSome};
ghost use Rattle.sched_base.specs.Numbers.{pool as pool_number};
ghost use Rattle.sched_model.specs.declared.config.ParamChange.TheVariants as changes;
ghost use Rattle.sched_model.specs.declared.state.Pool.{Pool};
ghost use Rattle.sched_model.specs.Commands.{plan_pool, pool_with_rtds};
ghost use Rattle.sched_model.specs.Places.{numbers_from};
ghost use Rattle.sched_model.specs.Pool.{pool_with_leaving, pool_with_moving, changed_pool, unpaused_pool};
ghost use Rattle.pool_core.specs.Params.{AreGiven};
ghost use Rattle.pool_core.specs.Seen.{IsNow};
ghost use Rattle.machine_parts.specs.Places.{AllStand, GoesOn, SlotSuits, StandsAt, state_of};
ghost use Rattle.tool_actions.specs.CarriedPlans.{HasCarried, IsAccepted, KeepsPools, Takes, TakesChange, TakesUnits, carried_slot, changed_slot};

use machine_parts::{PoolSlot, Trail};
use sched_base::{DomId, Moment, PoolId, ResId};
use sched_model::config::ParamChange;
use sched_model::facts::RtdsGiven;
use sched_model::plan::Plan;

/// A core of the pool is leaving.
fn remove(slot: &mut PoolSlot, r: ResId, t: Moment)
    requires now { ForSome slot.old (λ seen. IsNow seen t.0) }
    ensures { slot.new ≡ changed_slot t.0 (λ seen. pool_with_leaving r.0 seen.pool) slot.old }
{
    slot.set_leaving(r);
    slot.settle(t);
}

/// A domain of the pool is moving to another one.
fn migrate(slot: &mut PoolSlot, d: DomId, from: PoolId, to: PoolId, t: Moment)
    requires now { ForSome slot.old (λ seen. IsNow seen t.0) }
    ensures { slot.new ≡ changed_slot t.0
        (λ seen. (if from.0 == to.0 then seen.pool else pool_with_moving d.0 to.0 seen.pool))
        slot.old }
{
    if from.0 == to.0 {
        slot.settle(t);
    } else {
        slot.set_moving(d, to, t);
    }
}

/// The rate limit of the pool, in microseconds, where one is given.
fn set_rate(slot: &mut PoolSlot, limit: Option<u32>, t: Moment)
    requires now { ForSome slot.old (λ seen. IsNow seen t.0) }
    requires change { ForSome slot.old (λ seen.
        ForSome limit (λ us. TakesChange seen (changes.Rate us))) }
    ensures { slot.new ≡ changed_slot t.0
        (λ seen. elim limit as (λ _. Pool)
        [ None ↦ seen.pool | Some us ↦ changed_pool (changes.Rate us) t.0 seen.pool ]) slot.old }
{
    match limit {
        None => slot.settle(t),
        Some(limit) => slot.set_params(&ParamChange::Rate { limit }, t),
    }
}

/// So many units of a domain of the pool, from the unit first on, get new RTDS parameters.
fn set_units(slot: &mut PoolSlot, d: DomId, first: u8, count: u8, given: RtdsGiven, t: Moment)
    requires some { IsSome slot.old }
    requires now { ForSome slot.old (λ seen. IsNow seen t.0) }
    requires takes { ForSome slot.old (λ seen.
        TakesUnits seen d.0 first count (AreGiven given.period given.budget)) }
    ensures { slot.new ≡ changed_slot t.0
        (λ seen. pool_with_rtds t.0 d.0 given.period given.budget given.extra
        (numbers_from first count) seen.pool) slot.old }
{
    slot.set_units(d, first, count, given, t);
}

/// A domain of the pool goes on.
fn unpause(slot: &mut PoolSlot, trail: &Trail, d: DomId, t: Moment)
    requires now { ForSome slot.old (λ seen. IsNow seen t.0) }
    requires suits { ForSome slot.old (SlotSuits trail.now.input (state_of trail.now).now) }
    ensures { slot.new ≡ changed_slot t.0
        (λ seen. unpaused_pool trail.now.input.config.granularity d.0 seen.pool) slot.old }
{
    slot.unpause(d, t);
}

/// The accepted command with this plan on the place of its pool.
fn carry(slot: &mut PoolSlot, trail: &Trail, plan: Plan, t: Moment)
    requires some { IsSome slot.old }
    requires now { ForSome slot.old (λ seen. IsNow seen t.0) }
    requires suits { ForSome slot.old (SlotSuits trail.now.input (state_of trail.now).now) }
    requires takes { ForSome slot.old (λ seen. Takes seen plan) }
    ensures { slot.new ≡ carried_slot trail.now.input t.0 plan slot.old }
{
    match plan {
        Plan::PoolList { .. } => slot.settle(t),
        Plan::PoolCreate { .. } => slot.settle(t),
        Plan::PoolDestroy { .. } => slot.settle(t),
        Plan::PoolRename { .. } => slot.settle(t),
        Plan::CpuAdd { .. } => slot.settle(t),
        Plan::CpuRemove { core, .. } => remove(slot, core, t),
        Plan::Migrate { dom, from, to, .. } => migrate(slot, dom, from, to, t),
        Plan::Credit2Dom {
            dom,
            weight,
            cap,
            ..
        } => slot.set_params(&ParamChange::Dom { dom, weight, cap }, t),
        Plan::Credit2Pool { limit, .. } => set_rate(slot, limit, t),
        Plan::RtdsDom {
            dom,
            first,
            count,
            period,
            budget,
            extra,
            ..
        } => set_units(
            slot,
            dom,
            first,
            count,
            RtdsGiven {
                period,
                budget,
                extra,
            },
            t,
        ),
        Plan::Pause { dom, .. } => slot.pause(dom, t),
        Plan::Unpause { dom, .. } => unpause(slot, trail, dom, t),
        Plan::ArincSet { frame, .. } => slot.set_params(&ParamChange::Frame { frame }, t),
        Plan::Pin {
            dom,
            unit,
            cores,
            ..
        } => slot.set_params(&ParamChange::Pin { dom, unit, cores }, t),
    }
}

/// The same, where the place is this part of the machine and that is the pool of the plan, which neither makes nor destroys a pool.
fn carry_kept(slot: &mut PoolSlot, trail: &Trail, place: u8, plan: Plan, t: Moment)
    requires goes { GoesOn trail.now }
    requires now { t.0 ≡ (state_of trail.now).now }
    requires stands { StandsAt trail.now place slot.old }
    requires accepted { IsAccepted trail.now plan }
    requires home { plan_pool (state_of trail.now) plan ≡ Some place }
    requires keeps { KeepsPools plan }
    ensures { slot.new ≡ carried_slot trail.now.input t.0 plan slot.old }
{
    slot.keeps();
    carry(slot, trail, plan, t);
}

/// The same among the places of all pools, where the plan has a pool.
pub(crate) fn carry_among(
    slots: &mut [PoolSlot],
    trail: &Trail,
    home: Option<PoolId>,
    plan: Plan,
    t: Moment,
)
    requires goes { GoesOn trail.now }
    requires now { t.0 ≡ (state_of trail.now).now }
    requires stand { AllStand trail.now slots.old }
    requires accepted { IsAccepted trail.now plan }
    requires home { home ≡ option_map pool_number (plan_pool (state_of trail.now) plan) }
    requires keeps { KeepsPools plan }
    ensures some { ForSome home (λ i. HasCarried trail.now t.0 plan i.0 slots.old slots.new) }
    ensures none { home ≡ None → slots.new ≡ slots.old }
{
    if let Some(i) = home {
        carry_kept(&mut slots[i.0 as usize], trail, i.0, plan, t);
    }
}
