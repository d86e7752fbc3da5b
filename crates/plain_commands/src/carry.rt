//! An accepted command, carried out on the state at the moment t. The home of a domain is the number of the pool that has it.

ghost use Rattle.sched_model.specs.CheckedMachine.{most_span};
ghost use Rattle.std.specs.Prelude.{◌≡◌, ◌≤◌, ◌<◌, ◌+◌, ℕ, None, Some, slice_set, if◌then◌else◌, ◌==◌};
ghost use Rattle.sched_laws.specs.EachPlace.{EachPlace};
ghost use Rattle.sched_model.specs.declared.config.ParamChange.TheVariants as changes;
ghost use Rattle.sched_model.specs.declared.state.FreeCore.{FreeCore as FreeCoreRecord};
ghost use Rattle.sched_model.specs.declared.state.State.{State as StateRecord};
ghost use Rattle.sched_model.specs.Actions.{change_pool, home_pool_of_domain};
ghost use Rattle.sched_model.specs.Commands.{carried_out, change_home, plan_pool, pool_with_rtds};
ghost use Rattle.sched_model.specs.Places.{at_place, put_at, clear_at, change_at, numbers_from};
ghost use Rattle.sched_model.specs.Pool as one_pool;
ghost use Rattle.plain_schedulers.specs.Parameters.{ChangeFits};
ghost use Rattle.pool_records.specs.Fits.{PoolFits};
ghost use Rattle.plain_opening.specs.OpeningPool.{FewWait};
ghost use Rattle.plain_commands.specs.PlanEffects.{FitsAt, PlanFits, HasSpare, spares_after};

use crate::pools::{
    pause_at, set_leaving_at, set_moving_at, set_params_at, set_rtds_at, unpause_at,
};
use sched_base::{DomId, Moment, Name, ResId};
use sched_model::config::ParamChange;
use sched_model::facts::RtdsGiven;
use sched_model::machine::Machine;
use sched_model::places::{set_place, take_item};
use sched_model::plan::Plan;
use sched_model::row::Row;
use sched_model::state::{FreeCore, Pool, State};

/// The spare at this place is this pool, with this name.
fn create(place: u8, name: Name, spare: usize, state: &mut State, spares: &mut Row<Option<Pool>>)
    ensures state { state.new ≡ record state.old {
      names = put_at place name state.old.names;
      pools = slice_set state.old.pools place
          (at_place spares.old spare);
    } }
    ensures spares { spares.new ≡ clear_at spare spares.old }
{
    let pool = take_item(spares, spare);
    set_place(&mut state.names, place, Some(name));
    set_place(&mut state.pools, place, pool);
}

/// There is no pool `place` any more.
fn destroy(place: u8, state: &mut State)
    ensures { state.new ≡ record state.old {
      names = clear_at place state.old.names;
      pools = clear_at place
          state.old.pools;
    } }
{
    set_place(&mut state.names, place, None);
    set_place(&mut state.pools, place, None);
}

/// The core of no pool is leaving for this pool.
fn set_target(core: ResId, index: u8, free: &mut Row<Option<FreeCore>>)
    ensures { free.new ≡ change_at core.0 (λ (c : FreeCoreRecord). record c { target = Some index })
        free.old }
{
    if let Some(place) = free.get_mut(core.0 as usize)
        && let Some(c) = place
    {
        c.target = Some(index);
    }
}

/// The domain is moving from this pool to the pool j, where that is another one.
fn migrate(d: DomId, place: u8, j: u8, state: &mut State)
    ensures { state.new ≡ (if place == j then state.old else change_pool place
        (one_pool.pool_with_moving d.0 j) state.old) }
{
    if place != j {
        set_moving_at(place as usize, d, j, &mut state.pools);
    }
}

/// The rate limit of this pool, in microseconds, where one is given.
fn set_rate(place: u8, limit: Option<u32>, t: Moment, state: &mut State)
    requires early { t.0 ≤ most_span }
    requires fits { EachPlace (FitsAt t.0) state.old.pools }
    ensures { state.new ≡ elim limit as (λ _. StateRecord) [
      | None ↦ state.old
      | Some us ↦ change_pool place (one_pool.changed_pool (changes.Rate us) t.0) state.old
    ] }
{
    if let Some(limit) = limit {
        set_params_at(
            place as usize,
            ParamChange::Rate { limit },
            t,
            &mut state.pools,
        );
    }
}

/// The parameters of the domain change.
fn set_domain(d: DomId, home: Option<usize>, change: ParamChange, t: Moment, state: &mut State)
    requires change { ChangeFits change }
    requires home { home ≡ home_pool_of_domain state.old d.0 }
    requires early { t.0 ≤ most_span }
    requires fits { EachPlace (FitsAt t.0) state.old.pools }
    ensures { state.new ≡ change_home d.0 (one_pool.changed_pool change t.0) state.old }
{
    if let Some(i) = home {
        set_params_at(i, change, t, &mut state.pools);
    }
}

/// The RTDS parameters of count units of the domain from first on change.
fn set_units(
    d: DomId,
    home: Option<usize>,
    first: u8,
    count: u8,
    given: RtdsGiven,
    state: &mut State,
)
    requires home { home ≡ home_pool_of_domain state.old d.0 }
    requires few { first + count ≤ 255 }
    ensures { (t : ℕ) → state.new ≡ change_home d.0
        (pool_with_rtds t d.0 given.period given.budget given.extra (numbers_from first count))
        state.old }
{
    if let Some(i) = home {
        set_rtds_at(i, d, first, count, given, &mut state.pools);
    }
}

/// The domain is paused.
fn pause(d: DomId, home: Option<usize>, state: &mut State)
    requires home { home ≡ home_pool_of_domain state.old d.0 }
    ensures { state.new ≡ change_home d.0 (one_pool.paused_pool d.0) state.old }
{
    if let Some(i) = home {
        pause_at(i, d, &mut state.pools);
    }
}

/// The domain is no longer paused.
fn unpause(granularity: u8, d: DomId, home: Option<usize>, state: &mut State)
    requires some { 0 < granularity }
    requires few { granularity ≤ 4 }
    requires home { home ≡ home_pool_of_domain state.old d.0 }
    requires fits { EachPlace PoolFits state.old.pools }
    requires room { EachPlace FewWait (change_home d.0 (one_pool.unpaused_pool granularity d.0)
        state.old).pools }
    ensures { state.new ≡ change_home d.0 (one_pool.unpaused_pool granularity d.0) state.old }
{
    if let Some(i) = home {
        unpause_at(granularity, i, d, &mut state.pools);
    }
}

/// The command with this plan is carried out at t. Its home is the pool that the plan names, or the one that has its domain. A pool that
/// it makes is the spare at this place, which is taken from there; the other spares stay.
pub fn carry_out(
    machine: &Machine,
    t: Moment,
    spare: usize,
    plan: Plan,
    home: Option<usize>,
    state: &mut State,
    spares: &mut Row<Option<Pool>>,
)
    requires some { 0 < machine.now.config.granularity }
    requires few { machine.now.config.granularity ≤ 4 }
    requires early { t.0 ≤ most_span }
    requires plan { PlanFits plan }
    requires spare { HasSpare machine.now spare plan spares.old }
    requires home { home ≡ plan_pool state.old plan }
    requires fits { EachPlace (FitsAt t.0) state.old.pools }
    requires room { EachPlace FewWait (carried_out machine.now t.0 plan state.old).pools }
    ensures state { state.new ≡ carried_out machine.now t.0 plan state.old }
    ensures spares { spares.new ≡ spares_after spare plan spares.old }
{
    match plan {
        Plan::PoolList { .. } => {}
        Plan::PoolCreate { pool, name, .. } => create(pool.0, name, spare, state, spares),
        Plan::PoolDestroy { pool, .. } => destroy(pool.0, state),
        Plan::PoolRename { pool, name, .. } => set_place(&mut state.names, pool.0, Some(name)),
        Plan::CpuAdd { pool, core, .. } => set_target(core, pool.0, &mut state.free),
        Plan::CpuRemove { pool, core, .. } => {
            set_leaving_at(pool.0 as usize, core, &mut state.pools);
        }
        Plan::Migrate { dom, from, to, .. } => migrate(dom, from.0, to.0, state),
        Plan::Credit2Dom {
            dom,
            weight,
            cap,
            ..
        } => {
            set_domain(dom, home, ParamChange::Dom { dom, weight, cap }, t, state);
        }
        Plan::Credit2Pool { pool, limit, .. } => set_rate(pool.0, limit, t, state),
        Plan::RtdsDom {
            dom,
            first,
            count,
            period,
            budget,
            extra,
            ..
        } => {
            let given = RtdsGiven {
                period,
                budget,
                extra,
            };
            set_units(dom, home, first, count, given, state);
        }
        Plan::Pause { dom, .. } => pause(dom, home, state),
        Plan::Unpause { dom, .. } => unpause(machine.config.granularity, dom, home, state),
        Plan::ArincSet { pool, frame, .. } => {
            set_params_at(
                pool.0 as usize,
                ParamChange::Frame { frame },
                t,
                &mut state.pools,
            );
        }
        Plan::Pin {
            dom,
            unit,
            cores,
            ..
        } => {
            set_domain(dom, home, ParamChange::Pin { dom, unit, cores }, t, state);
        }
    }
}
