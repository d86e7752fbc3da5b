//! What an accepted command does to the pool that it names. Each changes the pool i, where there is one.

ghost use Rattle.sched_model.specs.CheckedMachine.{most_span};
ghost use Rattle.std.specs.Prelude.{◌≡◌, ◌≤◌, ◌<◌, ◌+◌, ℕ, length};
ghost use Rattle.sched_laws.specs.EachPlace.{EachPlace};
ghost use Rattle.sched_model.specs.Places.{change_at, numbers_from};
ghost use Rattle.sched_model.specs.Pool as one_pool;
ghost use Rattle.sched_model.specs.Commands.{pool_with_rtds, pool_with_rtds_unit};
ghost use Rattle.plain_schedulers.specs.Parameters.{ChangeFits};
ghost use Rattle.pool_records.specs.Fits.{PoolFits};
ghost use Rattle.plain_opening.specs.OpeningPool.{FewWait};
ghost use Rattle.plain_commands.specs.PlanEffects.{FitsAt};

use plain_pool::params::set_params;
use plain_pool::pausing::{pause, set_moving, unpause};
use pool_records::leaving::set_leaving;
use sched_base::{DomId, Moment, ResId, Span, UnitId};
use sched_model::config::ParamChange;
use sched_model::facts::RtdsGiven;
use sched_model::row::Row;
use sched_model::state::{Pool, Records};
use scheduler_records::rtds::{rtds_unit, set_next};

/// The core is leaving the pool.
pub fn set_leaving_at(index: usize, core: ResId, pools: &mut Row<Option<Pool>>)
    ensures { pools.new ≡ change_at index (one_pool.pool_with_leaving core.0) pools.old }
{
    if let Some(place) = pools.get_mut(index)
        && let Some(pool) = place
    {
        set_leaving(core, pool);
    }
}

/// The domain is moving to the pool j.
pub fn set_moving_at(index: usize, d: DomId, j: u8, pools: &mut Row<Option<Pool>>)
    ensures { pools.new ≡ change_at index (one_pool.pool_with_moving d.0 j) pools.old }
{
    if let Some(place) = pools.get_mut(index)
        && let Some(pool) = place
    {
        set_moving(d, j, pool);
    }
}

/// The domain is paused.
pub fn pause_at(index: usize, d: DomId, pools: &mut Row<Option<Pool>>)
    ensures { pools.new ≡ change_at index (one_pool.paused_pool d.0) pools.old }
{
    if let Some(place) = pools.get_mut(index)
        && let Some(pool) = place
    {
        pause(d, pool);
    }
}

/// The domain is no longer paused.
pub fn unpause_at(granularity: u8, index: usize, d: DomId, pools: &mut Row<Option<Pool>>)
    requires some { 0 < granularity }
    requires few { granularity ≤ 4 }
    requires fits { EachPlace PoolFits pools.old }
    requires room { EachPlace FewWait (change_at index (one_pool.unpaused_pool granularity d.0)
        pools.old) }
    ensures { pools.new ≡ change_at index (one_pool.unpaused_pool granularity d.0) pools.old }
{
    if let Some(place) = pools.get_mut(index)
        && let Some(pool) = place
    {
        unpause(granularity, d, pool);
    }
}

/// The scheduler's parameters change at t.
pub fn set_params_at(index: usize, change: ParamChange, t: Moment, pools: &mut Row<Option<Pool>>)
    requires change { ChangeFits change }
    requires early { t.0 ≤ most_span }
    requires fits { EachPlace (FitsAt t.0) pools.old }
    ensures { pools.new ≡ change_at index (one_pool.changed_pool change t.0) pools.old }
{
    if let Some(place) = pools.get_mut(index)
        && let Some(pool) = place
    {
        set_params(change, t, pool);
    }
}

/// The unit has the new parameters from its next replenishment on. Another scheduler keeps what it has.
fn set_rtds_unit(given: RtdsGiven, u: UnitId, pool: &mut Pool)
    ensures { (t : ℕ) → pool.new ≡ pool_with_rtds_unit t given.period given.budget given.extra u
        pool.old }
{
    if let Records::RtdsPool(domains) = &mut pool.scheduler.records {
        if let Some(x) = rtds_unit(domains.as_slice(), u) {
            let period = given.period.unwrap_or(Span(x.next_period));
            let budget = given.budget.unwrap_or(Span(x.next_budget));
            let extra = given.extra.unwrap_or(x.next_extra);
            set_next(u, period, budget, extra, domains);
        }
    }
}

/// The same of count units of the domain from first on.
fn set_rtds(d: DomId, first: u8, count: u8, given: RtdsGiven, pool: &mut Pool)
    requires few { first + count ≤ 255 }
    ensures { (t : ℕ) → pool.new ≡ pool_with_rtds t d.0 given.period given.budget given.extra
        (numbers_from first count) pool.old }
{
    if count == 0 {
        return;
    }
    let u = UnitId {
        dom: DomId(d.0),
        n: first,
    };
    set_rtds_unit(given, u, pool);
    set_rtds(d, first + 1, count - 1, given, pool);
}

/// The same in this pool.
pub fn set_rtds_at(
    index: usize,
    d: DomId,
    first: u8,
    count: u8,
    given: RtdsGiven,
    pools: &mut Row<Option<Pool>>,
)
    requires few { first + count ≤ 255 }
    ensures { (t : ℕ) → pools.new ≡ change_at index
        (pool_with_rtds t d.0 given.period given.budget given.extra (numbers_from first count))
        pools.old }
{
    if let Some(place) = pools.get_mut(index)
        && let Some(pool) = place
    {
        set_rtds(d, first, count, given, pool);
    }
}
