//! Domains that move from one pool to another.

ghost use Rattle.sched_model.specs.CheckedMachine.{most_span};
ghost use Rattle.std.specs.Prelude.{◌≡◌, ◌<◌, ◌≤◌, length, true};
ghost use Rattle.sched_model.specs.declared.action.Action.TheVariants as actions;
ghost use Rattle.sched_model.specs.Machine.{is_action_enabled, event_of, after, left_by, joined_by};
ghost use Rattle.sched_model.specs.Places.{at_place, change_at};
ghost use Rattle.sched_laws.specs.EachPlace.{EachPlace};
ghost use Rattle.sched_plain.specs.Fits.{PoolFitsAt};
ghost use Rattle.sched_plain.specs.Moves.{domain_in, domain_target};
ghost use Rattle.sched_plain.specs.ReachedStates.{Stands};

use crate::homes::{home_of_domain, pool_at};
use plain_pool::domains::{with_domain, without_domain};
use plain_pool::settle::settle;
use plain_schedulers::params::default_dom_params;
use plain_schedulers::records::is_null;
use sched_base::{DomId, Moment, PoolId};
use sched_model::event::Event;
use sched_model::machine::Machine;
use sched_model::places::item_at;
use sched_model::row::Row;
use sched_model::state::{Domain, Pool, State};

/// The pool to which the domain is moving, where the pool with this number has it.
pub(crate) fn target_in(state: &State, place: usize, d: DomId) -> Option<PoolId>
    ensures { result ≡ domain_target d.0 place state.entry.now.pools }
{
    let pool = pool_at(state, place)?;
    item_at(pool.domains.as_slice(), d.0 as usize)?.moving
}

/// The domain leaves the pool; a null pool's cores are looked at, since one of them may have become free for a waiting unit.
fn leave(t: Moment, d: DomId, pool: &mut Pool) -> Option<Domain>
    requires early { t.0 ≤ most_span }
    requires fits { PoolFitsAt t.0 pool.old }
    ensures domain { result ≡ at_place pool.old.domains d.0 }
    ensures pool { pool.new ≡ left_by t.0 d.0 pool.old }
{
    let looks = is_null(&pool.scheduler.records);
    let domain = without_domain(d, pool);
    if looks {
        settle(t, pool);
    }
    domain
}

/// The same in the pool with this number.
fn leave_at(t: Moment, d: DomId, index: usize, pools: &mut Row<Option<Pool>>) -> Option<Domain>
    requires early { t.0 ≤ most_span }
    requires fits { EachPlace (PoolFitsAt t.0) pools.old }
    ensures domain { result ≡ domain_in d.0 index pools.old }
    ensures pools { pools.new ≡ change_at index (left_by t.0 d.0) pools.old }
{
    if let Some(place) = pools.get_mut(index)
        && let Some(pool) = place
    {
        leave(t, d, pool)
    } else {
        None
    }
}

/// The domain joins the pool with its scheduler's default parameters, and the pool's cores are looked at.
fn join(granularity: u8, t: Moment, d: DomId, joining: Domain, pool: &mut Pool)
    requires some { 0 < granularity }
    requires few { granularity ≤ 4 }
    requires early { t.0 ≤ most_span }
    requires vcpus { length joining.vcpus ≤ 32 }
    requires before { PoolFitsAt t.0 pool.old }
    requires after { PoolFitsAt t.0 (joined_by granularity t.0 d.0 joining pool.old) }
    ensures { pool.new ≡ joined_by granularity t.0 d.0 joining pool.old }
{
    let params = default_dom_params(&pool.scheduler.records);
    let domain = Domain {
        paused: joining.paused,
        moving: None,
        vcpus: joining.vcpus,
    };
    with_domain(granularity, t, d, domain, &params, pool);
    settle(t, pool);
}

/// The same in the pool with this number.
fn join_at(
    granularity: u8,
    t: Moment,
    d: DomId,
    joining: Domain,
    index: usize,
    pools: &mut Row<Option<Pool>>,
)
    requires some { 0 < granularity }
    requires few { granularity ≤ 4 }
    requires early { t.0 ≤ most_span }
    requires vcpus { length joining.vcpus ≤ 32 }
    requires before { EachPlace (PoolFitsAt t.0) pools.old }
    requires after { EachPlace (PoolFitsAt t.0)
        (change_at index (joined_by granularity t.0 d.0 joining) pools.old) }
    ensures { pools.new ≡ change_at index (joined_by granularity t.0 d.0 joining) pools.old }
{
    if let Some(place) = pools.get_mut(index)
        && let Some(pool) = place
    {
        join(granularity, t, d, joining, pool);
    }
}

/// The domain leaves its pool and joins the one to which it is moving.
pub fn move_domain(machine: &Machine, d: DomId, state: &mut State) -> Event
    requires stands { Stands machine.now state.old }
    requires enabled { is_action_enabled machine.now state.old state.old.now (actions.DomMoved d)
        ≡ true }
    ensures event { result ≡ event_of machine.now state.old state.old.now (actions.DomMoved d) }
    ensures state { state.new ≡ after machine.now state.old state.old.now (actions.DomMoved d) }
{
    let g = machine.config.granularity;
    let t = state.now;
    let Some(from) = home_of_domain(state, d) else {
        unreachable!();
    };
    let Some(to) = target_in(state, from, d) else {
        unreachable!();
    };
    let Some(domain) = leave_at(Moment(t), d, from, &mut state.pools) else {
        unreachable!();
    };
    join_at(g, Moment(t), d, domain, to.0 as usize, &mut state.pools);
    Event::DomMoved { d, to }
}
