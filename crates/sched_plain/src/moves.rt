//! Cores and domains that move from one pool to another.

ghost use Rattle.sched_model.specs.CheckedMachine.{most_span};
ghost use Rattle.std.specs.Prelude.{◌≡◌, ◌<◌, ◌≤◌, length, Some, None, option_map};
ghost use Rattle.sched_model.specs.declared.action.Action.TheVariants as actions;
ghost use Rattle.sched_model.specs.Machine.{event_of, after, state_after_moved};
ghost use Rattle.sched_model.specs.Places.{at_place, change_at};
ghost use Rattle.pool_records.specs.Cores.{ends_of};
ghost use Rattle.sched_plain.specs.Fits.{PoolFitsAt};
ghost use Rattle.sched_model.specs.Machine.{pool_with_core};
ghost use Rattle.sched_plain.specs.Moves.{free_core_target, without_its_core, ends_at};
ghost use Rattle.sched_plain.specs.ReachedStates.{Stands};
ghost use Rattle.sched_laws.specs.EachPlace.{EachPlace};

use crate::homes::home_of_core;
use plain_pool::settle::settle;
use pool_records::leaving::{put_core, take_core};
use sched_base::{Moment, PoolId, ResId};
use sched_model::event::Event;
use sched_model::facts::StallEnds;
use sched_model::machine::Machine;
use sched_model::places::{item_at, set_place, take_item};
use sched_model::row::Row;
use sched_model::state::{FreeCore, Pool, State};

/// The pool to which the core of no pool is leaving.
pub(crate) fn target_at(free: &[Option<FreeCore>], r: ResId) -> Option<u8>
    ensures { result ≡ free_core_target free.now r.0 }
{
    item_at(free, r.0 as usize)?.target
}

/// The core joins the pool, whose cores are looked at.
fn join_core(t: Moment, r: ResId, stall_ends: &StallEnds, pool: &mut Pool)
    requires early { t.0 ≤ most_span }
    requires fits { PoolFitsAt t.0 pool.old }
    ensures { pool.new ≡ pool_with_core t.0 r.0 stall_ends.now pool.old }
{
    put_core(r, stall_ends, pool);
    settle(t, pool);
}

/// The same in the pool with this number.
fn join_core_at(
    t: Moment,
    r: ResId,
    stall_ends: &StallEnds,
    index: usize,
    pools: &mut Row<Option<Pool>>,
)
    requires early { t.0 ≤ most_span }
    requires fits { EachPlace (PoolFitsAt t.0) pools.old }
    ensures { pools.new ≡ change_at index (pool_with_core t.0 r.0 stall_ends.now) pools.old }
{
    if let Some(place) = pools.get_mut(index)
        && let Some(pool) = place
    {
        join_core(t, r, stall_ends, pool);
    }
}

/// The core leaves the pool, where the pool has it, and the pool's cores are looked at: the ends of its processors' stalls.
fn part_core(t: Moment, r: ResId, pool: &mut Pool) -> Option<StallEnds>
    requires early { t.0 ≤ most_span }
    requires fits { PoolFitsAt t.0 pool.old }
    ensures ends { result ≡ option_map ends_of (at_place pool.old.resources r.0) }
    ensures pool { pool.new ≡ without_its_core t.0 r.0 pool.old }
{
    let ends = take_core(r, pool)?;
    settle(t, pool);
    Some(ends)
}

/// The same in the pool with this number.
fn part_core_at(
    t: Moment,
    r: ResId,
    index: usize,
    pools: &mut Row<Option<Pool>>,
) -> Option<StallEnds>
    requires early { t.0 ≤ most_span }
    requires fits { EachPlace (PoolFitsAt t.0) pools.old }
    ensures ends { result ≡ ends_at r.0 index pools.old }
    ensures pools { pools.new ≡ change_at index (without_its_core t.0 r.0) pools.old }
{
    if let Some(place) = pools.get_mut(index)
        && let Some(pool) = place
    {
        part_core(t, r, pool)
    } else {
        None
    }
}

/// A core of no pool joins the pool to which it is leaving.
fn attach(t: Moment, r: ResId, place: u8, state: &mut State)
    requires early { t.0 ≤ most_span }
    requires fits { EachPlace (PoolFitsAt t.0) state.old.pools }
    requires target { free_core_target state.old.free r.0 ≡ Some place }
    ensures { state.new ≡ state_after_moved t.0 r.0 state.old }
{
    let Some(c) = take_item(&mut state.free, r.0 as usize) else {
        unreachable!();
    };
    join_core_at(t, r, &c.stall_ends, place as usize, &mut state.pools);
}

/// A core leaves its pool, and is one of no pool then.
fn detach(t: Moment, r: ResId, state: &mut State)
    requires early { t.0 ≤ most_span }
    requires few { length state.old.pools ≤ 16 }
    requires fits { EachPlace (PoolFitsAt t.0) state.old.pools }
    requires owned { at_place state.old.free r.0 ≡ None }
    ensures { state.new ≡ state_after_moved t.0 r.0 state.old }
{
    if let Some(i) = home_of_core(state, r) {
        if let Some(ends) = part_core_at(t, r, i, &mut state.pools) {
            let free = FreeCore {
                target: None,
                stall_ends: ends,
            };
            set_place(&mut state.free, r.0, Some(free));
        }
    }
}

/// The core moves: from no pool to the one to which it is leaving, or from its pool to none.
pub fn move_core(machine: &Machine, r: ResId, state: &mut State) -> Event
    requires { Stands machine.now state.old }
    ensures event { result ≡ event_of machine.now state.old state.old.now (actions.Moved r) }
    ensures state { state.new ≡ after machine.now state.old state.old.now (actions.Moved r) }
{
    let t = state.now;
    let to = target_at(state.free.as_slice(), r);
    match to {
        Some(i) => attach(Moment(t), r, i, state),
        None => {
            if item_at(state.free.as_slice(), r.0 as usize).is_none() {
                detach(Moment(t), r, state);
            }
        }
    }
    Event::Moved {
        r,
        to: to.map(|i| PoolId(i)),
    }
}
