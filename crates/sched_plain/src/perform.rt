//! Doing an action that may come, in the pool of its subject.

ghost use Rattle.sched_model.specs.CheckedMachine.{most_span};
ghost use Rattle.std.specs.Prelude.{◌≡◌, ◌<◌, ◌≤◌, true, Some};
ghost use Rattle.sched_model.specs.Pool.{enabled_in, event_in, after_in, settled_pool};
ghost use Rattle.sched_model.specs.Actions.{IsOfPool, home_pool_of_action};
ghost use Rattle.sched_model.specs.Machine.{is_action_enabled, event_of, after};
ghost use Rattle.cpupool.specs.Tool.{KnowsMachine};
ghost use Rattle.sched_plain.specs.CommandList.{HasSpares};
ghost use Rattle.sched_plain.specs.Fits.{PoolFitsAt};
ghost use Rattle.sched_plain.specs.ReachedStates.{Stands};
ghost use Rattle.sched_plain.specs.Outlooks.{IsSeenIf, IsSeenOverIf};
ghost use Rattle.sched_plain.specs.SettledPools.{AreSettled, MayDecide};
ghost use Rattle.pool_laws.specs.CoreLooks.{IsSettled};

use crate::command::command;
use crate::dom_moves::move_domain;
use crate::floors::{Outlook, forget_all, pend, touch};
use crate::homes::home_of;
use crate::moves::move_core;
use crate::settled::{Settled, needs_look};
use crate::stall::stall;
use cpupool::ToolState;
use plain_pool::events::happen;
use plain_pool::settle::settle;
use sched_base::Moment;
use sched_model::action::Action;
use sched_model::event::Event;
use sched_model::machine::Machine;
use sched_model::row::Row;
use sched_model::state::{Pool, State};

/// The event in its pool, and then the pool's cores that are to decide anew. They are not looked at where the pool was settled and the event
/// leaves it so.
fn perform_in(
    granularity: u8,
    t: Moment,
    action: Action,
    is_settled: bool,
    outlook: &mut Option<Outlook>,
    pool: &mut Pool,
) -> Event
    requires some { 0 < granularity }
    requires few { granularity ≤ 4 }
    requires early { t.0 ≤ most_span }
    requires own { IsOfPool action }
    requires enabled { enabled_in granularity t.0 pool.old action ≡ true }
    requires before { PoolFitsAt t.0 pool.old }
    requires after { PoolFitsAt t.0 (after_in granularity t.0 pool.old action) }
    requires settled { is_settled ≡ true → IsSettled t.0 pool.old }
    requires decides { MayDecide granularity pool.old }
    ensures event { result ≡ event_in granularity t.0 pool.old action }
    ensures pool { pool.new ≡ settled_pool t.0 (after_in granularity t.0 pool.old action) }
    ensures outlook { IsSeenOverIf granularity t.0 pool.old pool.new outlook.old outlook.new }
{
    touch(granularity, action, pool, outlook);
    let is_looked_at = needs_look(is_settled, action, pool);
    let event = happen(granularity, t, action, pool);
    if is_looked_at {
        settle(t, pool);
        pend(pool.resources.as_slice(), outlook);
    }
    event
}

/// The event in the pool with this number.
fn perform_at(
    machine: &Machine,
    t: Moment,
    action: Action,
    place: usize,
    state: &mut State,
    settled: &mut Settled,
    outlook: &mut Option<Outlook>,
) -> Event
    requires stands { Stands machine.now state.old }
    requires settled { AreSettled state.old.now state.old.pools settled.old }
    requires outlook { IsSeenIf machine.now state.old outlook.old }
    requires now { t.0 ≡ state.old.now }
    requires own { IsOfPool action }
    requires enabled { is_action_enabled machine.now state.old state.old.now action ≡ true }
    requires home { home_pool_of_action machine.now.config.granularity state.old action
        ≡ Some place }
    ensures event { result ≡ event_of machine.now state.old state.old.now action }
    ensures state { state.new ≡ after machine.now state.old state.old.now action }
    ensures settled { AreSettled state.new.now state.new.pools settled.new }
    ensures outlook { IsSeenIf machine.now state.new outlook.new }
{
    if place >= state.pools.len() {
        unreachable!();
    }
    match state.pools.item_mut(place) {
        None => unreachable!(),
        Some(pool) => {
            let event = perform_in(
                machine.config.granularity,
                t,
                action,
                settled.has(place),
                outlook,
                pool,
            );
            settled.mark(place);
            event
        }
    }
}

/// The event of an action that may come now at a pool, which is done.
fn perform_at_home(
    machine: &Machine,
    state: &mut State,
    settled: &mut Settled,
    outlook: &mut Option<Outlook>,
    action: Action,
) -> Event
    requires stands { Stands machine.now state.old }
    requires settled { AreSettled state.old.now state.old.pools settled.old }
    requires outlook { IsSeenIf machine.now state.old outlook.old }
    requires own { IsOfPool action }
    requires enabled { is_action_enabled machine.now state.old state.old.now action ≡ true }
    ensures event { result ≡ event_of machine.now state.old state.old.now action }
    ensures state { state.new ≡ after machine.now state.old state.old.now action }
    ensures settled { AreSettled state.new.now state.new.pools settled.new }
    ensures outlook { IsSeenIf machine.now state.new outlook.new }
{
    let t = state.now;
    match home_of(machine.config.granularity, state, action) {
        None => unreachable!(),
        Some(i) => perform_at(machine, Moment(t), action, i, state, settled, outlook),
    }
}

/// The event of an action that may come now, which is done.
pub fn perform(
    machine: &Machine,
    state: &mut State,
    tool: &mut ToolState,
    spares: &mut Row<Option<Pool>>,
    settled: &mut Settled,
    outlook: &mut Option<Outlook>,
    action: Action,
) -> Event
    requires stands { Stands machine.now state.old }
    requires enabled { is_action_enabled machine.now state.old state.old.now action ≡ true }
    requires tool { KnowsMachine machine.now tool.old }
    requires spares { HasSpares machine.now state.old.next_command spares.old }
    requires settled { AreSettled state.old.now state.old.pools settled.old }
    requires outlook { IsSeenIf machine.now state.old outlook.old }
    ensures event { result ≡ event_of machine.now state.old state.old.now action }
    ensures state { state.new ≡ after machine.now state.old state.old.now action }
    ensures tool { KnowsMachine machine.now tool.new }
    ensures spares { HasSpares machine.now state.new.next_command spares.new }
    ensures settled { AreSettled state.new.now state.new.pools settled.new }
    ensures outlook { IsSeenIf machine.now state.new outlook.new }
{
    match action {
        Action::Stall => {
            settled.clear();
            forget_all(outlook);
            stall(machine, state)
        }
        Action::Xl => {
            settled.clear();
            forget_all(outlook);
            command(machine, state, tool, spares)
        }
        Action::Moved(r) => {
            settled.clear();
            forget_all(outlook);
            move_core(machine, r, state)
        }
        Action::DomMoved(d) => {
            settled.clear();
            forget_all(outlook);
            move_domain(machine, d, state)
        }
        _ => perform_at_home(machine, state, settled, outlook, action),
    }
}
