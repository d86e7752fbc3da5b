//! Which events of the whole machine may come at t.

ghost use Rattle.std.specs.Prelude.{◌≡◌, ◌<◌};
ghost use Rattle.sched_model.specs.Places.{test_at};
ghost use Rattle.sched_model.specs.Machine.{is_action_enabled, enabled_at_home, is_free_core_ready};
ghost use Rattle.sched_model.specs.Pool.{enabled_in};
ghost use Rattle.sched_plain.specs.Fits.{MachineFits, StateFits};
ghost use Rattle.sched_plain.specs.Search.{has_stall_come, has_command_come};

use crate::homes::{home_of, is_move_under_way, pool_at};
use plain_pool::pool::is_enabled_in;
use sched_base::{Moment, ResId};
use sched_model::action::Action;
use sched_model::machine::Machine;
use sched_model::places::item_at;
use sched_model::state::{FreeCore, State};

/// Whether the next stall has come.
pub(crate) fn stall_due(machine: &Machine, state: &State, t: Moment) -> bool
    ensures { result ≡ has_stall_come machine.now state.entry.now t.0 }
{
    match machine
        .work
        .stalls
        .as_slice()
        .get(state.next_stall as usize)
    {
        None => false,
        Some(line) => line.at.0 <= t.0,
    }
}

/// Whether the next command has come.
pub(crate) fn command_due(machine: &Machine, state: &State, t: Moment) -> bool
    ensures { result ≡ has_command_come machine.now state.entry.now t.0 }
{
    match machine
        .work
        .commands
        .as_slice()
        .get(state.next_command as usize)
    {
        None => false,
        Some(line) => line.at.0 <= t.0,
    }
}

/// Whether a core of no pool is leaving, and its first processor is up.
pub(crate) fn free_ready(t: Moment, core: &FreeCore) -> bool
    ensures { result ≡ is_free_core_ready t.0 core.now }
{
    core.target.is_some()
        && match core.stall_ends.as_slice() {
            [] => false,
            [end, ..] => end.0 <= t.0,
        }
}

/// The same of the core with this number.
fn is_free_ready(state: &State, t: Moment, r: ResId) -> bool
    ensures { result ≡ test_at state.entry.now.free r.0 (is_free_core_ready t.0) }
{
    match item_at(state.free.as_slice(), r.0 as usize) {
        None => false,
        Some(c) => free_ready(t, c),
    }
}

/// Whether the action may come at t, by the pool of its subject.
fn is_enabled_at_home(machine: &Machine, state: &State, t: Moment, action: Action) -> bool
    requires machine { MachineFits machine.now }
    requires state { StateFits state.now }
    ensures { result ≡ enabled_at_home machine.now state.entry.now t.0 action }
{
    match home_of(machine.config.granularity, state, action) {
        None => false,
        Some(i) => is_enabled_at(machine.config.granularity, state, t, action, i),
    }
}

/// Whether the action may come at t in the pool with this number.
fn is_enabled_at(granularity: u8, state: &State, t: Moment, action: Action, place: usize) -> bool
    requires some { 0 < granularity }
    requires state { StateFits state.now }
    ensures { result ≡ test_at state.entry.now.pools place
        (λ pool. enabled_in granularity t.0 pool action) }
{
    match pool_at(state, place) {
        None => false,
        Some(pool) => is_enabled_in(granularity, t, pool, action),
    }
}

/// Whether the action may come at t.
pub fn is_enabled(machine: &Machine, state: &State, t: Moment, action: Action) -> bool
    requires machine { MachineFits machine.now }
    requires state { StateFits state.now }
    ensures { result ≡ is_action_enabled machine.now state.entry.now t.0 action }
{
    match action {
        Action::Stall => stall_due(machine, state, t),
        Action::Xl => command_due(machine, state, t) && !is_move_under_way(state),
        Action::Moved(r) => is_free_ready(state, t, r)
            || is_enabled_at_home(machine, state, t, action),
        _ => is_enabled_at_home(machine, state, t, action),
    }
}
