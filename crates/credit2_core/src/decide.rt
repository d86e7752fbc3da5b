//! The decision for a core. Moments are in nanoseconds.

ghost use Rattle.sched_model.specs.CheckedMachine.{most_span};
ghost use Rattle.std.specs.Prelude.{◌≡◌, ◌≤◌, ◌<◌, length, Some, None, true, false};
ghost use Rattle.queue_laws.specs.Arrivals.{arrivals};
ghost use Rattle.sched_model.specs.Places.{without_unit, has_listed_unit};
ghost use Rattle.sched_model.specs.Policy.{decision_of, after_decision};
ghost use Rattle.sched_model.specs.Credit2.{own_burned_records, credit2_decision_for, reset_count, running_records, off_records};
ghost use Rattle.sched_ops.specs.Seen.{Tells, seen_at};
ghost use Rattle.sched_ops.specs.Conditions.{IsAsked};
ghost use Rattle.scheduler_records.specs.Bounds.{PoolFits};
ghost use Rattle.credit2_core.specs.Credit2State.{IsFree, IsSound, IsLine, IsSameRoom, AreMasks, scheduler_in, seen_in};
ghost use Rattle.credit2_core.specs.Choice.{records_after_run};
ghost use Rattle.credit2_core.specs.Whole.{IsReadyIn};

use crate::choice::{choice, depart, reset_pool};
use crate::run_queue::{Ready, follow};
use crate::slice::take_slice;
use crate::state::Credit2State;
use sched_base::{Moment, UnitId};
use sched_model::ask::Ask;
use sched_ops::Choice;
use scheduler_records::credit2_running::{charge, set_running, switch_off};
use scheduler_records::credit2_slice::resets_for;

/// The core's own unit is charged.
fn charge_own(state: &mut Credit2State, ready: &mut Ready, ask: &Ask)
    requires sound { IsSound state.old }
    requires ready { IsReadyIn state.old ready.old }
    requires asked { IsAsked (seen_in state.old) ask.now }
    ensures records { state.new.records ≡ own_burned_records ask.now.cur ask.now.at.0
        state.old.records }
    ensures fits { PoolFits ask.now.at.0 state.new.records }
    ensures line { IsLine state.new }
    ensures ready { IsReadyIn state.new ready.new }
    ensures rest { state.new ≡ record state.old { records = state.new.records } }
{
    if let Some(u) = ask.cur {
        charge(ready.most, u, ask.at, &mut state.records);
        *ready = follow(state, *ready, u.dom, true);
    }
}

/// The core's own unit runs no more.
fn stop_own(state: &mut Credit2State, ask: &Ask)
    requires { IsLine state.old }
    ensures records { state.new.records ≡ off_records ask.now.cur state.old.records }
    ensures line { IsLine state.new }
    ensures rest { state.new ≡ record state.old
        { records = state.new.records; latest = ask.now.at.0 } }
{
    switch_off(ask.cur, &mut state.records);
    state.latest = ask.at.0;
}

/// The unit, which does not wait, runs from the moment of the question.
fn start(state: &mut Credit2State, ask: &Ask, u: UnitId)
    requires line { IsLine state.old }
    requires waits_not { has_listed_unit (arrivals state.old.queue.units) u ≡ false }
    ensures records { state.new.records ≡ running_records (Some ask.now.at.0) u state.old.records }
    ensures line { IsLine state.new }
    ensures rest { state.new ≡ record state.old { records = state.new.records } }
{
    set_running(Some(ask.at.0), u, &mut state.records);
}

/// Whether what is kept stands, after so many resets.
fn stands(resets: u64) -> bool
    ensures { result ≡ true → resets ≡ 0 }
{
    resets == 0
}

/// The core runs the unit: the resets that it calls for are made, and it takes its budget.
fn run_unit(state: &mut Credit2State, ready: &mut Ready, ask: &Ask, u: UnitId) -> Choice
    requires ready { IsReadyIn state.old ready.old }
    requires core { ask.now.core.0 < 64 }
    requires early { ask.now.at.0 ≤ most_span }
    requires fits { PoolFits ask.now.at.0 state.old.records }
    requires limit { state.old.records.limit ≤ 500000 }
    requires few { length state.old.records.domains ≤ 64 }
    requires places { length state.old.affinity ≤ 64 }
    requires line { IsLine state.old }
    requires masks { AreMasks state.old.affinity state.old.masks }
    requires free { IsFree state.old.unpinned state.old.affinity }
    ensures tells { Tells result (credit2_decision_for ask.now (scheduler_in state.old)
        state.old.records (Some u)) }
    ensures records { state.new.records ≡ records_after_run ask.now.cur ask.now.at.0
        (reset_count ask.now.at.0 u state.old.records) u state.old.records }
    ensures order { arrivals state.new.queue.units
        ≡ without_unit u (arrivals state.old.queue.units) }
    ensures line { IsLine state.new }
    ensures ready { IsReadyIn state.new ready.new }
    ensures room { IsSameRoom state.old.queue state.new.queue }
    ensures rest { state.new ≡ record state.old
        { records = state.new.records; queue = state.new.queue; latest = ask.now.at.0 } }
{
    depart(state, ready, u);
    let resets = resets_for(ask.at, u, &state.records);
    reset_pool(state, ask.at, resets);
    let stands = stands(resets);
    let long = take_slice(state, ready, ask, u, stands);
    stop_own(state, ask);
    start(state, ask, u);
    Choice {
        unit: Some(u),
        due: Some(Moment(ask.at.0 + long)),
        reset: resets,
    }
}

/// The core idles.
fn idle(state: &mut Credit2State, ask: &Ask) -> Choice
    requires { IsLine state.old }
    ensures tells { Tells result (credit2_decision_for ask.now (scheduler_in state.old)
        state.old.records None) }
    ensures records { state.new.records ≡ off_records ask.now.cur state.old.records }
    ensures line { IsLine state.new }
    ensures rest { state.new ≡ record state.old
        { records = state.new.records; latest = ask.now.at.0 } }
{
    stop_own(state, ask);
    Choice {
        unit: None,
        due: None,
        reset: 0,
    }
}

/// Decides for a core: its own unit is charged first, and then the choice is made of it and the first that waits and may run.
pub fn choose(state: &mut Credit2State, ready: &mut Ready, ask: &Ask) -> Choice
    requires sound { IsSound state.old }
    requires ready { IsReadyIn state.old ready.old }
    requires asked { IsAsked (seen_in state.old) ask.now }
    ensures answer { Tells result (decision_of ask.now (scheduler_in state.old)) }
    ensures after { seen_in state.new ≡ seen_at ask.now.at.0
        (after_decision (decision_of ask.now (scheduler_in state.old)) (scheduler_in state.old))
        (seen_in state.old) }
    ensures sound { IsSound state.new }
    ensures ready { IsReadyIn state.new ready.new }
{
    charge_own(state, ready, ask);
    match choice(state, ready, ask) {
        None => idle(state, ask),
        Some(u) => run_unit(state, ready, ask, u),
    }
}
