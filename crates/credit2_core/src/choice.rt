//! Which unit a core is to run. Moments are in nanoseconds.

ghost use Rattle.sched_model.specs.CheckedMachine.{most_span};
ghost use Rattle.std.specs.Prelude.{◌≡◌, ◌≤◌, ◌<◌, ◌+◌, ℕ, Bool, false, true, length};
ghost use Rattle.sched_base.specs.declared.UnitId.{UnitId as Unit};
ghost use Rattle.arrival_queue.specs.Filters.{first_that, has_core_bit};
ghost use Rattle.arrival_queue.specs.Queues.{list_without};
ghost use Rattle.queue_laws.specs.Arrivals.{arrivals};
ghost use Rattle.sched_model.specs.Places.{without_unit, is_unit};
ghost use Rattle.sched_model.specs.Policy.{has_better_waiting};
ghost use Rattle.sched_model.specs.Credit2.{most_weight, credit2_candidate, credit2_choice, reset_records, is_rate_limited};
ghost use Rattle.sched_ops.specs.Conditions.{IsNow, IsOwnOf};
ghost use Rattle.scheduler_records.specs.Bounds.{PoolFits};
ghost use Rattle.credit2_core.specs.Credit2State.{IsFree, IsSound, IsLine, IsSameRoom, AreMasks, scheduler_in, seen_in};
ghost use Rattle.credit2_core.specs.Choice.{best_of, credit_or_0, is_better_of};
ghost use Rattle.credit2_core.specs.Whole.{IsReadyIn};

use crate::below::is_below;
use crate::run_queue::{Ready, best_ready, may_be_on, rekey_all, richer};
use crate::state::Credit2State;
use sched_base::{Cores, Moment, ResId, UnitId};
use sched_model::ask::Ask;
use sched_model::state::Credit2Records;
use sched_model::units::is_there;
use scheduler_records::credit2_running::{credit_of, reset};
use scheduler_records::credit2_slice::{domain_has_budget, is_within_limit};
use scheduler_records::eligible::is_allowed;

/// The core's own unit, where it may go on.
fn own_candidate(state: &Credit2State, ask: &Ask) -> Option<UnitId>
    requires { ask.now.core.0 < 64 }
    ensures { result ≡ credit2_candidate ask.now (scheduler_in state.now) state.now.records }
{
    let u = ask.cur?;
    if ask.runnable
        && is_allowed(state.affinity.as_slice(), ask.home, ask.core, u)
        && domain_has_budget(&state.records, u)
    {
        Some(u)
    } else {
        None
    }
}

/// The choice, after the core's own unit was charged.
pub fn choice(state: &Credit2State, ready: &Ready, ask: &Ask) -> Option<UnitId>
    requires ready { IsReadyIn state.now ready.now }
    requires free { IsFree state.now.unpinned state.now.affinity }
    requires core { ask.now.core.0 < 64 }
    requires line { IsLine state.now }
    requires masks { AreMasks state.now.affinity state.now.masks }
    ensures { result ≡ credit2_choice ask.now (scheduler_in state.now) state.now.records }
{
    if ask.leaving {
        return None;
    }
    let own = own_candidate(state, ask);
    if own.is_some() && is_within_limit(&state.records, ask.since, ask.at) {
        return own;
    }
    let waiting = best_ready(state, ready, ask.core, ask.home);
    match own {
        None => waiting,
        Some(u) => richer(&state.records, u, waiting),
    }
}

/// The unit, where it waits, waits no more.
pub fn leave(state: &mut Credit2State, u: UnitId)
    requires { IsLine state.old }
    ensures order { arrivals state.new.queue.units
        ≡ without_unit u (arrivals state.old.queue.units) }
    ensures line { IsLine state.new }
    ensures room { IsSameRoom state.old.queue state.new.queue }
    ensures first { (p : Unit → Bool) → is_unit (first_that p state.old.queue.units) u ≡ false →
        first_that p state.new.queue.units ≡ first_that p state.old.queue.units }
    ensures without { (p : Unit → Bool) → first_that p state.new.queue.units
        ≡ first_that p (list_without u state.old.queue.units) }
    ensures rest { state.new ≡ record state.old { queue = state.new.queue } }
{
    state.queue.law_order();
    let _ = state.queue.remove(u);
}

/// The first unit that waits of a domain that may run, once the unit is gone: where it is that one, the next is looked for behind it.
fn first_without(state: &Credit2State, ready: &Ready, u: UnitId) -> Option<UnitId>
    requires { IsReadyIn state.now ready.now }
    ensures own { is_unit ready.now.first u ≡ true → result
        ≡ first_that (λ w. has_core_bit ready.now.domains.0 w.dom.0)
        (list_without u state.now.queue.units) }
    ensures other { is_unit ready.now.first u ≡ false → result ≡ ready.now.first }
{
    if is_there(ready.first, u) {
        state.queue.first_behind(u, &ready.domains)
    } else {
        ready.first
    }
}

/// The unit, where it waits, waits no more, and what is kept follows.
pub fn depart(state: &mut Credit2State, ready: &mut Ready, u: UnitId)
    requires line { IsLine state.old }
    requires ready { IsReadyIn state.old ready.old }
    ensures order { arrivals state.new.queue.units
        ≡ without_unit u (arrivals state.old.queue.units) }
    ensures line { IsLine state.new }
    ensures room { IsSameRoom state.old.queue state.new.queue }
    ensures ready { IsReadyIn state.new ready.new }
    ensures rest { state.new ≡ record state.old { queue = state.new.queue } }
{
    let first = first_without(state, ready, u);
    leave(state, u);
    ready.first = first;
}

/// The pool after so many resets at t. The keys of the units that wait follow their credits.
pub fn reset_pool(state: &mut Credit2State, t: Moment, resets: u64)
    requires early { t.0 ≤ most_span }
    requires few { resets ≤ 1000000000000 }
    requires fits { PoolFits t.0 state.old.records }
    requires places { length state.old.affinity ≤ 64 }
    requires line { IsLine state.old }
    ensures records { state.new.records ≡ reset_records t.0 resets state.old.records }
    ensures order { arrivals state.new.queue.units ≡ arrivals state.old.queue.units }
    ensures line { IsLine state.new }
    ensures room { IsSameRoom state.old.queue state.new.queue }
    ensures none { resets ≡ 0 → state.new ≡ state.old }
    ensures rest { state.new ≡ record state.old
        { records = state.new.records; queue = state.new.queue } }
{
    if resets == 0 {
        return;
    }
    reset(t, resets, &mut state.records);
    rekey_all(&mut state.queue, &state.records, state.affinity.as_slice());
}

/// The greatest credit of those that wait and may take the core, or 0.
pub fn other_credit(state: &Credit2State, ready: &Ready, ask: &Ask) -> i64
    requires ready { IsReadyIn state.now ready.now }
    requires free { IsFree state.now.unpinned state.now.affinity }
    requires core { ask.now.core.0 < 64 }
    requires line { IsLine state.now }
    requires masks { AreMasks state.now.affinity state.now.masks }
    ensures { result ≡ credit_or_0 state.now.records
        (best_of (arrivals state.now.queue.units) state.now.affinity ask.now.home.0 ask.now.core.0
        state.now.records) }
{
    match best_ready(state, ready, ask.core, ask.home) {
        None => 0,
        Some(u) => credit_of(&state.records, u),
    }
}

/// Whether one that waits is better than the core's own unit at t, once that has run for the rate limit. The greatest weight of the
/// pool is most.
fn better_than(
    state: &Credit2State,
    most: u32,
    own: UnitId,
    t: Moment,
    waiting: Option<UnitId>,
) -> bool
    requires sound { IsSound state.now }
    requires most { most ≡ most_weight state.now.records }
    requires now { IsNow (seen_in state.now) t.0 }
    ensures { (since : ℕ) → is_rate_limited state.now.records since t.0 ≡ false → result
        ≡ is_better_of state.now.records own since t.0 waiting }
{
    match waiting {
        None => false,
        Some(u) => is_below(most, &state.records, t, own, credit_of(&state.records, u)),
    }
}

/// Whether the best of those that wait for a core is better than the core's own unit, which runs since a moment, at t. Where the first
/// of a domain that may run is no better, none is looked for.
fn one_is_better(
    state: &Credit2State,
    ready: &Ready,
    own: UnitId,
    since: Moment,
    t: Moment,
    core: ResId,
    home: Cores,
) -> bool
    requires sound { IsSound state.now }
    requires now { IsNow (seen_in state.now) t.0 }
    requires ready { IsReadyIn state.now ready.now }
    requires core { core.0 < 64 }
    ensures { result ≡ is_better_of state.now.records own since.0 t.0
        (best_of (arrivals state.now.queue.units) state.now.affinity home.0 core.0
        state.now.records) }
{
    if is_within_limit(&state.records, since, t) {
        return false;
    }
    state.queue.law_order();
    if !better_than(state, ready.most, own, t, ready.first) {
        return false;
    }
    let best = best_ready(state, ready, core, home);
    better_than(state, ready.most, own, t, best)
}

/// Whether a core is to decide anew at t.
pub fn better_waits(
    state: &Credit2State,
    ready: &Ready,
    cur: Option<UnitId>,
    since: Moment,
    t: Moment,
    core: ResId,
    home: Cores,
) -> bool
    requires sound { IsSound state.now }
    requires now { IsNow (seen_in state.now) t.0 }
    requires ready { IsReadyIn state.now ready.now }
    requires core { core.0 < 64 }
    requires own { IsOwnOf (scheduler_in state.now) cur }
    ensures { result ≡ has_better_waiting cur since.0 t.0 core.0 home.0 (scheduler_in state.now) }
{
    match cur {
        None => best_ready(state, ready, core, home).is_some(),
        Some(own) => {
            !may_be_on(state, own, core, home)
                || one_is_better(state, ready, own, since, t, core, home)
        }
    }
}
