//! The calls that change only the queue, or nothing.

ghost use Rattle.std.specs.Prelude.{◌≡◌, true, Some, ◌≤◌};
ghost use Rattle.sched_model.specs.declared.config.PoolParams.TheVariants as pool_params;
ghost use Rattle.sched_model.specs.Policy.{scheduler_with_queued};
ghost use Rattle.sched_ops.specs.Seen.{with_scheduler, restarted_scheduler, scheduler_without_unit};
ghost use Rattle.sched_ops.specs.Conditions.{IsAway, Keeps, is_member, is_vacant};
ghost use Rattle.sched_ops.specs.Told.{IsInRange};
ghost use Rattle.sched_model.specs.Policy.{unit_stored};
ghost use Rattle.credit2_core.specs.Credit2State.{IsSound, scheduler_in, seen_in};
ghost use Rattle.credit2_core.specs.Whole.{IsReadyIn};

use crate::choice::depart;
use crate::run_queue::{Ready, first_with, key_of};
use crate::state::Credit2State;
use sched_base::UnitId;
use sched_model::facts::Stored;
use sched_model::places::item_at;

/// The unit waits behind all others. It is the first where it may run and has more credit than the one that was.
pub fn enqueue(state: &mut Credit2State, ready: &mut Ready, u: UnitId)
    requires sound { IsSound state.old }
    requires ready { IsReadyIn state.old ready.old }
    requires away { IsAway (scheduler_in state.old) u }
    ensures seen { seen_in state.new ≡ with_scheduler
        (scheduler_with_queued u (scheduler_in state.old)) (seen_in state.old) }
    ensures sound { IsSound state.new }
    ensures ready { IsReadyIn state.new ready.new }
{
    let key = key_of(&state.records, u);
    state.queue.law_order();
    state.queue.insert(u, key);
    state.queue.law_order();
    ready.first = first_with(&state.records, *ready, u);
}

/// The unit waits no more. Where it was the first, the next one is looked for behind it.
pub fn dequeue(state: &mut Credit2State, ready: &mut Ready, u: UnitId)
    requires sound { IsSound state.old }
    requires ready { IsReadyIn state.old ready.old }
    ensures seen { seen_in state.new ≡ with_scheduler
        (scheduler_without_unit u (scheduler_in state.old)) (seen_in state.old) }
    ensures sound { IsSound state.new }
    ensures ready { IsReadyIn state.new ready.new }
{
    depart(state, ready, u);
}

/// Begins anew with this rate limit, in microseconds, and no reset yet.
pub fn restart(state: &mut Credit2State, limit: u32)
    requires sound { IsSound state.old }
    requires vacant { is_vacant (scheduler_in state.old) ≡ true }
    requires limit { limit ≤ 500000 }
    ensures seen { seen_in state.new ≡ with_scheduler
        (restarted_scheduler (pool_params.Credit2 limit) (scheduler_in state.old))
        (seen_in state.old) }
    ensures sound { IsSound state.new }
{
    state.records.limit = limit;
    state.records.last_reset = None;
    state.unpinned = true;
}

/// The weight and the cap of the unit's domain.
pub fn stored(state: &Credit2State, u: UnitId) -> Stored
    requires sound { IsSound state.now }
    requires member { is_member (scheduler_in state.now) u ≡ true }
    ensures value { unit_stored (scheduler_in state.now).records u ≡ Some result }
    ensures range { IsInRange result }
{
    match item_at(state.records.domains.as_slice(), u.dom.0 as usize) {
        None => Stored::Null,
        Some(d) => Stored::Credit2 {
            weight: d.weight,
            cap: d.cap,
        },
    }
}

/// Tells what holds of the units that wait.
pub fn keeps(state: &Credit2State)
    requires { IsSound state.now }
    ensures { Keeps (seen_in state.now) }
{
    let _ = state;
}
