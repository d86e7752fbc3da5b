//! Which event of a pool comes first, and when.

ghost use Rattle.std.specs.Prelude.{◌≡◌, ℕ};
ghost use Rattle.sched_model.specs.Pool.{enabled_in};
ghost use Rattle.pool_laws.specs.ReadyMoments.{ready_in};
ghost use Rattle.policy_laws.specs.Holds.{AreOn};
ghost use Rattle.unit_state.specs.Seen.{Seen as GuestsSeen};
ghost use Rattle.core_state.specs.Firsts.{IsLeast};
ghost use Rattle.sched_ops.specs.Seen.{Seen as SchedulerSeen};
ghost use Rattle.sched_ops.specs.Timers.{timer_action};
ghost use Rattle.pool_core.specs.PoolState.{AreWorks};
ghost use Rattle.pool_core.specs.Order.{IsFirstIn};
ghost use Rattle.pool_laws.specs.FirstEvents.{IsFirstEnabled, IsNextMoment};
ghost use Rattle.pool_core.specs.Seen.{pool_of};

use core_state::{CoreState, earlier};
use pool_records::cores::has_come;
use sched_base::Moment;
use sched_model::action::Action;
use sched_ops::{Policy, Timer};
use unit_state::Guests;

/// The event of a timer.
fn action_of(timer: Timer) -> Action
    ensures { result ≡ timer_action timer }
{
    match timer {
        Timer::Repl(u) => Action::Repl(u),
        Timer::Refill(d) => Action::Refill(d),
    }
}

/// The first replenishment or refill that may come at t: none does before the end of the stall of the lowest processor.
pub(crate) fn first_timer<P: Policy>(cores: &CoreState, policy: &P, t: Moment) -> Option<Action>
    ensures { (g : ℕ) → (guests : GuestsSeen) →
        AreOn (pool_of guests cores.now (P.seen policy.now)) →
        IsFirstIn 7 9 g t.0 (pool_of guests cores.now (P.seen policy.now)) result }
{
    match policy.timer_due(t) {
        None => None,
        Some((at, timer)) => if at.0 <= t.0 && has_come(t, cores.lowest_end()) {
            Some(action_of(timer))
        } else {
            None
        },
    }
}

/// The first event that may come at t, of those that come at a moment of their own: wakes, blocks, slices and timers.
fn first_due<P: Policy>(guests: &Guests, cores: &CoreState, policy: &P, t: Moment) -> Option<Action>
    requires same { cores.now.granularity ≡ guests.now.granularity }
    requires works { AreWorks guests.now.granularity cores.now.works
        (pool_of guests.now cores.now (P.seen policy.now)) }
    requires on { AreOn (pool_of guests.now cores.now (P.seen policy.now)) }
    ensures { IsFirstIn 4 9 guests.now.granularity t.0
        (pool_of guests.now cores.now (P.seen policy.now)) result }
{
    if let Some(v) = guests.first_wake(t) {
        return Some(Action::Wake(v));
    }
    if let Some(p) = cores.first_block(t) {
        return Some(Action::Block(p));
    }
    if let Some(r) = cores.first_slice(t) {
        return Some(Action::Slice(r));
    }
    first_timer(cores, policy, t)
}

/// The first event that may come at t, of those by which a core decides anew: arrivals, decisions, leaves and saves.
fn first_step(cores: &CoreState, t: Moment) -> Option<Action>
    ensures { (guests : GuestsSeen) → (s : SchedulerSeen) →
        IsFirstIn 9 13 cores.now.granularity t.0 (pool_of guests cores.now s) result }
{
    if let Some(p) = cores.first_arrive(t) {
        return Some(Action::Arrive(p));
    }
    if let Some(r) = cores.first_decide(t) {
        return Some(Action::Decide(r));
    }
    if let Some(p) = cores.first_leave(t) {
        return Some(Action::Leave(p));
    }
    if let Some(r) = cores.first_save(t) {
        return Some(Action::Save(r));
    }
    None
}

/// The first event of the pool that may come at t, by kind, then by number and index. `None` where none may.
pub fn first_enabled<P: Policy>(
    guests: &Guests,
    cores: &CoreState,
    policy: &P,
    t: Moment,
) -> Option<Action>
    requires same { cores.now.granularity ≡ guests.now.granularity }
    requires works { AreWorks guests.now.granularity cores.now.works
        (pool_of guests.now cores.now (P.seen policy.now)) }
    requires on { AreOn (pool_of guests.now cores.now (P.seen policy.now)) }
    ensures { IsFirstEnabled guests.now.granularity t.0
        (pool_of guests.now cores.now (P.seen policy.now)) result }
{
    match first_due(guests, cores, policy, t) {
        Some(action) => Some(action),
        None => first_step(cores, t),
    }
}

/// The least moment at which a timer of the scheduler may come: none does before the end of the stall of the lowest processor.
fn next_timer<P: Policy>(cores: &CoreState, policy: &P) -> Option<Moment>
    ensures { (g : ℕ) → (guests : GuestsSeen) →
        AreOn (pool_of guests cores.now (P.seen policy.now)) →
        IsLeast (λ timer. ready_in g (pool_of guests cores.now (P.seen policy.now))
        (timer_action timer)) result }
{
    let (at, _) = policy.timer_due(Moment(0))?;
    let end = cores.lowest_end()?;
    Some(Moment(at.0.max(end.0)))
}

/// The least moment at which an event of the pool may come. `None` where none may ever, while nothing else happens.
pub fn next_moment<P: Policy>(guests: &Guests, cores: &CoreState, policy: &P) -> Option<Moment>
    requires same { cores.now.granularity ≡ guests.now.granularity }
    requires works { AreWorks guests.now.granularity cores.now.works
        (pool_of guests.now cores.now (P.seen policy.now)) }
    requires on { AreOn (pool_of guests.now cores.now (P.seen policy.now)) }
    ensures { IsNextMoment guests.now.granularity (pool_of guests.now cores.now (P.seen policy.now))
        result }
{
    let of_cores = earlier(cores.least(), next_timer(cores, policy));
    earlier(guests.next_wake(), of_cores)
}
