//! The refills of capped domains. Moments are in nanoseconds.

ghost use Rattle.std.specs.Prelude.{◌≡◌, ◌≤◌, ◌<◌, ◌+◌, length, true, Some, None};
ghost use Rattle.sched_model.specs.Places.{numbered_items};
ghost use Rattle.sched_ops.specs.declared.timer.Timer.TheVariants as timers;
ghost use Rattle.sched_ops.specs.Seen.{seen_at};
ghost use Rattle.sched_ops.specs.Conditions.{IsNow};
ghost use Rattle.sched_ops.specs.Timers.{next_scheduler_timer, is_due, timer_event, after_timer, first_due_timer, refills};
ghost use Rattle.credit2_core.specs.Credit2State.{IsSound, scheduler_in, seen_in};
ghost use Rattle.credit2_core.specs.Whole.{IsReadyIn};
ghost use Rattle.credit2_core.specs.Timing.{come_at, domain_periods, domain_budget};

use crate::domains::rearm;
use crate::run_queue::{Ready, follow};
use crate::state::Credit2State;
use sched_base::{DomId, Moment};
use sched_model::event::Event;
use sched_model::places::item_at;
use sched_model::state::{Credit2Domain, Credit2Records};
use sched_ops::Timer;
use scheduler_records::credit2_domain::periods;
use scheduler_records::credit2_running;

/// The moment of the domain's refill, where it has come at t.
fn come(place: &Option<Credit2Domain>, t: Moment) -> Option<u64>
    ensures { result ≡ come_at t.0 place.now }
{
    match place {
        None => None,
        Some(d) => match d.refill {
            None => None,
            Some(at) => if at <= t.0 { Some(at) } else { None },
        },
    }
}

/// The first refill, by domain, that has come at t. The first of the domains has this number.
fn first_due(first: u8, t: Moment, domains: &[Option<Credit2Domain>]) -> Option<(Moment, Timer)>
    requires { first + length domains.now ≤ 64 }
    ensures { result ≡ first_due_timer t.0 (refills (numbered_items first domains.now)) }
{
    match domains {
        [] => None,
        [place, rest @ ..] => match come(place, t) {
            Some(at) => Some((Moment(at), Timer::Refill(DomId(first)))),
            None => first_due(first + 1, t, rest),
        },
    }
}

/// The first refill, by domain, that has come at t; where there is none, the one of the least moment.
pub fn timer_due(state: &Credit2State, t: Moment) -> Option<(Moment, Timer)>
    requires { IsSound state.now }
    ensures { result ≡ next_scheduler_timer t.0 (scheduler_in state.now) }
{
    match state.refills.least() {
        None => None,
        Some((at, d)) => {
            if at.0 > t.0 {
                Some((at, Timer::Refill(DomId(d as u8))))
            } else {
                first_due(0, t, state.records.domains.as_slice())
            }
        }
    }
}

/// How many of the domain's periods have come at t since its refill was due.
fn periods_at(records: &Credit2Records, d: DomId, t: Moment) -> u64
    ensures { result ≡ domain_periods records.now d.0 t.0 }
{
    match item_at(records.domains.as_slice(), d.0 as usize) {
        None => 0,
        Some(domain) => periods(domain, t),
    }
}

/// The budget that is left to the domain.
fn budget_at(records: &Credit2Records, d: DomId) -> i64
    ensures { result ≡ domain_budget records.now d.0 }
{
    match item_at(records.domains.as_slice(), d.0 as usize) {
        None => 0,
        Some(domain) => domain.budget,
    }
}

/// The domain's refill, which has come at t: its budget is filled, and the next refill is armed.
pub fn refill(state: &mut Credit2State, ready: &mut Ready, d: DomId, t: Moment) -> Event
    requires sound { IsSound state.old }
    requires ready { IsReadyIn state.old ready.old }
    requires now { IsNow (seen_in state.old) t.0 }
    requires due { is_due t.0 (scheduler_in state.old) (timers.Refill d) ≡ true }
    ensures event { result ≡ timer_event t.0 (scheduler_in state.old) (timers.Refill d) }
    ensures after { seen_in state.new ≡ seen_at t.0
        (after_timer t.0 (scheduler_in state.old) (timers.Refill d)) (seen_in state.old) }
    ensures sound { IsSound state.new }
    ensures ready { IsReadyIn state.new ready.new }
{
    let periods = periods_at(&state.records, d, t);
    credit2_running::refill(t, d, &mut state.records);
    rearm(&mut state.refills, state.records.domains.as_slice(), d);
    state.latest = t.0;
    *ready = follow(state, *ready, d, true);
    Event::Refill {
        d,
        periods,
        budget: budget_at(&state.records, d),
    }
}
