//! What a core asks its scheduler, and the timers of a scheduler.

ghost use Rattle.std.specs.Prelude.{◌≡◌, true, false, None, Some};
ghost use Rattle.sched_model.specs.declared.action.Action.TheVariants.{Decide, Repl};
ghost use Rattle.sched_model.specs.State.{runnable_among};
ghost use Rattle.sched_model.specs.Pool.{after_in, event_in};
ghost use Rattle.settle_laws.specs.Frees.{is_decision_spared};
ghost use Rattle.sched_ops.specs.Conditions.{IsNow};
ghost use Rattle.sched_ops.specs.Timers.{is_due};
ghost use Rattle.sched_ops.specs.declared.timer.Timer.TheVariants as timers;
ghost use Rattle.unit_state.specs.Seen.{Seen as GuestsSeen};
ghost use Rattle.pool_core.specs.Events.{MayAct};
ghost use Rattle.pool_core.specs.Seen.{pool_of};

use core_state::CoreState;
use pool_records::cores::lateness_of;
use sched_base::{Cores, Moment, ResId, UnitId};
use sched_model::ask::Ask;
use sched_model::event::Event;
use sched_model::state::Resource;
use sched_ops::{Policy, Timer};
use unit_state::Guests;

/// What the core asks its scheduler at t, where these are the pool's cores.
fn ask_of(guests: &Guests, home: Cores, t: Moment, r: ResId, core: &Resource) -> Ask
    ensures { result ≡ record {
      cur = core.now.cur;
      runnable = elim core.now.cur
          [ None ↦ false | Some u ↦ runnable_among guests.now.granularity guests.now.domains u ];
      since = core.now.since;
      leaving = core.now.leaving;
      at = t;
      core = r;
      home = home;
    } }
{
    let runnable = match core.cur {
        None => false,
        Some(u) => guests.runnable(u),
    };
    Ask {
        cur: core.cur,
        runnable,
        since: core.since,
        leaving: core.leaving,
        at: t,
        core: r,
        home,
    }
}

/// Whether the decision of the core frees nothing.
pub fn frees_nothing<P: Policy>(cores: &CoreState, policy: &P, r: ResId) -> bool
    ensures { result ≡ is_decision_spared cores.now.resources r.0
        (P.seen policy.now).scheduler.records }
{
    match cores.core(r) {
        None => true,
        Some(c) => !policy.frees(c.cur, c.leaving),
    }
}

/// The core decides: its scheduler chooses, and its old unit, where it is another, is to be saved. The event is written in its place.
pub fn decide<P: Policy>(
    guests: &Guests,
    cores: &mut CoreState,
    policy: &mut P,
    r: ResId,
    t: Moment,
    out: &mut Event,
)
    requires now { IsNow (P.seen policy.old) t.0 }
    requires may { MayAct t.0 (Decide r) guests.now cores.old (P.seen policy.old) }
    ensures event { out.new ≡ event_in guests.now.granularity t.0
        (pool_of guests.now cores.old (P.seen policy.old)) (Decide r) }
    ensures pool { pool_of guests.now cores.new (P.seen policy.new)
        ≡ after_in guests.now.granularity t.0 (pool_of guests.now cores.old (P.seen policy.old))
        (Decide r) }
    ensures cores { cores.new ≡ record cores.old { resources = cores.new.resources } }
    ensures room { (P.seen policy.new).spare ≡ (P.seen policy.old).spare }
    ensures latest { (P.seen policy.new).latest ≡ t.0 }
{
    cores.keeps();
    let Some(c) = cores.core(r) else {
        unreachable!();
    };
    let ask = ask_of(guests, cores.home(), t, r, c);
    let late = lateness_of(t, c);
    let choice = policy.choose(&ask);
    cores.decide(r, t, choice.unit, choice.due);
    *out = Event::Decide {
        r,
        unit: choice.unit,
        due: choice.due,
        late,
        reset: choice.reset,
    };
}

/// The unit's deadline has come: it has its budget anew, and a core that runs it asks again when that is used up, if not before.
pub fn replenish<P: Policy>(cores: &mut CoreState, policy: &mut P, u: UnitId, t: Moment) -> Event
    requires now { IsNow (P.seen policy.old) t.0 }
    requires due { is_due t.0 (P.seen policy.old).scheduler (timers.Repl u) ≡ true }
    ensures event { (guests : GuestsSeen) → result ≡ event_in guests.granularity t.0
        (pool_of guests cores.old (P.seen policy.old)) (Repl u) }
    ensures pool { (guests : GuestsSeen) → pool_of guests cores.new (P.seen policy.new)
        ≡ after_in guests.granularity t.0 (pool_of guests cores.old (P.seen policy.old)) (Repl u) }
    ensures cores { cores.new ≡ record cores.old { resources = cores.new.resources } }
    ensures room { (P.seen policy.new).spare ≡ (P.seen policy.old).spare }
    ensures latest { (P.seen policy.new).latest ≡ t.0 }
{
    let event = policy.timer(Timer::Repl(u), t);
    if let Event::Repl { budget, .. } = event {
        if let Some(r) = cores.core_with(u) {
            cores.shorten_due(ResId(r), t, budget.0);
        }
    }
    event
}
