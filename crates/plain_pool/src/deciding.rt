//! A core decides.

ghost use Rattle.sched_model.specs.CheckedMachine.{most_span};
ghost use Rattle.std.specs.Prelude.{◌≡◌, ◌≤◌, length, IsTrue};
ghost use Rattle.sched_model.specs.declared.action.Action.TheVariants.{Decide};
ghost use Rattle.sched_model.specs.Places.{change_at};
ghost use Rattle.sched_model.specs.Pool.{enabled_in, after_in, event_in, core_ask};
ghost use Rattle.scheduler_records.specs.Fits.{RecordsFit};
ghost use Rattle.plain_pool.specs.Decisions.{decided_by};
ghost use Rattle.pool_records.specs.Fits.{PoolFits};

use plain_schedulers::decided::Decided;
use plain_schedulers::policy::decide as decide_by_policy;
use pool_records::cores::{home_cores, lateness_of};
use pool_records::runnable::is_runnable;
use sched_base::{Cores, Moment, ResId};
use sched_model::ask::Ask;
use sched_model::event::Event;
use sched_model::places::item_at;
use sched_model::row::Row;
use sched_model::state::{Pool, Resource};
use sched_model::units::is_same_choice;
use sibling_meet::decided;

/// What the core asks its scheduler.
pub fn ask_of(granularity: u8, t: Moment, pool: &Pool, r: ResId, core: &Resource) -> Ask
    requires { length pool.now.resources ≤ 64 }
    ensures { result ≡ core_ask granularity t.0 pool.now r.0 core.now }
{
    let runnable = match core.cur {
        None => false,
        Some(u) => is_runnable(granularity, pool.domains.as_slice(), u),
    };
    Ask {
        cur: core.cur,
        runnable,
        since: core.since,
        leaving: core.leaving,
        at: t,
        core: r,
        home: Cores(home_cores(pool.resources.as_slice())),
    }
}

/// The core with what was decided.
fn set_decided(t: Moment, answer: Decided, core: &mut Resource)
    ensures { core.new ≡ decided_by t.0 answer core.old }
{
    if !is_same_choice(answer.unit, core.cur) {
        core.saving = core.cur;
        core.cur = answer.unit;
        core.since = t;
    }
    core.due = answer.due;
    core.pending = false;
    decided(core);
}

/// What was decided at the core with this number.
fn set_decided_at(t: Moment, r: ResId, answer: Decided, cores: &mut Row<Option<Resource>>)
    ensures { cores.new ≡ change_at r.0 (decided_by t.0 answer) cores.old }
{
    if let Some(place) = cores.get_mut(r.0 as usize)
        && let Some(c) = place
    {
        set_decided(t, answer, c);
    }
}

/// The core decides: its scheduler chooses, and its old unit, where it is another, is to be saved.
pub fn decide(granularity: u8, t: Moment, r: ResId, pool: &mut Pool) -> Event
    requires enabled { IsTrue (enabled_in granularity t.0 pool.old (Decide r)) }
    requires early { t.0 ≤ most_span }
    requires fits { PoolFits pool.old }
    requires records { RecordsFit t.0 pool.old.scheduler.records }
    ensures event { result ≡ event_in granularity t.0 pool.old (Decide r) }
    ensures pool { pool.new ≡ after_in granularity t.0 pool.old (Decide r) }
{
    let Some(c) = item_at(pool.resources.as_slice(), r.0 as usize) else {
        unreachable!();
    };
    let ask = ask_of(granularity, t, pool, r, c);
    let late = lateness_of(t, c);
    let answer = decide_by_policy(&mut pool.scheduler, &ask);
    set_decided_at(t, r, answer, &mut pool.resources);
    Event::Decide {
        r,
        unit: answer.unit,
        due: answer.due,
        late,
        reset: answer.reset,
    }
}
