//! Replenishments of RTDS units and refills of Credit2 domains.

ghost use Rattle.sched_model.specs.CheckedMachine.{most_span};
ghost use Rattle.std.specs.Prelude.{◌≡◌, ◌≤◌, IsTrue, Some, length, true};
ghost use Rattle.sched_model.specs.declared.action.Action.TheVariants.{Repl, Refill};
ghost use Rattle.sched_model.specs.declared.state.Resource.{Resource as ResourceRecord};
ghost use Rattle.sched_model.specs.Places.{first_place, is_unit};
ghost use Rattle.sched_model.specs.Policy.{records_after_replenish, is_replenish_due, unit_rtds_record};
ghost use Rattle.sched_model.specs.Pool.{enabled_in, after_in, event_in};
ghost use Rattle.scheduler_records.specs.Fits.{RecordsFit};
ghost use Rattle.pool_records.specs.Fits.{PoolFits};
ghost use Rattle.plain_pool.specs.Records.{budget_at, due_at_core, periods_at};

use plain_schedulers::policy::{refill as refill_records, replenish as replenish_records};
use plain_schedulers::records::{credit2_record, rtds_record};
use pool_records::changes::bring_due_at;
use pool_records::cores::core_of;
use sched_base::{DomId, Moment, Span, UnitId};
use sched_model::event::Event;
use sched_model::row::Row;
use sched_model::state::{Pool, Records, Resource, RtdsUnit};
use scheduler_records::credit2_domain::periods;

/// The same of the core that has the unit as its cur, if one has.
fn bring_due_of(u: UnitId, t: Moment, budget: u64, cores: &mut Row<Option<Resource>>)
    requires { length cores.old ≤ 64 }
    ensures { cores.new ≡ due_at_core (first_place 0 (λ (c : ResourceRecord). is_unit c.cur u)
        cores.old) t.0 budget cores.old }
{
    if let Some(r) = core_of(cores.as_slice(), u) {
        bring_due_at(r, t, budget, cores);
    }
}

/// The unit, whose deadline has come, is replenished: its record afterwards.
fn renew(t: Moment, u: UnitId, records: &mut Records) -> RtdsUnit
    requires due { is_replenish_due records.old t.0 u ≡ true }
    requires early { t.0 ≤ most_span }
    requires fits { RecordsFit t.0 records.old }
    ensures unit { Some result ≡ unit_rtds_record (records_after_replenish records.old t.0 u) u }
    ensures records { records.new ≡ records_after_replenish records.old t.0 u }
{
    replenish_records(records, t, u);
    match rtds_record(records, u) {
        None => unreachable!(),
        Some(x) => *x,
    }
}

/// The unit's deadline has come: it has its budget anew, and a core that runs it asks again when that is used up, if not before.
pub fn replenish(granularity: u8, t: Moment, u: UnitId, pool: &mut Pool) -> Event
    requires enabled { IsTrue (enabled_in granularity t.0 pool.old (Repl u)) }
    requires early { t.0 ≤ most_span }
    requires fits { PoolFits pool.old }
    requires records { RecordsFit t.0 pool.old.scheduler.records }
    ensures event { result ≡ event_in granularity t.0 pool.old (Repl u) }
    ensures pool { pool.new ≡ after_in granularity t.0 pool.old (Repl u) }
{
    let x = renew(t, u, &mut pool.scheduler.records);
    bring_due_of(u, t, x.budget, &mut pool.resources);
    Event::Repl {
        u,
        start: Moment(x.deadline.saturating_sub(x.period)),
        deadline: Moment(x.deadline),
        budget: Span(x.budget),
        extra: x.extra,
    }
}

/// How many of the domain's periods have come at t since its refill was due.
fn periods_of(t: Moment, d: DomId, pool: &Pool) -> u64
    ensures { result ≡ periods_at t.0 d.0 pool.now }
{
    match credit2_record(&pool.scheduler.records, d) {
        None => 0,
        Some(x) => periods(x, t),
    }
}

/// The budget that is left to the domain.
fn budget_of(d: DomId, pool: &Pool) -> i64
    ensures { result ≡ budget_at d.0 pool.now }
{
    match credit2_record(&pool.scheduler.records, d) {
        None => 0,
        Some(x) => x.budget,
    }
}

/// The domain's refill has come: its budget is filled.
pub fn refill(granularity: u8, t: Moment, d: DomId, pool: &mut Pool) -> Event
    requires early { t.0 ≤ most_span }
    requires records { RecordsFit t.0 pool.old.scheduler.records }
    ensures event { result ≡ event_in granularity t.0 pool.old (Refill d) }
    ensures pool { pool.new ≡ after_in granularity t.0 pool.old (Refill d) }
{
    let periods = periods_of(t, d, pool);
    refill_records(&mut pool.scheduler.records, t, d);
    Event::Refill {
        d,
        periods,
        budget: budget_of(d, pool),
    }
}
