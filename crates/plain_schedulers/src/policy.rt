//! What a scheduler decides for its pool, by a scan of the waiting units.

ghost use Rattle.sched_model.specs.CheckedMachine.{most_span};
ghost use Rattle.std.specs.Prelude.{◌≡◌, ◌<◌, ◌≤◌, ◌&&◌};
ghost use Rattle.std.specs.List.{list_any};
ghost use Rattle.sched_model.specs.EligibleUnits.{may_have_core, is_unit_eligible};
ghost use Rattle.sched_model.specs.Policy.{decision_by, decision_of, after_decision, is_unit_better, has_better_waiting, records_after_replenish, records_after_refill};
ghost use Rattle.scheduler_records.specs.Fits.{RecordsFit};
ghost use Rattle.plain_schedulers.specs.Tells.{Tells};
ghost use Rattle.scheduler_records.specs.Parts.{scheduler_of};

use crate::decided::Decided;
use crate::{arinc, credit2, null, rtds};
use sched_base::{Cores, DomId, Moment, ResId, UnitId};
use sched_model::ask::Ask;
use sched_model::config::Pins;
use sched_model::state::{Records, Scheduler};
use sched_model::units::is_same;
use scheduler_records::credit2_running::refill as refill_domain;
use scheduler_records::eligible::is_allowed;
use scheduler_records::null::passes as null_passes;
use scheduler_records::queue::drop_unit;
use scheduler_records::rtds::{replenish as replenish_unit, unit_before};

/// Whether the scheduler's own rule lets the unit have a core at t.
fn passes(scheduler: &Scheduler, home: Cores, core: ResId, t: Moment, u: UnitId) -> bool
    requires records { RecordsFit t.0 scheduler.now.records }
    requires early { t.0 ≤ most_span }
    requires core { core.0 < 64 }
    ensures { result ≡ may_have_core scheduler.now.records scheduler.now home.0 core.0 t.0 u }
{
    match &scheduler.records {
        Records::Credit2Pool(records) => credit2::passes(records, u),
        Records::RtdsPool(domains) => rtds::passes(domains.as_slice(), u),
        Records::ArincPool(records) => arinc::passes(records, t, u),
        Records::NullPool(kept) => {
            null_passes(
                kept.as_slice(),
                scheduler.affinity.as_slice(),
                home,
                core,
                u,
            )
        }
    }
}

/// Whether a waiting unit is eligible for the core.
fn is_eligible(scheduler: &Scheduler, home: Cores, core: ResId, t: Moment, u: UnitId) -> bool
    requires records { RecordsFit t.0 scheduler.now.records }
    requires early { t.0 ≤ most_span }
    requires core { core.0 < 64 }
    ensures { result ≡ is_unit_eligible scheduler.now home.0 core.0 t.0 u }
{
    is_allowed(scheduler.affinity.as_slice(), home, core, u) && passes(scheduler, home, core, t, u)
}

/// Whether the unit is better than the core's own.
fn is_better(scheduler: &Scheduler, cur: UnitId, since: Moment, t: Moment, u: UnitId) -> bool
    requires records { RecordsFit t.0 scheduler.now.records }
    requires early { t.0 ≤ most_span }
    ensures { result ≡ is_unit_better scheduler.now.records cur since.0 t.0 u }
{
    match &scheduler.records {
        Records::Credit2Pool(records) => credit2::is_better(records, cur, since, t, u),
        Records::RtdsPool(domains) => unit_before(domains.as_slice(), u, cur),
        Records::ArincPool(_) => !is_same(u, cur),
        Records::NullPool(_) => false,
    }
}

/// Whether some unit waits that is eligible for the core.
fn some_waits(scheduler: &Scheduler, home: Cores, core: ResId, t: Moment) -> bool
    requires records { RecordsFit t.0 scheduler.now.records }
    requires early { t.0 ≤ most_span }
    requires core { core.0 < 64 }
    ensures { result ≡ list_any (is_unit_eligible scheduler.now home.0 core.0 t.0)
        scheduler.now.queue }
{
    let waiting = scheduler.queue.as_slice();
    waiting
        .iter()
        .any(|u| is_eligible(scheduler, home, core, t, *u))
}

/// Whether some unit waits that is eligible for the core and better than its own.
fn some_better_waits(
    scheduler: &Scheduler,
    own: UnitId,
    since: Moment,
    t: Moment,
    core: ResId,
    home: Cores,
) -> bool
    requires records { RecordsFit t.0 scheduler.now.records }
    requires early { t.0 ≤ most_span }
    requires core { core.0 < 64 }
    ensures { result ≡ list_any (λ u. is_unit_eligible scheduler.now home.0 core.0 t.0 u
        && is_unit_better scheduler.now.records own since.0 t.0 u) scheduler.now.queue }
{
    let waiting = scheduler.queue.as_slice();
    waiting.iter().any(|u| {
        is_eligible(scheduler, home, core, t, *u) && is_better(scheduler, own, since, t, *u)
    })
}

/// Whether the core is to decide anew: a unit waits for it while it has none, or its own is not allowed, or a better one waits.
pub fn better_waits(
    cur: Option<UnitId>,
    since: Moment,
    t: Moment,
    core: ResId,
    home: Cores,
    scheduler: &Scheduler,
) -> bool
    requires records { RecordsFit t.0 scheduler.now.records }
    requires early { t.0 ≤ most_span }
    requires core { core.0 < 64 }
    ensures { result ≡ has_better_waiting cur since.0 t.0 core.0 home.0 scheduler.now }
{
    match cur {
        None => some_waits(scheduler, home, core, t),
        Some(own) => {
            !is_allowed(scheduler.affinity.as_slice(), home, core, own)
                || some_better_waits(scheduler, own, since, t, core, home)
        }
    }
}

/// The scheduler of these parts decides for a core.
fn decide_by(
    queue: &[UnitId],
    affinity: &[Option<Pins>],
    records: &mut Records,
    ask: &Ask,
) -> Decided
    requires records { RecordsFit ask.now.at.0 records.old }
    requires early { ask.now.at.0 ≤ most_span }
    requires core { ask.now.core.0 < 64 }
    ensures decided { Tells result (decision_by records.old ask.now
        (scheduler_of queue.now affinity.now records.old)) }
    ensures records { records.new ≡ (decision_by records.old ask.now
        (scheduler_of queue.now affinity.now records.old)).records }
{
    match records {
        Records::Credit2Pool(records) => credit2::choose(records, queue, affinity, ask),
        Records::RtdsPool(domains) => rtds::choose(domains, queue, affinity, ask),
        Records::ArincPool(records) => arinc::choose(records, queue, affinity, ask),
        Records::NullPool(kept) => null::choose(kept, queue, affinity, ask),
    }
}

/// The scheduler decides for a core; the chosen unit leaves the queue.
pub fn decide(scheduler: &mut Scheduler, ask: &Ask) -> Decided
    requires records { RecordsFit ask.now.at.0 scheduler.old.records }
    requires early { ask.now.at.0 ≤ most_span }
    requires core { ask.now.core.0 < 64 }
    ensures decided { Tells result (decision_of ask.now scheduler.old) }
    ensures scheduler { scheduler.new ≡ after_decision (decision_of ask.now scheduler.old)
        scheduler.old }
{
    let decided = decide_by(
        scheduler.queue.as_slice(),
        scheduler.affinity.as_slice(),
        &mut scheduler.records,
        ask,
    );
    if let Some(u) = decided.unit {
        drop_unit(&mut scheduler.queue, u);
    }
    decided
}

/// The unit is replenished at t.
pub fn replenish(records: &mut Records, t: Moment, u: UnitId)
    requires records { RecordsFit t.0 records.old }
    requires early { t.0 ≤ most_span }
    ensures { records.new ≡ records_after_replenish records.old t.0 u }
{
    match records {
        Records::RtdsPool(domains) => replenish_unit(t, u, domains),
        _ => {}
    }
}

/// The domain is refilled at t.
pub fn refill(records: &mut Records, t: Moment, d: DomId)
    requires records { RecordsFit t.0 records.old }
    requires early { t.0 ≤ most_span }
    ensures { records.new ≡ records_after_refill records.old t.0 d.0 }
{
    match records {
        Records::Credit2Pool(records) => refill_domain(t, d, records),
        _ => {}
    }
}
