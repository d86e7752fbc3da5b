//! A look at the cores of a pool: the best of the waiting units is found once, and each core is compared with it. Moments are in nanoseconds.

ghost use Rattle.sched_model.specs.CheckedMachine.{most_span};
ghost use Rattle.std.specs.Prelude.{◌≡◌, ◌<◌, ◌≤◌, ◌&&◌, is_some, not};
ghost use Rattle.std.specs.Option.{ForSome};
ghost use Rattle.sched_model.specs.declared.state.Records.TheVariants.{ArincPool};
ghost use Rattle.sched_model.specs.Credit2.{has_domain_budget};
ghost use Rattle.sched_model.specs.Rtds.{is_unit_before};
ghost use Rattle.sched_model.specs.Policy.{has_better_waiting};
ghost use Rattle.scheduler_records.specs.Fits.{IsFrame, RecordsFit};
ghost use Rattle.plain_pool.specs.Looks.{Finds, best_from, best_waiting, better, has_left, is_better_than, is_null, is_richer, most_of};
ghost use Rattle.plain_schedulers.specs.WaitingUnits.{HasCredit};

use plain_schedulers::credit2_choice::is_more;
use plain_schedulers::policy;
use plain_schedulers::queue::has_unit;
use sched_base::{Cores, Moment, ResId, UnitId};
use sched_model::state::{ArincRecords, Credit2Records, Records, RtdsUnits, Scheduler};
use sched_model::units::is_same;
use scheduler_records::arinc::present_window;
use scheduler_records::credit2_running::{burned_credit_by, credit_of, max_weight};
use scheduler_records::credit2_slice::{domain_has_budget, is_within_limit};
use scheduler_records::eligible::is_allowed;
use scheduler_records::rtds::{budget_left, unit_before};

/// What a look finds once: the best of the waiting units that may run, and the greatest weight of a Credit2 pool.
#[derive(Clone, Copy)]
pub struct BestWaiting {
    pub best: Option<UnitId>,
    pub most: u32,
}

/// The one of greatest credit, of the best so far, which has this credit, and the units whose domains may run; the first where they have as much.
fn richest(
    records: &Credit2Records,
    best: Option<UnitId>,
    most: i64,
    units: &[UnitId],
) -> Option<UnitId>
    requires { HasCredit records.now best most }
    ensures { result ≡ best_from (has_domain_budget records.now) (is_richer records.now) best
        units.now }
{
    let mut found = best;
    let mut credit = most;
    for u in units {
        let next = credit_of(records, *u);
        if is_more(found, credit, next) && domain_has_budget(records, *u) {
            found = Some(*u);
            credit = next;
        }
    }
    found
}

/// The one that runs first, of the best so far and a unit with budget left.
fn earlier(domains: &[Option<RtdsUnits>], best: Option<UnitId>, u: UnitId) -> Option<UnitId>
    ensures { result ≡ better (has_left domains.now) (is_unit_before domains.now) best u }
{
    let is_better = 0 < budget_left(domains, u)
        && match best {
            None => true,
            Some(b) => unit_before(domains, u, b),
        };
    if is_better { Some(u) } else { best }
}

/// The one that runs first, of the best so far and the units with budget left.
fn earliest(domains: &[Option<RtdsUnits>], best: Option<UnitId>, units: &[UnitId]) -> Option<UnitId>
    ensures { result ≡ best_from (has_left domains.now) (is_unit_before domains.now) best
        units.now }
{
    let mut found = best;
    for u in units {
        found = earlier(domains, found, *u);
    }
    found
}

/// The unit of the present window, where it waits.
fn window_unit(records: &ArincRecords, t: Moment, queue: &[UnitId]) -> Option<UnitId>
    requires frame { ForSome records.now.frame IsFrame }
    requires early { t.0 ≤ most_span }
    ensures { result ≡ best_waiting (ArincPool records.now) t.0 queue.now }
{
    let window = present_window(records, t)?;
    let u = window.unit?;
    if has_unit(queue, u) { Some(u) } else { None }
}

/// What a look at t finds once.
pub fn look_of(scheduler: &Scheduler, t: Moment) -> BestWaiting
    requires records { RecordsFit t.0 scheduler.now.records }
    requires early { t.0 ≤ most_span }
    ensures { Finds result t.0 scheduler.now }
{
    let queue = scheduler.queue.as_slice();
    match &scheduler.records {
        Records::Credit2Pool(records) => BestWaiting {
            best: richest(records, None, 0, queue),
            most: max_weight(records),
        },
        Records::RtdsPool(domains) => BestWaiting {
            best: earliest(domains.as_slice(), None, queue),
            most: 0,
        },
        Records::ArincPool(records) => BestWaiting {
            best: window_unit(records, t, queue),
            most: 0,
        },
        Records::NullPool(_) => BestWaiting {
            best: None,
            most: 0,
        },
    }
}

/// Whether the best unit is better than the core's own, which is any where it has none. The greatest weight of a Credit2 pool is most.
fn is_best_better(
    scheduler: &Scheduler,
    most: u32,
    cur: Option<UnitId>,
    since: Moment,
    t: Moment,
    best: UnitId,
) -> bool
    requires records { RecordsFit t.0 scheduler.now.records }
    requires early { t.0 ≤ most_span }
    requires most { most ≡ most_of scheduler.now.records }
    ensures { result ≡ is_better_than scheduler.now.records cur since.0 t.0 best }
{
    match cur {
        None => true,
        Some(own) => match &scheduler.records {
            Records::Credit2Pool(records) => {
                !is_within_limit(records, since, t)
                    && burned_credit_by(most, records, t, own) < credit_of(records, best)
            }
            Records::RtdsPool(domains) => unit_before(domains.as_slice(), best, own),
            Records::ArincPool(_) => !is_same(best, own),
            Records::NullPool(_) => false,
        },
    }
}

/// Whether it hangs on the core which of the waiting units may run: it has none, in a null pool.
fn hangs_on_core(scheduler: &Scheduler, cur: Option<UnitId>) -> bool
    ensures { result ≡ (is_null scheduler.now.records && not (is_some cur)) }
{
    match &scheduler.records {
        Records::NullPool(_) => cur.is_none(),
        _ => false,
    }
}

/// Whether the core is to decide anew: a unit waits for it while it has none, or its own is not allowed, or a better one waits.
pub fn better_waits(
    look: &BestWaiting,
    cur: Option<UnitId>,
    since: Moment,
    t: Moment,
    core: ResId,
    home: Cores,
    scheduler: &Scheduler,
) -> bool
    requires look { Finds look.now t.0 scheduler.now }
    requires records { RecordsFit t.0 scheduler.now.records }
    requires early { t.0 ≤ most_span }
    requires core { core.0 < 64 }
    ensures { result ≡ has_better_waiting cur since.0 t.0 core.0 home.0 scheduler.now }
{
    match cur {
        Some(own) if !is_allowed(scheduler.affinity.as_slice(), home, core, own) => true,
        _ => match look.best {
            None => {
                hangs_on_core(scheduler, cur)
                    && policy::better_waits(cur, since, t, core, home, scheduler)
            }
            Some(best) => {
                is_best_better(scheduler, look.most, cur, since, t, best)
                    && (is_allowed(scheduler.affinity.as_slice(), home, core, best)
                        || policy::better_waits(cur, since, t, core, home, scheduler))
            }
        },
    }
}
