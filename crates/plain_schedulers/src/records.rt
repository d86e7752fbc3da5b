//! What a scheduler's records tell.

ghost use Rattle.std.specs.Prelude.{◌≡◌};
ghost use Rattle.std.specs.Option.{option_copied};
ghost use Rattle.sched_model.specs.Policy.{pool_rate_limit, is_replenish_due, next_refill_moment, unit_rtds_record, domain_credit2_record};
ghost use Rattle.sched_model.specs.Machine.{is_null_pool};

use rtds_replenish::due;
use sched_base::{DomId, Moment, UnitId};
use sched_model::places::item_at;
use sched_model::state::{Credit2Domain, Records, RtdsUnit};
use scheduler_records::rtds::rtds_unit;

/// Whether it is the null scheduler.
pub fn is_null(records: &Records) -> bool
    ensures { result ≡ is_null_pool records.now }
{
    match records {
        Records::NullPool(_) => true,
        _ => false,
    }
}

/// The pool's rate limit in microseconds, and 0 where its scheduler has none.
pub fn rate_of(records: &Records) -> u32
    ensures { result ≡ pool_rate_limit records.now }
{
    match records {
        Records::Credit2Pool(records) => records.limit,
        _ => 0,
    }
}

/// The unit's RTDS record.
pub fn rtds_record(records: &Records, u: UnitId) -> Option<&RtdsUnit>
    ensures { option_copied result ≡ unit_rtds_record records.now u }
{
    match records {
        Records::RtdsPool(domains) => rtds_unit(domains.as_slice(), u),
        _ => None,
    }
}

/// The domain's Credit2 record.
pub fn credit2_record(records: &Records, d: DomId) -> Option<&Credit2Domain>
    ensures { option_copied result ≡ domain_credit2_record records.now d.0 }
{
    match records {
        Records::Credit2Pool(records) => item_at(records.domains.as_slice(), d.0 as usize),
        _ => None,
    }
}

/// Whether the unit's deadline has come at t.
pub fn replenish_due(records: &Records, t: Moment, u: UnitId) -> bool
    ensures { result ≡ is_replenish_due records.now t.0 u }
{
    match rtds_record(records, u) {
        None => false,
        Some(unit) => due(unit, t),
    }
}

/// The moment of the domain's next refill.
pub fn next_refill(records: &Records, d: DomId) -> Option<Moment>
    ensures { result ≡ next_refill_moment records.now d.0 }
{
    match credit2_record(records, d) {
        None => None,
        Some(domain) => domain.refill.map(Moment),
    }
}
