//! Credit2: whether cap and rate limit let a unit run, the resets that its choice calls for, and how long it runs. Moments and spans are in nanoseconds.

ghost use Rattle.std.specs.Prelude.{◌≡◌, ◌≤◌, ◌-ℤ◌};
ghost use Rattle.sched_base.specs.Credit2Numbers.{slice_length, positive_part};
ghost use Rattle.sched_model.specs.EligibleUnits.{has_cap_budget};
ghost use Rattle.sched_model.specs.Credit2.{has_domain_budget, is_rate_limited, reset_count};
ghost use Rattle.scheduler_records.specs.Bounds.{ParamsFit};
ghost use Rattle.scheduler_records.specs.Slices.{capped_slice};

use crate::credit2_running::credit_of;
use crate::credit2_units::{above_zero, unit_at};
use credit2_reset::resets;
use sched_base::{Moment, UnitId};
use sched_model::places::item_at;
use sched_model::state::{Credit2Domain, Credit2Records};

/// Whether the cap lets the domain run.
pub fn has_budget(d: &Credit2Domain) -> bool
    ensures { result ≡ has_cap_budget d.now }
{
    d.cap == 0 || d.budget > 0
}

/// Whether the cap lets the unit's domain run.
pub fn domain_has_budget(records: &Credit2Records, u: UnitId) -> bool
    ensures { result ≡ has_domain_budget records.now u }
{
    match item_at(records.domains.as_slice(), u.dom.0 as usize) {
        None => false,
        Some(d) => has_budget(d),
    }
}

/// Whether a unit that runs since a moment has run for less than the rate limit at t.
pub fn is_within_limit(records: &Credit2Records, since: Moment, t: Moment) -> bool
    ensures { result ≡ is_rate_limited records.now since.0 t.0 }
{
    t.0.saturating_sub(since.0) < records.limit as u64 * 1000
}

/// How many resets the choice calls for: none where its credit is above 0, or the pool had a reset at this moment.
pub fn resets_for(t: Moment, u: UnitId, records: &Credit2Records) -> u64
    ensures exact { result ≡ reset_count t.0 u records.now }
    ensures few { result ≤ 1000000000000 }
{
    let credit = credit_of(records, u);
    let had = match records.last_reset {
        None => false,
        Some(at) => at == t.0,
    };
    if credit > 0 || had { 0 } else { resets(credit) }
}

/// How far a credit is above another, and 0 where it is not.
fn ahead(credit: i64, other: i64) -> u64
    ensures { result ≡ positive_part (credit -ℤ other) }
{
    if credit > other {
        (credit as i128 - other as i128) as u64
    } else {
        0
    }
}

/// How long a unit runs that has so much credit, where the best of the others has so much, and the rate limit is limit.
fn slice(credit: i64, other: i64, weight: u32, most: u32, limit: u64) -> u64
    requires some_weight { 1 ≤ most }
    requires short { limit ≤ 500000000 }
    ensures exact { result ≡ slice_length credit other weight most limit }
    ensures few { result ≤ 500000000 }
{
    let long = ahead(credit, other) as u128 * weight as u128 / most as u128;
    let least = 500_000u64.max(limit);
    let greatest = 10_000_000u64.max(limit);
    long.max(least as u128).min(greatest as u128) as u64
}

/// How long the unit with this index of the domain runs; under a cap for no longer than the budget that it holds.
pub fn slice_in(d: &Credit2Domain, index: u8, other: i64, most: u32, limit: u64) -> u64
    requires params { ParamsFit most d.now }
    requires short { limit ≤ 500000000 }
    ensures exact { result ≡ capped_slice d.now index other most limit }
    ensures few { result ≤ 500000000 }
{
    match unit_at(d.units.as_slice(), index) {
        None => 0,
        Some(x) => {
            let long = slice(x.credit, other, d.weight, most, limit);
            if d.cap == 0 {
                long
            } else {
                long.min(above_zero(x.held))
            }
        }
    }
}
