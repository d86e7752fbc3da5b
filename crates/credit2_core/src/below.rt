//! Whether a unit that runs has come to have less credit than one that waits. Moments are in nanoseconds.

ghost use Rattle.sched_model.specs.CheckedMachine.{most_span};
ghost use Rattle.std.specs.Prelude.{◌≡◌, ◌≤◌, int_lt, pos, ◌≤ℤ◌};
ghost use Rattle.sched_base.specs.Credit2Numbers.{burned_credit};
ghost use Rattle.sched_model.specs.declared.state.Credit2Domain.{Credit2Domain as DomainRecord};
ghost use Rattle.sched_model.specs.Places.{change_item};
ghost use Rattle.sched_model.specs.Credit2.{most_weight, burned_unit, change_unit, unit_credit};
ghost use Rattle.scheduler_records.specs.Bounds.{DomainFits, PoolFits, UnitFits, credit_at};

use sched_base::{Moment, Span, UnitId};
use sched_model::places::item_at;
use sched_model::state::{Credit2Domain, Credit2Records, Credit2Unit};

/// Whether a credit is below another one once it is charged for a span. The charge falls short of the step below the other one, or does
/// not: it is compared with that step times the weight, and so nothing is divided.
#[inline(always)]
fn burns_below(
    credit: i64,
    residual: u32,
    weight: u32,
    most: u32,
    elapsed: Span,
    other: i64,
) -> bool
    requires some_weight { 1 ≤ weight }
    requires small { most ≤ 65535 }
    requires short { elapsed.0 ≤ most_span }
    requires high { credit ≤ℤ pos 10500000 }
    ensures { result ≡ int_lt (burned_credit credit residual weight most elapsed.0) other }
{
    if credit < other {
        return true;
    }
    let charge = elapsed.0 * most as u64 + residual as u64;
    let step = (credit as i128 - other as i128) as u64 + 1;
    step as u128 * weight as u128 <= charge as u128
}

/// Whether a unit of the weight, charged up to t where it runs, has less credit. The greatest weight of the pool is most.
#[inline(always)]
fn unit_below(most: u32, t: Moment, weight: u32, x: &Credit2Unit, credit: i64) -> bool
    requires early { t.0 ≤ most_span }
    requires some_weight { 1 ≤ weight }
    requires small { most ≤ 65535 }
    requires fits { UnitFits t.0 x.now }
    ensures { (d : DomainRecord) → d.weight ≡ weight → result
        ≡ int_lt (burned_unit most t.0 d x.now).credit credit }
{
    match x.burned {
        None => x.credit < credit,
        Some(from) => {
            let elapsed = Span(t.0 - from);
            burns_below(x.credit, x.residual, weight, most, elapsed, credit)
        }
    }
}

/// The same of the unit with this index of the domain, which has the credit 0 where there is none.
#[inline(always)]
fn below_in(most: u32, t: Moment, d: &Credit2Domain, index: u8, credit: i64) -> bool
    requires early { t.0 ≤ most_span }
    requires fits { DomainFits most t.0 d.now }
    ensures { result ≡ int_lt (credit_at (record d.now
        { units = change_item index (burned_unit most t.0 d.now) d.now.units }) index) credit }
{
    match d.units.as_slice().get(index as usize) {
        None => 0 < credit,
        Some(x) => unit_below(most, t, d.weight, x, credit),
    }
}

/// Whether the unit, charged up to t where it runs, has less credit, and 0 where there is no such unit. The greatest weight of the pool is
/// most.
#[inline(always)]
pub fn is_below(most: u32, records: &Credit2Records, t: Moment, u: UnitId, credit: i64) -> bool
    requires most { most ≡ most_weight records.now }
    requires early { t.0 ≤ most_span }
    requires fits { PoolFits t.0 records.now }
    ensures { result ≡ int_lt (unit_credit (change_unit u
        (burned_unit (most_weight records.now) t.0) records.now) u) credit }
{
    match item_at(records.domains.as_slice(), u.dom.0 as usize) {
        None => 0 < credit,
        Some(d) => below_in(most, t, d, u.n, credit),
    }
}
