//! Credit2: changes of the records of a pool. Moments are in nanoseconds.

ghost use Rattle.sched_model.specs.CheckedMachine.{most_span};
ghost use Rattle.std.specs.Prelude.{◌≡◌, ◌≤◌, ℕ, map, fold, max, Some};
ghost use Rattle.sched_model.specs.declared.state.Credit2Domain.{Credit2Domain as DomainRecord};
ghost use Rattle.sched_model.specs.Places.{change_each, change_item, numbered_items};
ghost use Rattle.sched_model.specs.Credit2.{most_weight, burned_unit, change_unit, own_burned_records, reset_records, domain_after_take, change_domain, running_records, off_records, unit_credit, refilled_pool};
ghost use Rattle.scheduler_records.specs.Fits.{Credit2Fits};
ghost use Rattle.scheduler_records.specs.Bounds.{PoolFits, PoolParamsFit, DomainFits, reset_by, credit_at};
ghost use Rattle.sched_laws.specs.EachPlace.{EachPlace};

use crate::credit2_domain::{burn_own, refill_domain, reset_domain, take_budget};
use crate::credit2_units::{burn_unit, set_burned, unit_at};
use sched_base::{DomId, Moment, UnitId};
use sched_model::places::item_at;
use sched_model::row::Row;
use sched_model::state::{Credit2Domain, Credit2Records};

/// The greatest of a weight and those of the domains.
fn greatest_weight(most: u32, domains: &[Option<Credit2Domain>]) -> u32
    ensures { (n : ℕ) → result ≡ fold max most
        (map (λ (e : ℕ × DomainRecord). e.1.weight) (numbered_items n domains.now)) }
{
    match domains {
        [] => most,
        [None, rest @ ..] => greatest_weight(most, rest),
        [Some(d), rest @ ..] => greatest_weight(most.max(d.weight), rest),
    }
}

/// The greatest weight of the pool's domains.
pub fn max_weight(records: &Credit2Records) -> u32
    ensures { result ≡ most_weight records.now }
{
    greatest_weight(0, records.domains.as_slice())
}

/// The unit's credit, and 0 where there is no such unit.
pub fn credit_of(records: &Credit2Records, u: UnitId) -> i64
    ensures { result ≡ unit_credit records.now u }
{
    match item_at(records.domains.as_slice(), u.dom.0 as usize) {
        None => 0,
        Some(d) => credit_in(d, u.n),
    }
}

/// The credit of the unit with this index of the domain, and 0 where there is none.
fn credit_in(d: &Credit2Domain, index: u8) -> i64
    ensures { result ≡ credit_at d.now index }
{
    match d.units.as_slice().get(index as usize) {
        None => 0,
        Some(x) => x.credit,
    }
}

/// The credit of the unit with this index of the domain, charged up to t where it runs, and 0 where there is none.
fn burned_credit_in(most: u32, t: Moment, d: &Credit2Domain, index: u8) -> i64
    requires early { t.0 ≤ most_span }
    requires fits { DomainFits most t.0 d.now }
    ensures { result ≡ credit_at (record d.now
        { units = change_item index (burned_unit most t.0 d.now) d.now.units }) index }
{
    match unit_at(d.units.as_slice(), index) {
        None => 0,
        Some(x) => burn_unit(most, t, d, x).credit,
    }
}

/// The unit's credit, charged up to t where it runs, and 0 where there is no such unit.
pub fn burned_credit_of(records: &Credit2Records, t: Moment, u: UnitId) -> i64
    requires early { t.0 ≤ most_span }
    requires fits { PoolFits t.0 records.now }
    ensures { result ≡ unit_credit (change_unit u
        (burned_unit (most_weight records.now) t.0) records.now) u }
{
    burned_credit_by(max_weight(records), records, t, u)
}

/// As `burned_credit_of`, where the greatest weight of the pool is known.
pub fn burned_credit_by(most: u32, records: &Credit2Records, t: Moment, u: UnitId) -> i64
    requires most { most ≡ most_weight records.now }
    requires early { t.0 ≤ most_span }
    requires fits { PoolFits t.0 records.now }
    ensures { result ≡ unit_credit (change_unit u
        (burned_unit (most_weight records.now) t.0) records.now) u }
{
    match item_at(records.domains.as_slice(), u.dom.0 as usize) {
        None => 0,
        Some(d) => burned_credit_in(most, t, d, u.n),
    }
}

/// The core's own unit charged up to t, and its budget given back.
pub fn burn_cur(cur: Option<UnitId>, t: Moment, records: &mut Credit2Records)
    requires early { t.0 ≤ most_span }
    requires fits { Credit2Fits t.0 records.old }
    ensures { records.new ≡ own_burned_records cur t.0 records.old }
{
    if let Some(u) = cur {
        let most = max_weight(records);
        charge(most, u, t, records);
    }
}

/// The unit charged up to t, and its budget given back. The greatest weight of the pool is most.
pub fn charge(most: u32, u: UnitId, t: Moment, records: &mut Credit2Records)
    requires most { most ≡ most_weight records.old }
    requires early { t.0 ≤ most_span }
    requires fits { Credit2Fits t.0 records.old }
    ensures { records.new ≡ own_burned_records (Some u) t.0 records.old }
{
    if let Some(place) = records.domains.get_mut(u.dom.0 as usize)
        && let Some(d) = place
    {
        burn_own(most, t, u.n, d);
    }
}

/// The pool after so many resets at t.
pub fn reset(t: Moment, resets: u64, records: &mut Credit2Records)
    requires early { t.0 ≤ most_span }
    requires few { resets ≤ 1000000000000 }
    requires fits { PoolFits t.0 records.old }
    ensures { records.new ≡ reset_records t.0 resets records.old }
{
    if resets == 0 {
        return;
    }
    let most = max_weight(records);
    reset_all(most, t, resets, &mut records.domains);
    records.last_reset = Some(t.0);
}

/// Each domain after so many resets at t. The greatest weight is most.
fn reset_all(most: u32, t: Moment, resets: u64, domains: &mut Row<Option<Credit2Domain>>)
    requires early { t.0 ≤ most_span }
    requires few { resets ≤ 1000000000000 }
    requires fits { EachPlace (DomainFits most t.0) domains.old }
    ensures { domains.new ≡ change_each 0 (λ (n : ℕ). reset_by most t.0 resets) domains.old }
{
    for r in 0..domains.len() {
        if let Some(d) = domains.item_mut(r) {
            reset_domain(most, t, resets, d);
        }
    }
}

/// The chosen unit takes its budget from a capped domain.
pub fn take_at(u: UnitId, records: &mut Credit2Records)
    requires { PoolParamsFit records.old }
    ensures { records.new ≡ change_domain u.dom.0 (domain_after_take u.n) records.old }
{
    if let Some(place) = records.domains.get_mut(u.dom.0 as usize)
        && let Some(d) = place
    {
        take_budget(u.n, d);
    }
}

/// The unit runs from a moment, or runs no more.
pub fn set_running(from: Option<u64>, u: UnitId, records: &mut Credit2Records)
    ensures { records.new ≡ running_records from u records.old }
{
    if let Some(place) = records.domains.get_mut(u.dom.0 as usize)
        && let Some(d) = place
    {
        set_burned(d, u.n, from);
    }
}

/// The core's own unit runs no more.
pub fn switch_off(cur: Option<UnitId>, records: &mut Credit2Records)
    ensures { records.new ≡ off_records cur records.old }
{
    if let Some(u) = cur {
        set_running(None, u, records);
    }
}

/// The pool after a refill of the domain at t.
pub fn refill(t: Moment, d: DomId, records: &mut Credit2Records)
    requires early { t.0 ≤ most_span }
    requires fits { Credit2Fits t.0 records.old }
    ensures { records.new ≡ refilled_pool t.0 d.0 records.old }
{
    let most = max_weight(records);
    if let Some(place) = records.domains.get_mut(d.0 as usize)
        && let Some(domain) = place
    {
        refill_domain(most, t, domain);
    }
}
