//! Credit2: the record of one domain, with its units. Moments, spans and budgets are in nanoseconds.

ghost use Rattle.sched_model.specs.CheckedMachine.{most_span};
ghost use Rattle.std.specs.Prelude.{◌≡◌, ◌≤◌, ◌<◌, ◌+◌, ◌^◌, map, length, sum_by, Some, slice_get, FitsSigned, ◌+ℤ◌};
ghost use Rattle.sched_base.specs.Credit2Numbers.{raised_credit, taken_budget, budget_quota, cap_budget, budget_after_refill};
ghost use Rattle.sched_model.specs.declared.state.Credit2Unit.{Credit2Unit as UnitRecord};
ghost use Rattle.std.specs.Int.{w64};
ghost use Rattle.std.specs.Option.{IfSome};
ghost use Rattle.sched_model.specs.Places.{change_item};
ghost use Rattle.sched_model.specs.Credit2.{burned_unit, domain_after_return, burned_domain, domain_after_take, passed_periods, running_budget, domain_after_refill};
ghost use Rattle.sched_laws.specs.RecordRanges.{Credit2InRange};
ghost use Rattle.scheduler_records.specs.Bounds.{DomainFits, amount_held, own_charged, reset_by};

use crate::credit2_units::{above_zero, burn_unit, raise_unit, set_held, set_unit, unit_at};
use credit2_cap::{LEAST_QUOTA, quota, refill, take, total};
use sched_base::Moment;
use sched_model::short::Short;
use sched_model::state::{Credit2Domain, Credit2Unit};

/// The span between two refills.
pub const REFILL_SPAN: u64 = 10_000_000;

/// The running units of the domain charged up to t. The greatest weight of the pool is most.
pub fn burn_units(most: u32, t: Moment, d: &mut Credit2Domain)
    requires early { t.0 ≤ most_span }
    requires fits { DomainFits most t.0 d.old }
    ensures { d.new ≡ burned_domain most t.0 d.old }
{
    let mut burned = Short::new();
    for u in d.units.as_slice() {
        burned.push(burn_unit(most, t, d, *u));
    }
    d.units = burned;
}

/// Each unit of the domain after so many resets.
fn raise_units(resets: u64, d: &mut Credit2Domain)
    requires { resets ≤ 1000000000000 }
    ensures { d.new ≡ record d.old {
      units = map
          (λ (x : UnitRecord). record x { credit = raised_credit x.credit resets }) d.old.units;
    } }
{
    let mut raised = Short::new();
    for u in d.units.as_slice() {
        raised.push(raise_unit(resets, *u));
    }
    d.units = raised;
}

/// The domain after so many resets at t: its running units are charged, and then each unit's credit is raised.
pub fn reset_domain(most: u32, t: Moment, resets: u64, d: &mut Credit2Domain)
    requires early { t.0 ≤ most_span }
    requires few { resets ≤ 1000000000000 }
    requires fits { DomainFits most t.0 d.old }
    ensures { d.new ≡ reset_by most t.0 resets d.old }
{
    burn_units(most, t, d);
    raise_units(resets, d);
}

/// The unit with this index charged up to t where it runs.
fn burn_at(most: u32, t: Moment, index: u8, d: &mut Credit2Domain)
    requires early { t.0 ≤ most_span }
    requires fits { DomainFits most t.0 d.old }
    ensures { d.new ≡ record d.old {
      units = change_item index (burned_unit most t.0 d.old)
          d.old.units;
    } }
{
    if let Some(u) = unit_at(d.units.as_slice(), index) {
        let burned = burn_unit(most, t, d, u);
        set_unit(&mut d.units, index, burned);
    }
}

/// The budget that the unit with this index holds is given back to its domain.
fn give_back(index: u8, d: &mut Credit2Domain)
    requires room { (u : UnitRecord) → slice_get d.old.units index ≡ Some u →
        FitsSigned w64 (d.old.budget +ℤ u.held) }
    ensures { d.new ≡ domain_after_return index d.old }
{
    if let Some(u) = unit_at(d.units.as_slice(), index) {
        d.budget += u.held;
        set_held(&mut d.units, index, 0);
    }
}

/// The unit charged up to t; under a cap it gives back the budget that it holds.
pub fn burn_own(most: u32, t: Moment, index: u8, d: &mut Credit2Domain)
    requires early { t.0 ≤ most_span }
    requires fits { DomainFits most t.0 d.old }
    requires range { Credit2InRange t.0 d.old }
    ensures { d.new ≡ own_charged most t.0 index d.old }
{
    burn_at(most, t, index, d);
    if d.cap != 0 {
        give_back(index, d);
    }
}

/// What a chosen unit takes of the domain's budget.
fn share(d: &Credit2Domain) -> i64
    requires { d.now.cap ≤ 6400 }
    ensures { result ≡ taken_budget d.now.budget
        (budget_quota (cap_budget d.now.cap) (length d.now.units)) }
{
    let most = if d.units.is_empty() {
        LEAST_QUOTA
    } else {
        quota(total(d.cap), d.units.len() as u32)
    };
    take(d.budget, most)
}

/// The chosen unit takes its budget from a capped domain.
pub fn take_budget(index: u8, d: &mut Credit2Domain)
    requires { d.old.cap ≤ 6400 }
    ensures { d.new ≡ domain_after_take index d.old }
{
    if d.cap == 0 {
        return;
    }
    let taken = share(d);
    d.budget -= taken;
    set_held(&mut d.units, index, taken);
}

/// The periods that have come at t since the refill was due, and 0 where none is due.
pub fn periods(d: &Credit2Domain, t: Moment) -> u64
    ensures exact { result ≡ passed_periods d.now t.0 }
    ensures few { t.0 ≤ most_span → result ≤ 1000001 }
{
    match d.refill {
        None => 0,
        Some(due) => t.0.saturating_sub(due) / REFILL_SPAN + 1,
    }
}

/// What a unit holds while it runs.
fn held_of(u: Credit2Unit) -> u64
    ensures { result ≡ amount_held u }
{
    if u.burned.is_some() {
        above_zero(u.held)
    } else {
        0
    }
}

/// What the running units hold.
fn held_by_running(units: &[Credit2Unit]) -> u64
    requires { sum_by amount_held units.now < 2 ^ 63 }
    ensures { result ≡ sum_by amount_held units.now }
{
    units.iter().map(|u| held_of(*u)).sum()
}

/// The domain's budget after a refill for so many periods.
fn refilled_budget(periods: u64, d: &Credit2Domain) -> i64
    requires few { periods ≤ 1000001 }
    requires cap { d.now.cap ≤ 6400 }
    requires held { running_budget d.now < 2 ^ 63 }
    ensures { result ≡ budget_after_refill d.now.budget (running_budget d.now)
        (cap_budget d.now.cap) periods }
{
    let held = held_by_running(d.units.as_slice()) as i64;
    refill(d.budget, held, total(d.cap), periods)
}

/// The domain after a refill at t.
pub fn refill_domain(most: u32, t: Moment, d: &mut Credit2Domain)
    requires early { t.0 ≤ most_span }
    requires fits { DomainFits most t.0 d.old }
    requires few { length d.old.units ≤ 32 }
    requires near { IfSome d.old.refill (λ r. r ≤ t.0 + 10000000) }
    ensures { d.new ≡ domain_after_refill most t.0 d.old }
{
    let n = periods(d, t);
    burn_units(most, t, d);
    d.budget = refilled_budget(n, d);
    if let Some(due) = d.refill {
        d.refill = Some(due + n * REFILL_SPAN);
    }
}
