//! Credit2: the parameters of a domain, and a domain that joins. Moments and budgets are in nanoseconds.

ghost use Rattle.std.specs.Prelude.{◌≡◌, ◌≤◌, map};
ghost use Rattle.std.specs.Option.{ForSome};
ghost use Rattle.sched_model.specs.Credit2.{domain_with_weight, domain_with_cap, first_refill_moment, fresh_credit2_domain, records_with_terms, change_domain};
ghost use Rattle.sched_model.specs.CheckedMachine.{IsWithin, most_span};
ghost use Rattle.sched_laws.specs.EachPlace.{EachPlace};
ghost use Rattle.scheduler_records.specs.Fits.{Credit2Fits};
ghost use Rattle.scheduler_records.specs.Bounds.{DomainFits, unit_cut_to, unit_without_held};

use crate::credit2_domain::{REFILL_SPAN, burn_units};
use crate::credit2_running::max_weight;
use credit2_cap::total;
use sched_base::{DomId, Moment};
use sched_model::short::Short;
use sched_model::state::{Credit2Domain, Credit2Records, Credit2Unit};

/// The credit of a unit that joins.
const START_CREDIT: i64 = 10_000_000;

/// What is left of the unit's charge, cut to a new weight.
fn cut_unit(weight: u32, u: Credit2Unit) -> Credit2Unit
    requires { 1 ≤ weight }
    ensures { result ≡ unit_cut_to weight u }
{
    Credit2Unit {
        residual: u.residual % weight,
        ..u
    }
}

/// What is left of each unit's charge, cut to a new weight.
fn cut_units(weight: u32, d: &mut Credit2Domain)
    requires { 1 ≤ weight }
    ensures { d.new ≡ record d.old { units = map (unit_cut_to weight) d.old.units } }
{
    let mut cut = Short::new();
    for u in d.units.as_slice() {
        cut.push(cut_unit(weight, *u));
    }
    d.units = cut;
}

/// The domain with a new weight, if one is given.
fn set_weight(weight: Option<u32>, d: &mut Credit2Domain)
    requires { ForSome weight (λ w. 1 ≤ w) }
    ensures { d.new ≡ domain_with_weight weight d.old }
{
    if let Some(weight) = weight {
        d.weight = weight;
        cut_units(weight, d);
    }
}

/// A unit that holds nothing where it runs.
fn emptied_unit(u: Credit2Unit) -> Credit2Unit
    ensures { result ≡ unit_without_held u }
{
    Credit2Unit {
        held: if u.burned.is_some() { 0 } else { u.held },
        ..u
    }
}

/// The running units hold nothing.
fn empty_units(d: &mut Credit2Domain)
    ensures { d.new ≡ record d.old { units = map unit_without_held d.old.units } }
{
    let mut left = Short::new();
    for u in d.units.as_slice() {
        left.push(emptied_unit(*u));
    }
    d.units = left;
}

/// The first refill after t, where the domain is capped.
fn first_refill(cap: u32, t: Moment) -> Option<u64>
    requires { t.0 ≤ most_span }
    ensures { result ≡ first_refill_moment cap t.0 }
{
    if cap == 0 {
        None
    } else {
        Some(t.0 + REFILL_SPAN)
    }
}

/// The domain with a new cap, if one is given: its running units are charged and hold nothing, and its budget is that of the cap.
fn set_cap(most: u32, t: Moment, cap: Option<u32>, d: &mut Credit2Domain)
    requires early { t.0 ≤ most_span }
    requires fits { DomainFits most t.0 d.old }
    requires cap { ForSome cap (λ c. c ≤ 6400) }
    ensures { d.new ≡ domain_with_cap most t.0 cap d.old }
{
    if let Some(cap) = cap {
        burn_units(most, t, d);
        empty_units(d);
        d.cap = cap;
        d.budget = total(cap);
        d.refill = first_refill(cap, t);
    }
}

/// The pool after the domain's weight is set, if one is given.
fn set_weight_of(d: DomId, weight: Option<u32>, records: &mut Credit2Records)
    requires { ForSome weight (λ w. 1 ≤ w) }
    ensures { records.new ≡ change_domain d.0 (domain_with_weight weight) records.old }
{
    if let Some(place) = records.domains.get_mut(d.0 as usize)
        && let Some(domain) = place
    {
        set_weight(weight, domain);
    }
}

/// The pool after the domain's cap is set, if one is given. The greatest weight of the pool is most.
fn set_cap_of(most: u32, t: Moment, d: DomId, cap: Option<u32>, records: &mut Credit2Records)
    requires early { t.0 ≤ most_span }
    requires fits { EachPlace (DomainFits most t.0) records.old.domains }
    requires cap { ForSome cap (λ c. c ≤ 6400) }
    ensures { records.new ≡ change_domain d.0 (domain_with_cap most t.0 cap) records.old }
{
    if let Some(place) = records.domains.get_mut(d.0 as usize)
        && let Some(domain) = place
    {
        set_cap(most, t, cap, domain);
    }
}

/// The pool at t after the domain's weight is set, and then its cap, where they are given: the weight 1 to 65535, the cap in
/// percent of one core, at most 6400 (0 for none).
pub fn set_domain(
    t: Moment,
    d: DomId,
    weight: Option<u32>,
    cap: Option<u32>,
    records: &mut Credit2Records,
)
    requires early { t.0 ≤ most_span }
    requires fits { Credit2Fits t.0 records.old }
    requires weight { ForSome weight (IsWithin 1 65535) }
    requires cap { ForSome cap (λ c. c ≤ 6400) }
    ensures { records.new ≡ records_with_terms t.0 d.0 weight cap records.old }
{
    set_weight_of(d, weight, records);
    let most = max_weight(records);
    set_cap_of(most, t, d, cap, records);
}

/// A domain with so many units that joins at t. The cap is in percent of one core, at most 6400 (0 for none).
pub fn fresh_domain(weight: u32, cap: u32, count: u8, t: Moment) -> Credit2Domain
    requires early { t.0 ≤ most_span }
    requires cap { cap ≤ 6400 }
    requires few { count ≤ 32 }
    ensures { result ≡ fresh_credit2_domain weight cap count t.0 }
{
    let mut units = Short::new();
    for _ in 0..count {
        units.push(Credit2Unit {
            credit: START_CREDIT,
            residual: 0,
            held: 0,
            burned: None,
        });
    }
    Credit2Domain {
        weight,
        cap,
        budget: total(cap),
        refill: first_refill(cap, t),
        units,
    }
}
