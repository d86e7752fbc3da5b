//! RTDS: changes of the records of a pool, and which of two units runs first. Moments and spans are in nanoseconds.

ghost use Rattle.sched_model.specs.CheckedMachine.{most_span};
ghost use Rattle.std.specs.Prelude.{◌≡◌, ◌+◌, ◌<◌, ◌≤◌, ◌^◌, []};
ghost use Rattle.std.specs.Option.{option_copied};
ghost use Rattle.sched_base.specs.declared.UnitId.{UnitId as UnitName};
ghost use Rattle.sched_model.specs.declared.state.RtdsUnit.{RtdsUnit as RtdsRecord};
ghost use Rattle.sched_model.specs.declared.state.Records.TheVariants.{RtdsPool};
ghost use Rattle.sched_model.specs.Places.{change_item};
ghost use Rattle.sched_model.specs.EligibleUnits.{rtds_unit_at};
ghost use Rattle.sched_model.specs.Rtds.{unit_burned_to, unit_after_replenish, change_unit, is_record_before, is_unit_before, unit_left_budget, rtds_candidate, own_burned_domains, running_domains, fresh_rtds_units};
ghost use Rattle.sched_laws.specs.RecordRanges.{RtdsInRange};
ghost use Rattle.scheduler_records.specs.Fits.{RtdsFits};
ghost use Rattle.scheduler_records.specs.Parts.{scheduler_of};
ghost use Rattle.scheduler_records.specs.Replenishments.{printed_event};

use crate::eligible::is_allowed;
use rtds_replenish::burn;
use sched_base::{Moment, Span, UnitId};
use sched_model::ask::Ask;
use sched_model::config::Pins;
use sched_model::event::Event;
use sched_model::places::item_at;
use sched_model::row::Row;
use sched_model::short::copies;
use sched_model::state::{RtdsUnit, RtdsUnits};

/// The unit's record.
pub fn rtds_unit(domains: &[Option<RtdsUnits>], u: UnitId) -> Option<&RtdsUnit>
    ensures { option_copied result ≡ rtds_unit_at domains.now u }
{
    match item_at(domains, u.dom.0 as usize) {
        None => None,
        Some(units) => units.as_slice().get(u.n as usize),
    }
}

/// What is printed of the unit's replenishment; zeros where there is no such unit.
pub fn replenishment(u: UnitId, unit: Option<RtdsUnit>) -> Event
    ensures { result ≡ printed_event u unit }
{
    match unit {
        None => Event::Repl {
            u,
            start: Moment(0),
            deadline: Moment(0),
            budget: Span(0),
            extra: false,
        },
        Some(x) => Event::Repl {
            u,
            start: Moment(x.deadline.saturating_sub(x.period)),
            deadline: Moment(x.deadline),
            budget: Span(x.budget),
            extra: x.extra,
        },
    }
}

/// The records of the units of a domain that joins at t.
pub fn fresh_units(period: Span, budget: Span, extra: bool, count: u8, t: Moment) -> RtdsUnits
    requires count { count ≤ 32 }
    requires period { period.0 ≤ 1000000000000 }
    requires early { t.0 ≤ most_span }
    ensures { result ≡ fresh_rtds_units period.0 budget.0 extra count t.0 }
{
    let unit = RtdsUnit {
        period: period.0,
        budget: budget.0,
        extra,
        next_period: period.0,
        next_budget: budget.0,
        next_extra: extra,
        deadline: t.0 + period.0,
        left: budget.0,
        level: 0,
        burned: None,
    };
    copies(unit, count)
}

/// The record at this place of the domain's units.
#[tactic(auto, using(sched_model::proofs::PlaceLemmas::past_the_end))]
fn put_item(index: u8, unit: RtdsUnit, units: &mut RtdsUnits)
    ensures { units.new ≡ change_item index (λ x. unit) units.old }
{
    if let Some(there) = units.get_mut(index as usize) {
        *there = unit;
    }
}

/// The unit's record is this one.
pub fn put_unit(u: UnitId, unit: RtdsUnit, domains: &mut Row<Option<RtdsUnits>>)
    ensures { domains.new ≡ change_unit u (λ x. unit) domains.old }
{
    if let Some(place) = domains.get_mut(u.dom.0 as usize)
        && let Some(units) = place
    {
        put_item(u.n, unit, units);
    }
}

/// What is set of the unit's parameters takes force at its next replenishment.
pub fn set_next(
    u: UnitId,
    period: Span,
    budget: Span,
    extra: bool,
    domains: &mut Row<Option<RtdsUnits>>,
)
    ensures { domains.new ≡ change_unit u
        (λ (x : RtdsRecord). record x {
          next_period = period.0;
          next_budget = budget.0;
          next_extra = extra;
        }) domains.old }
{
    if let Some(x) = rtds_unit(domains.as_slice(), u) {
        let unit = RtdsUnit {
            next_period: period.0,
            next_budget: budget.0,
            next_extra: extra,
            ..*x
        };
        put_unit(u, unit, domains);
    }
}

/// A running unit after a charge up to t.
pub fn burn_to(t: Moment, x: RtdsUnit) -> RtdsUnit
    requires { x.level + 1 < 2 ^ 32 }
    ensures { result ≡ unit_burned_to t.0 x }
{
    match x.burned {
        None => x,
        Some(from) => {
            let mut running = RtdsUnit {
                burned: Some(t.0),
                ..x
            };
            burn(&mut running, Span(t.0.saturating_sub(from)));
            running
        }
    }
}

/// The replenishment of a unit at t: what was set last takes force, and the new deadline is the first one after t that is whole
/// periods after the old one.
fn replenish_unit(t: Moment, x: RtdsUnit) -> RtdsUnit
    requires fits { RtdsInRange t.0 x }
    requires early { t.0 ≤ most_span }
    ensures { result ≡ unit_after_replenish t.0 x }
{
    let mut unit = burn_to(t, x);
    rtds_replenish::replenish(&mut unit, t);
    unit
}

/// The unit is replenished at t.
pub fn replenish(t: Moment, u: UnitId, domains: &mut Row<Option<RtdsUnits>>)
    requires fits { RtdsFits t.0 domains.old }
    requires early { t.0 ≤ most_span }
    ensures { domains.new ≡ change_unit u (unit_after_replenish t.0) domains.old }
{
    if let Some(x) = rtds_unit(domains.as_slice(), u) {
        let unit = replenish_unit(t, *x);
        put_unit(u, unit, domains);
    }
}

/// The unit is charged up to t.
fn burn_unit(t: Moment, u: UnitId, domains: &mut Row<Option<RtdsUnits>>)
    requires fits { RtdsFits t.0 domains.old }
    requires early { t.0 ≤ most_span }
    ensures { domains.new ≡ change_unit u (unit_burned_to t.0) domains.old }
{
    if let Some(x) = rtds_unit(domains.as_slice(), u) {
        let unit = burn_to(t, *x);
        put_unit(u, unit, domains);
    }
}

/// The unit runs from a moment, or runs no more.
pub fn set_running(from: Option<u64>, u: UnitId, domains: &mut Row<Option<RtdsUnits>>)
    ensures { domains.new ≡ running_domains from u domains.old }
{
    if let Some(x) = rtds_unit(domains.as_slice(), u) {
        let unit = RtdsUnit { burned: from, ..*x };
        put_unit(u, unit, domains);
    }
}

/// Whether the first unit runs before the second: its level is less, or its deadline where they have one level.
fn is_before(a: &RtdsUnit, b: &RtdsUnit) -> bool
    ensures { result ≡ is_record_before a.now b.now }
{
    a.level < b.level || (a.level == b.level && a.deadline < b.deadline)
}

/// Whether the first unit runs before the second, by their records.
pub fn unit_before(domains: &[Option<RtdsUnits>], u: UnitId, w: UnitId) -> bool
    ensures { result ≡ is_unit_before domains.now u w }
{
    match rtds_unit(domains, u) {
        None => false,
        Some(a) => match rtds_unit(domains, w) {
            None => false,
            Some(b) => is_before(a, b),
        },
    }
}

/// The budget that is left to the unit, in nanoseconds.
pub fn budget_left(domains: &[Option<RtdsUnits>], u: UnitId) -> u64
    ensures { result ≡ unit_left_budget domains.now u }
{
    match rtds_unit(domains, u) {
        None => 0,
        Some(unit) => unit.left,
    }
}

/// The core's own unit, where it may go on.
pub fn own_candidate(
    domains: &[Option<RtdsUnits>],
    affinity: &[Option<Pins>],
    ask: &Ask,
) -> Option<UnitId>
    requires { ask.now.core.0 < 64 }
    ensures { result ≡ rtds_candidate ask.now
        (scheduler_of [] affinity.now (RtdsPool domains.now)) domains.now }
{
    let u = ask.cur?;
    if ask.runnable && is_allowed(affinity, ask.home, ask.core, u) && 0 < budget_left(domains, u) {
        Some(u)
    } else {
        None
    }
}

/// The core's own unit is charged up to t. No unit has more left than the longest budget then.
pub fn burn_cur(cur: Option<UnitId>, t: Moment, domains: &mut Row<Option<RtdsUnits>>)
    requires fits { RtdsFits t.0 domains.old }
    requires early { t.0 ≤ most_span }
    ensures domains { domains.new ≡ own_burned_domains cur t.0 domains.old }
    ensures left { (u : UnitName) → unit_left_budget domains.new u ≤ 1000000000000 }
{
    if let Some(u) = cur {
        burn_unit(t, u, domains);
    }
}
