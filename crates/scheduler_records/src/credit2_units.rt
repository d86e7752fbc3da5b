//! Credit2: the record of one unit. Moments and spans are in nanoseconds.

ghost use Rattle.sched_model.specs.CheckedMachine.{most_span};
ghost use Rattle.std.specs.Prelude.{◌≡◌, ◌≤◌, ◌==◌, if◌then◌else◌, slice_get, slice_set, pos, neg_ℤ, ◌-ℤ◌, ◌≤ℤ◌};
ghost use Rattle.sched_base.specs.Credit2Numbers.{raised_credit, positive_part};
ghost use Rattle.sched_model.specs.declared.state.Credit2Unit.{Credit2Unit as UnitRecord};
ghost use Rattle.sched_model.specs.Places.{change_item};
ghost use Rattle.sched_model.specs.Credit2.{burned_unit};
ghost use Rattle.scheduler_records.specs.Bounds.{UnitFits, ParamsFit};

use credit2_burn::{Credit, burn};
use credit2_reset::raise;
use sched_base::{Moment, Span};
use sched_model::state::{Credit2Domain, Credit2Unit, Credit2Units};

/// The unit with this index.
pub fn unit_at(units: &[Credit2Unit], index: u8) -> Option<Credit2Unit>
    ensures { result ≡ slice_get units.now index }
{
    units.get(index as usize).copied()
}

/// The unit with this index is put in place of the one that is there.
pub fn set_unit(units: &mut Credit2Units, index: u8, unit: Credit2Unit)
    ensures { units.new ≡ slice_set units.old index unit }
{
    if let Some(place) = units.get_mut(index as usize) {
        *place = unit;
    }
}

/// The unit with this index holds so much of its domain's budget.
#[tactic(auto, using(sched_model::proofs::PlaceLemmas::past_the_end))]
pub fn set_held(units: &mut Credit2Units, index: u8, held: i64)
    ensures { units.new ≡ change_item index (λ (x : UnitRecord). record x { held = held })
        units.old }
{
    if let Some(u) = units.get_mut(index as usize) {
        u.held = held;
    }
}

/// The domain's unit with this index runs from a moment, or runs no more.
#[tactic(auto, using(sched_model::proofs::PlaceLemmas::past_the_end))]
pub fn set_burned(d: &mut Credit2Domain, index: u8, from: Option<u64>)
    ensures { d.new ≡ record d.old
        { units = change_item index (λ (x : UnitRecord). record x { burned = from }) d.old.units } }
{
    if let Some(u) = d.units.get_mut(index as usize) {
        u.burned = from;
    }
}

/// What a unit holds of its domain's budget after a span that it ran; under no cap none of it is spent.
fn held_after(cap: u32, held: i64, elapsed: u64) -> i64
    requires short { elapsed ≤ most_span }
    requires least { neg_ℤ (pos 20000000000000) ≤ℤ held }
    ensures { result ≡ (if cap == 0 then held else (held -ℤ pos elapsed)) }
{
    if cap == 0 {
        held
    } else {
        held - elapsed as i64
    }
}

/// A unit of the domain, charged up to t where it runs. The greatest weight of the pool is most.
pub fn burn_unit(most: u32, t: Moment, d: &Credit2Domain, u: Credit2Unit) -> Credit2Unit
    requires early { t.0 ≤ most_span }
    requires params { ParamsFit most d.now }
    requires unit { UnitFits t.0 u }
    ensures { result ≡ burned_unit most t.0 d.now u }
{
    let Some(from) = u.burned else {
        return u;
    };
    let elapsed = t.0 - from;
    let before = Credit {
        credit: u.credit,
        residual: u.residual,
    };
    let after = burn(before, d.weight, most, Span(elapsed));
    Credit2Unit {
        credit: after.credit,
        residual: after.residual,
        held: held_after(d.cap, u.held, elapsed),
        burned: Some(t.0),
    }
}

/// A unit after so many resets.
pub fn raise_unit(resets: u64, u: Credit2Unit) -> Credit2Unit
    requires { resets ≤ 1000000000000 }
    ensures { result ≡ (λ (x : UnitRecord). record x { credit = raised_credit x.credit resets }) u }
{
    Credit2Unit {
        credit: raise(u.credit, resets),
        ..u
    }
}

/// What of a number is above 0.
pub fn above_zero(number: i64) -> u64
    ensures { result ≡ positive_part number }
{
    if number < 0 { 0 } else { number as u64 }
}
