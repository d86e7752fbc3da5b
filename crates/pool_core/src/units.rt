//! New RTDS parameters for units of a domain. t is the moment.

ghost use Rattle.std.specs.Prelude.{◌≡◌, ◌≤◌, ◌<◌, ◌+◌, true};
ghost use Rattle.sched_model.specs.Places.{numbers_from};
ghost use Rattle.sched_ops.specs.Conditions.{IsNow, is_member};
ghost use Rattle.sched_ops.specs.Seen.{units_of};
ghost use Rattle.pool_core.specs.Params.{AreGiven, unit_set, units_set};

use sched_base::{DomId, Moment, Span, UnitId};
use sched_model::config::ParamChange;
use sched_model::facts::{RtdsGiven, Stored};
use sched_ops::Policy;

/// The unit has the new parameters from its next replenishment on. Another scheduler keeps what it has.
fn set_unit<P: Policy>(policy: &mut P, u: UnitId, given: RtdsGiven, t: Moment)
    requires now { IsNow (P.seen policy.old) t.0 }
    requires member { is_member (P.seen policy.old).scheduler u ≡ true }
    requires given { AreGiven given.period given.budget }
    ensures scheduler { (P.seen policy.new).scheduler
        ≡ unit_set t.0 given.period given.budget given.extra u (P.seen policy.old).scheduler }
    ensures spare { (P.seen policy.new).spare ≡ (P.seen policy.old).spare }
    ensures latest { (P.seen policy.new).latest ≤ t.0 }
{
    if let Stored::Rtds {
        period,
        budget,
        extra,
    } = policy.stored(u)
    {
        let change = ParamChange::Unit {
            unit: u,
            period: given.period.unwrap_or(period),
            budget: given.budget.unwrap_or(budget),
            extra: given.extra.unwrap_or(extra),
        };
        policy.set_params(&change, t);
    }
}

/// The same of count units of the domain from first on.
pub fn set_units<P: Policy>(
    policy: &mut P,
    d: DomId,
    first: u8,
    count: u8,
    given: RtdsGiven,
    t: Moment,
)
    requires now { IsNow (P.seen policy.old) t.0 }
    requires few { first + count ≤ 32 }
    requires units { first + count ≤ units_of (P.seen policy.old).scheduler d.0 }
    requires given { 0 < count → AreGiven given.period given.budget }
    ensures scheduler { (P.seen policy.new).scheduler
        ≡ units_set t.0 d.0 given.period given.budget given.extra (numbers_from first count)
        (P.seen policy.old).scheduler }
    ensures spare { (P.seen policy.new).spare ≡ (P.seen policy.old).spare }
    ensures latest { (P.seen policy.new).latest ≤ t.0 }
{
    if count == 0 {
        return;
    }
    set_unit(policy, UnitId { dom: d, n: first }, given, t);
    set_units(policy, d, first + 1, count - 1, given, t);
}
