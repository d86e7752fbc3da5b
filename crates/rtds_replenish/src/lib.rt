//! RTDS: what running costs a unit, and its replenishment. Moments and spans are in nanoseconds.
#![tactic(auto)]

ghost use Rattle.std.specs.Prelude.{◌≡◌, ◌+◌, ◌<◌, ◌≤◌, ◌^◌, nat_le};
ghost use Rattle.sched_model.specs.CheckedMachine.{IsWithin, most_span};
ghost use Rattle.sched_model.specs.Rtds.{renewed_unit, unit_after_span};
ghost use Rattle.rtds_replenish.specs.Grid.{IsTermAround};

use sched_base::{Moment, Span};
use sched_model::state::RtdsUnit;

/// Charges a unit for a span that it ran: so much less is left of its budget, and 0 at least. A unit with extra time that has used
/// its budget up has all of it again, one level further down.
pub fn burn(u: &mut RtdsUnit, elapsed: Span)
    requires level { u.old.level + 1 < 2 ^ 32 }
    ensures { u.new ≡ unit_after_span elapsed.0 u.old }
{
    if elapsed.0 < u.left {
        u.left -= elapsed.0;
    } else if u.extra {
        u.left = u.budget;
        u.level += 1;
    } else {
        u.left = 0;
    }
}

/// Whether the unit is to be replenished at t: its deadline has come.
pub fn due(u: &RtdsUnit, t: Moment) -> bool
    ensures { result ≡ nat_le u.now.deadline t.0 }
{
    u.deadline <= t.0
}

/// Replenishes a unit at t: what was set last takes force, its budget is whole, and its new deadline is the first moment after t
/// that is whole periods after the old one. So a late replenishment keeps the grid of deadlines: the term that begins holds t, and
/// begins no earlier than the old one ended.
pub fn replenish(u: &mut RtdsUnit, t: Moment)
    requires period { IsWithin 10000 1000000000000 u.old.next_period }
    requires deadline { u.old.deadline ≤ 20000000000000 }
    requires early { t.0 ≤ most_span }
    ensures record { u.new ≡ renewed_unit t.0 u.old }
    ensures term { u.old.deadline ≤ t.0 →
        IsTermAround u.old.deadline u.new.period t.0 u.new.deadline }
{
    let periods = t.0.saturating_sub(u.deadline) / u.next_period + 1;
    u.deadline += u.next_period * periods;
    u.period = u.next_period;
    u.budget = u.next_budget;
    u.extra = u.next_extra;
    u.left = u.next_budget;
    u.level = 0;
}
