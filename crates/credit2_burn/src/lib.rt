//! Credit2's charge for running, on numbers.
//!
//! A unit that runs pays with its credit, and a heavy unit pays less for the same span than a light one.
#![tactic(auto)]

ghost use Rattle.std.specs.Prelude.{◌≡◌, ◌+◌, ◌*◌, ◌<◌, ◌≤◌, pos, negsuc, ◌≤ℤ◌, ◌+ℤ◌, ◌-ℤ◌, ◌*ℤ◌};
ghost use Rattle.sched_base.specs.Credit2Numbers.{burned_credit, burned_residual};
ghost use Rattle.sched_base.specs.Numbers.{most_span};

use sched_base::Span;

/// What a unit has to run on.
#[derive(Clone, Copy)]
pub struct Credit {
    /// The credit, in nanoseconds of a unit of the greatest weight. It may be negative.
    pub credit: i64,
    /// What was charged and did not yet make a whole of the credit.
    pub residual: u32,
}

/// Charges a unit for a span that it ran.
///
/// The charge is the span times the greatest weight of the pool, and the residual: the credit falls by the whole times
/// that the unit's weight goes into it, and what is left over is the new residual. So no part of a charge is lost.
/// The span is at most 10^13 nanoseconds, a weight at most 65535, and the credit at least -4 * 10^18.
pub fn burn(c: Credit, weight: u32, max_weight: u32, elapsed: Span) -> Credit
    requires some_weight { 1 ≤ weight }
    requires no_more { weight ≤ max_weight }
    requires most { max_weight ≤ 65535 }
    requires short { elapsed.0 ≤ most_span }
    requires low { negsuc 3999999999999999999 ≤ℤ c.credit }

    ensures credit { result.credit ≡ burned_credit c.credit c.residual weight max_weight elapsed.0 }
    ensures residual { result.residual ≡ burned_residual c.residual weight max_weight elapsed.0 }

    ensures nothing_lost { ((c.credit -ℤ result.credit) *ℤ pos weight) +ℤ pos result.residual
        ≡ pos (elapsed.0 * max_weight + c.residual) }
    ensures residual_is_part { result.residual < weight }
    ensures never_rises { result.credit ≤ℤ c.credit }
    ensures falls_at_most { (c.credit -ℤ pos (elapsed.0 * max_weight + c.residual)) ≤ℤ
        result.credit }
    // A unit whose residual is already a part pays for no more than the span at the greatest weight.
    ensures falls_by_span { c.residual < weight →
        (c.credit -ℤ pos (elapsed.0 * max_weight)) ≤ℤ result.credit }
{
    let charge = elapsed.0 * max_weight as u64 + c.residual as u64;
    Credit {
        credit: c.credit - (charge / weight as u64) as i64,
        residual: (charge % weight as u64) as u32,
    }
}
