//! What an RTDS pool of one core gives its units in each of their terms.

ghost use Rattle.reservation_laws.specs.Reservations.{GetsEachBudget};
ghost use Rattle.reservation_laws.specs.Sleepers.{GetsBudgetBesideSleepers};

use run_laws::laws::law_next_moment;

/// On a machine to which nothing happens from outside, in an RTDS pool of one core whose guests never sleep and whose budgets, each divided by its period,
/// add up to 1 at most: in each term that is over a unit was on the core for its budget at least.
pub fn law_reservations()
    ensures { GetsEachBudget }
{
    law_next_moment();
}

/// The same of a unit that never sleeps, beside others that may, where each span of the unit's period and more has room for all that the units of the pool may
/// claim: of each the budgets of as many whole periods as the span has, and of one that may sleep its budget once more, or what is left of the span if that
/// is shorter.
pub fn law_reservations_beside_sleepers()
    ensures { GetsBudgetBesideSleepers }
{
    law_next_moment();
}
