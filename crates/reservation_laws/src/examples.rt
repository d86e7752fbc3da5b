//! What units have in their terms in the ordered runs of small machines, with and without room for all.

ghost use Rattle.std.specs.Prelude.{◌≡◌, [], ◌∷◌};
ghost use Rattle.service_laws.specs.Demand.{FitOneProcessor};
ghost use Rattle.term_laws.specs.RtdsExamples.{terms_of, term, unit};
ghost use Rattle.reservation_laws.specs.Reservations.{reservations};
ghost use Rattle.reservation_laws.specs.Sleepers.{claims};
ghost use Rattle.reservation_laws.specs.Examples.{whole_core, overbooked, room_beside_sleeper, whole_core_with_sleeper};

/// Two units whose reservations take the whole core have their budgets in each term that is over, to the nanosecond.
pub fn whole_budgets()
    ensures fits { FitOneProcessor (reservations 1 0 whole_core.config.domains) }
    ensures first { terms_of whole_core (unit 0) ≡ term 0 10000000 4000000 0 4000000 0
        ∷ term 10000000 20000000 4000000 0 4000000 0 ∷ term 20000000 30000000 4000000 0 0 0 ∷ [] }
    ensures second { terms_of whole_core (unit 1) ≡ term 0 20000000 12000000 0 12000000 0
        ∷ term 20000000 40000000 12000000 0 0 0 ∷ [] }
{}

/// Where the budgets take more than the core, a unit has less than its budget.
pub fn less_where_overbooked()
    ensures { terms_of overbooked (unit 0) ≡ term 0 10000000 4000000 0 4000000 0
        ∷ term 10000000 20000000 4000000 0 3000000 0 ∷ term 20000000 30000000 4000000 0 0 0 ∷ [] }
{}

/// A guest that sleeps keeps its budget for the time when it wakes. So beside it the same sum is not enough: in its second term the other unit has 2
/// milliseconds of its 3: in the 6 milliseconds of its period 7 may be claimed.
pub fn less_beside_a_sleeper()
    ensures fits { FitOneProcessor (reservations 1 0 whole_core_with_sleeper.config.domains) }
    ensures claimed { claims 1 0 whole_core_with_sleeper.config.domains 6000000 ≡ 7000000 }
    ensures steady { terms_of whole_core_with_sleeper (unit 0) ≡ term 0 6000000 3000000 0 3000000 0
        ∷ term 6000000 12000000 3000000 0 2000000 0 ∷ term 12000000 18000000 3000000 0 0 0 ∷ [] }
{}

/// Where no more than the period may be claimed in it, the unit has its budget, here to the nanosecond.
pub fn whole_budget_beside_a_sleeper()
    ensures claimed { claims 1 0 room_beside_sleeper.config.domains 6000000 ≡ 6000000 }
    ensures steady { terms_of room_beside_sleeper (unit 0) ≡ term 0 6000000 2000000 0 2000000 0
        ∷ term 6000000 12000000 2000000 0 2000000 0 ∷ term 12000000 18000000 2000000 0 0 0 ∷ [] }
{}
