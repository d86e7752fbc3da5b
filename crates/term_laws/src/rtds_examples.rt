//! Terms of RTDS units in the ordered runs of small machines.

ghost use Rattle.std.specs.Prelude.{◌≡◌, [], ◌∷◌};
ghost use Rattle.term_laws.specs.RtdsExamples.{terms_of, legs_of, term, leg, unit, two_units, stall_past_the_due, late_replenishment, new_budget, new_budget_while_running};

/// Each of two units is on the core for its budget in each of its terms, and no longer.
pub fn budgets_and_deadlines()
    ensures first { terms_of two_units (unit 0) ≡ term 0 10000000 4000000 0 4000000 0
        ∷ term 10000000 20000000 4000000 0 4000000 0 ∷ term 20000000 30000000 4000000 0 0 0 ∷ [] }
    ensures second { terms_of two_units (unit 1) ≡ term 0 20000000 5000000 0 5000000 0
        ∷ term 20000000 40000000 5000000 0 0 0 ∷ [] }
    ensures legs { legs_of two_units (unit 0) ≡ leg 0 4000000 0 ∷ leg 10000000 14000000 0
        ∷ leg 20000000 20000000 0 ∷ [] }
{}

/// A unit that a stall lets run beyond its budget is on the core for as much longer as the decision was late.
pub fn longer_by_what_was_late()
    ensures { terms_of stall_past_the_due (unit 0) ≡ term 0 10000000 4000000 0 5000000 1000000
        ∷ [] }
{}

/// A term that is opened two and a half periods late begins where it is opened, half a period after its start.
pub fn term_that_begins_late()
    ensures { terms_of late_replenishment (unit 0) ≡ term 0 10000000 4000000 0 4000000 0
        ∷ term 35000000 40000000 4000000 5000000 0 0 ∷ [] }
{}

/// A new budget is that of the next term.
pub fn budget_of_the_next_term()
    ensures { terms_of new_budget (unit 0) ≡ term 0 10000000 4000000 0 4000000 0
        ∷ term 10000000 20000000 1000000 0 0 0 ∷ [] }
{}

/// A unit that runs when its budget is lowered is on the core for the new budget in the term that follows.
pub fn less_while_running()
    ensures terms { terms_of new_budget_while_running (unit 0) ≡ term 0 10000000 4000000 0 3000000 0
        ∷ term 10000000 20000000 500000 0 500000 0 ∷ [] }
    ensures legs { legs_of new_budget_while_running (unit 0) ≡ leg 0 1000000 0
        ∷ leg 8000000 10500000 0 ∷ [] }
{}
