//! Terms of capped domains in the ordered runs of small machines.

ghost use Rattle.std.specs.Prelude.{◌≡◌, [], ◌∷◌, true, false};
ghost use Rattle.term_laws.specs.RtdsExamples.{leg};
ghost use Rattle.term_laws.specs.CapExamples.{terms_of, spans_of, term, shared_cap, refill_while_running, stall_past_the_budget, set_after_overrun, set_after_refill, moved_domain};

/// Two units of a domain are together on the cores for the budget of its cap.
pub fn budget_is_shared()
    ensures { terms_of shared_cap 0 ≡ term 0 10000000 2500000 2500000 0 true
        ∷ term 10000000 10000000 2500000 0 0 true ∷ [] }
{}

/// What a running unit holds when the budget is refilled is a part of the new term's budget.
pub fn held_over_a_refill()
    ensures { terms_of refill_while_running 0 ≡ term 0 10000000 10000000 7000000 0 true
        ∷ term 10000000 20000000 10000000 10000000 0 true ∷ term 20000000 20000000 10000000 0 0 true
        ∷ [] }
{}

/// A unit that a stall lets run beyond the budget is on the core for as much longer as the decision was late.
pub fn longer_by_what_was_late()
    ensures { terms_of stall_past_the_budget 0 ≡ term 0 10000000 2500000 4000000 1500000 true
        ∷ term 10000000 10000000 2500000 0 0 true ∷ [] }
{}

/// Nothing is said of a term that a setting of the cap ends: the core that overran is due at once, and what was late before is forgotten.
pub fn ended_by_a_setting()
    ensures { terms_of set_after_overrun 0 ≡ term 0 10000000 3300000 10000000 0 false
        ∷ term 10000000 10000000 3300000 0 0 true ∷ [] }
{}

/// Nor is anything said of a term where the cap is set after its end, and still within a leg that meets it.
pub fn set_after_its_end()
    ensures { terms_of set_after_refill 1 ≡ term 0 10000000 3300000 10000000 0 false
        ∷ term 10000000 20000000 3300000 10000000 0 false ∷ term 20000000 20000000 3300000 0 0 true
        ∷ [] }
{}

/// A domain that moves has no cap any more: its term ends there, and what it runs in the other pool is in no term.
pub fn ended_by_a_move()
    ensures terms { terms_of moved_domain 0 ≡ term 0 1000000 2500000 1000000 0 true ∷ [] }
    ensures legs { spans_of moved_domain 0 ≡ leg 0 1000000 0 ∷ leg 1000000 11000000 0
        ∷ leg 11000000 11000000 0 ∷ [] }
{}
