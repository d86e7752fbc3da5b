//! The formulas of Credit2 on numbers.

ghost use Rattle.std.specs.Prelude.{◌≡◌, pos, negsuc};
ghost use Rattle.sched_base.specs.Credit2Numbers.{burned_credit, burned_residual, called_resets, raised_credit, budget_quota, cap_budget, budget_after_refill};

/// Charges of a unit of weight 3 among weights up to 7: the credit falls by whole parts, and the rest is carried to the next charge.
pub fn charges()
    ensures first_credit { burned_credit (pos 10000000) 0 3 7 1000001 ≡ pos 7666665 }
    ensures first_rest { burned_residual 0 3 7 1000001 ≡ 2 }
    ensures second_credit { burned_credit (pos 7666665) 2 3 7 1000001 ≡ pos 5333329 }
    ensures second_rest { burned_residual 2 3 7 1000001 ≡ 1 }
    ensures third_credit { burned_credit (pos 5333329) 1 3 7 1 ≡ pos 5333327 }
    ensures third_rest { burned_residual 1 3 7 1 ≡ 2 }
{}

/// A credit of 0 or less calls for one reset, and for one more with each 10 milliseconds below 0.
pub fn resets_at_once()
    ensures at_zero { called_resets (pos 0) ≡ 1 }
    ensures short_of_two { called_resets (negsuc 9999998) ≡ 1 }
    ensures two { called_resets (negsuc 9999999) ≡ 2 }
    ensures three { called_resets (negsuc 24999999) ≡ 3 }
{}

/// Resets raise a credit by 10 milliseconds each, up to 10.5.
pub fn raises()
    ensures below { raised_credit (negsuc 24999999) 3 ≡ pos 5000000 }
    ensures most { raised_credit (pos 1000000) 3 ≡ pos 10500000 }
{}

/// A cap of 25 percent is a budget of 2.5 milliseconds, its quota for two units is half of that, and a refill fills the budget to at most the total less what is held.
pub fn refilled_budgets()
    ensures total_of { cap_budget 25 ≡ 2500000 }
    ensures quota_of { budget_quota 2500000 2 ≡ 1250000 }
    ensures most { budget_after_refill (pos 300000) 200000 2500000 1 ≡ pos 2300000 }
    ensures below { budget_after_refill (negsuc 5999999) 0 2500000 2 ≡ negsuc 999999 }
{}
