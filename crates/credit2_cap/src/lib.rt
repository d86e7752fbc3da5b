//! Credit2's caps, on numbers.
//!
//! A domain with a cap has a budget, which is filled up every 10,000,000 nanoseconds, and its units take of it what they
//! run on. All budgets are in nanoseconds.
#![tactic(auto)]

ghost use Rattle.std.specs.Prelude.{◌≡◌, ◌≤◌, ◌*◌, pos, ◌+ℤ◌, ◌≤ℤ◌, ◌<ℤ◌, ◌-ℤ◌};
ghost use Rattle.std.specs.Int.{int_min};
ghost use Rattle.sched_base.specs.Credit2Numbers as numbers;

/// No unit takes less than this at once, where the budget has so much.
pub const LEAST_QUOTA: i64 = 500_000;

/// The budget that a cap gives for each 10,000,000 nanoseconds. The cap is in percent of one core.
pub fn total(cap: u32) -> i64
    requires { cap ≤ 6400 }
    ensures { result ≡ pos (numbers.cap_budget cap) }
{
    cap as i64 * 100_000
}

/// The most that a unit takes of the budget at once: an even share of the total, and never less than 500,000.
/// The units are all units of the domain, of which there is at least one.
pub fn quota(total: i64, units: u32) -> i64
    requires { 1 ≤ units }
    ensures exact { result ≡ pos (numbers.budget_quota (numbers.positive_part total) units) }
    ensures least { pos 500000 ≤ℤ result }
    ensures share { pos 500000 ≤ℤ total → result ≤ℤ total }
{
    (total / units as i64).max(LEAST_QUOTA)
}

/// What a chosen unit takes of its domain's budget: its quota, or what is left where that is less.
pub fn take(budget: i64, quota: i64) -> i64
    ensures exact { pos 0 ≤ℤ quota → result ≡ numbers.taken_budget budget
        (numbers.positive_part quota) }
    ensures least { result ≡ int_min quota budget }
    ensures no_more { result ≤ℤ budget }
    ensures some { pos 0 <ℤ budget → pos 0 <ℤ quota → pos 0 <ℤ result }
{
    quota.min(budget)
}

/// A domain's budget after n whole spans, of which at most 10^9 have come since the last refill.
///
/// It grows by the total for each of them. What the running units still hold of earlier budgets
/// counts against the total: the budget and what they hold are never more than that.
pub fn refill(budget: i64, held: i64, total: i64, n: u64) -> i64
    requires few { n ≤ 1000000000 }
    requires held { pos 0 ≤ℤ held }
    requires total { pos 0 ≤ℤ total }
    ensures exact { result ≡ numbers.budget_after_refill budget (numbers.positive_part held)
        (numbers.positive_part total) n }
    ensures room { result ≤ℤ (total -ℤ held) }
    ensures grows { budget ≤ℤ (total -ℤ held) → budget ≤ℤ result }
{
    let room = total - held;
    grown(budget, total, n).min(room as i128) as i64
}

/// The budget and so many times the total, which is not below 0.
fn grown(budget: i64, total: i64, periods: u64) -> i128
    requires few { periods ≤ 1000000000 }
    requires some { pos 0 ≤ℤ total }
    ensures { result ≡ budget +ℤ pos (periods * numbers.positive_part total) }
{
    let all = periods as u128 * total as u128;
    budget as i128 + all as i128
}
