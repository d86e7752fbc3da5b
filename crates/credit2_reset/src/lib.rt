//! Credit2's resets, on numbers.
//!
//! Where the unit that is to run has no credit left, all units of its pool get credit anew.
#![tactic(auto)]

ghost use Rattle.std.specs.Prelude.{◌≡◌, ◌≤◌, pos, ◌≤ℤ◌, ◌<ℤ◌};
ghost use Rattle.sched_base.specs.Credit2Numbers as numbers;

/// What one reset adds to a credit.
const START_CREDIT: u64 = 10_000_000;

/// No reset lifts a credit above this.
const MOST_CREDIT: i64 = 10_500_000;

/// How many resets at once a credit calls for: one, and one more for each whole 10,000,000 that it is below 0.
/// That many are just enough to bring it above 0.
pub fn resets(credit: i64) -> u64
    ensures exact { result ≡ numbers.called_resets credit }
    ensures some { 1 ≤ result }
    ensures few { result ≤ 1000000000000 }
    ensures enough { pos 0 <ℤ numbers.raised_credit credit result }
{
    1 + below_zero(credit) / START_CREDIT
}

/// How far a number is below 0.
fn below_zero(number: i64) -> u64
    ensures { result ≡ numbers.negative_part number }
{
    if number < 0 { number.unsigned_abs() } else { 0 }
}

/// The credit after so many resets at once, which is 10,500,000 at most.
pub fn raise(credit: i64, m: u64) -> i64
    requires { m ≤ 1000000000000 }
    ensures exact { result ≡ numbers.raised_credit credit m }
    ensures most { result ≤ℤ pos 10500000 }
{
    let raised = credit as i128 + (m * START_CREDIT) as i128;
    raised.min(MOST_CREDIT as i128) as i64
}
