//! The budgets of capped domains.

use credit2_cap::{quota, refill, take, total};

/// The formulas within their ranges. Beyond them it is the least number, which none of them gives here.
fn total_of(cap: u32) -> i64 {
    if cap <= 6400 { total(cap) } else { i64::MIN }
}

fn quota_of(total: i64, units: u32) -> i64 {
    if units >= 1 {
        quota(total, units)
    } else {
        i64::MIN
    }
}

fn refilled(budget: i64, held: i64, total: i64, periods: u64) -> i64 {
    if periods <= 1_000_000_000 && held >= 0 && total >= 0 {
        refill(budget, held, total, periods)
    } else {
        i64::MIN
    }
}

#[test]
fn gives_and_takes_budgets(rt: HostRuntime) {
    assert_eq!(rt;
        [
            total_of(25) == 2_500_000,
            total_of(1) == 100_000,
            total_of(100) == 10_000_000,
            total_of(6400) == 640_000_000,
            total_of(0) == 0,
            quota_of(2_500_000, 2) == 1_250_000,
            quota_of(2_500_000, 6) == 500_000,
            quota_of(100_000, 1) == 500_000,
            quota_of(10_000_000, 3) == 3_333_333,
            quota_of(640_000_000, 1) == 640_000_000,
            quota_of(0, 1) == 500_000,
        ],
        [true; 11]
    );
    assert_eq!(rt;
        [
            take(2_500_000, 1_250_000) == 1_250_000,
            take(250_000, 1_250_000) == 250_000,
            take(7, 7) == 7,
            refilled(300_000, 200_000, 2_500_000, 1) == 2_300_000,
            refilled(-6_000_000, 0, 2_500_000, 2) == -1_000_000,
            refilled(0, 0, 2_500_000, 1) == 2_500_000,
            refilled(-2_500_000, 2_500_000, 2_500_000, 1) == 0,
            refilled(2_500_000, 0, 2_500_000, 1_000_000) == 2_500_000,
            refilled(-640_000_000, 1, 640_000_000, 3) == 639_999_999,
        ],
        [true; 9]
    );
}
