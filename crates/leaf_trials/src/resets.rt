//! Credits that are raised where one is used up.

use credit2_reset::{raise, resets};

/// The raised credit, for as many resets as `raise` takes.
fn raised(credit: i64, resets: u64) -> i64 {
    if resets <= 1_000_000_000_000 {
        raise(credit, resets)
    } else {
        i64::MIN
    }
}

#[test]
fn resets_as_often_as_the_credit_is_low(rt: HostRuntime) {
    assert_eq!(rt;
        [
            resets(0) == 1,
            resets(-1) == 1,
            resets(-9_999_999) == 1,
            resets(-10_000_000) == 2,
            resets(-25_000_000) == 3,
            resets(7) == 1,
            resets(i64::MIN) == 922_337_203_686,
        ],
        [true; 7]
    );
    assert_eq!(rt;
        [
            raised(-25_000_000, 3) == 5_000_000,
            raised(1_000_000, 3) == 10_500_000,
            raised(0, 1) == 10_000_000,
            raised(499_999, 1) == 10_499_999,
            raised(500_001, 1) == 10_500_000,
            raised(-1, 1) == 9_999_999,
            raised(-7, 0) == -7,
            raised(20_000_000, 0) == 10_500_000,
            raised(i64::MIN, 1_000_000_000_000) == 10_500_000,
        ],
        [true; 9]
    );
}
