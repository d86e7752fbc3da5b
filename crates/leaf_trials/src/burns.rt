//! Credits that running is charged to.

use credit2_burn::{Credit, burn};
use sched_base::Span;

/// Whether a charge within the ranges of `burn` leaves that credit and that residual.
fn burns(given: (i64, u32), weights: (u32, u32), span: u64, left: (i64, u32)) -> bool {
    let (weight, most) = weights;
    if weight < 1
        || most < weight
        || 65_535 < most
        || 10_000_000_000_000 < span
        || given.0 < -4_000_000_000_000_000_000
    {
        return false;
    }
    let c = Credit {
        credit: given.0,
        residual: given.1,
    };
    let found = burn(c, weight, most, Span(span));
    found.credit == left.0 && found.residual == left.1
}

/// Weight 3 beside a greatest weight of 7, charged three times in turn, and then a few by hand.
#[test]
fn charges_and_keeps_what_is_left_over(rt: HostRuntime) {
    let low = (-1_000_000_000_000_000_000, 0);
    assert_eq!(rt;
        [
            burns((10_000_000, 0), (3, 7), 1_000_001, (7_666_665, 2)),
            burns((7_666_665, 2), (3, 7), 1_000_001, (5_333_329, 1)),
            burns((5_333_329, 1), (3, 7), 1, (5_333_327, 2)),
            burns((10_000_000, 0), (256, 256), 1_000_000, (9_000_000, 0)),
            burns((10_000_000, 255), (256, 512), 1, (9_999_998, 255)),
            burns((0, 0), (65_535, 65_535), 0, (0, 0)),
            burns((-5, 2), (3, 3), 0, (-5, 2)),
            burns(
                low,
                (1, 65_535),
                10_000_000_000_000,
                (-1_655_350_000_000_000_000, 0)
            ),
        ],
        [true; 8]
    );
}
