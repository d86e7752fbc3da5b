//! Gates at which two workers meet.

use sched_io::Gate;
use std::sync::atomic::{AtomicU64, Ordering};

/// A gate at which the processors 0 and 1 wait for each other: each at its first pass, until the other has come to its own. So each has the lock of its
/// pool in its hands, and neither the book. Each gives up after so many looks.
#[derive(Drop)]
pub struct CrossingGate {
    zeros: AtomicU64,
    ones: AtomicU64,
    missed: AtomicU64,
}

/// The looks after which a processor gives up.
const MOST_LOOKS: u32 = 100_000_000;

/// Looks until the count is at least so much. False where it gave up.
fn comes(count: &AtomicU64, least: u64) -> bool {
    for _ in 0..MOST_LOOKS {
        if count.load(Ordering::SeqCst) >= least {
            return true;
        }
    }
    false
}

impl CrossingGate {
    /// A gate that nobody has passed.
    pub fn new() -> CrossingGate {
        CrossingGate {
            zeros: AtomicU64::new(0),
            ones: AtomicU64::new(0),
            missed: AtomicU64::new(0),
        }
    }

    /// Whether both have come, and none gave up.
    pub fn was_crossed(&self) -> bool {
        self.zeros.load(Ordering::SeqCst) >= 1
            && self.ones.load(Ordering::SeqCst) >= 1
            && self.missed.load(Ordering::SeqCst) == 0
    }
}

impl Gate for CrossingGate {
    fn pass(&self, who: u32) {
        let has_come = match who {
            0 => self.zeros.fetch_add(1, Ordering::SeqCst) != 0 || comes(&self.ones, 1),
            1 => self.ones.fetch_add(1, Ordering::SeqCst) != 0 || comes(&self.zeros, 1),
            _ => true,
        };
        if !has_come {
            self.missed.fetch_add(1, Ordering::SeqCst);
        }
    }
}

/// A gate that holds processor 0 in its first pass until processor 1 is in its second, so until an entry of processor 1 is in the book while the lock of
/// processor 0's pool is held; and processor 1 in its second until processor 0 is in its first. Each gives up after so many looks.
#[derive(Drop)]
pub struct HoldingGate {
    zeros: AtomicU64,
    ones: AtomicU64,
    missed: AtomicU64,
}

impl HoldingGate {
    /// A gate that nobody has passed.
    pub fn new() -> HoldingGate {
        HoldingGate {
            zeros: AtomicU64::new(0),
            ones: AtomicU64::new(0),
            missed: AtomicU64::new(0),
        }
    }

    /// Whether both have come so far, and none gave up.
    pub fn was_crossed(&self) -> bool {
        self.zeros.load(Ordering::SeqCst) >= 1
            && self.ones.load(Ordering::SeqCst) >= 2
            && self.missed.load(Ordering::SeqCst) == 0
    }
}

impl Gate for HoldingGate {
    fn pass(&self, who: u32) {
        let has_come = match who {
            0 => self.zeros.fetch_add(1, Ordering::SeqCst) != 0 || comes(&self.ones, 2),
            1 => self.ones.fetch_add(1, Ordering::SeqCst) != 1 || comes(&self.zeros, 1),
            _ => true,
        };
        if !has_come {
            self.missed.fetch_add(1, Ordering::SeqCst);
        }
    }
}
