//! A gate that counts.

use sched_io::Gate;
use std::sync::atomic::{AtomicU64, Ordering};

/// A gate that is always open, and counts how often it was passed. It keeps the number of the last actor that passed it.
#[derive(Drop)]
pub struct CountingGate {
    passes: AtomicU64,
    last: AtomicU64,
}

impl CountingGate {
    /// A gate that nobody has passed. Its last number is 0.
    pub fn new() -> CountingGate {
        CountingGate {
            passes: AtomicU64::new(0),
            last: AtomicU64::new(0),
        }
    }

    /// How often it was passed.
    pub fn passes(&self) -> u64 {
        self.passes.load(Ordering::SeqCst)
    }

    /// The number of the last actor that passed it.
    pub fn last(&self) -> u64 {
        self.last.load(Ordering::SeqCst)
    }
}

impl Gate for CountingGate {
    fn pass(&self, who: u32) {
        self.passes.fetch_add(1, Ordering::SeqCst);
        self.last.store(u64::from(who), Ordering::SeqCst);
    }
}
