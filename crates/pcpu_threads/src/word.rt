//! A word that threads share beside the hall.

use std::sync::atomic::{AtomicU64, Ordering};

/// A word on a cache line of its own.
#[derive(Drop)]
pub(crate) struct Word {
    pub word: AtomicU64,
    _rest: [u64; 15],
}

impl Word {
    /// It is 0.
    pub(crate) fn new() -> Word {
        Word {
            word: AtomicU64::new(0),
            _rest: [0; 15],
        }
    }

    pub(crate) fn get(&self) -> u64 {
        self.word.load(Ordering::SeqCst)
    }

    pub(crate) fn set(&self, value: u64) {
        self.word.store(value, Ordering::SeqCst);
    }
}
