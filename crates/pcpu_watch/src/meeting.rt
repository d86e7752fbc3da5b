//! How the writer and the reader of a board find each other, and how they wait. No contract speaks of it: a wrong word here costs time or a look, or the run does not
//! end, and no look that is kept is wrong.

use pcpu_threads::{Bell, Patience};
use std::hint::spin_loop;
use std::sync::atomic::{AtomicU64, Ordering};
use std::thread::yield_now;

/// How often the writer looks for the reader before it goes on without it.
const ASKED: u32 = 2_000;

/// After so many of these looks other threads are let run between two of them.
const SPINS: u32 = 200;

/// Whether the reader has come, and whether the writer is through; the bell of the one who waits, and the patience of both.
#[derive(Drop)]
pub(crate) struct Meeting {
    came: AtomicU64,
    over: AtomicU64,
    pub bell: Bell,
    pub writer: Patience,
    pub reader: Patience,
}

impl Meeting {
    /// Nobody has come yet.
    pub(crate) fn new() -> Meeting {
        Meeting {
            came: AtomicU64::new(0),
            over: AtomicU64::new(0),
            bell: Bell::new(),
            writer: Patience::new(),
            reader: Patience::new(),
        }
    }

    /// The reader is there.
    pub(crate) fn come(&self) {
        self.came.store(1, Ordering::SeqCst);
    }

    /// Waits a while for the reader: whether it has come. It has not where no thread could be made for it.
    pub(crate) fn wait_for_reader(&self) -> bool {
        for looks in 0..ASKED {
            if self.came.load(Ordering::SeqCst) != 0 {
                return true;
            }
            if looks < SPINS {
                spin_loop();
            } else {
                yield_now();
            }
        }
        false
    }

    /// The writer is through.
    pub(crate) fn end(&self) {
        self.over.store(1, Ordering::SeqCst);
        self.bell.ring();
    }

    /// Whether the writer is through.
    pub(crate) fn is_over(&self) -> bool {
        self.over.load(Ordering::SeqCst) != 0
    }
}
