//! A bell on which threads sleep. No contract speaks of it: a wrong word here costs time, or somebody sleeps for ever, and no entry is wrong.

use crate::word::Word;
use std::sync::Wait;
use std::sync::atomic::Ordering;

/// A bell: how often it was rung, and how many sleep.
///
/// Who waits for something lies down, looks once more whether it is there, sleeps if it is not, and gets up. Who brings it about rings the bell behind it.
/// So no ring is missed.
#[derive(Drop)]
pub struct Bell {
    rung: Word,
    asleep: Word,
}

impl Bell {
    /// Nobody sleeps.
    pub fn new() -> Bell {
        Bell {
            rung: Word::new(),
            asleep: Word::new(),
        }
    }

    /// Wakes those who sleep.
    pub fn ring(&self) {
        if self.asleep.get() != 0 {
            self.rung.word.fetch_add(1, Ordering::SeqCst);
            self.rung.word.wake_all();
        }
    }

    /// Lies down: a ring is heard from now on. It answers how often the bell was rung.
    pub fn lie_down(&self) -> u64 {
        self.asleep.word.fetch_add(1, Ordering::SeqCst);
        self.rung.get()
    }

    /// Sleeps until the bell is rung, unless it was rung since one lay down.
    pub fn sleep<R: Wait>(&self, rt: &R, rung: u64) {
        self.rung.word.park(rt, (rung % (1 << 32)) as u32);
    }

    /// Gets up.
    pub fn get_up(&self) {
        self.asleep.word.fetch_sub(1, Ordering::SeqCst);
    }
}
