//! How long somebody who waits looks before it sleeps. No contract speaks of it: a wrong number here costs time, and no entry is wrong.

use crate::word::Word;

/// The most looks before a sleep: they take longer than the system takes to wake a thread.
const MOST: u64 = 5_000;

/// The fewest looks before a sleep.
const FEWEST: u64 = 32;

/// Behind so many sleeps it is tried whether it pays again to look for long.
const TRIED: u64 = 64;

/// How often a thread looks for what it waits for before it sleeps: for long where that was enough the last times, and for short where it was not. So
/// threads that have a processor each do not sleep, and those that share one do not keep each other from running.
#[derive(Drop)]
pub struct Patience {
    looks: Word,
    sleeps: Word,
}

impl Patience {
    /// At first it looks for long.
    pub fn new() -> Patience {
        let looks = Word::new();
        looks.set(MOST);
        Patience {
            looks,
            sleeps: Word::new(),
        }
    }

    /// Whether one who has looked so often looks once more before it sleeps.
    pub fn lasts(&self, looks: u64) -> bool {
        looks < self.looks.get()
    }

    /// What was waited for has come after so many looks. Where it came before one slept, one looks twice as long the next time.
    pub fn has_come(&self, looks: u64) {
        let most = self.looks.get();
        if looks < most && most < MOST {
            self.looks.set(most.saturating_mul(2).min(MOST));
        }
    }

    /// One gives up looking, and sleeps: the next time one looks half as long.
    pub fn give_up(&self) {
        let sleeps = self.sleeps.get().wrapping_add(1);
        self.sleeps.set(sleeps);
        let looks = if sleeps % TRIED == 0 {
            MOST
        } else {
            (self.looks.get() / 2).max(FEWEST)
        };
        self.looks.set(looks);
    }
}
