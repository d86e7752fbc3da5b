//! The part of a lock in the example.

ghost use Rattle.std.specs.Prelude.{◌≡◌, ◌<◌};
ghost use Rattle.lock_example.specs.Example.{names_after};

use lock_moves::{Names, Part};

/// The part of a lock after so many entries of the example's run. It stands for the part by the lock's number and the count.
#[derive(Drop)]
pub struct Counter {
    pub lock: u8,
    pub count: u8,
    ghost number: { lock < 17 },
    ghost entries: { count < 3 },
}

impl Counter {
    /// The part of this lock, 0 to 16, after this many entries of the run, at most 2.
    pub fn new(lock: u8, count: u8) -> Counter
        requires { (lock < 17) × (count < 3) }
        ensures lock { result.lock ≡ lock }
        ensures count { result.count ≡ count }
    {
        Counter { lock, count }
    }
}

// The names that the part of the lock lists after so many entries.
fn names_of(lock: u8, count: u8) -> Names
    ensures { result ≡ names_after lock count }
{
    if lock == 0 {
        return Names {
            res: if count < 2 { 1 } else { 3 },
            dom: 0,
        };
    }
    Names {
        res: if lock == 16 && count < 2 { 2 } else { 0 },
        dom: 0,
    }
}

impl Part for Counter {
    ghost use Rattle.lock_example.specs.Example.{part_after};

    ghost part = { λ c. part_after c.lock c.count };

    ghost suits = { λ m now c. Unit {0} };

    fn names(&self) -> Names {
        names_of(self.lock, self.count)
    }
}
