//! What the threads of a run share beside the hall: which pools have something to do, and whether somebody is at it. No contract speaks of it: a wrong
//! word here costs time, or the run does not end, and no entry is wrong.

use crate::bell::Bell;
use crate::word::Word;
use hall::Hints;
use sched_base::{DomId, ProcId};
use sched_model::action::Actor;
use std::hint::spin_loop;
use std::sync::Wait;
use std::sync::atomic::{AtomicU64, Ordering};
use std::thread::yield_now;

/// How often a thread looks before it sleeps.
const LOOKS: u32 = 2000;

/// In so many moments, the first of a run, nothing is known of how much there is to do in one: so the workers are in threads side by side.
pub const FIRST_MOMENTS: u32 = 16;

/// As many entries of a moment pay for waking other threads.
const MANY: u32 = 2000;

/// How much there was to do in the moments so far.
#[derive(Clone, Copy)]
pub(crate) struct Pace {
    moments: u32,
    place: u32,
    entries: u32,
}

impl Pace {
    /// At the beginning.
    pub(crate) fn new() -> Pace {
        Pace {
            moments: 0,
            place: 0,
            entries: 0,
        }
    }

    /// A moment has ended, whose last entry has this place.
    pub(crate) fn end_moment(&mut self, place: u32) {
        self.moments = self.moments.saturating_add(1);
        self.entries = place.saturating_sub(self.place);
        self.place = place;
    }

    /// Whether the moment is worth waking other threads: nothing is known yet, or the last one had many entries.
    pub(crate) fn is_worth_threads(&self) -> bool {
        self.moments < FIRST_MOMENTS || self.entries >= MANY
    }
}

/// How many threads have come; the pools that wait for a thread, with bit i for the pool i, and with whom each begins; how many of them are not through;
/// whether the run is over; and the bell for those who sleep.
#[derive(Drop)]
pub(crate) struct Pulse {
    came: Word,
    first: [AtomicU64; 16],
    open: Word,
    left: Word,
    over: Word,
    bell: Bell,
}

/// The actor as a number, 0 for none.
fn number_of(actor: Option<Actor>) -> u64 {
    match actor {
        Some(Actor::Proc(p)) => 1 + u64::from(p.0),
        Some(Actor::Dom(d)) => 257 + u64::from(d.0),
        Some(Actor::Tool) | None => 0,
    }
}

/// The actor with this number.
fn actor_with(number: u64) -> Option<Actor> {
    match number {
        1..257 => Some(Actor::Proc(ProcId((number - 1) as u8))),
        257..513 => Some(Actor::Dom(DomId((number - 257) as u8))),
        _ => None,
    }
}

/// The pools with something to do, with bit i for the pool i.
pub(crate) fn pools_of(hints: &Hints) -> u64 {
    let mut pools = 0u64;
    for i in 0..16usize {
        if hints.first(i).is_some() {
            pools |= 1u64 << i;
        }
    }
    pools
}

impl Pulse {
    /// Nothing to do yet.
    pub(crate) fn new() -> Pulse {
        Pulse {
            came: Word::new(),
            first: [
                AtomicU64::new(0),
                AtomicU64::new(0),
                AtomicU64::new(0),
                AtomicU64::new(0),
                AtomicU64::new(0),
                AtomicU64::new(0),
                AtomicU64::new(0),
                AtomicU64::new(0),
                AtomicU64::new(0),
                AtomicU64::new(0),
                AtomicU64::new(0),
                AtomicU64::new(0),
                AtomicU64::new(0),
                AtomicU64::new(0),
                AtomicU64::new(0),
                AtomicU64::new(0),
            ],
            open: Word::new(),
            left: Word::new(),
            over: Word::new(),
            bell: Bell::new(),
        }
    }

    /// How many have come before. So there is one who leads also where no thread can be made, and the caller takes one row after the other.
    pub(crate) fn came_before(&self) -> u64 {
        self.came.word.fetch_add(1, Ordering::SeqCst)
    }

    /// The pools that have something to do wait for threads from now on, and those who sleep are woken.
    pub(crate) fn open(&self, hints: &Hints) {
        for i in 0..16usize {
            self.first[i].store(number_of(hints.first(i)), Ordering::SeqCst);
        }
        let pools = pools_of(hints);
        self.left.set(u64::from(pools.count_ones()));
        self.open.set(pools);
        self.bell.ring();
    }

    /// Takes one of the pools that wait, one of these where there is one, and answers with whom it begins.
    pub(crate) fn claim(&self, own: u64) -> Option<Option<Actor>> {
        for _ in 0..64u32 {
            let open = self.open.get();
            let some = if open & own == 0 { open } else { open & own };
            if some == 0 {
                return None;
            }
            let i = some.trailing_zeros() % 16;
            let bit = 1u64 << i;
            if self.open.word.fetch_and(!bit, Ordering::SeqCst) & bit != 0 {
                return Some(actor_with(self.first[i as usize].load(Ordering::SeqCst)));
            }
        }
        None
    }

    /// A pool that was taken is through.
    pub(crate) fn is_through(&self) {
        self.left.word.fetch_sub(1, Ordering::SeqCst);
    }

    /// Waits until all pools are through, or one waits for a thread again. It looks often, and then lets other threads run.
    pub(crate) fn rest<R: Wait>(&self, rt: &R) {
        let mut looks = 0u32;
        for _ in rt.forever() {
            if self.left.get() == 0 || self.open.get() != 0 {
                return;
            }
            looks = looks.saturating_add(1);
            if looks < LOOKS {
                spin_loop();
            } else {
                yield_now();
            }
        }
    }

    /// Whether all pools are through.
    pub(crate) fn all_through(&self) -> bool {
        self.left.get() == 0
    }

    /// Waits until a pool waits for a thread. False where the run is over. It looks often, and then sleeps.
    pub(crate) fn wait_for_pool<R: Wait>(&self, rt: &R) -> bool {
        let mut looks = 0u32;
        for _ in rt.forever() {
            if self.open.get() != 0 {
                return true;
            }
            if self.over.get() != 0 {
                return false;
            }
            looks = looks.saturating_add(1);
            if looks < LOOKS {
                spin_loop();
            } else {
                self.sleep(rt);
                looks = 0;
            }
        }
        false
    }

    /// Sleeps until the bell is rung, unless there is something to do.
    fn sleep<R: Wait>(&self, rt: &R) {
        let rung = self.bell.lie_down();
        if self.open.get() == 0 && self.over.get() == 0 {
            self.bell.sleep(rt, rung);
        }
        self.bell.get_up();
    }

    /// The run is over.
    pub(crate) fn end(&self) {
        self.over.set(1);
        self.bell.ring();
    }
}
