//! How far a run is: what its crew tells those who go along with it, and what they tell the crew. No contract speaks of it: a wrong word here costs
//! time, or the run does not end, and no entry is wrong.

use crate::bell::Bell;
use crate::patience::Patience;
use crate::word::Word;
use std::hint::spin_loop;
use std::sync::Wait;
use std::sync::atomic::Ordering;
use std::thread::yield_now;

/// How often it is asked whether the crew has begun, or the one who takes turns has come.
const ASKED: u64 = 2_000;

/// After so many of these looks other threads are let run between two of them.
const SPINS: u64 = 200;

/// Turns are expected, and nobody has come to take them.
const EXPECTED: u64 = 1;

/// Somebody takes turns.
const KEPT: u64 = 2;

/// Of the crew: whether it has begun, how many entries stand and how many moments have ended, and whether the run is over. Of those who go along:
/// whether turns are taken, and of how many moments the turn is done, with the bell of those who wait for a moment or a turn, and the patience of the
/// crew and of the other one; and at how many entries one who reads is to be woken, with its bell.
#[derive(Drop)]
pub struct Progress {
    begun: Word,
    entries: Word,
    ended: Word,
    over: Word,
    in_step: Word,
    turns: Word,
    steps: Bell,
    crew: Patience,
    other: Patience,
    wanted: Word,
    reader: Bell,
}

/// Looks so often, and then lets other threads run.
fn pause(looks: u64) {
    if looks < SPINS {
        spin_loop();
    } else {
        yield_now();
    }
}

impl Progress {
    /// No crew has begun.
    pub fn new() -> Progress {
        Progress {
            begun: Word::new(),
            entries: Word::new(),
            ended: Word::new(),
            over: Word::new(),
            in_step: Word::new(),
            turns: Word::new(),
            steps: Bell::new(),
            crew: Patience::new(),
            other: Patience::new(),
            wanted: Word::new(),
            reader: Bell::new(),
        }
    }

    /// The crew begins.
    pub(crate) fn begin(&self) {
        self.begun.set(1);
    }

    /// The crew has ended a moment, whose last entry has this place.
    pub(crate) fn end_moment(&self, place: u32) {
        let entries = u64::from(place) + 1;
        self.entries.set(entries);
        self.ended.word.fetch_add(1, Ordering::SeqCst);
        self.steps.ring();
        if self.wanted.get() <= entries {
            self.reader.ring();
        }
    }

    /// The run is over, or the book full.
    pub(crate) fn end(&self) {
        self.over.set(1);
        self.steps.ring();
        self.reader.ring();
    }

    /// Whether the turn of the moment in which the crew is has still to be waited for.
    fn turn_is_due(&self) -> bool {
        self.in_step.get() != 0 && self.turns.get() <= self.ended.get()
    }

    /// Waits a little for the one who is expected, and in the end no more.
    fn wait_to_come(&self, looks: u64) {
        if looks < ASKED {
            pause(looks);
        } else {
            let _ = self
                .in_step
                .word
                .compare_exchange(EXPECTED, 0, Ordering::SeqCst, Ordering::SeqCst);
        }
    }

    /// The crew waits until the turn of the moment that it is in is done, where such turns are taken. Where they are expected, it waits some time for the
    /// one who takes them, and not without bound: where no thread can be made, that one comes later.
    pub(crate) fn wait_for_turn<R: Wait>(&self, rt: &R) {
        let mut looks = 0u64;
        for _ in rt.forever() {
            if !self.turn_is_due() {
                self.crew.has_come(looks);
                return;
            }
            if self.in_step.get() == EXPECTED {
                self.wait_to_come(looks);
            } else if self.crew.lasts(looks) {
                spin_loop();
            } else {
                self.crew.give_up();
                let rung = self.steps.lie_down();
                if self.turn_is_due() {
                    self.steps.sleep(rt, rung);
                }
                self.steps.get_up();
            }
            looks = looks.saturating_add(1);
        }
    }

    /// Whether the crew has begun. It waits for that some time, and not without bound: where no thread can be made, the crew comes later.
    pub fn has_begun(&self) -> bool {
        for looks in 0..ASKED {
            if self.begun.get() != 0 {
                return true;
            }
            pause(looks);
        }
        false
    }

    /// Whether the run is over.
    pub fn is_over(&self) -> bool {
        self.over.get() != 0
    }

    /// Whether so many entries stand, or the run is over.
    pub fn has_entries(&self, count: u64) -> bool {
        self.is_over() || self.entries.get() >= count
    }

    /// Sleeps until so many entries stand, or the run is over. One thread alone may sleep so.
    pub fn wait_for_entries<R: Wait>(&self, rt: &R, count: u64) {
        self.wanted.set(count);
        for _ in rt.forever() {
            let rung = self.reader.lie_down();
            if !self.has_entries(count) {
                self.reader.sleep(rt, rung);
            }
            self.reader.get_up();
            if self.has_entries(count) {
                return;
            }
        }
    }

    /// Turns are to be taken: the crew, when it begins, waits for the one who takes them.
    pub fn expect_turns(&self) {
        self.in_step.set(EXPECTED);
    }

    /// The one who takes turns has come: from now on the crew ends no moment before its turn is done.
    pub fn keep_step(&self) {
        self.in_step.set(KEPT);
    }

    /// From now on it waits for nobody.
    pub fn leave_step(&self) {
        self.in_step.set(0);
        self.steps.ring();
    }

    /// Whether the moment with this number has not begun, and may still come.
    fn moment_is_due(&self, moment: u32) -> bool {
        !self.is_over() && self.ended.get() < u64::from(moment)
    }

    /// Waits until the moment with this number, from 0, has begun. False where the run is over, and there is no such moment.
    pub fn wait_for_moment<R: Wait>(&self, rt: &R, moment: u32) -> bool {
        let mut looks = 0u64;
        for _ in rt.forever() {
            if !self.moment_is_due(moment) {
                break;
            }
            if self.other.lasts(looks) {
                spin_loop();
            } else {
                self.other.give_up();
                let rung = self.steps.lie_down();
                if self.moment_is_due(moment) {
                    self.steps.sleep(rt, rung);
                }
                self.steps.get_up();
            }
            looks = looks.saturating_add(1);
        }
        self.other.has_come(looks);
        self.ended.get() >= u64::from(moment)
    }

    /// The turn of the moment with this number, from 0, is done.
    pub fn turn_is_done(&self, moment: u32) {
        self.turns.set(u64::from(moment) + 1);
        self.steps.ring();
    }
}
