//! What the calls of a hall answer.

use sched_base::Moment;
use sched_model::event::Event;

/// What was done in a pool: how many events were added to the history, and the place of the first of them, from 0.
#[derive(Clone, Copy)]
pub struct Acted {
    pub count: u64,
    pub first: Option<u32>,
}

impl Acted {
    ghost use Rattle.std.specs.Prelude.{◌≡◌, ◌+◌, ◌≤◌, None};
    ghost use Rattle.hall.specs.Holds.{first_with};

    /// Nothing yet.
    pub(crate) fn nothing() -> Acted
        ensures count { result.count ≡ 0 }
        ensures first { result.first ≡ None }
    {
        Acted {
            count: 0,
            first: None,
        }
    }

    /// One event more, whose entry has this place.
    pub(crate) fn add(&mut self, place: u32)
        requires few { self.old.count ≤ place }
        ensures count { self.new.count ≡ self.old.count + 1 }
        ensures first { self.new.first ≡ first_with place self.old.first }
    {
        self.count += 1;
        if self.first.is_none() {
            self.first = Some(place);
        }
    }
}

/// What an actor did. The place is that of the entry in the history, from 0.
#[derive(Clone, Copy)]
pub enum Done {
    Event { place: u32, event: Event },
    Nothing,
}

/// What a turn of the whole machine did: an event, the end of the moment with the next one in nanoseconds, or the end of the run; or nothing, where the
/// run was over. The place is that of the entry in the history, from 0.
#[derive(Clone, Copy)]
pub enum Turn {
    Stepped { place: u32, event: Event },
    Closed { place: u32, next: Moment },
    Finished { place: u32 },
    Over { place: u32 },
}

/// The book has as many entries as it may have, and one more is due. Nothing was changed.
#[derive(Clone, Copy)]
pub struct Full {
    pub events: u32,
}

/// Whether a processor that arrived still waits for its siblings: its core has not decided since; it has, so many times in all; or the
/// seat keeps no arrival of this processor for which it waits.
#[derive(Clone, Copy)]
pub enum Waits {
    Still,
    Gone { decides: u64 },
    NotWaiting,
}
