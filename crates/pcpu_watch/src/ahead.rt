//! Entries of the book that are read ahead, many in one take of the book.

ghost use Rattle.std.specs.Prelude.{◌≡◌, ◌≤◌, ◌-◌, [], Some, IfOk, IfSome, slice_get};
ghost use Rattle.hall.specs.Seats.{IsOf};
ghost use Rattle.pcpu_watch.specs.Scribes.{IsAhead, SeesOn, front_of};

use hall::{Hall, HallSeat};
use sched_base::NoMemory;
use sched_model::event::Entry;
use std::alloc::Global;
use std::sync::Wait;

/// The most entries that are read in one take of the book.
const MOST: usize = 64;

/// Entries of the book that were read ahead, in their order, and the place of the first of them. All memory for them is taken when it is made.
#[derive(Drop)]
pub(crate) struct Ahead {
    first: u32,
    entries: Vec<Entry>,
}

impl Ahead {
    /// No entry, with room for some.
    pub(crate) fn room(alloc: Global) -> Result<Ahead, NoMemory>
        ensures { IfOk result (λ ahead. ahead.entries.items ≡ []) }
    {
        let entries = Vec::with_capacity(alloc, MOST)?;
        Ok(Ahead { first: 0, entries })
    }

    /// The entry at the place of the book, where it was read ahead.
    pub(crate) fn at(&self, place: u32) -> Option<Entry>
        ensures low { IfSome result (λ e. self.now.first ≤ place) }
        ensures found { IfSome result (λ e. slice_get self.now.entries.items (place - self.now.first) ≡ Some e) }
    {
        let number = place.checked_sub(self.first)?;
        self.entries.get(number as usize).copied()
    }

    /// Reads the book anew, from this place on. It takes the book, and waits until it is free.
    pub(crate) fn read<R: Wait>(&mut self, rt: &R, hall: &Hall, seat: &mut HallSeat, place: u32)
        requires of { IsOf hall.now seat.old }
        ensures on { SeesOn hall.now seat.old seat.new }
        ensures ahead { IsAhead (front_of seat.new) self.new }
    {
        self.first = place;
        self.entries.clear();
        hall.entries(rt, seat, place, &mut self.entries);
    }
}
