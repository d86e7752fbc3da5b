//! Entries of the book, one at a time.

ghost use Rattle.std.specs.Prelude.{◌≡◌, ◌<◌, ◌≤◌, ◌^◌, Some, IfNone, IfSome, OnSome, length, slice_get, take};
ghost use Rattle.sched_report.specs.Stays.{last_moment};
ghost use Rattle.hall.specs.Seats.{IsOf};
ghost use Rattle.pcpu_watch.specs.Moments.{has_next_moment};
ghost use Rattle.pcpu_watch.specs.Scribes.{SeesOn, front_of};

use hall::{Hall, HallSeat};
use sched_base::Moment;
use sched_model::event::{Entry, Event};
use std::sync::Wait;

/// Whether the entry ends its moment, and another one follows.
pub(crate) fn opens_next(e: &Entry) -> bool
    ensures { result ≡ has_next_moment e.now.event }
{
    matches!(e.event, Event::End { .. })
}

/// The entry at the place, from 0, if it stands in the book by now. It takes the book, and waits until it is free.
pub(crate) fn entry_at<R: Wait>(
    rt: &R,
    hall: &Hall,
    seat: &mut HallSeat,
    place: u64,
) -> Option<Entry>
    requires of { IsOf hall.now seat.old }
    ensures on { SeesOn hall.now seat.old seat.new }
    ensures found { IfSome result (λ e. slice_get (front_of seat.new) place ≡ Some e) }
    ensures few { OnSome result (place < 2 ^ 32) }
    ensures none { IfNone result (place < 2 ^ 32 → length (front_of seat.new) ≤ place) }
{
    match u32::try_from(place) {
        Ok(i) => hall.entry(rt, seat, i),
        Err(_) => None,
    }
}

/// The moment of the last of so many entries of the book, 0 where it is none of them, if they stand in the book by now.
pub(crate) fn moment_at<R: Wait>(
    rt: &R,
    hall: &Hall,
    seat: &mut HallSeat,
    entries: u64,
) -> Option<Moment>
    requires of { IsOf hall.now seat.old }
    ensures on { SeesOn hall.now seat.old seat.new }
    ensures moment { IfSome result (λ t. t.0 ≡ last_moment (take entries (front_of seat.new))) }
    ensures none { IfNone result (entries ≤ 2 ^ 32 → length (front_of seat.new) < entries) }
{
    if entries == 0 {
        return Some(Moment(0));
    }
    let last = entry_at(rt, hall, seat, entries - 1)?;
    Some(last.at)
}
