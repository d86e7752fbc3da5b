//! Seats that are split off, and taken in again.

ghost use Rattle.std.specs.Prelude.{◌≡◌, ◌<◌, ◌+◌};
ghost use Rattle.std.specs.List.{All};
ghost use Rattle.hall.specs.Seats.{IsOf};
ghost use Rattle.machine_trials.specs.TrialSeats.{AreActors, MayServe};

use crate::numbering::Actors;
use hall::{Hall, HallSeat};

/// A seat with one of the parts of this one.
pub fn split_off(hall: &Hall, seat: &mut HallSeat) -> HallSeat
    requires of { IsOf hall.now seat.old }
    requires two { 1 < seat.old.sitting.view.shares }
    ensures of { IsOf hall.now seat.new }
    ensures parts { seat.new.sitting.view.shares + 1 ≡ seat.old.sitting.view.shares }
    ensures new { IsOf hall.now result }
    ensures one { result.sitting.view.shares ≡ 1 }
{
    hall.split(seat)
}

/// Takes in a seat that has one part.
pub fn take_in(hall: &Hall, into: &mut HallSeat, seat: HallSeat)
    requires of { IsOf hall.now into.old }
    requires other { IsOf hall.now seat }
    requires one { seat.sitting.view.shares ≡ 1 }
    ensures of { IsOf hall.now into.new }
    ensures parts { into.new.sitting.view.shares ≡ into.old.sitting.view.shares + 1 }
{
    hall.join(into, seat);
}

/// Four seats with a part each.
pub fn split_four(hall: &Hall, actors: Actors, first: &mut HallSeat) -> [HallSeat; 4]
    requires of { IsOf hall.now first.old }
    requires all { first.old.sitting.view.shares ≡ 1024 }
    requires actors { AreActors hall.now.opened.input.config actors }
    ensures of { IsOf hall.now first.new }
    ensures parts { first.new.sitting.view.shares ≡ 1020 }
    ensures serve { All (MayServe hall.now actors) result }
{
    let a = split_off(hall, first);
    let b = split_off(hall, first);
    let c = split_off(hall, first);
    let d = split_off(hall, first);
    [a, b, c, d]
}

/// Takes in all of them.
pub fn take_in_four(hall: &Hall, actors: Actors, first: &mut HallSeat, seats: [HallSeat; 4])
    requires of { IsOf hall.now first.old }
    requires parts { first.old.sitting.view.shares ≡ 1020 }
    requires serve { All (MayServe hall.now actors) seats }
    ensures of { IsOf hall.now first.new }
    ensures all { first.new.sitting.view.shares ≡ 1024 }
{
    let [a, b, c, d] = seats;
    take_in(hall, first, a);
    take_in(hall, first, b);
    take_in(hall, first, c);
    take_in(hall, first, d);
}
