//! Four seats in threads of their own, which go through the run of one machine.

ghost use Rattle.std.specs.Prelude.{◌≡◌};
ghost use Rattle.std.specs.List.{All};
ghost use Rattle.hall.specs.Seats.{IsOf};
ghost use Rattle.machine_trials.specs.TrialSeats.{AreActors, MayServe};

use crate::numbering::Actors;
use crate::seats::{split_four, take_in_four};
use crate::serving::{MOST_TURNS, Way, act_all, go_to_the_end, is_last_turn};
use hall::{Hall, HallSeat};
use journal_core::Book;
use sched_io::OpenGate;
use std::sync::Wait;
use std::thread;
use std::thread::Threads;

/// What the seat does in its thread.
fn serve<R: Wait>(rt: &R, hall: &Hall, actors: Actors, way: Way, number: usize, seat: &mut HallSeat)
    requires { MayServe hall.now actors seat.old }
    ensures { MayServe hall.now actors seat.new }
{
    let mine = (way, number);
    match way {
        Way::Rounds => act_all(rt, hall, actors, seat, mine, &OpenGate),
        _ => {
            go_to_the_end(rt, hall, actors, seat, mine, &OpenGate);
        }
    }
}

/// Lets the seats act side by side, each in a thread of its own.
fn act_side_by_side<R: Threads + Wait + Sync>(
    rt: &R,
    hall: &Hall,
    actors: Actors,
    way: Way,
    seats: &mut [HallSeat],
)
    requires { All (MayServe hall.now actors) seats.old }
    ensures { All (MayServe hall.now actors) seats.new }
{
    thread::for_each_mut(
        rt,
        seats,
        4,
        &|i, seat|
            requires { MayServe hall.now actors seat.now }
            ensures { MayServe hall.entry.now actors seat.exit.now }
        { serve(rt, hall, actors, way, i, seat) },
    );
}

/// Goes on in rounds to the end of the run, or until the book is full: the seats act side by side, and then the first one takes a turn.
fn go_in_rounds<R: Threads + Wait + Sync>(
    rt: &R,
    hall: &Hall,
    actors: Actors,
    way: Way,
    first: &mut HallSeat,
    seats: &mut [HallSeat],
)
    requires of { IsOf hall.now first.old }
    requires serve { All (MayServe hall.now actors) seats.old }
    ensures of { IsOf hall.now first.new }
    ensures parts { first.new.sitting.view.shares ≡ first.old.sitting.view.shares }
    ensures serve { All (MayServe hall.now actors) seats.new }
{
    for _ in 0..MOST_TURNS {
        act_side_by_side(rt, hall, actors, way, seats);
        if is_last_turn(rt, hall, first) {
            return;
        }
    }
}

/// Goes through the run with the first seat and four more, and answers the book.
pub fn run_side_by_side<R: Threads + Wait + Sync>(
    rt: &R,
    hall: Hall,
    seat: HallSeat,
    actors: Actors,
    way: Way,
) -> Book
    requires of { IsOf hall seat }
    requires all { seat.sitting.view.shares ≡ 1024 }
    requires actors { AreActors hall.opened.input.config actors }
{
    let mut first = seat;
    let mut seats = split_four(&hall, actors, &mut first);
    go_in_rounds(rt, &hall, actors, way, &mut first, &mut seats);
    take_in_four(&hall, actors, &mut first, seats);
    hall.end(first)
}
