//! The end of a run: the workers are joined, and the seat that is left goes on alone.

ghost use Rattle.std.specs.Prelude.{◌≡◌, ◌+◌, [], IfSome, vec_capacity};
ghost use Rattle.std.specs.List.{All};
ghost use mathlib.Core.List.{IsPrefix};
ghost use Rattle.sched_model.specs.Runs.{IsRun, IsWholeRun};
ghost use Rattle.hall.specs.Seats.{IsOf};
ghost use Rattle.pcpu_threads.specs.Ends.{Closes, IsCutOff, IsEnded, KeepsOrder, book_seen};
ghost use Rattle.pcpu_threads.specs.Workers.{all_taken_in, shares_of};

use crate::ends::{RunEnd, end_of};
use hall::{Hall, HallSeat};
use journal_core::Book;
use std::sync::Wait;

/// Takes one turn of the whole machine, and answers how the run ended, where it did.
pub(crate) fn take_turn<R: Wait>(rt: &R, hall: &Hall, seat: &mut HallSeat) -> Option<RunEnd>
    requires { IsOf hall.now seat.old }
    ensures closes { Closes seat.old seat.new }
    ensures ended { IfSome result (λ end. IsEnded end (book_seen seat.new.sitting.view)) }
{
    end_of(hall.close_or_step(rt, seat))
}

/// Takes turns until the run is over or the book is full.
fn close_all<R: Wait>(rt: &R, hall: &Hall, seat: &mut HallSeat) -> RunEnd
    requires { IsOf hall.now seat.old }
    ensures closes { Closes seat.old seat.new }
    ensures ended { IsEnded result (book_seen seat.new.sitting.view) }
{
    for _ in rt.forever() {
        if let Some(end) = take_turn(rt, hall, seat) {
            return end;
        }
    }
    unreachable!()
}

/// Joins the workers to the seat, which takes in their parts, their own places and the longest front. The list is empty then, with the room that it had.
pub(crate) fn take_in(hall: &Hall, seat: &mut HallSeat, workers: &mut Vec<HallSeat>)
    requires of { IsOf hall.now seat.old }
    requires workers { All (IsOf hall.now) workers.old.items }
    ensures joined { seat.new ≡ all_taken_in workers.old.items seat.old }
    ensures of { IsOf hall.now seat.new }
    ensures shares { seat.new.sitting.view.shares
        ≡ seat.old.sitting.view.shares + shares_of workers.old.items }
    ensures empty { workers.new.items ≡ [] }
    ensures room { vec_capacity workers.new ≡ vec_capacity workers.old }
{
    while let Some(worker) = workers.pop() {
        hall.join(seat, worker);
    }
}

/// Joins the workers to the seat, which takes in their parts, their own places and the longest front.
pub fn join_all(hall: &Hall, seat: &mut HallSeat, workers: Vec<HallSeat>)
    requires of { IsOf hall.now seat.old }
    requires workers { All (IsOf hall.now) workers.items }
    ensures joined { seat.new ≡ all_taken_in workers.items seat.old }
    ensures of { IsOf hall.now seat.new }
    ensures shares { seat.new.sitting.view.shares
        ≡ seat.old.sitting.view.shares + shares_of workers.items }
{
    let mut workers = workers;
    take_in(hall, seat, &mut workers);
}

/// Goes on with the run by the one seat that is left, turn by turn of the whole machine, until the run is over or the book is full, and answers the
/// book. Where the entries that the seat had seen are an ordered run, so is the whole history.
pub fn close_down<R: Wait>(rt: &R, hall: Hall, seat: HallSeat) -> (Book, RunEnd)
    requires of { IsOf hall seat }
    requires all { seat.sitting.view.shares ≡ 1024 }
    ensures input { result.0.input ≡ hall.opened.input }
    ensures limit { result.0.limit ≡ hall.opened.limit }
    ensures begins { IsPrefix seat.sitting.view.front result.0.history }
    ensures run { IsRun result.0.input result.0.history }
    ensures ordered { KeepsOrder seat.sitting.view.front result.0 }
    ensures finished { result.1 ≡ RunEnd.Finished → IsWholeRun result.0.input result.0.history }
    ensures full { result.1 ≡ RunEnd.Full → IsCutOff result.0 }
{
    let mut seat = seat;
    let end = close_all(rt, &hall, &mut seat);
    (hall.end(seat), end)
}
