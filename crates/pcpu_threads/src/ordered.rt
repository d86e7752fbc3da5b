//! The ordered run, by one caller.

ghost use Rattle.std.specs.Prelude.{◌≡◌, []};
ghost use Rattle.sched_model.specs.Runs.{IsWholeRun};
ghost use Rattle.run_laws.specs.RunLaws.{IsOrderedRun};
ghost use Rattle.hall.specs.Seats.{IsOf};
ghost use Rattle.pcpu_threads.specs.Ends.{IsCutOff};

use crate::closing::close_down;
use crate::ends::RunEnd;
use hall::{Hall, HallSeat};
use journal_core::Book;
use std::sync::Wait;

/// The ordered run: each entry is the first event of the whole machine that may come, or the end of a moment or of the run where none may. It goes
/// on until the run is over or the book is full, and answers the book.
pub fn run_ordered<R: Wait>(rt: &R, hall: Hall, seat: HallSeat) -> (Book, RunEnd)
    requires of { IsOf hall seat }
    requires all { seat.sitting.view.shares ≡ 1024 }
    requires new { seat.sitting.view.front ≡ [] }
    ensures input { result.0.input ≡ hall.opened.input }
    ensures limit { result.0.limit ≡ hall.opened.limit }
    ensures ordered { IsOrderedRun result.0.input result.0.history }
    ensures finished { result.1 ≡ RunEnd.Finished → IsWholeRun result.0.input result.0.history }
    ensures full { result.1 ≡ RunEnd.Full → IsCutOff result.0 }
{
    close_down(rt, hall, seat)
}
