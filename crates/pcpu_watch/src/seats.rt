//! The seats of a watched run.

ghost use Rattle.std.specs.Prelude.{◌≡◌, ◌≤◌, IfErr, IfOk};
ghost use Rattle.hall.specs.Seats.{IsOf, shares_in};
ghost use Rattle.pcpu_watch.specs.Seats.{AreSeats};

use hall::{Hall, HallSeat};
use pcpu_threads::split_workers;
use sched_base::NoMemory;
use std::alloc::Global;

/// Splits the other seats of a watched run from this one, which has all parts: a worker for each of the hall's 1 to 64 processors, and the seat of the scribe.
/// All memory is taken here; where it is wanted, nothing is changed.
pub fn split_seats(
    alloc: Global,
    hall: &Hall,
    seat: &mut HallSeat,
    processors: u8,
) -> Result<(Vec<HallSeat>, HallSeat), NoMemory>
    requires of { IsOf hall.now seat.old }
    requires all { shares_in seat.old ≡ 1024 }
    requires processors { processors ≡ hall.now.opened.input.config.processors }
    requires few { (1 ≤ processors) × (processors ≤ 64) }
    ensures seats { IfOk result (λ r. AreSeats hall.now seat.new r.0.items r.1) }
    ensures refused { IfErr result (λ e. seat.new ≡ seat.old) }
{
    let workers = split_workers(alloc, hall, seat, processors)?;
    let scribe = hall.split(seat);
    Ok((workers, scribe))
}
