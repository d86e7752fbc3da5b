//! Runs in which each processor is simulated by a worker of its own.

ghost use Rattle.std.specs.Prelude.{◌≡◌, ◌<◌, ◌≤◌};
ghost use Rattle.hall.specs.Seats.{IsOf};
ghost use Rattle.pcpu_threads.specs.Workers.{AreWorkers};
ghost use Rattle.machine_trials.specs.TrialSeats.{AreActors};

use crate::counting::CountingGate;
use crate::crossing::{CrossingGate, HoldingGate};
use crate::numbering::Actors;
use crate::stop::Stop;
use hall::{Hall, HallSeat};
use journal_core::Book;
use pcpu_threads::{close_down, join_all, run_free, split_workers, work_all};
use sched_base::NoMemory;
use sched_io::Gate;
use std::alloc::Global;
use std::sync::Wait;
use std::thread::Threads;

/// Goes through the run with a worker for each processor, and answers the book.
pub fn run_by_workers<R: Threads + Wait + Sync, G: Gate + Sync>(
    rt: &R,
    alloc: Global,
    hall: Hall,
    seat: HallSeat,
    actors: Actors,
    gate: &G,
) -> Result<Book, NoMemory>
    requires of { IsOf hall seat }
    requires all { seat.sitting.view.shares ≡ 1024 }
    requires actors { AreActors hall.opened.input.config actors }
    requires few { (1 ≤ actors.processors) × (actors.processors ≤ 64) }
{
    let mut seat = seat;
    match split_workers(alloc, &hall, &mut seat, actors.processors) {
        Ok(workers) => {
            let (book, _) = run_free(rt, hall, seat, workers, actors.domains, gate);
            Ok(book)
        }
        Err(e) => {
            drop(hall.end(seat));
            Err(e)
        }
    }
}

/// Goes through the run with a worker for each processor, at a gate where two of them meet. It answers the book, and whether both came.
pub fn run_crossing<R: Threads + Wait + Sync>(
    rt: &R,
    alloc: Global,
    hall: Hall,
    seat: HallSeat,
    actors: Actors,
) -> Result<(Book, bool), Stop>
    requires of { IsOf hall seat }
    requires all { seat.sitting.view.shares ≡ 1024 }
    requires actors { AreActors hall.opened.input.config actors }
    requires few { (1 ≤ actors.processors) × (actors.processors ≤ 64) }
{
    let gate = CrossingGate::new();
    match run_by_workers(rt, alloc, hall, seat, actors, &gate) {
        Ok(book) => Ok((book, gate.was_crossed())),
        Err(NoMemory) => Err(Stop::NoMemory),
    }
}

/// Has the workers do their part of a round once, in at most so many threads, and then goes on to the end of the run by the one seat. It answers the book.
fn run_after_round<R: Threads + Wait + Sync, G: Gate + Sync>(
    rt: &R,
    alloc: Global,
    hall: Hall,
    seat: HallSeat,
    actors: Actors,
    threads: usize,
    gate: &G,
) -> Result<Book, NoMemory>
    requires of { IsOf hall seat }
    requires all { seat.sitting.view.shares ≡ 1024 }
    requires actors { AreActors hall.opened.input.config actors }
    requires few { (1 ≤ actors.processors) × (actors.processors ≤ 64) }
    requires threads { 0 < threads }
{
    let mut seat = seat;
    match split_workers(alloc, &hall, &mut seat, actors.processors) {
        Ok(mut workers) => {
            work_all(
                rt,
                &hall,
                workers.as_mut_slice(),
                actors.domains,
                threads,
                gate,
            );
            join_all(&hall, &mut seat, workers);
            let (book, _) = close_down(rt, hall, seat);
            Ok(book)
        }
        Err(e) => {
            drop(hall.end(seat));
            Err(e)
        }
    }
}

/// Has the workers do their part of a round in two threads, at a gate that holds processor 0 until an entry of processor 1 is in the book. It answers the
/// book of the whole run, and whether both came.
pub fn run_holding<R: Threads + Wait + Sync>(
    rt: &R,
    alloc: Global,
    hall: Hall,
    seat: HallSeat,
    actors: Actors,
) -> Result<(Book, bool), Stop>
    requires of { IsOf hall seat }
    requires all { seat.sitting.view.shares ≡ 1024 }
    requires actors { AreActors hall.opened.input.config actors }
    requires few { (1 ≤ actors.processors) × (actors.processors ≤ 64) }
{
    let gate = HoldingGate::new();
    match run_after_round(rt, alloc, hall, seat, actors, 2, &gate) {
        Ok(book) => Ok((book, gate.was_crossed())),
        Err(NoMemory) => Err(Stop::NoMemory),
    }
}

/// Has the workers act once each, one after the other in one thread, and then goes on to the end of the run by the one seat. It answers how often the gate
/// was passed by the workers.
pub fn passes_of_one_round<R: Threads + Wait + Sync>(
    rt: &R,
    alloc: Global,
    hall: Hall,
    seat: HallSeat,
    actors: Actors,
) -> Result<u64, NoMemory>
    requires of { IsOf hall seat }
    requires all { seat.sitting.view.shares ≡ 1024 }
    requires actors { AreActors hall.opened.input.config actors }
    requires few { (1 ≤ actors.processors) × (actors.processors ≤ 64) }
{
    let gate = CountingGate::new();
    drop(run_after_round(rt, alloc, hall, seat, actors, 1, &gate)?);
    Ok(gate.passes())
}
