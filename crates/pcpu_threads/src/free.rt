//! The run in which each processor is simulated by a worker of its own.

ghost use Rattle.std.specs.Prelude.{◌≡◌, ◌≤◌, length};
ghost use Rattle.sched_model.specs.Runs.{IsRun, IsWholeRun};
ghost use Rattle.pcpu_threads.specs.Ends.{IsCutOff};
ghost use Rattle.pcpu_threads.specs.Workers.{AreWorkers};

use crate::closing::{close_down, join_all};
use crate::crew::run_crew;
use crate::ends::RunEnd;
use crate::progress::Progress;
use hall::{Hall, HallSeat};
use journal_core::Book;
use sched_io::Gate;
use std::sync::Wait;
use std::thread::{Threads, available_parallelism};

/// In how many threads the workers are: as many as there are processors to run on, and at least two, so that workers of which each waits for the
/// other at a gate may meet.
pub fn threads_for<R: Threads>(rt: &R) -> usize
    ensures { 2 ≤ result }
{
    match available_parallelism(rt) {
        Ok(processors) => processors.get().max(2),
        Err(_) => 2,
    }
}

/// A run in which each processor is simulated by a worker of its own. The workers do what they find, side by side in as many threads as there are
/// processors to run on; then the caller does one event that they left, or ends the moment where they left none, and the workers are at it again. It goes on until
/// the run is over or the book is full, and answers the book. Whatever the order of the workers' steps, the history is a run of the machine.
///
/// The workers are those of `split_workers`; `domains` is how many domains the hall's input has.
pub fn run_free<R: Threads + Wait + Sync, G: Gate + Sync>(
    rt: &R,
    hall: Hall,
    seat: HallSeat,
    workers: Vec<HallSeat>,
    domains: u8,
    gate: &G,
) -> (Book, RunEnd)
    requires workers { AreWorkers hall seat workers.items }
    requires domains { domains ≡ length hall.opened.input.config.domains }
    ensures input { result.0.input ≡ hall.opened.input }
    ensures limit { result.0.limit ≡ hall.opened.limit }
    ensures run { IsRun result.0.input result.0.history }
    ensures finished { result.1 ≡ RunEnd.Finished → IsWholeRun result.0.input result.0.history }
    ensures full { result.1 ≡ RunEnd.Full → IsCutOff result.0 }
{
    let mut seat = seat;
    let mut workers = workers;
    let threads = threads_for(rt);
    run_crew(
        rt,
        &hall,
        domains,
        threads,
        gate,
        &Progress::new(),
        &mut seat,
        &mut workers,
    );
    join_all(&hall, &mut seat, workers);
    close_down(rt, hall, seat)
}
