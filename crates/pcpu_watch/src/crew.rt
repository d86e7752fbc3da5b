//! The caller and the workers of a run, who go through it.

ghost use Rattle.pcpu_watch.specs.Crews.{HasRun, IsCrew};

use hall::{Hall, HallSeat};
use pcpu_threads::{Progress, run_crew};
use sched_io::Gate;
use std::sync::Wait;
use std::thread::Threads;

/// The caller's seat, a worker for each processor, the number of the domains, and in how many threads the workers are.
pub(crate) struct Crew {
    pub seat: HallSeat,
    pub workers: Vec<HallSeat>,
    pub domains: u8,
    pub threads: usize,
}

/// Goes through the run, until it is over or the book is full.
pub(crate) fn run<R: Threads + Wait + Sync, G: Gate + Sync>(
    rt: &R,
    hall: &Hall,
    gate: &G,
    progress: &Progress,
    crew: &mut Crew,
)
    requires { IsCrew hall.now crew.old }
    ensures { HasRun hall.now crew.old crew.new }
{
    run_crew(
        rt,
        hall,
        crew.domains,
        crew.threads,
        gate,
        progress,
        &mut crew.seat,
        &mut crew.workers,
    );
}
