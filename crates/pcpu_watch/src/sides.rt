//! The threads of a watched run, each of which is made once: the crew's, the writer's and the reader's.

ghost use Rattle.std.specs.Prelude.{OnOk};
ghost use Rattle.pcpu_watch.specs.Crews.{HasRun, IsCrew};
ghost use Rattle.pcpu_watch.specs.Watcher.{BeginsWatch, HasWatched, StaysWatch};

use crate::crew::{Crew, run};
use crate::line::WriterEnd;
use crate::meeting::Meeting;
use crate::moments::write_in_step;
use crate::reader::{Reading, read_moments};
use crate::watch::Watcher;
use hall::Hall;
use pcpu_threads::Progress;
use sched_base::NoMemory;
use sched_io::Gate;
use std::alloc::Global;
use std::sync::Wait;
use std::thread::{Threads, join_mut};

/// The watching side of a run: the reader in a thread of its own, and the writer in this one. Where no thread can be made, the reader comes last, and nothing is
/// seen but what was told.
fn watch_in_step<R: Threads + Wait + Sync>(
    rt: &R,
    alloc: Global,
    hall: &Hall,
    progress: &Progress,
    line: &mut WriterEnd,
    watch: &mut Watcher,
    reading: &mut Reading,
) -> Result<(), NoMemory>
    requires begins { BeginsWatch hall.now watch.old }
    ensures stays { StaysWatch hall.now watch.old watch.new }
    ensures watched { OnOk result (HasWatched hall.now watch.new) }
{
    let meeting = Meeting::new();
    let shared = &meeting;
    let ((), written) = join_mut(
        rt,
        &mut || read_moments(rt, shared, reading),
        &mut ||
            requires { BeginsWatch hall.now watch.now }
            ensures stays { StaysWatch hall.entry.now watch.entry.now watch.exit.now }
            ensures watched { OnOk result (HasWatched hall.entry.now watch.exit.now) }
        { write_in_step(rt, alloc, hall, progress, shared, line, watch) },
    );
    written
}

/// The run, and beside it, in a thread of its own, the watching side. Where no thread can be made, that comes last, and finds all moments begun.
pub(crate) fn run_and_watch<R: Threads + Wait + Sync, G: Gate + Sync>(
    rt: &R,
    alloc: Global,
    hall: &Hall,
    gate: &G,
    crew: &mut Crew,
    line: &mut WriterEnd,
    watch: &mut Watcher,
    reading: &mut Reading,
) -> Result<(), NoMemory>
    requires crew { IsCrew hall.now crew.old }
    requires begins { BeginsWatch hall.now watch.old }
    ensures crew { HasRun hall.now crew.old crew.new }
    ensures stays { StaysWatch hall.now watch.old watch.new }
    ensures watched { OnOk result (HasWatched hall.now watch.new) }
{
    let progress = Progress::new();
    progress.expect_turns();
    let shared = &progress;
    let (written, ()) = join_mut(
        rt,
        &mut ||
            requires { BeginsWatch hall.now watch.now }
            ensures stays { StaysWatch hall.entry.now watch.entry.now watch.exit.now }
            ensures watched { OnOk result (HasWatched hall.entry.now watch.exit.now) }
        { watch_in_step(rt, alloc, hall, shared, line, watch, reading) },
        &mut ||
            requires { IsCrew hall.now crew.now }
            ensures { HasRun hall.entry.now crew.entry.now crew.exit.now }
        { run(rt, hall, gate, shared, crew) },
    );
    written
}
