//! The moments of a watched run, as the writer of the board goes along with them.

ghost use Rattle.std.specs.Prelude.{OnOk};
ghost use Rattle.pcpu_watch.specs.Watcher.{BeginsWatch, CanLook, HasLooked, HasWatched, StaysWatch};

use crate::line::WriterEnd;
use crate::meeting::Meeting;
use crate::watch::{Watcher, take_turn};
use hall::Hall;
use pcpu_threads::Progress;
use sched_base::NoMemory;
use std::alloc::Global;
use std::sync::Wait;

/// The board's turn in the next moment, after which the crew may end it.
fn write_moment<R: Wait>(
    rt: &R,
    alloc: Global,
    hall: &Hall,
    progress: &Progress,
    meeting: &Meeting,
    line: &mut WriterEnd,
    watch: &mut Watcher,
) -> Result<(), NoMemory>
    requires can { CanLook hall.now watch.old }
    ensures stays { StaysWatch hall.now watch.old watch.new }
    ensures looked { OnOk result (HasLooked hall.now watch.old watch.new) }
{
    let moment = watch.looks.len();
    take_turn(rt, alloc, hall, meeting, line, watch)?;
    progress.turn_is_done(moment);
    Ok(())
}

/// A turn in each moment, until the run is over or the book is full.
fn write_moments<R: Wait>(
    rt: &R,
    alloc: Global,
    hall: &Hall,
    progress: &Progress,
    meeting: &Meeting,
    line: &mut WriterEnd,
    watch: &mut Watcher,
) -> Result<(), NoMemory>
    requires begins { BeginsWatch hall.now watch.old }
    ensures stays { StaysWatch hall.now watch.old watch.new }
    ensures watched { OnOk result (HasWatched hall.now watch.new) }
{
    write_moment(rt, alloc, hall, progress, meeting, line, watch)?;
    // Each moment but the last adds an entry, its End, so the room for looks is enough for all moments.
    for moment in 1..watch.looks.most() {
        if !progress.wait_for_moment(rt, moment) {
            break;
        }
        write_moment(rt, alloc, hall, progress, meeting, line, watch)?;
    }
    Ok(())
}

/// The writer's side of a watched run: in step with the crew, from the first moment to the last one. Its one error is want of memory: then the crew goes on alone.
pub(crate) fn write_in_step<R: Wait>(
    rt: &R,
    alloc: Global,
    hall: &Hall,
    progress: &Progress,
    meeting: &Meeting,
    line: &mut WriterEnd,
    watch: &mut Watcher,
) -> Result<(), NoMemory>
    requires begins { BeginsWatch hall.now watch.old }
    ensures stays { StaysWatch hall.now watch.old watch.new }
    ensures watched { OnOk result (HasWatched hall.now watch.new) }
{
    progress.keep_step();
    line.meet(meeting);
    let written = write_moments(rt, alloc, hall, progress, meeting, line, watch);
    progress.leave_step();
    meeting.end();
    written
}
