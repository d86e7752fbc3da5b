//! The turn of the board in one moment, and the look that is kept of it.

ghost use Rattle.std.specs.Prelude.{OnOk};
ghost use Rattle.pcpu_watch.specs.Watcher.{CanLook, HasLooked, StaysWatch};

use crate::line::WriterEnd;
use crate::looks::{Looks, shown};
use crate::meeting::Meeting;
use crate::scribe::{Scribe, write_turn};
use hall::Hall;
use sched_base::NoMemory;
use std::alloc::Global;
use std::sync::Wait;

/// What watches a run: a scribe with the writer of a board, and what was seen so far.
pub(crate) struct Watcher {
    pub scribe: Scribe,
    pub looks: Looks,
}

/// The board's turn in the next moment, and the look that is kept of it. What the reader learns is what was published before; it looks while the writer adds
/// and publishes. The one error is want of memory, and then no look is kept.
pub(crate) fn take_turn<R: Wait>(
    rt: &R,
    alloc: Global,
    hall: &Hall,
    meeting: &Meeting,
    line: &mut WriterEnd,
    watch: &mut Watcher,
) -> Result<(), NoMemory>
    requires can { CanLook hall.now watch.old }
    ensures stays { StaysWatch hall.now watch.old watch.new }
    ensures looked { OnOk result (HasLooked hall.now watch.old watch.new) }
{
    let told = watch.scribe.writer.tell();
    let learned = shown(&told.totals());
    let moment = watch.looks.len();
    let is_told = line.tell(meeting, told);
    write_turn(rt, alloc, hall, moment, &mut watch.scribe)?;
    let seen = if is_told {
        line.wait_for_look(rt, meeting)
    } else {
        learned
    };
    let look = watch.scribe.kept(rt, hall, learned, seen);
    watch.looks.push(look);
    Ok(())
}
