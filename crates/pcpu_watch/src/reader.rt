//! The reader of a board, beside a run.

ghost use Rattle.std.specs.Prelude.{◌≡◌};
ghost use mathlib.Core.List.{IsPrefix};
ghost use Rattle.status_board.specs.Boards.{longer_list};
ghost use Rattle.pcpu_watch.specs.Looks.{look_of};

use crate::line::ReaderEnd;
use crate::looks::{Look, shown};
use crate::meeting::Meeting;
use status_board::{BoardReader, Told};
use std::sync::Wait;

/// A reader of a board, with its end of the line to the writer.
#[derive(Drop)]
pub(crate) struct Reading {
    pub reader: BoardReader,
    pub line: ReaderEnd,
}

/// A turn of the reader: it learns what was told, and looks once. What is told of another board it does not learn.
fn read_turn(told: Told, reader: &mut BoardReader) -> Look
    ensures look { result ≡ look_of reader.new.seen }
    ensures later { told.cores ≡ reader.old.cores → IsPrefix (longer_list reader.old.seen told.list) reader.new.seen }
    ensures cores { reader.new.cores ≡ reader.old.cores }
{
    if told.fits(reader) {
        reader.learn(told);
    }
    shown(&reader.look())
}

/// One turn for each time that the writer tells something, until the writer is through.
pub(crate) fn read_moments<R: Wait>(rt: &R, meeting: &Meeting, reading: &mut Reading) {
    meeting.come();
    for _ in rt.forever() {
        let Some(told) = reading.line.wait_to_be_told(rt, meeting) else {
            return;
        };
        let look = read_turn(told, &mut reading.reader);
        reading.line.show(meeting, look);
    }
}
