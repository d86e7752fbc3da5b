//! A run beside which a board is written and looked at.

ghost use Rattle.std.specs.Prelude.{◌≡◌, ◌<◌, [], IfOk, length};
ghost use Rattle.status_board.specs.Boards.{nothing_seen, nothing_written};
ghost use Rattle.pcpu_watch.specs.Seats.{AreSeats};
ghost use Rattle.pcpu_watch.specs.WatchedRun.{IsWatched};

use crate::ahead::Ahead;
use crate::crew::Crew;
use crate::ending::{end_watched, leave};
use crate::ends::WatchEnd;
use crate::line::{ReaderEnd, WriterEnd, open_line};
use crate::looks::Looks;
use crate::reader::Reading;
use crate::scribe::Scribe;
use crate::sides::run_and_watch;
use crate::watch::Watcher;
use hall::{Hall, HallSeat};
use journal_core::Book;
use pcpu_threads::threads_for;
use sched_base::NoMemory;
use sched_io::Gate;
use status_board::{BoardReader, BoardWriter};
use std::alloc::Global;
use std::sync::Wait;
use std::thread::Threads;

/// What a watched run takes beside its seats and its board: room to read ahead, and the line between the writer and the reader.
fn make_ready(alloc: Global) -> Result<(Ahead, WriterEnd, ReaderEnd), NoMemory>
    ensures { IfOk result (λ r. r.0.entries.items ≡ []) }
{
    let ahead = Ahead::room(alloc)?;
    let (writer, reader) = open_line(alloc)?;
    Ok((ahead, writer, reader))
}

/// A run in which each processor is simulated by a worker of its own, as `run_free` makes it. In each moment, beside the crew, one turn of the writer
/// adds and publishes the entries of all earlier moments, and one turn of the reader learns what was told at the end of the moment before, and looks once.
/// The writer and the reader have a thread of their own each, which is made once; the crew ends a moment when the writer's turn for it is done. Where the reader
/// gets no thread, what was learned is kept. It answers the book, how the run ended, and the looks.
///
/// A look is kept as it was seen where it shows at least what was learned and at most what is published, and has the moment of the last of so many entries
/// of the book; otherwise what was learned is kept. So there is one look for each moment, and no look goes back. Where memory is wanted, at the beginning or for
/// what the board is to show, the book's history is the beginning of a run.
///
/// The writer and the reader are of one board, to which nothing was added. `scribe` is the seat from which the book is read; `domains` is how many domains
/// the hall's input has. There is room for one look more than the book may have entries.
pub fn run_watched<R: Threads + Wait + Sync, G: Gate + Sync>(
    rt: &R,
    alloc: Global,
    hall: Hall,
    seat: HallSeat,
    workers: Vec<HallSeat>,
    domains: u8,
    scribe: HallSeat,
    writer: BoardWriter,
    reader: BoardReader,
    looks: Looks,
    gate: &G,
) -> (Book, WatchEnd, Looks)
    requires seats { AreSeats hall seat workers.items scribe }
    requires domains { domains ≡ length hall.opened.input.config.domains }
    requires writer { writer ≡ nothing_written writer.cores }
    requires reader { reader ≡ nothing_seen writer.cores }
    requires looks { looks.items ≡ [] }
    requires room { hall.opened.limit < looks.room }
    ensures { IsWatched hall.opened result.0 result.1 result.2.items }
{
    let mut crew = Crew {
        seat,
        workers,
        domains,
        threads: threads_for(rt),
    };
    let (ahead, mut line, other) = match make_ready(alloc) {
        Ok(ready) => ready,
        Err(_) => {
            drop(reader);
            writer.close(rt);
            return (leave(hall, crew, scribe), WatchEnd::NoMemory, looks);
        }
    };
    let mut watch = Watcher {
        scribe: Scribe::new(scribe, writer, ahead),
        looks,
    };
    let mut reading = Reading {
        reader,
        line: other,
    };
    let watched = run_and_watch(
        rt,
        alloc,
        &hall,
        gate,
        &mut crew,
        &mut line,
        &mut watch,
        &mut reading,
    );
    drop(reading);
    end_watched(rt, hall, crew, watch, watched)
}
