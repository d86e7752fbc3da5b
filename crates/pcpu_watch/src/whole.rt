//! A watched run by one seat: it takes what else the run needs, and goes through it.

ghost use Rattle.std.specs.Prelude.{◌≡◌, ◌≤◌, ◌<◌, [], IfOk, length};
ghost use Rattle.hall.specs.Seats.{IsOf, shares_in};
ghost use Rattle.status_board.specs.Boards.{nothing_seen, nothing_written};
ghost use Rattle.pcpu_watch.specs.Seats.{AreSeats};
ghost use Rattle.pcpu_watch.specs.WatchedRun.{IsWatched, end_of};

use crate::ends::WatchEnd;
use crate::looks::Looks;
use crate::seats::split_seats;
use crate::watched::run_watched;
use hall::{Hall, HallSeat};
use journal_core::Book;
use pcpu_threads::RunEnd;
use sched_base::NoMemory;
use sched_io::Gate;
use status_board::{BoardReader, BoardWriter, open};
use std::alloc::Global;
use std::sync::Wait;
use std::thread::Threads;

/// A board of so many cores, 1 to 64, to which nothing was added: its writer, and its one reader.
fn open_board(alloc: Global, cores: u8) -> Result<(BoardWriter, BoardReader), NoMemory>
    requires cores { (1 ≤ cores) × (cores ≤ 64) }
    ensures writer { IfOk result (λ r. r.0 ≡ nothing_written cores) }
    ensures reader { IfOk result (λ r. r.1 ≡ nothing_seen cores) }
{
    let (writer, mut readers) = open(alloc, cores, 1)?;
    match readers.pop() {
        Some(reader) => Ok((writer, reader)),
        None => unreachable!(),
    }
}

/// Goes through the run with all its seats and a board of so many cores.
fn watch<R: Threads + Wait + Sync, G: Gate + Sync>(
    rt: &R,
    alloc: Global,
    hall: Hall,
    seats: (HallSeat, Vec<HallSeat>, HallSeat),
    cores: u8,
    domains: u8,
    board: (BoardWriter, BoardReader),
    looks: Looks,
    gate: &G,
) -> Result<(Book, RunEnd, Looks), NoMemory>
    requires seats { AreSeats hall seats.0 seats.1.items seats.2 }
    requires domains { domains ≡ length hall.opened.input.config.domains }
    requires writer { board.0 ≡ nothing_written cores }
    requires reader { board.1 ≡ nothing_seen cores }
    requires looks { looks.items ≡ [] }
    requires room { hall.opened.limit < looks.room }
    ensures { IfOk result (λ r. IsWatched hall.opened r.0 (end_of r.1) r.2.items) }
{
    let (seat, workers, scribe) = seats;
    let (writer, reader) = board;
    let (book, end, looks) = run_watched(
        rt, alloc, hall, seat, workers, domains, scribe, writer, reader, looks, gate,
    );
    match end {
        WatchEnd::Finished => Ok((book, RunEnd::Finished, looks)),
        WatchEnd::Full => Ok((book, RunEnd::Full, looks)),
        WatchEnd::NoMemory => Err(NoMemory),
    }
}

/// Goes through a watched run by a seat that has all parts of the hall, whose machine has 1 to 64 processors and so many domains: with a worker for each
/// processor, a scribe, and a board with one reader. It answers the book, how the run ended, and the looks.
///
/// There is room for one look more than the book may have entries. Where memory is wanted, for the seats, for the board or for what it is to show, the run
/// is given up.
pub fn watch_run<R: Threads + Wait + Sync, G: Gate + Sync>(
    rt: &R,
    alloc: Global,
    hall: Hall,
    seat: HallSeat,
    processors: u8,
    domains: u8,
    looks: Looks,
    gate: &G,
) -> Result<(Book, RunEnd, Looks), NoMemory>
    requires of { IsOf hall seat }
    requires all { shares_in seat ≡ 1024 }
    requires processors { processors ≡ hall.opened.input.config.processors }
    requires few { (1 ≤ processors) × (processors ≤ 64) }
    requires domains { domains ≡ length hall.opened.input.config.domains }
    requires looks { looks.items ≡ [] }
    requires room { hall.opened.limit < looks.room }
    ensures { IfOk result (λ r. IsWatched hall.opened r.0 (end_of r.1) r.2.items) }
{
    let mut seat = seat;
    match open_board(alloc, processors) {
        Ok(board) => match split_seats(alloc, &hall, &mut seat, processors) {
            Ok((workers, scribe)) => watch(
                rt,
                alloc,
                hall,
                (seat, workers, scribe),
                processors,
                domains,
                board,
                looks,
                gate,
            ),
            Err(e) => {
                let (writer, reader) = board;
                drop(reader);
                writer.close(rt);
                drop(hall.end(seat));
                Err(e)
            }
        },
        Err(e) => {
            drop(hall.end(seat));
            Err(e)
        }
    }
}
