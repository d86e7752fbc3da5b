//! The end of a watched run: the seats are joined, the run goes on alone to its end, and the looks are completed.

ghost use Rattle.std.specs.Prelude.{◌≡◌, ◌+◌, ◌≤◌, ◌<◌, OnOk, length, take};
ghost use mathlib.Core.List.{IsPrefix};
ghost use Rattle.sched_model.specs.Runs.{IsRun};
ghost use Rattle.hall.specs.Seats.{IsOf, shares_in};
ghost use Rattle.pcpu_watch.specs.Crews.{AreLeft, IsCrew, parts_of};
ghost use Rattle.pcpu_watch.specs.Looks.{LooksSoFar};
ghost use Rattle.pcpu_watch.specs.Scribes.{front_of};
ghost use Rattle.pcpu_watch.specs.Seats.{AreTwo};
ghost use Rattle.pcpu_watch.specs.WatchedRun.{IsWatched};
ghost use Rattle.pcpu_watch.specs.Watcher.{HasWatched};

use crate::crew::Crew;
use crate::ends::{WatchEnd, watch_end};
use crate::looks::Looks;
use crate::rest::look_at_rest;
use crate::scribe::Scribe;
use crate::watch::Watcher;
use hall::{Hall, HallSeat};
use journal_core::Book;
use pcpu_threads::{close_down, join_all};
use sched_base::NoMemory;
use std::sync::Wait;

/// Joins the caller's seat to the scribe's: what the scribe had seen begins what both have seen.
fn join_scribe(hall: &Hall, seat: HallSeat, scribe: HallSeat) -> HallSeat
    requires of { IsOf hall.now seat }
    requires scribe { IsOf hall.now scribe }
    ensures of { IsOf hall.now result }
    ensures shares { shares_in result ≡ shares_in seat + shares_in scribe }
    ensures begins { IsPrefix (front_of scribe) (front_of result) }
{
    let mut both = scribe;
    hall.join(&mut both, seat);
    both
}

/// Ends a run for which memory was wanted before it began.
pub(crate) fn leave(hall: Hall, crew: Crew, scribe: HallSeat) -> Book
    requires crew { IsCrew hall crew }
    requires of { IsOf hall scribe }
    requires shares { parts_of crew + shares_in scribe ≡ 1024 }
    ensures input { result.input ≡ hall.opened.input }
    ensures limit { result.limit ≡ hall.opened.limit }
    ensures run { IsRun result.input result.history }
{
    let Crew {
        seat,
        workers,
        domains: _,
        threads: _,
    } = crew;
    let mut seat = seat;
    join_all(&hall, &mut seat, workers);
    give_up(hall, seat, scribe)
}

/// Ends a run whose moments were watched until it was over or its book full. `read` is how many entries the scribe's seat has read, and the looks are
/// those up to there.
fn finish<R: Wait>(
    rt: &R,
    hall: Hall,
    seat: HallSeat,
    scribe: HallSeat,
    read: u64,
    looks: Looks,
) -> (Book, WatchEnd, Looks)
    requires seats { AreTwo hall seat scribe }
    requires inside { read ≤ length (front_of scribe) }
    requires looks { LooksSoFar (take read (front_of scribe)) looks.items }
    requires room { hall.opened.limit < looks.room }
    ensures { IsWatched hall.opened result.0 result.1 result.2.items }
{
    let both = join_scribe(&hall, seat, scribe);
    let (book, end) = close_down(rt, hall, both);
    let mut looks = looks;
    look_at_rest(&book, read, &mut looks);
    (book, watch_end(end), looks)
}

/// Ends a run for which memory was wanted, where it stands.
fn give_up(hall: Hall, seat: HallSeat, scribe: HallSeat) -> Book
    requires seats { AreTwo hall seat scribe }
    ensures input { result.input ≡ hall.opened.input }
    ensures limit { result.limit ≡ hall.opened.limit }
    ensures run { IsRun result.input result.history }
{
    let mut seat = seat;
    hall.join(&mut seat, scribe);
    let book = hall.end(seat);
    book.tell();
    book
}

/// Ends a run that the crew and the writer went through, where the writer answers whether memory was wanted.
pub(crate) fn end_watched<R: Wait>(
    rt: &R,
    hall: Hall,
    crew: Crew,
    watch: Watcher,
    written: Result<(), NoMemory>,
) -> (Book, WatchEnd, Looks)
    requires crew { AreLeft hall crew }
    requires of { IsOf hall watch.scribe.seat }
    requires shares { parts_of crew + shares_in watch.scribe.seat ≡ 1024 }
    requires watched { OnOk written (HasWatched hall watch) }
    requires room { hall.opened.limit < watch.looks.room }
    ensures { IsWatched hall.opened result.0 result.1 result.2.items }
{
    let Crew {
        seat,
        workers,
        domains: _,
        threads: _,
    } = crew;
    let Watcher { scribe, looks } = watch;
    let Scribe {
        seat: last,
        writer,
        read,
        ended: _,
        latest: _,
        ahead: _,
    } = scribe;
    writer.close(rt);
    let mut seat = seat;
    join_all(&hall, &mut seat, workers);
    match written {
        Ok(()) => finish(rt, hall, seat, last, read, looks),
        Err(_) => (give_up(hall, seat, last), WatchEnd::NoMemory, looks),
    }
}
