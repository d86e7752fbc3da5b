//! The scribe: it reads the book, entry by entry, for the writer of the board.

ghost use Rattle.std.specs.Prelude.{◌≡◌, ◌≤◌, ◌<◌, ◌^◌, ◌⊎◌, Some, IfNone, IfSome, OnOk, OnSome, length, slice_get, take};
ghost use Rattle.sched_base.specs.Numbers.{moment};
ghost use Rattle.sched_report.specs.Stays.{last_moment};
ghost use Rattle.pcpu_watch.specs.Looks.{ShowsBeginning};
ghost use Rattle.pcpu_watch.specs.Scribes.{CanWrite, HasWritten, IsScribe, KeepsReading, MayKeep, ReadsOn, front_of, has_read};

use crate::ahead::Ahead;
use crate::entries::{moment_at, opens_next};
use crate::looks::Look;
use hall::{Hall, HallSeat};
use sched_base::{Moment, NoMemory};
use sched_model::event::Entry;
use status_board::BoardWriter;
use std::alloc::Global;
use std::sync::Wait;
use std::thread::yield_now;

/// A seat that reads the book for the writer of a board: how many entries it has read and given to the writer, how many moments end with these, the moment of the last
/// of them, and entries that were read ahead.
pub(crate) struct Scribe {
    pub seat: HallSeat,
    pub writer: BoardWriter,
    pub read: u64,
    pub ended: u32,
    pub latest: Moment,
    pub ahead: Ahead,
}

impl Scribe {
    /// A scribe that has read nothing.
    pub(crate) fn new(seat: HallSeat, writer: BoardWriter, ahead: Ahead) -> Scribe
        ensures { result ≡ record { seat = seat; writer = writer; read = 0; ended = 0; latest = moment 0; ahead = ahead } }
    {
        Scribe {
            seat,
            writer,
            read: 0,
            ended: 0,
            latest: Moment(0),
            ahead,
        }
    }

    /// The next entry of the book, if it stands there by now. The book is taken only where none was read ahead.
    fn next<R: Wait>(&mut self, rt: &R, hall: &Hall) -> Option<Entry>
        requires is { IsScribe hall.now self.old }
        ensures reading { KeepsReading hall.now self.old self.new }
        ensures found { IfSome result (λ e. slice_get (front_of self.new.seat) self.new.read ≡ Some e) }
        ensures few { OnSome result (self.new.read < 2 ^ 32) }
    {
        let place = u32::try_from(self.read).ok()?;
        if let Some(entry) = self.ahead.at(place) {
            return Some(entry);
        }
        self.ahead.read(rt, hall, &mut self.seat, place);
        self.ahead.at(place)
    }

    /// Gives the writer the next entry of the book, which this is.
    fn give(
        &mut self,
        alloc: Global,
        hall: &Hall,
        moment: u32,
        entry: Entry,
    ) -> Result<(), NoMemory>
        requires can { CanWrite hall.now moment self.old }
        requires due { self.old.ended < moment }
        requires found { slice_get (front_of self.old.seat) self.old.read ≡ Some entry }
        requires few { self.old.read < 2 ^ 32 }
        ensures on { ReadsOn hall.now self.old self.new }
        ensures can { CanWrite hall.now moment self.new }
    {
        self.writer.add(alloc, &entry)?;
        self.read += 1;
        self.latest = entry.at;
        self.ended += u32::from(opens_next(&entry));
        Ok(())
    }

    /// Gives the writer the next entry of the book, if it stands there by now.
    fn add_next<R: Wait>(
        &mut self,
        rt: &R,
        alloc: Global,
        hall: &Hall,
        moment: u32,
    ) -> Result<(), NoMemory>
        requires can { CanWrite hall.now moment self.old }
        requires due { self.old.ended < moment }
        ensures on { ReadsOn hall.now self.old self.new }
        ensures can { CanWrite hall.now moment self.new }
    {
        let Some(entry) = self.next(rt, hall) else {
            yield_now();
            return Ok(());
        };
        self.give(alloc, hall, moment, entry)
    }

    /// The moment of the last of so many entries of the book, if they stand in the book by now. The book is taken only where they are neither those that
    /// were learned of nor all that were read.
    fn moment_of_last<R: Wait>(
        &mut self,
        rt: &R,
        hall: &Hall,
        learned: Look,
        entries: u64,
    ) -> Option<Moment>
        requires is { IsScribe hall.now self.old }
        requires learned { ShowsBeginning (has_read self.old) learned }
        ensures reading { KeepsReading hall.now self.old self.new }
        ensures moment { IfSome result (λ t. t.0 ≡ last_moment (take entries (front_of self.new.seat))) }
        ensures none { IfNone result (entries ≤ 2 ^ 32 → length (front_of self.new.seat) < entries) }
    {
        if entries == learned.entries {
            return Some(learned.moment);
        }
        if entries == self.read {
            return Some(self.latest);
        }
        moment_at(rt, hall, &mut self.seat, entries)
    }

    /// The look that is kept of a moment: what was seen, where that is at least what was learned and at most what was read, and has the moment of the last
    /// of so many entries of the book; or else what was learned.
    pub(crate) fn kept<R: Wait>(&mut self, rt: &R, hall: &Hall, learned: Look, seen: Look) -> Look
        requires is { IsScribe hall.now self.old }
        requires learned { ShowsBeginning (has_read self.old) learned }
        ensures reading { KeepsReading hall.now self.old self.new }
        ensures shows { ShowsBeginning (has_read self.new) result }
        ensures least { learned.entries ≤ result.entries }
        ensures one { (result ≡ seen) ⊎ (result ≡ learned) }
        ensures as_seen { MayKeep self.old learned seen → result ≡ seen }
    {
        let within = learned.entries <= seen.entries && seen.entries <= self.read;
        match self.moment_of_last(rt, hall, learned, seen.entries) {
            Some(t) if within && t.0 == seen.moment.0 => seen,
            _ => learned,
        }
    }
}

/// A turn of the writer in the moment with this number, from 0: it adds and publishes the entries of the moments before it. It waits until these stand in
/// the book, and may wait for readers. Its one error is want of memory, and then nothing more is published.
pub(crate) fn write_turn<R: Wait>(
    rt: &R,
    alloc: Global,
    hall: &Hall,
    moment: u32,
    scribe: &mut Scribe,
) -> Result<(), NoMemory>
    requires can { CanWrite hall.now moment scribe.old }
    ensures on { ReadsOn hall.now scribe.old scribe.new }
    ensures written { OnOk result (HasWritten moment scribe.new) }
{
    for _ in rt.forever() {
        if scribe.ended == moment {
            break;
        }
        scribe.add_next(rt, alloc, hall, moment)?;
    }
    scribe.writer.publish(rt);
    Ok(())
}
