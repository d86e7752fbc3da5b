//! The hall: a machine whose parts lie under locks, and the calls that open it, share it out and end it.
//!
//! *Design.* A hall is one machine for many threads. Each works through a seat, its handle, which knows the beginning of the history that it has
//! seen. The program makes two calls: `act_pool` does all events of a pool that may come now, whoever does them, and `close_or_step` (`close_and_look`)
//! does the next entry of the whole machine, and alone ends moments and the run. `act` does the first event of one actor, that is of a processor, of
//! a domain or of the tool, or none. What an entry says is judged in the state that the history before it leads to, so any order of the callers'
//! steps makes the beginning of a run.
//!
//! *Locking.* There are 18 locks (`lock_moves`): one for each slot of a pool, one for what the tool keeps, and one for the book with the history.
//! An event of a processor or a domain takes two: its pool's, where the event is looked for, and then the book's, under which it is done and its
//! entry added. `act_pool` takes both once, and keeps the book for all its events; `act` does one and gives both back. So threads in different pools
//! meet at the book alone. Commands, stalls, moves and the ends of moments take all 18. Locks are taken in rising order of their numbers, the book's last;
//! between two calls a seat holds none. Which lock has a core or a domain is read from its name's word, and read again under the lock, since a move may
//! have come between. `still_waits` is one load of a word, without a lock. `entry` and `entries`, which read the history,
//! take the book.
//!
//! *Time.* The moment is a word that is set only under all locks. So it stands still while any lock is held, and all events of a moment are
//! done before it ends.
//!
//! *Ordering.* The history's order is that in which entries were added to the book. Of the events of an actor that may come, a call does
//! the first by kind, then by number and index. Between actors no order is promised, but that the end of a moment comes where nothing more
//! may come in it.
//!
//! All memory of a run is taken in `open`.

ghost use Rattle.std.specs.Prelude.{◌≡◌, [], drop, take, vec_capacity};

use crate::book::{put_book, take_book};
use crate::parts::open_values;
use crate::seat::HallSeat;
use crate::turns::Waits;
use crate::value::PartState;
use composition_laws::names::law_names_stand_once;
use journal_core::Book;
use lock_moves::LockSet;
use sched_base::{Moment, NoMemory, ProcId, ResId};
use sched_model::config::Config;
use sched_model::event::Entry;
use sched_model::work::Work;
use std::alloc::Global;
use std::marker::Model;
use std::sync::Wait;

/// A machine for up to 1024 callers, each in a thread of its own. Contracts see which set of locks it is, and the book that it was opened with.
///
/// A pool's events are done under the lock of that pool alone, and its entry is added while the book's lock is held too; acts of the tool and
/// the ends of moments are done under all locks. All moments are in nanoseconds.
#[derive(Drop)]
pub struct Hall {
    pub(crate) set: LockSet<PartState>,
    pub(crate) granularity: u8,
    pub(crate) horizon: Moment,
}

impl Model for Hall {
    ghost use Rattle.lock_moves.specs.Sets.{LockTable};
    ghost use Rattle.hall.specs.Seats.{IsHallOf};

    ghost Value = { LockTable };

    ghost view = { λ h. h.set };

    ghost invariant = { λ h. IsHallOf h.set.opened.input h.granularity h.horizon.0 };
}

/// Puts the entries of the book from this place on into an empty list, as many as stand there and as the list has room for.
fn copy_entries(book: &Book, from: u32, into: &mut Vec<Entry>)
    requires empty { into.old.items ≡ [] }
    ensures found { into.new.items ≡ take (vec_capacity into.old) (drop from book.now.history) }
    ensures room { vec_capacity into.new ≡ vec_capacity into.old }
{
    for place in from..book.len() {
        if into.len() >= into.capacity() {
            return;
        }
        into.push_reserved(book.get(place));
    }
}

impl Hall {
    ghost use Rattle.std.specs.Prelude.{◌≡◌, ◌≤◌, ◌<◌, ℕ, [], true, None, IfOk, drop, length, slice_get, take, vec_capacity};
    ghost use Rattle.sched_model.specs.CheckedMachine.{IsChecked};
    ghost use Rattle.journal_core.specs.Books.{chronicle};
    ghost use Rattle.lock_moves.specs.SeatSight.{after_join, after_sharing, newcomer, opening_view, has_place};
    ghost use Rattle.lock_moves.specs.Sets.{sitting_with};
    ghost use Rattle.hall.specs.Seats.{IsOf, Stays};
    ghost use Rattle.hall.specs.Turns.{IsWaiting, Looked};

    /// A hall of this machine, at its opening, and its first seat, which has all 1024 parts and whose front is empty. Its book has room for so
    /// many entries, 1 to 4,000,000. All memory of the run is taken here.
    pub fn open(
        alloc: Global,
        config: &Config,
        work: &Work,
        events: u32,
    ) -> Result<(Hall, HallSeat), NoMemory>
        requires checked { IsChecked (record { config = config.now; work = work.now }) }
        requires few { (1 ≤ events) × (events ≤ 4000000) }
        ensures of { IfOk result (λ r. IsOf r.0 r.1) }
        ensures opened { IfOk result (λ r. r.0.opened ≡ chronicle config.now work.now [] events) }
        ensures view { IfOk result (λ r. r.1.sitting.view
            ≡ opening_view (chronicle config.now work.now [] events)) }
        ensures arrived { IfOk result (λ r. r.1.arrived ≡ None) }
    {
        law_names_stand_once();
        let book = Book::room(alloc, config, work, events)?;
        let values = match open_values(alloc, config, work) {
            Ok(values) => values,
            Err(full) => {
                drop(book);
                return Err(full);
            }
        };
        let (set, seat) = LockSet::open(alloc, values, book)?;
        let hall = Hall {
            set,
            granularity: config.granularity,
            horizon: config.horizon,
        };
        Ok((
            hall,
            HallSeat {
                seat,
                arrived: None,
            },
        ))
    }

    /// A second seat, with one of the parts of this one and with the same front. It keeps no arrival.
    pub fn split(&self, seat: &mut HallSeat) -> HallSeat
        requires of { IsOf self.now seat.old }
        requires two { 1 < seat.old.sitting.view.shares }
        ensures kept { seat.new ≡ record seat.old
            { sitting = sitting_with seat.old.sitting (after_sharing seat.old.sitting.view) } }
        ensures of { IsOf self.now result }
        ensures new { result.sitting.view ≡ newcomer seat.old.sitting.view }
        ensures arrived { result.arrived ≡ None }
    {
        HallSeat {
            seat: self.set.split(&mut seat.seat),
            arrived: None,
        }
    }

    /// Takes in another seat: the parts and the own places of both, and the longer front. The arrival that this one keeps stays.
    pub fn join(&self, into: &mut HallSeat, seat: HallSeat)
        requires of { IsOf self.now into.old }
        requires other { IsOf self.now seat }
        ensures { into.new ≡ record into.old {
          sitting = sitting_with into.old.sitting
              (after_join into.old.sitting.view seat.sitting.view);
        } }
    {
        let HallSeat { seat, .. } = seat;
        self.set.join(&mut into.seat, seat);
    }

    /// The book, whose history is the front of the one seat that is left. Each of its places is one of this seat's own.
    pub fn end(self, seat: HallSeat) -> Book
        requires of { IsOf self seat }
        requires only { seat.sitting.view.shares ≡ 1024 }
        ensures input { result.input ≡ seat.sitting.view.input }
        ensures limit { result.limit ≡ seat.sitting.view.limit }
        ensures history { result.history ≡ seat.sitting.view.front }
        ensures own { (p : ℕ) → length self.opened.history ≤ p →
            p < length seat.sitting.view.front → has_place p seat.sitting.view.own ≡ true }
    {
        let Hall { set, .. } = self;
        let HallSeat { seat, .. } = seat;
        set.close(seat)
    }

    /// The entry at the place i of the history, from 0, or none exactly where the history has at most so many entries. It takes the book, and waits
    /// until it is free.
    pub fn entry<R: Wait>(&self, rt: &R, seat: &mut HallSeat, i: u32) -> Option<Entry>
        requires of { IsOf self.now seat.old }
        ensures stays { Stays seat.old seat.new }
        ensures looked { Looked seat.old.sitting.view seat.new.sitting.view }
        ensures arrived { seat.new.arrived ≡ seat.old.arrived }
        ensures found { result ≡ slice_get seat.new.sitting.view.front i }
    {
        let book = take_book(rt, &self.set, &mut seat.seat);
        let found = if i < book.get().len() {
            Some(book.get().get(i))
        } else {
            None
        };
        put_book(&self.set, &mut seat.seat, book);
        found
    }

    /// Puts the entries of the history from this place on, from 0, into an empty list, as many as stand there and as the list has room for. It takes the
    /// book, and waits until it is free.
    pub fn entries<R: Wait>(&self, rt: &R, seat: &mut HallSeat, from: u32, into: &mut Vec<Entry>)
        requires of { IsOf self.now seat.old }
        requires empty { into.old.items ≡ [] }
        ensures stays { Stays seat.old seat.new }
        ensures looked { Looked seat.old.sitting.view seat.new.sitting.view }
        ensures arrived { seat.new.arrived ≡ seat.old.arrived }
        ensures found { into.new.items
            ≡ take (vec_capacity into.old) (drop from seat.new.sitting.view.front) }
        ensures room { vec_capacity into.new ≡ vec_capacity into.old }
    {
        let book = take_book(rt, &self.set, &mut seat.seat);
        copy_entries(book.get(), from, into);
        put_book(&self.set, &mut seat.seat, book);
    }

    /// Whether the processor, whose last arrival this seat keeps, still waits for its siblings. That is told by one load of its core's stage
    /// word, without a lock. A processor that is the first of its core never waits, and then nothing is loaded, nor where no arrival of it
    /// is kept.
    pub fn still_waits(&self, seat: &mut HallSeat, p: ProcId) -> Waits
        requires of { IsOf self.now seat.old }
        ensures stays { Stays seat.old seat.new }
        ensures waits { IsWaiting self.now.opened.input.config.granularity p result seat.old
            seat.new }
    {
        let core = p.0 / self.granularity;
        match seat.arrived {
            Some(a) if a.p.0 == p.0 && p.0 != core * self.granularity => {
                let decides = self.set.read_stage(&mut seat.seat, ResId(core));
                if decides > u64::from(a.decides) {
                    Waits::Gone { decides }
                } else {
                    Waits::Still
                }
            }
            _ => Waits::NotWaiting,
        }
    }
}
