//! A turn of the whole machine: its next entry, under all locks.

ghost use Rattle.std.specs.Prelude.{◌≡◌, ◌<◌, None, Some, IfOk, IfErr, length};
ghost use Rattle.sched_model.specs.Machine.{first_enabled_action};
ghost use Rattle.lock_moves.specs.SeatSight.{find_lock};
ghost use Rattle.machine_parts.specs.Places.{GoesOn, state_of};
ghost use Rattle.machine_parts.specs.Told.{told_of};
ghost use Rattle.hall.specs.SeatKnowledge.{KnowsAll};
ghost use Rattle.hall.specs.Seats.{IsOf, Stays};
ghost use Rattle.hall.specs.BookTurns.{FullWhole, Turns};
ghost use Rattle.hall.specs.Steps.{BeginsTurn};
ghost use Rattle.hall.specs.Turns.{IsTurn, TurnsFull};
ghost use Rattle.lock_moves.specs.Words.{book_lock};

use crate::act::is_over;
use crate::all::{AllParts, put_all, take_all};
use crate::book::{put_book, take_book};
use crate::hall::Hall;
use crate::hints::{Hints, hints_behind};
use crate::seat::{HallSeat, arrived_after};
use crate::turns::{Full, Turn};
use crate::whole::{end_moment, finish, perform};
use lock_moves::{HeldBook, LockSeat};
use machine_parts::places::{read_firsts, read_nexts};
use machine_parts::{Trail, whole_first, whole_next};
use sched_base::Moment;
use sched_model::action::Action;
use std::sync::Wait;

impl Hall {
    /// Adds the next entry of the run, under all locks, and answers it with its place: the first event of the machine that may come now,
    /// or else the end of the moment, or else the end of the run. It waits for locks. Where the run is over already, it answers the place of the last
    /// entry. Full comes only where the run is not over and the book has no room; nothing is changed then.
    pub fn close_or_step<R: Wait>(&self, rt: &R, seat: &mut HallSeat) -> Result<Turn, Full>
        requires of { IsOf self.now seat.old }
        ensures stays { Stays seat.old seat.new }
        ensures turn { IfOk result (λ turn. IsTurn turn seat.old seat.new) }
        ensures full { IfErr result (λ full.
            TurnsFull full seat.old.sitting.view seat.new.sitting.view) }
        ensures kept { IfErr result (λ full. seat.new.arrived ≡ seat.old.arrived) }
    {
        let (turn, _) = self.turn_all(rt, seat, false)?;
        Ok(turn)
    }

    /// The same, with hints for the moment that follows where this one was ended, and none else.
    pub fn close_and_look<R: Wait>(
        &self,
        rt: &R,
        seat: &mut HallSeat,
    ) -> Result<(Turn, Hints), Full>
        requires of { IsOf self.now seat.old }
        ensures stays { Stays seat.old seat.new }
        ensures turn { IfOk result (λ r. IsTurn r.0 seat.old seat.new) }
        ensures full { IfErr result (λ full.
            TurnsFull full seat.old.sitting.view seat.new.sitting.view) }
        ensures kept { IfErr result (λ full. seat.new.arrived ≡ seat.old.arrived) }
    {
        self.turn_all(rt, seat, true)
    }

    /// The same, with hints where they are asked for.
    fn turn_all<R: Wait>(
        &self,
        rt: &R,
        seat: &mut HallSeat,
        looks: bool,
    ) -> Result<(Turn, Hints), Full>
        requires of { IsOf self.now seat.old }
        ensures stays { Stays seat.old seat.new }
        ensures turn { IfOk result (λ r. IsTurn r.0 seat.old seat.new) }
        ensures full { IfErr result (λ full.
            TurnsFull full seat.old.sitting.view seat.new.sitting.view) }
        ensures kept { IfErr result (λ full. seat.new.arrived ≡ seat.old.arrived) }
    {
        let mut all = take_all(rt, &self.set, &mut seat.seat);
        let book = take_book(rt, &self.set, &mut seat.seat);
        match self.turn(&mut seat.seat, book, &mut all) {
            Ok((turn, decides)) => {
                let hints = hints_behind(turn, all.slots.as_slice(), self.granularity, looks);
                put_all(&self.set, &mut seat.seat, all);
                if let Turn::Stepped { event, .. } = turn {
                    seat.arrived = arrived_after(seat.arrived, event, decides);
                }
                Ok((turn, hints))
            }
            Err(full) => {
                put_all(&self.set, &mut seat.seat, all);
                Err(full)
            }
        }
    }

    /// Adds the next entry of the run to the book, or puts the book back as it was.
    pub(crate) fn turn(
        &self,
        seat: &mut LockSeat,
        book: HeldBook,
        all: &mut AllParts,
    ) -> Result<(Turn, u32), Full>
        requires begins { BeginsTurn self.now book seat.old }
        requires knows { KnowsAll all.old seat.old.view }
        ensures knows { KnowsAll all.new seat.new.view }
        ensures book { find_lock book_lock seat.new.view.held ≡ None }
        ensures turn { IfOk result (λ r. Turns r.0 r.1 book seat.old seat.new) }
        ensures full { IfErr result (λ full. FullWhole full book seat.old seat.new) }
    {
        if is_over(book.get()) {
            let place = book.get().len() - 1;
            put_book(&self.set, seat, book);
            return Ok((Turn::Over { place }, 0));
        }
        book.get().tell();
        if !book.get().room_left() {
            let events = book.get().limit();
            put_book(&self.set, seat, book);
            return Err(Full { events });
        }
        let t = book.get().now();
        let trail = Trail::of(book.get());
        let mut firsts = [None; 16];
        read_firsts(all.slots.as_slice(), t, &mut firsts);
        match whole_first(all.slots.as_slice(), &all.tool.tool, &firsts, &trail, t) {
            Some(action) => Ok(self.step(seat, book, all, action, t)),
            None => Ok((self.close(seat, book, all, t), 0)),
        }
    }

    /// Does the first event of the machine.
    fn step(
        &self,
        seat: &mut LockSeat,
        book: HeldBook,
        all: &mut AllParts,
        action: Action,
        t: Moment,
    ) -> (Turn, u32)
        requires begins { BeginsTurn self.now book seat.old }
        requires goes { GoesOn (told_of book) }
        requires room { length book.history < book.limit }
        requires now { t.0 ≡ seat.old.view.now }
        requires knows { KnowsAll all.old seat.old.view }
        requires first { first_enabled_action book.input (state_of (told_of book))
            (state_of (told_of book)).now ≡ Some action }
        ensures knows { KnowsAll all.new seat.new.view }
        ensures book { find_lock book_lock seat.new.view.held ≡ None }
        ensures turn { Turns result.0 result.1 book seat.old seat.new }
    {
        let place = book.get().len();
        let decides = self.decides_before(book.get(), action);
        let event = perform(&self.set, self.granularity, seat, book, all, action, t);
        (Turn::Stepped { place, event }, decides)
    }

    /// Ends the moment, or the run, where nothing may come now.
    fn close(&self, seat: &mut LockSeat, book: HeldBook, all: &AllParts, t: Moment) -> Turn
        requires begins { BeginsTurn self.now book seat.old }
        requires goes { GoesOn (told_of book) }
        requires room { length book.history < book.limit }
        requires now { t.0 ≡ seat.old.view.now }
        requires knows { KnowsAll all.now seat.old.view }
        requires quiet { first_enabled_action book.input (state_of (told_of book))
            (state_of (told_of book)).now ≡ None }
        ensures knows { KnowsAll all.now seat.new.view }
        ensures book { find_lock book_lock seat.new.view.held ≡ None }
        ensures turn { Turns result 0 book seat.old seat.new }
    {
        let place = book.get().len();
        let trail = Trail::of(book.get());
        let none = [None; 16];
        let mut nexts = [None; 16];
        read_nexts(all.slots.as_slice(), &none, &mut nexts);
        let next = whole_next(
            all.slots.as_slice(),
            &all.tool.tool,
            &nexts,
            &trail,
            t,
            self.horizon,
        );
        match next {
            Some(next) => {
                end_moment(&self.set, seat, book, t, next);
                Turn::Closed { place, next }
            }
            None => {
                finish(&self.set, seat, book, t);
                Turn::Finished { place }
            }
        }
    }
}
