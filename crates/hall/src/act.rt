//! What one actor does: the events of a processor or of a domain under the lock of one pool, and those of the tool under all locks.

ghost use mathlib.Core.List.{IsPrefix};
ghost use Rattle.std.specs.Prelude.{◌≡◌, ◌<◌, [], true, Option, None, IfOk, IfErr};
ghost use Rattle.sched_model.specs.declared.action.Actor.TheVariants.{Tool};
ghost use Rattle.journal_core.specs.Histories.{reached_by};
ghost use Rattle.lock_moves.specs.SeatSight.{find_lock};
ghost use Rattle.hall.specs.declared.seat.Arrival.{Arrival as ArrivalSpec};
ghost use Rattle.hall.specs.SeatKnowledge.{KnowsAll};
ghost use Rattle.hall.specs.Seats.{IsOf, IsSeatOf, SeatStays, Stays};
ghost use Rattle.hall.specs.BookTurns.{Settles, SettlesFull};
ghost use Rattle.hall.specs.Holds.{InHold, IsArrivalOf, IsHolder, seated};
ghost use Rattle.hall.specs.Steps.{BeginsTurn};
ghost use Rattle.hall.specs.Turns.{ActsFull, IsDone, is_actor};
ghost use Rattle.journal_core.specs.Parts.{tool_lock};
ghost use Rattle.lock_moves.specs.Words.{book_lock, name_number};

use crate::all::{AllParts, put_all, take_all};
use crate::book::{put_book, take_book};
use crate::hall::Hall;
use crate::hold::Holder;
use crate::seat::{Arrival, HallSeat};
use crate::turns::{Done, Full};
use crate::whole::perform;
use journal_core::Book;
use lock_moves::{HeldBook, LockId, LockSeat};
use machine_parts::{PoolSlot, Trail, tool_first};
use sched_base::Moment;
use sched_io::Gate;
use sched_model::action::Actor;
use sched_model::event::Event;
use std::sync::Wait;

/// Whether the run is over: whether the last entry is a Finish.
pub(crate) fn is_over(book: &Book) -> bool
    ensures { result ≡ (reached_by book.now.input book.now.history).over }
{
    book.tell();
    match book.len() {
        0 => false,
        n => matches!(book.get(n - 1).event, Event::Finish),
    }
}

impl Hall {
    /// Does the first event of the actor that may come, if there is one, and answers it with its place in the history. It waits for locks. Nothing
    /// comes only where the book was looked at: no event of the actor may come in the state to which the seat's front then leads. Full comes
    /// only where one may, and the book has no room; nothing is changed then.
    ///
    /// Where a pool's lock is held, and the book not yet, it passes the gate, once: with the processor's number, 64 more than the domain's, or 128.
    pub fn act<R: Wait, G: Gate>(
        &self,
        rt: &R,
        seat: &mut HallSeat,
        actor: Actor,
        gate: &G,
    ) -> Result<Done, Full>
        requires of { IsOf self.now seat.old }
        requires actor { is_actor self.now.opened.input.config actor ≡ true }
        ensures stays { Stays seat.old seat.new }
        ensures done { IfOk result (λ done. IsDone actor done seat.old seat.new) }
        ensures full { IfErr result (λ full.
            ActsFull actor full seat.old.sitting.view seat.new.sitting.view) }
        ensures kept { IfErr result (λ full. seat.new.arrived ≡ seat.old.arrived) }
    {
        match actor {
            Actor::Tool => self.act_as_tool(rt, &mut seat.seat, gate),
            Actor::Proc(_) | Actor::Dom(_) => {
                let holder = self.holder(actor);
                self.act_for(rt, &mut seat.seat, &mut seat.arrived, holder, gate)
            }
        }
    }

    /// The same of a holder, by a seat that keeps this arrival.
    fn act_for<R: Wait, G: Gate>(
        &self,
        rt: &R,
        seat: &mut LockSeat,
        arrived: &mut Option<Arrival>,
        holder: Holder,
        gate: &G,
    ) -> Result<Done, Full>
        requires of { IsSeatOf self.now seat.old }
        requires nothing { seat.old.view.held ≡ [] }
        requires inside { IsArrivalOf self.now (seated seat.old arrived.old) }
        requires holder { IsHolder self.now.opened.input holder }
        ensures stays { SeatStays seat.old seat.new }
        ensures nothing { seat.new.view.held ≡ [] }
        ensures inside { IsArrivalOf self.now (seated seat.new arrived.new) }
        ensures done { IfOk result (λ done. IsDone holder.actor done
            (seated seat.old arrived.old) (seated seat.new arrived.new)) }
        ensures full { IfErr result (λ full.
            ActsFull holder.actor full seat.old.view seat.new.view) }
        ensures kept { IfErr result (λ full. arrived.new ≡ arrived.old) }
    {
        let Some(mut hold) = self.begin_hold(rt, seat, holder) else {
            return Ok(Done::Nothing);
        };
        let done = self.act_on(
            rt,
            seat,
            arrived,
            hold.lock,
            &mut hold.slot,
            hold.t,
            holder,
            gate,
        );
        self.end_hold(seat, hold);
        done
    }

    /// The same in the pool whose place this is and whose lock the seat holds, and goes on holding. The moment is t.
    fn act_on<R: Wait, G: Gate>(
        &self,
        rt: &R,
        seat: &mut LockSeat,
        arrived: &mut Option<Arrival>,
        lock: LockId,
        slot: &mut PoolSlot,
        t: Moment,
        holder: Holder,
        gate: &G,
    ) -> Result<Done, Full>
        requires number { lock.0 < tool_lock }
        requires hold { InHold self.now lock.0 (name_number holder.name) t.0 slot.old
            (seated seat.old arrived.old) }
        requires holder { IsHolder self.now.opened.input holder }
        ensures hold { InHold self.now lock.0 (name_number holder.name) t.0 slot.new
            (seated seat.new arrived.new) }
        ensures stays { SeatStays seat.old seat.new }
        ensures done { IfOk result (λ done. IsDone holder.actor done
            (seated seat.old arrived.old) (seated seat.new arrived.new)) }
        ensures full { IfErr result (λ full.
            ActsFull holder.actor full seat.old.view seat.new.view) }
        ensures kept { IfErr result (λ full. arrived.new ≡ arrived.old) }
    {
        gate.pass(holder.who);
        let found = slot.enabled_for(holder.actor, t);
        let mut book = take_book(rt, &self.set, seat);
        let Some(action) = found else {
            put_book(&self.set, seat, book);
            return Ok(Done::Nothing);
        };
        book.get().tell();
        if !book.get().room_left() {
            let events = book.get().limit();
            put_book(&self.set, seat, book);
            return Err(Full { events });
        }
        let (place, event) = self.act_on_book(
            seat, arrived, &mut book, lock, slot, t, holder, action,
        );
        put_book(&self.set, seat, book);
        Ok(Done::Event { place, event })
    }

    /// The first event of the tool, under all locks. It changes no arrival that a seat keeps.
    fn act_as_tool<R: Wait, G: Gate>(
        &self,
        rt: &R,
        seat: &mut LockSeat,
        gate: &G,
    ) -> Result<Done, Full>
        requires of { IsSeatOf self.now seat.old }
        requires nothing { seat.old.view.held ≡ [] }
        ensures stays { SeatStays seat.old seat.new }
        ensures nothing { seat.new.view.held ≡ [] }
        ensures begins { IsPrefix seat.old.view.front seat.new.view.front }
        ensures done { (kept : Option ArrivalSpec) → IfOk result (λ done. IsDone Tool done
            (seated seat.old kept) (seated seat.new kept)) }
        ensures full { IfErr result (λ full. ActsFull Tool full seat.old.view seat.new.view) }
    {
        let mut all = take_all(rt, &self.set, seat);
        gate.pass(128);
        let book = take_book(rt, &self.set, seat);
        let done = self.settle_tool(seat, book, &mut all);
        put_all(&self.set, seat, all);
        done
    }

    /// Does the first event of the tool, if there is one, or puts the book back as it was.
    fn settle_tool(
        &self,
        seat: &mut LockSeat,
        book: HeldBook,
        all: &mut AllParts,
    ) -> Result<Done, Full>
        requires begins { BeginsTurn self.now book seat.old }
        requires knows { KnowsAll all.old seat.old.view }
        ensures knows { KnowsAll all.new seat.new.view }
        ensures book { find_lock book_lock seat.new.view.held ≡ None }
        ensures done { IfOk result (λ done. Settles Tool done book seat.old seat.new) }
        ensures full { IfErr result (λ full. SettlesFull Tool full book seat.old seat.new) }
    {
        if is_over(book.get()) {
            put_book(&self.set, seat, book);
            return Ok(Done::Nothing);
        }
        let t = book.get().now();
        let trail = Trail::of(book.get());
        let Some(action) = tool_first(all.slots.as_slice(), &all.tool.tool, &trail, t) else {
            put_book(&self.set, seat, book);
            return Ok(Done::Nothing);
        };
        book.get().tell();
        if !book.get().room_left() {
            let events = book.get().limit();
            put_book(&self.set, seat, book);
            return Err(Full { events });
        }
        let place = book.get().len();
        let event = perform(&self.set, self.granularity, seat, book, all, action, t);
        Ok(Done::Event { place, event })
    }
}
