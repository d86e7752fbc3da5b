//! All events of a pool that may come now, whoever does them, under one hold of its lock.

ghost use Rattle.std.specs.Prelude.{◌≡◌, ◌<◌, [], true, IfOk, IfErr, IfSome};
ghost use Rattle.hall.specs.Holds.{InHold, IsArrivalOf, IsHolder, IsOfSomePool, seated};
ghost use Rattle.hall.specs.Seats.{IsOf, IsSeatOf, SeatStays, Stays};
ghost use Rattle.hall.specs.Serving.{HasServed, HasServedFull, IsSomebodys, MayComeNext};
ghost use Rattle.hall.specs.Turns.{is_actor};
ghost use Rattle.lock_moves.specs.Words.{name_number};
ghost use Rattle.journal_core.specs.Parts.{tool_lock};

use crate::book::{put_book, take_book};
use crate::hall::Hall;
use crate::hold::Holder;
use crate::seat::{Arrival, HallSeat};
use crate::turns::{Acted, Full};
use lock_moves::{LockId, LockSeat};
use machine_parts::PoolSlot;
use sched_base::Moment;
use sched_io::Gate;
use sched_model::action::{Action, Actor};
use std::sync::Wait;

/// The first event of the actor whose turn it is, if that is known and one may come.
fn event_of(slot: &PoolSlot, turn: Option<Actor>, t: Moment) -> Option<Action>
    ensures { IfSome result (λ action. IsSomebodys slot.now t.0 action) }
{
    let actor = turn?;
    slot.enabled_for(actor, t)
}

/// The event that comes first in the pool; where a core is to begin a switch, that of a core that runs nothing, if there is one. So a unit that
/// comes to wait takes an idle core and does not displace another.
fn first_event(slot: &PoolSlot, t: Moment) -> Option<Action>
    ensures { MayComeNext slot.now t.0 result }
{
    let first = slot.first_enabled(t);
    let turn = match first {
        Some(Action::Arrive(_)) => slot.begins(),
        _ => None,
    };
    match event_of(slot, turn, t) {
        Some(action) => Some(action),
        None => first,
    }
}

/// The event that comes after this one in the pool: a core that has begun to switch goes on with it before another begins, as a processor does in
/// Xen. Else it is the one that comes first. Each of these is the first event of the actor that does it, and no contract says whose turn it is.
fn next_event(slot: &PoolSlot, t: Moment, done: Action) -> Option<Action>
    ensures { MayComeNext slot.now t.0 result }
{
    let turn = slot.goes_on(done, t);
    match event_of(slot, turn, t) {
        Some(action) => Some(action),
        None => first_event(slot, t),
    }
}

impl Hall {
    /// Does the events of a pool that may come now, one after the other, under one hold of its lock and one take of the book, and
    /// answers how many they were. The pool is the one that has the actor: the processor's core, or the domain. Each is the first event of the one who
    /// does it, another actor of the pool or this one, in the state in which its entry stands. It ends where the book was looked at, and no event of
    /// any actor of the pool may come in the state to which the seat's front then leads. It waits for locks. A core of no pool has no event. Full comes
    /// only where a further event may, and the book has no room; what was done before stays.
    ///
    /// Its entries stand one behind the other: those that come at a moment of their own by kind, then by number and index; then core by core, each
    /// through its whole switch, and of those that are to begin one that runs nothing first. No contract says so. Where the pool's lock is
    /// held, and the book not yet, it passes the gate, once: with the processor's number, or 64 more than the domain's.
    pub fn act_pool<R: Wait, G: Gate>(
        &self,
        rt: &R,
        seat: &mut HallSeat,
        actor: Actor,
        gate: &G,
    ) -> Result<Acted, Full>
        requires of { IsOf self.now seat.old }
        requires actor { is_actor self.now.opened.input.config actor ≡ true }
        requires pool { IsOfSomePool actor }
        ensures stays { Stays seat.old seat.new }
        ensures all { IfOk result (λ acted. HasServed actor acted seat.old seat.new) }
        ensures full { IfErr result (λ full. HasServedFull actor full seat.old seat.new) }
    {
        let holder = self.holder(actor);
        self.serve_for(rt, &mut seat.seat, &mut seat.arrived, holder, gate)
    }

    /// The same by a seat that keeps this arrival, of the pool that has the holder.
    fn serve_for<R: Wait, G: Gate>(
        &self,
        rt: &R,
        seat: &mut LockSeat,
        arrived: &mut Option<Arrival>,
        holder: Holder,
        gate: &G,
    ) -> Result<Acted, Full>
        requires of { IsSeatOf self.now seat.old }
        requires nothing { seat.old.view.held ≡ [] }
        requires inside { IsArrivalOf self.now (seated seat.old arrived.old) }
        requires holder { IsHolder self.now.opened.input holder }
        ensures stays { SeatStays seat.old seat.new }
        ensures nothing { seat.new.view.held ≡ [] }
        ensures inside { IsArrivalOf self.now (seated seat.new arrived.new) }
        ensures all { IfOk result (λ acted. HasServed holder.actor acted
            (seated seat.old arrived.old) (seated seat.new arrived.new)) }
        ensures full { IfErr result (λ full. HasServedFull holder.actor full
            (seated seat.old arrived.old) (seated seat.new arrived.new)) }
    {
        let Some(mut hold) = self.begin_hold(rt, seat, holder) else {
            return Ok(Acted::nothing());
        };
        let acted = self.serve_on(
            rt,
            seat,
            arrived,
            hold.lock,
            &mut hold.slot,
            hold.t,
            holder,
            gate,
        );
        self.end_hold(seat, hold);
        acted
    }

    /// The same in the pool whose place this is and whose lock the seat holds, and goes on holding. The moment is t.
    fn serve_on<R: Wait, G: Gate>(
        &self,
        rt: &R,
        seat: &mut LockSeat,
        arrived: &mut Option<Arrival>,
        lock: LockId,
        slot: &mut PoolSlot,
        t: Moment,
        holder: Holder,
        gate: &G,
    ) -> Result<Acted, Full>
        requires number { lock.0 < tool_lock }
        requires hold { InHold self.now lock.0 (name_number holder.name) t.0 slot.old
            (seated seat.old arrived.old) }
        requires holder { IsHolder self.now.opened.input holder }
        ensures hold { InHold self.now lock.0 (name_number holder.name) t.0 slot.new
            (seated seat.new arrived.new) }
        ensures stays { SeatStays seat.old seat.new }
        ensures all { IfOk result (λ acted. HasServed holder.actor acted
            (seated seat.old arrived.old) (seated seat.new arrived.new)) }
        ensures full { IfErr result (λ full. HasServedFull holder.actor full
            (seated seat.old arrived.old) (seated seat.new arrived.new)) }
    {
        gate.pass(holder.who);
        let mut acted = Acted::nothing();
        let mut found = first_event(slot, t);
        let mut book = take_book(rt, &self.set, seat);
        for _ in rt.forever() {
            let Some(action) = found else {
                put_book(&self.set, seat, book);
                return Ok(acted);
            };
            book.get().tell();
            if !book.get().room_left() {
                let events = book.get().limit();
                put_book(&self.set, seat, book);
                return Err(Full { events });
            }
            let (place, _) = self.act_on_book(
                seat, arrived, &mut book, lock, slot, t, holder, action,
            );
            acted.add(place);
            found = next_event(slot, t, action);
        }
        unreachable!()
    }
}
