//! A hold: a pool's lock in the hands of a seat, under which it does events of that pool.

ghost use Rattle.sched_base.specs.Numbers.{processor};
ghost use Rattle.std.specs.Prelude.{◌≡◌, ◌<◌, ◌/◌, ℕ, [], true, length, IfNone, IfSome, Some};
ghost use Rattle.sched_model.specs.declared.action.Action.TheVariants.{Arrive};
ghost use Rattle.sched_model.specs.declared.event.Event.{Event as EventSpec};
ghost use Rattle.sched_model.specs.Runs.{event_action};
ghost use Rattle.lock_moves.specs.SeatSight.{Sitting};
ghost use Rattle.hall.specs.BookTurns.{HoldsOnly};
ghost use Rattle.hall.specs.Holds.{BeginsHold, InHoldOn, IsHolder, IsOfSomePool, seated};
ghost use Rattle.hall.specs.SeatKnowledge.{KnowsPool};
ghost use Rattle.hall.specs.Seats.{IsCountBefore, IsSeatOf};
ghost use Rattle.hall.specs.Serving.{FindsNoPool, HasServedOn, IsDoerOf};
ghost use Rattle.hall.specs.Steps.{KeepsSight};
ghost use Rattle.hall.specs.Turns.{is_actor};
ghost use Rattle.lock_moves.specs.Words.{name_number};
ghost use Rattle.journal_core.specs.Parts.{tool_lock};

use crate::book::{put_book, take_book};
use crate::hall::Hall;
use crate::pools::perform_on;
use crate::seat::{Arrival, arrived_after};
use crate::value::PartState;
use journal_core::Book;
use lock_moves::{Held, HeldBook, LockId, LockSeat, NameId, WordId};
use machine_parts::PoolSlot;
use sched_base::{Moment, ResId};
use sched_model::action::{Action, Actor};
use sched_model::event::Event;
use std::sync::Wait;

/// Whose pool a hold is of: an actor of the pool, its name, and the number with which it passes the gate.
#[derive(Clone, Copy)]
pub(crate) struct Holder {
    pub actor: Actor,
    pub name: NameId,
    pub who: u32,
}

/// The lock of a pool with the pool's place, and the moment, which stands still while the lock is held.
#[derive(Drop)]
pub(crate) struct Hold {
    pub lock: LockId,
    pub slot: PoolSlot,
    pub t: Moment,
}

impl Hall {
    /// The holder for the pool of this actor, a processor or a domain.
    pub(crate) fn holder(&self, actor: Actor) -> Holder
        requires actor { is_actor self.now.opened.input.config actor ≡ true }
        requires pool { IsOfSomePool actor }
        ensures holder { IsHolder self.now.opened.input result }
        ensures actor { result.actor ≡ actor }
    {
        match actor {
            Actor::Proc(p) => Holder {
                actor,
                name: NameId::Res(ResId(p.0 / self.granularity)),
                who: u32::from(p.0),
            },
            Actor::Dom(d) => Holder {
                actor,
                name: NameId::Dom(d),
                who: 64 + u32::from(d.0),
            },
            Actor::Tool => unreachable!(),
        }
    }

    /// Takes the lock of the pool that has the holder, and waits until it is free. A core of no pool has no event: then the seat looks at the
    /// book, and holds nothing.
    pub(crate) fn begin_hold<R: Wait>(
        &self,
        rt: &R,
        seat: &mut LockSeat,
        holder: Holder,
    ) -> Option<Hold>
        requires of { IsSeatOf self.now seat.old }
        requires nothing { seat.old.view.held ≡ [] }
        requires holder { IsHolder self.now.opened.input holder }
        ensures some { IfSome result (λ hold. BeginsHold self.now holder hold seat.old seat.new) }
        ensures none { IfNone result (FindsNoPool holder.actor seat.old seat.new) }
    {
        let held = self.set.lock_of(rt, seat, holder.name);
        let lock = held.lock();
        match held.into_value() {
            PartState::Tool(kept) => {
                let book = take_book(rt, &self.set, seat);
                put_book(&self.set, seat, book);
                self.set
                    .unlock(seat, Held::new(lock, PartState::Tool(kept)));
                None
            }
            PartState::Pool(slot) => {
                let t = Moment(self.set.read_word(seat, WordId::Now));
                Some(Hold { lock, slot, t })
            }
        }
    }

    /// Puts the pool's place back under its lock, the only one that the seat holds.
    pub(crate) fn end_hold(&self, seat: &mut LockSeat, hold: Hold)
        requires set { seat.old.table ≡ self.now.table }
        requires number { hold.lock.0 < tool_lock }
        requires only { HoldsOnly hold.lock.0 seat.old.view }
        requires knows { KnowsPool hold.lock.0 hold.slot seat.old.view }
        ensures keeps { KeepsSight seat.old seat.new }
        ensures nothing { seat.new.view.held ≡ [] }
    {
        let Hold { lock, slot, .. } = hold;
        self.set
            .unlock(seat, Held::new(lock, PartState::Pool(slot)));
    }

    /// How often the core of an arriving processor has decided in the book's history, where the action is an arrival.
    pub(crate) fn decides_before(&self, book: &Book, action: Action) -> u32
        requires few { (p : ℕ) → action ≡ Arrive (processor p) →
            p / self.now.opened.input.config.granularity < 64 }
        ensures { (e : EventSpec) → event_action e ≡ Some action →
            IsCountBefore self.now.opened.input.config.granularity book.now.history e result }
    {
        match action {
            Action::Arrive(p) => book.decides(ResId(p.0 / self.granularity)),
            _ => 0,
        }
    }

    /// Does an event in a hold, the first of the one who does it, and adds its entry to the book, which has room and stays with the seat. It answers the
    /// event with the place of its entry.
    pub(crate) fn act_on_book(
        &self,
        seat: &mut LockSeat,
        arrived: &mut Option<Arrival>,
        book: &mut HeldBook,
        lock: LockId,
        slot: &mut PoolSlot,
        t: Moment,
        holder: Holder,
        action: Action,
    ) -> (u32, Event)
        requires number { lock.0 < tool_lock }
        requires hold { (mid : Sitting) × InHoldOn self.now lock.0 (name_number holder.name) t.0
            slot.old book.old mid (seated seat.old arrived.old) }
        requires holder { IsHolder self.now.opened.input holder }
        requires room { length book.old.history < book.old.limit }
        requires found { (doer : Actor) × IsDoerOf slot.old t.0 action doer }
        ensures { (mid : Sitting) (doer : Actor)
            → InHoldOn self.now lock.0 (name_number holder.name) t.0 slot.old book.old mid
            (seated seat.old arrived.old) → IsDoerOf slot.old t.0 action doer
            → (next : Sitting) × HasServedOn holder.actor doer result.0 result.1 book.new
            (seated mid arrived.old) (seated next arrived.new)
            × InHoldOn self.now lock.0 (name_number holder.name) t.0 slot.new book.new next
            (seated seat.new arrived.new) }
    {
        let set = &self.set;
        let place = book.get().len();
        let decides = self.decides_before(book.get(), action);
        let event = perform_on(set, seat, book, slot, lock.0, action, t);
        *arrived = arrived_after(*arrived, event, decides);
        (place, event)
    }
}
