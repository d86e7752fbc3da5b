//! An event of the pool under one lock, while the book is in the seat's hands.

ghost use Rattle.std.specs.Prelude.{◌≡◌, ◌<◌, ℕ, Some};
ghost use Rattle.sched_model.specs.Actions.{IsOfPool, home_pool_of_action};
ghost use Rattle.machine_parts.specs.Places.{state_of};
ghost use Rattle.machine_parts.specs.Told.{told_of};
ghost use Rattle.lock_moves.specs.Sets.{HasName};
ghost use Rattle.hall.specs.SeatKnowledge.{KnowsPool};
ghost use Rattle.hall.specs.Steps.{HasActed, HasTakenBook, KeepsOthers, MayAct};
ghost use Rattle.hall.specs.Holds.{StaysAtPool};
ghost use Rattle.lock_moves.specs.SeatSight.{Sitting};
ghost use Rattle.journal_core.specs.Parts.{tool_lock};

use crate::book::{add_and_keep, add_and_put_back};
use crate::value::PartState;
use lock_moves::{HeldBook, LockSeat, LockSet};
use machine_parts::{PoolSlot, Trail};
use sched_base::Moment;
use sched_model::action::Action;
use sched_model::event::{Entry, Event};

/// Does an event that may come now of this pool, whose place this is and whose lock the seat holds, and adds its entry to the book, which
/// goes back. Of every other lock the seat knows what it knew.
pub(crate) fn perform_at(
    set: &LockSet<PartState>,
    seat: &mut LockSeat,
    book: HeldBook,
    slot: &mut PoolSlot,
    place: u8,
    action: Action,
    t: Moment,
) -> Event
    requires may { MayAct set.now book seat.old action t }
    requires number { place < tool_lock }
    requires knows { KnowsPool place slot.old seat.old.view }
    requires own { IsOfPool action }
    requires home { home_pool_of_action book.input.config.granularity (state_of (told_of book))
        action ≡ Some place }
    ensures acted { HasActed book action t result seat.old seat.new }
    ensures knows { KnowsPool place slot.new seat.new.view }
    ensures names { (n : ℕ) → HasName place n seat.old.view → HasName place n seat.new.view }
    ensures others { KeepsOthers place seat.old.view seat.new.view }
{
    let trail = Trail::of(book.get());
    let event = slot.perform(&trail, place, action, t);
    add_and_put_back(set, seat, book, Entry { at: t, event });
    event
}

/// The same, and the seat goes on holding the book, in which the entry now is: as if it took the book again at once.
pub(crate) fn perform_on(
    set: &LockSet<PartState>,
    seat: &mut LockSeat,
    book: &mut HeldBook,
    slot: &mut PoolSlot,
    place: u8,
    action: Action,
    t: Moment,
) -> Event
    requires may { MayAct set.now book.old seat.old action t }
    requires number { place < tool_lock }
    requires knows { KnowsPool place slot.old seat.old.view }
    requires own { IsOfPool action }
    requires home { home_pool_of_action book.old.input.config.granularity
        (state_of (told_of book.old)) action ≡ Some place }
    ensures { (mid : Sitting) × HasActed book.old action t result seat.old mid
        × StaysAtPool place slot.new seat.old mid
        × HasTakenBook set.now book.new mid seat.new × (mid.view.front ≡ book.new.history) }
{
    let trail = Trail::of(book.get());
    let event = slot.perform(&trail, place, action, t);
    add_and_keep(set, seat, book, Entry { at: t, event });
    event
}
