//! The book in a seat's hands: taken, put back as it was, or put back or kept with one entry more.

ghost use Rattle.sched_base.specs.Numbers.{core};
ghost use Rattle.std.specs.Prelude.{◌≡◌, ◌≢◌, ◌<◌, ◌++◌, ◌∷◌, [], ℕ, Some, length};
ghost use Rattle.sched_model.specs.declared.action.Action.TheVariants.{Decide};
ghost use Rattle.sched_model.specs.CheckedMachine.{IsChecked};
ghost use Rattle.sched_model.specs.Runs.{IsNext, event_action};
ghost use Rattle.journal_core.specs.Histories.{NamesStandOnce, reached_by};
ghost use Rattle.lock_moves.specs.Plays.{Current, Decided, Kept, Placed};
ghost use Rattle.lock_moves.specs.SeatSight.{AllBelow, Known, Sitting, find_lock};
ghost use Rattle.lock_moves.specs.Sets.{sitting_with};
ghost use Rattle.hall.specs.Steps.{GoesOnWith, HasBook, HasCore, HasEntered, KeepsLocks, KeepsSight, KnowsAfter, SeesBook, deciding_view};
ghost use Rattle.lock_moves.specs.Words.{book_lock};

use crate::value::PartState;
use composition_laws::names::law_names_stand_once;
use lock_moves::laws::law_decided;
use lock_moves::{HeldBook, LockSeat, LockSet};
use sched_model::event::{Entry, Event};
use std::sync::Wait;

/// Takes the book, and waits until it is free. Of the locks that the seat holds it knows what it knew, at the same moment, where it holds one.
pub(crate) fn take_book<R: Wait>(rt: &R, set: &LockSet<PartState>, seat: &mut LockSeat) -> HeldBook
    requires set { seat.old.table ≡ set.now.table }
    requires order { AllBelow book_lock seat.old.view.held }
    ensures has { HasBook set.now result seat.new }
    ensures current { Current seat.new.view }
    ensures sees { SeesBook result seat.old seat.new }
    ensures locks { (k : ℕ) → k ≢ book_lock → find_lock k seat.new.view.held
        ≡ find_lock k seat.old.view.held }
    ensures still { (k : ℕ) (x : Known) → find_lock k seat.old.view.held ≡ Some x →
        seat.new.view.now ≡ seat.old.view.now }
{
    set.take_book(rt, seat)
}

/// Puts the book back as it was.
pub(crate) fn put_book(set: &LockSet<PartState>, seat: &mut LockSeat, book: HeldBook)
    requires has { HasBook set.now book seat.old }
    requires current { Current seat.old.view }
    ensures keeps { KeepsSight seat.old seat.new }
    ensures locks { KeepsLocks seat.old.view seat.new.view }
{
    law_decided();
    set.commit(seat, book);
}

/// Raises the stage word of the core whose decision the event is, where it is one. The seat then names that core, or else none.
fn raise_stage(set: &LockSet<PartState>, seat: &mut LockSeat, book: &HeldBook, event: Event)
    requires has { HasBook set.now book.now seat.old }
    requires core { (r : ℕ) → event_action event ≡ Some (Decide (core r))
        → HasCore r seat.old.view }
    ensures { seat.new ≡ sitting_with seat.old (deciding_view event seat.old.view) }
{
    if let Event::Decide { r, .. } = event {
        set.set_stage(seat, r, book);
    }
}

/// Adds the next entry of the run to the book in the seat's hands. A decision first raises the stage word of its core.
fn add_entry(set: &LockSet<PartState>, seat: &mut LockSeat, book: &mut HeldBook, entry: Entry)
    requires has { HasBook set.now book.old seat.old }
    requires checked { IsChecked book.old.input }
    requires next { IsNext book.old.input (reached_by book.old.input book.old.history) entry }
    requires room { length book.old.history < book.old.limit }
    requires core { (r : ℕ) → event_action entry.event ≡ Some (Decide (core r)) →
        HasCore r seat.old.view }
    ensures seat { seat.new ≡ sitting_with seat.old (deciding_view entry.event seat.old.view) }
    ensures input { book.new.input ≡ book.old.input }
    ensures limit { book.new.limit ≡ book.old.limit }
    ensures history { book.new.history ≡ book.old.history ++ entry ∷ [] }
    ensures decided { Decided seat.new.view book.new.history }
    ensures names { NamesStandOnce book.new.input book.new.history }
{
    law_names_stand_once();
    law_decided();
    raise_stage(set, seat, book, entry.event);
    book.get_mut().commit(entry);
    book.get().tell();
}

/// Adds the next entry of the run to the book, and puts the book back.
pub(crate) fn add_and_put_back(
    set: &LockSet<PartState>,
    seat: &mut LockSeat,
    book: HeldBook,
    entry: Entry,
)
    requires has { HasBook set.now book seat.old }
    requires checked { IsChecked book.input }
    requires next { IsNext book.input (reached_by book.input book.history) entry }
    requires room { length book.history < book.limit }
    requires kept { Kept seat.old.view (book.history ++ entry ∷ []) }
    requires placed { Placed seat.old.view (book.history ++ entry ∷ []) }
    requires core { (r : ℕ) → event_action entry.event ≡ Some (Decide (core r)) →
        HasCore r seat.old.view }
    ensures entered { HasEntered book entry seat.old seat.new }
    ensures knows { KnowsAfter (book.history ++ entry ∷ []) seat.old.view seat.new.view }
{
    let mut book = book;
    add_entry(set, seat, &mut book, entry);
    set.commit(seat, book);
}

/// The same, and the seat goes on holding the book, in which the entry now is: as if it took the book again at once.
pub(crate) fn add_and_keep(
    set: &LockSet<PartState>,
    seat: &mut LockSeat,
    book: &mut HeldBook,
    entry: Entry,
)
    requires has { HasBook set.now book.old seat.old }
    requires checked { IsChecked book.old.input }
    requires next { IsNext book.old.input (reached_by book.old.input book.old.history) entry }
    requires room { length book.old.history < book.old.limit }
    requires kept { Kept seat.old.view (book.old.history ++ entry ∷ []) }
    requires placed { Placed seat.old.view (book.old.history ++ entry ∷ []) }
    requires core { (r : ℕ) → event_action entry.event ≡ Some (Decide (core r)) →
        HasCore r seat.old.view }
    ensures { (mid : Sitting) × GoesOnWith set.now book.old book.new entry seat.old mid seat.new }
{
    add_entry(set, seat, book, entry);
    set.commit_on(seat, book);
}
