//! How a set is opened and closed.

ghost use Rattle.std.specs.Prelude.{◌≡◌, true, false, ℕ, ◌+◌, ◌<◌, ◌≤◌, [], ◌∷◌, ◌++◌, map, length, slice_index_or, vec_capacity, IfOk};
ghost use Rattle.std.specs.Slots.{slots_items, slots_filled, slots_len};
ghost use Rattle.journal_core.specs.Histories.{home_at, NamesStandOnce};
ghost use Rattle.lock_moves.specs.declared.content.Content.TheVariants.{Value, Ledger};
ghost use Rattle.lock_moves.specs.SeatSight.{opening_view, has_place};
ghost use Rattle.lock_moves.specs.Words.{lock_count};
ghost use Rattle.lock_moves.specs.TableContent.{AreParts, IsOpening, HaveParts, HaveValues, HasFirst, AreFirst};

use crate::content::{BOOK, Content, LOCKS, NOW, Part, STAGES, WORDS};
use crate::seat::LockSeat;
use crate::set::LockSet;
use atomic_table::{Closed, Table};
use journal_core::Book;
use sched_base::{NoMemory, ResId};
use std::alloc::Global;
use std::snapshot::Snapshot;

// The lock whose value lists the name, or 255.
fn lock_listing<V: Part>(values: &[V], book: &Book, name: usize) -> u64
    requires parts { AreParts V.part V.suits book.now values.now }
    requires once { NamesStandOnce book.now.input book.now.history }
    requires name { name < 128 }
    ensures { result ≡ home_at book.now.input book.now.history name }
{
    for k in 0..BOOK {
        if values[k].names().has(name) {
            return k as u64;
        }
    }
    255
}

// The words of the table at the opening.
fn words_of<V: Part>(values: &[V], book: &Book) -> [u64; WORDS]
    requires parts { AreParts V.part V.suits book.now values.now }
    requires once { NamesStandOnce book.now.input book.now.history }
    ensures { IsOpening book.now result }
{
    let mut words = [0u64; WORDS];
    for n in 0..128 {
        words[LOCKS + n] = lock_listing(values, book, n);
    }
    words[NOW] = book.now().0;
    for r in 0..64 {
        words[STAGES + r] = u64::from(book.decides(ResId(r as u8)));
    }
    words
}

// What lies in the slots at the opening.
fn stowed<V: Part>(alloc: Global, values: Vec<V>, book: Book) -> Result<Vec<Content<V>>, NoMemory>
    ensures { IfOk result (λ s. s.items ≡ map Value values.items ++ Ledger book ∷ []) }
{
    let mut slots = Vec::new(alloc);
    for value in values {
        slots.push(Content::Value(value))?;
    }
    slots.push(Content::Ledger(book))?;
    Ok(slots)
}

// Takes the values out of their slots, in the order of the locks.
fn take_out<V: Drop>(closed: &mut Closed<Content<V>, Global>, values: &mut Vec<V>)
    requires full { (slots_len closed.old.slots ≡ lock_count)
        × HasFirst (slots_filled closed.old.slots) }
    requires values { HaveValues (slots_items closed.old.slots) }
    requires room { (values.old.items ≡ []) × (17 ≤ vec_capacity values.old) }
    ensures empty { (k : ℕ) → k < slots_len closed.new.slots →
        slice_index_or (slots_filled closed.new.slots) k false ≡ false }
    ensures first { AreFirst 17 (slots_items closed.old.slots) values.new.items }
    ensures capacity { vec_capacity values.new ≡ vec_capacity values.old }
{
    for k in 0..BOOK {
        let Content::Value(value) = closed.take(k) else {
            unreachable!()
        };
        values.push_reserved(value);
    }
}

impl<V: Part> LockSet<V> {
    /// A set of these values, one for each lock but the book's in the order of the locks, each its part of the book's state;
    /// and its first seat, which has all parts and whose front is the book's history.
    pub fn open(
        alloc: Global,
        values: Vec<V>,
        book: Book,
    ) -> Result<(LockSet<V>, LockSeat), NoMemory>
        requires parts { AreParts V.part V.suits book values.items }
        requires once { NamesStandOnce book.input book.history }
        ensures seat { IfOk result (λ r. (r.1.table ≡ r.0.table) × (r.1.view ≡ opening_view book)) }
        ensures opened { IfOk result (λ r. r.0.opened ≡ book) }
    {
        book.tell();
        let about = Snapshot::of(&book);
        let words = words_of(values.as_slice(), &book);
        let slots = stowed(alloc, values, book)?;
        let Ok((table, seat)) = Table::new(alloc, &words, slots, &about) else {
            return Err(NoMemory);
        };
        let badge = seat.into_badge();
        Ok((LockSet { table }, LockSeat { badge }))
    }

    // What lies in the slots of the locks but the book's, and the book, where one seat is left.
    fn ended(self, seat: LockSeat) -> (Closed<Content<V>, Global>, Book)
        requires set { seat.table ≡ self.table }
        requires only { seat.view.shares ≡ 1024 }
        requires nothing { seat.view.held ≡ [] }
        ensures full { (slots_len result.0.slots ≡ lock_count)
            × HasFirst (slots_filled result.0.slots) }
        ensures parts { HaveParts V.part V.suits seat.view.input seat.view.front
            (slots_items result.0.slots) }
        ensures once { NamesStandOnce seat.view.input seat.view.front }
        ensures input { result.1.input ≡ seat.view.input }
        ensures limit { result.1.limit ≡ seat.view.limit }
        ensures history { result.1.history ≡ seat.view.front }
        ensures own { (p : ℕ) → length self.opened.history ≤ p → p < length seat.view.front →
            has_place p seat.view.own ≡ true }
    {
        let LockSet { table } = self;
        let LockSeat { badge } = seat;
        let mut closed = table.close_with(badge.into_seat());
        let content = closed.take(BOOK);
        let Content::Ledger(book) = content else {
            unreachable!()
        };
        (closed, book)
    }

    /// The book, whose history is the front of the one seat that is left. Each place that was added since the opening is one of this seat's own.
    /// The values are dropped.
    pub fn close(self, seat: LockSeat) -> Book
        requires set { seat.table ≡ self.table }
        requires only { seat.view.shares ≡ 1024 }
        requires nothing { seat.view.held ≡ [] }
        ensures input { result.input ≡ seat.view.input }
        ensures limit { result.limit ≡ seat.view.limit }
        ensures history { result.history ≡ seat.view.front }
        ensures own { (p : ℕ) → length self.opened.history ≤ p → p < length seat.view.front →
            has_place p seat.view.own ≡ true }
    {
        let (mut closed, book) = self.ended(seat);
        for k in 0..BOOK {
            drop(closed.take(k));
        }
        closed.free();
        book
    }

    /// The values that stood under the locks, in the order of their locks, and the book, where one seat is left. They are what `open` asks for:
    /// each value is its part of the book's state and suits it, and each name stands once. `room` is empty and has place for 17 values, so
    /// that no memory is taken.
    pub fn dissolve(self, seat: LockSeat, room: Vec<V>) -> (Vec<V>, Book)
        requires set { seat.table ≡ self.table }
        requires only { seat.view.shares ≡ 1024 }
        requires nothing { seat.view.held ≡ [] }
        requires room { (room.items ≡ []) × (17 ≤ vec_capacity room) }
        ensures parts { AreParts V.part V.suits result.1 result.0.items }
        ensures once { NamesStandOnce result.1.input result.1.history }
        ensures input { result.1.input ≡ seat.view.input }
        ensures limit { result.1.limit ≡ seat.view.limit }
        ensures history { result.1.history ≡ seat.view.front }
        ensures own { (p : ℕ) → length self.opened.history ≤ p → p < length seat.view.front →
            has_place p seat.view.own ≡ true }
        ensures capacity { vec_capacity result.0 ≡ vec_capacity room }
    {
        let (mut closed, book) = self.ended(seat);
        let mut values = room;
        take_out(&mut closed, &mut values);
        closed.free();
        (values, book)
    }
}
