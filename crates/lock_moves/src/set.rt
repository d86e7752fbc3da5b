//! The calls on a set of locks.
//!
//! *Design.* A set has 18 locks, each with a value in a slot: 0 to 15 guard the slots of the pools, 16 what the tool keeps, 17 the book
//! with the history. A lock is a word, 0 where it is free and 1 where it is taken. Who sets it from 0 to 1 takes the value out of its slot,
//! owns it, and puts it back before the word is 0 again. Beside the locks stand three kinds of words: for each core and domain the number
//! of the lock whose value lists it (its *name*), the moment, and for each core how often it has decided (its *stage*). A thread works
//! through a seat. The rule that ties all words, free values and seats to one history is `Agrees` of `specs/`; the table (`atomic_table`)
//! keeps it at each step, whatever the threads do.
//!
//! *Locking.* A seat takes locks in rising order of their numbers: each call that takes one asks that all locks which the seat holds are
//! lower. So the book comes last, and waiting seats make no circle; no contract says that, nor that a call that waits returns. `lock` and
//! `take_book` try, and let other threads go on, until the lock is free; `try_lock` tries once. `lock_of` reads a name's word, takes that
//! lock, and reads the word again: where the name has moved meanwhile it gives the lock back and begins again.
//!
//! *What a lock allows.* Under the book: to add an entry (`commit`, or `commit_on`, which keeps the book in hand), to move a name between two
//! locks that the seat holds (`move_name`, `rename`), and to raise the stage of a core whose name one of its locks has (`set_stage`). Under
//! all 18: to set the moment (`set_now`). So under any lock the moment stands, and under the lock that has it a name does. Without a lock a word may be read, and tells only what
//! was once so: a stage never falls.
//!
//! *Ordering.* Entries are ordered by the book, which one seat has at a time. Taking the book brings a seat's front up to the whole
//! history. Nothing is said of which of two waiting threads gets a lock first.

ghost use Rattle.std.specs.Prelude.{◌≡◌, ◌≢◌, true, ℕ, ◌+◌, ◌^◌, ◌<◌, ◌≤◌, List, [], Some, None, IfOk, MatchOption};
ghost use mathlib.Core.List.{IsPrefix};
ghost use Rattle.sched_model.specs.declared.event.Entry.{Entry};
ghost use Rattle.sched_model.specs.Runs.{IsRun};
ghost use Rattle.journal_core.specs.Parts.{lists};
ghost use Rattle.journal_core.specs.Histories.{decides_at, NamesStandOnce};
ghost use Rattle.lock_moves.specs.SeatSight.{Known, find_lock, Holds, AllBelow, took_book, turned_away, after_give, committed_view, committed_on, after_sharing, newcomer, after_join, moved_name, with_now, tried_again, after_search, after_naming, has_loaded};
ghost use Rattle.lock_moves.specs.Plays.{Current, IsPartOfSome, Next, Kept, Placed, Decided, Tells};
ghost use Rattle.lock_moves.specs.Sets.{sitting_with, HasTaken, IsAsKnown, HasName};
ghost use Rattle.lock_moves.specs.Words.{name_number, has_name, has_core, has_word, lock_count, word_index, book_lock};

use crate::content::{BOOK, Content, Held, HeldBook, LockId, NOW, NameId, Part, WordId};
use crate::rule::{
    Agreement, Clock, Commit, CommitOn, Cut, Fetch, Glue, Load, Put, Raise, ReadWord, Settle, Take,
    TakeBook, Tally, WriteName,
};
use crate::seat::{LockSeat, seated};
use crate::view::View;
use atomic_table::Table;
use journal_core::Book;
use sched_base::{Moment, ResId};
use std::alloc::Global;
use std::marker::Model;
use std::snapshot::Snapshot;
use std::sync::Wait;
use std::thread::yield_now;

/// A set of 18 locks: one for each of 16 pools, the tool's and the book's. Contracts see which table it is, and the book that it was opened with.
#[derive(Drop)]
pub struct LockSet<V: Part> {
    pub(crate) table: Table<Content<V>, View, Snapshot<Book>, Agreement, Global>,
}

impl<V: Part> Model for LockSet<V> {
    ghost use Rattle.lock_moves.specs.Sets.{LockTable};

    ghost Value = { LockTable };

    ghost view = { λ s. record {
      table = s.table.shared.table_id;
      opened = s.table.shared.key.value;
    } };

    ghost use Rattle.std.specs.Prelude.{◌≡◌};
    ghost use Rattle.lock_moves.specs.Words.{lock_count, word_count};

    ghost invariant = { λ s. (s.table.shared.table_id.words ≡ word_count)
        × (s.table.shared.table_id.slots ≡ lock_count) };
}

impl<V: Part> LockSet<V> {
    /// Takes the lock if it is free.
    pub fn try_lock(&self, seat: &mut LockSeat, lock: LockId) -> Option<Held<V>>
        requires set { seat.old.table ≡ self.now.table }
        requires number { lock.0 < book_lock }
        requires order { AllBelow lock.0 seat.old.view.held }
        ensures { MatchOption result
            (seat.new ≡ sitting_with seat.old (turned_away lock.0 seat.old.view))
            (λ h. (h.lock ≡ lock.0) × HasTaken lock.0 (V.part h.value) seat.old.view seat.old
            seat.new × V.suits seat.old.view.input seat.new.view.now h.value
            × ((j : ℕ) (x : Known) → find_lock j seat.old.view.held ≡ Some x → seat.new.view.now
            ≡ seat.old.view.now) × IsPartOfSome lock.0 (V.part h.value) seat.old.view) }
    {
        let number = lock.0 as usize;
        let mut me = seated::<V>(&mut seat.badge);
        let found = self
            .table
            .shared
            .compare_exchange::<Take>(&mut me, number, 0, 1);
        if found != 0 {
            seat.badge = me.into_badge();
            return None;
        }
        let content = self.table.shared.exchange(&mut me, number, Content::Out);
        self.table.shared.load::<Settle>(&mut me, number);
        seat.badge = me.into_badge();
        let Content::Value(value) = content else {
            unreachable!()
        };
        Some(Held { lock, value })
    }

    /// Puts the lock back, with the value that is its part as the seat knows it.
    pub fn unlock(&self, seat: &mut LockSeat, h: Held<V>)
        requires set { seat.old.table ≡ self.now.table }
        requires number { h.lock < book_lock }
        requires known { IsAsKnown h.lock (V.part h.value) seat.old.view }
        requires suits { V.suits seat.old.view.input seat.old.view.now h.value }
        ensures { seat.new ≡ sitting_with seat.old (after_give h.lock seat.old.view) }
    {
        let Held { lock, value } = h;
        let number = lock.0 as usize;
        let mut me = seated::<V>(&mut seat.badge);
        self.table.shared.load::<Fetch>(&mut me, number);
        let empty = self
            .table
            .shared
            .exchange(&mut me, number, Content::Value(value));
        self.table.shared.store::<Put>(&mut me, number, 0);
        seat.badge = me.into_badge();
        drop(empty);
    }

    // Takes the book if its lock is free.
    fn try_book(&self, seat: &mut LockSeat) -> Option<HeldBook>
        requires set { seat.old.table ≡ self.now.table }
        requires order { AllBelow book_lock seat.old.view.held }
        ensures { MatchOption result
            (seat.new ≡ sitting_with seat.old (turned_away book_lock seat.old.view))
            (λ b. ((now : ℕ)
            × (seat.new ≡ sitting_with seat.old (took_book b.history now seat.old.view)))
            × (b.input ≡ seat.old.view.input) × (b.limit ≡ seat.old.view.limit)
            × IsPrefix seat.old.view.front b.history × Current seat.new.view
            × ((k : ℕ) (x : Known) → find_lock k seat.old.view.held ≡ Some x → seat.new.view.now
            ≡ seat.old.view.now) × (seat.old.view.shares ≡ 1024 → b.history
            ≡ seat.old.view.front)) }
    {
        let mut me = seated::<V>(&mut seat.badge);
        let found = self
            .table
            .shared
            .compare_exchange::<TakeBook>(&mut me, BOOK, 0, 1);
        if found != 0 {
            seat.badge = me.into_badge();
            return None;
        }
        let content = self.table.shared.exchange(&mut me, BOOK, Content::Out);
        self.table.shared.load::<Settle>(&mut me, BOOK);
        seat.badge = me.into_badge();
        let Content::Ledger(book) = content else {
            unreachable!()
        };
        Some(HeldBook { book })
    }

    /// Puts the book back, with one entry more or none. The front is then its history.
    pub fn commit(&self, seat: &mut LockSeat, b: HeldBook)
        requires set { seat.old.table ≡ self.now.table }
        requires held { Holds book_lock seat.old.view }
        requires input { b.input ≡ seat.old.view.input }
        requires limit { b.limit ≡ seat.old.view.limit }
        requires next { Next seat.old.view.front b.history }
        requires kept { Kept seat.old.view b.history }
        requires placed { Placed seat.old.view b.history }
        requires decided { Decided seat.old.view b.history }
        requires names { NamesStandOnce b.input b.history }
        ensures { seat.new ≡ sitting_with seat.old (committed_view b.history seat.old.view) }
    {
        let HeldBook { book } = b;
        book.tell();
        let mut me = seated::<V>(&mut seat.badge);
        self.table.shared.load::<Fetch>(&mut me, BOOK);
        let empty = self
            .table
            .shared
            .exchange(&mut me, BOOK, Content::Ledger(book));
        self.table.shared.store::<Commit>(&mut me, BOOK, 0);
        seat.badge = me.into_badge();
        drop(empty);
    }

    /// The same as `commit` and then `take_book`, where the seat goes on holding the book: its history, with one entry more or none, is the front
    /// from now on.
    pub fn commit_on(&self, seat: &mut LockSeat, b: &HeldBook)
        requires set { seat.old.table ≡ self.now.table }
        requires held { Holds book_lock seat.old.view }
        requires input { b.now.input ≡ seat.old.view.input }
        requires limit { b.now.limit ≡ seat.old.view.limit }
        requires next { Next seat.old.view.front b.now.history }
        requires kept { Kept seat.old.view b.now.history }
        requires placed { Placed seat.old.view b.now.history }
        requires decided { Decided seat.old.view b.now.history }
        requires names { NamesStandOnce b.now.input b.now.history }
        ensures on { seat.new
            ≡ sitting_with seat.old (committed_on b.now.history seat.old.view) }
        ensures current { Current seat.new.view }
    {
        b.book.tell();
        let said = Content::Told(Snapshot::of(&b.book));
        // No word changes. That of the moment is one for which no other thread waits.
        let mut me = seated::<V>(&mut seat.badge);
        self.table
            .shared
            .compare_exchange_with::<CommitOn>(&mut me, NOW, 0, 0, &said);
        seat.badge = me.into_badge();
    }

    /// A second seat, with one of the parts of this one and with the same front.
    pub fn split(&self, seat: &mut LockSeat) -> LockSeat
        requires set { seat.old.table ≡ self.now.table }
        requires two { 1 < seat.old.view.shares }
        ensures kept { seat.new ≡ sitting_with seat.old (after_sharing seat.old.view) }
        ensures new { (result.table ≡ seat.old.table) × (result.view ≡ newcomer seat.old.view) }
    {
        let mut me = seated::<V>(&mut seat.badge);
        let new = self.table.shared.split_seat::<Cut>(&mut me);
        seat.badge = me.into_badge();
        LockSeat {
            badge: new.into_badge(),
        }
    }

    /// Takes in a seat that holds nothing.
    pub fn join(&self, into: &mut LockSeat, seat: LockSeat)
        requires sets { (into.old.table ≡ self.now.table) × (seat.table ≡ self.now.table) }
        requires nothing { seat.view.held ≡ [] }
        ensures joined { into.new ≡ sitting_with into.old (after_join into.old.view seat.view) }
        ensures begins { IsPrefix seat.view.front into.new.view.front }
    {
        let mut me = seated::<V>(&mut into.badge);
        let LockSeat { badge } = seat;
        self.table
            .shared
            .join_seat::<Glue>(&mut me, badge.into_seat());
        self.table.shared.load::<Tally>(&mut me, NOW);
        into.badge = me.into_badge();
    }

    /// What a word holds. Under a lock of this seat it tells what the seat's view has.
    pub fn read_word(&self, seat: &mut LockSeat, w: WordId) -> u64
        requires set { seat.old.table ≡ self.now.table }
        requires word { has_word seat.old.view.input w ≡ true }
        ensures same { seat.new ≡ seat.old }
        ensures tells { Tells (word_index w) result seat.old.view }
    {
        let mut me = seated::<V>(&mut seat.badge);
        let found = self.table.shared.load::<ReadWord>(&mut me, w.index());
        seat.badge = me.into_badge();
        found
    }

    /// Moves a name from one lock of this seat to another, under the book: it stores the name's word, and the view has the name for the other lock.
    /// The two values are changed by the caller, before it unlocks them.
    pub fn move_name(&self, seat: &mut LockSeat, name: NameId, from: &mut Held<V>, to: &mut Held<V>)
        requires set { seat.old.table ≡ self.now.table }
        requires name { has_name seat.old.view.input name ≡ true }
        requires book { Holds book_lock seat.old.view }
        requires from { HasName from.old.lock (name_number name) seat.old.view }
        requires number { to.old.lock < book_lock }
        requires to { Holds to.old.lock seat.old.view }
        ensures view { seat.new ≡ sitting_with seat.old
            (moved_name (name_number name) to.old.lock seat.old.view) }
        ensures from { from.new ≡ from.old }
        ensures to { to.new ≡ to.old }
    {
        self.rename(seat, name, from.lock, to.lock);
    }

    /// The same, where the caller keeps the values of the two locks apart from them.
    pub fn rename(&self, seat: &mut LockSeat, name: NameId, from: LockId, to: LockId)
        requires set { seat.old.table ≡ self.now.table }
        requires name { has_name seat.old.view.input name ≡ true }
        requires book { Holds book_lock seat.old.view }
        requires from { HasName from.0 (name_number name) seat.old.view }
        requires number { to.0 < book_lock }
        requires to { Holds to.0 seat.old.view }
        ensures { seat.new
            ≡ sitting_with seat.old (moved_name (name_number name) to.0 seat.old.view) }
    {
        let mut me = seated::<V>(&mut seat.badge);
        self.table
            .shared
            .store::<WriteName>(&mut me, WordId::Name(name).index(), to.0 as u64);
        seat.badge = me.into_badge();
    }

    /// Sets the moment, under all locks.
    pub fn set_now(&self, seat: &mut LockSeat, t: Moment)
        requires set { seat.old.table ≡ self.now.table }
        requires all { (k : ℕ) → k < lock_count → Holds k seat.old.view }
        ensures { seat.new ≡ sitting_with seat.old (with_now t.0 seat.old.view) }
    {
        let mut me = seated::<V>(&mut seat.badge);
        self.table.shared.store::<Clock>(&mut me, NOW, t.0);
        seat.badge = me.into_badge();
    }

    /// Takes the lock, and waits until it is free.
    pub fn lock<R: Wait>(&self, rt: &R, seat: &mut LockSeat, lock: LockId) -> Held<V>
        requires set { seat.old.table ≡ self.now.table }
        requires number { lock.0 < book_lock }
        requires order { AllBelow lock.0 seat.old.view.held }
        ensures lock { result.lock ≡ lock.0 }
        ensures taken { (n : ℕ) × HasTaken lock.0 (V.part result.value)
            (tried_again n lock.0 seat.old.view) seat.old seat.new }
        ensures suits { V.suits seat.old.view.input seat.new.view.now result.value }
        ensures still { (j : ℕ) (x : Known) → find_lock j seat.old.view.held ≡ Some x →
            seat.new.view.now ≡ seat.old.view.now }
        ensures state { IsPartOfSome lock.0 (V.part result.value) seat.old.view }
    {
        for _ in rt.forever() {
            if let Some(held) = self.try_lock(seat, lock) {
                return held;
            }
            yield_now();
        }
        unreachable!()
    }

    /// Takes the book, and waits until it is free.
    pub fn take_book<R: Wait>(&self, rt: &R, seat: &mut LockSeat) -> HeldBook
        requires set { seat.old.table ≡ self.now.table }
        requires order { AllBelow book_lock seat.old.view.held }
        ensures taken { (n : ℕ) × (now : ℕ)
            × (seat.new ≡ sitting_with seat.old (took_book result.history now
            (tried_again n book_lock seat.old.view))) }
        ensures input { result.input ≡ seat.old.view.input }
        ensures limit { result.limit ≡ seat.old.view.limit }
        ensures begins { IsPrefix seat.old.view.front result.history }
        ensures current { Current seat.new.view }
        ensures still { (k : ℕ) (x : Known) → find_lock k seat.old.view.held ≡ Some x →
            seat.new.view.now ≡ seat.old.view.now }
        ensures alone { seat.old.view.shares ≡ 1024 → result.history ≡ seat.old.view.front }
    {
        for _ in rt.forever() {
            if let Some(held) = self.try_book(seat) {
                return held;
            }
            yield_now();
        }
        unreachable!()
    }

    /// Takes the lock that guards what the name names, and answers a value that lists it. It waits, and tries again where the name has moved.
    pub fn lock_of<R: Wait>(&self, rt: &R, seat: &mut LockSeat, name: NameId) -> Held<V>
        requires set { seat.old.table ≡ self.now.table }
        requires name { has_name seat.old.view.input name ≡ true }
        requires nothing { seat.old.view.held ≡ [] }
        ensures taken { (refused : List ℕ) × (t : ℕ)
            × HasTaken result.lock (V.part result.value)
            (after_search refused t seat.old.view) seat.old
            seat.new }
        ensures suits { V.suits seat.old.view.input seat.new.view.now result.value }
        ensures number { result.lock < book_lock }
        ensures lists { lists (V.part result.value) (name_number name) ≡ true }
        ensures has { HasName result.lock (name_number name) seat.new.view }
        ensures state { IsPartOfSome result.lock (V.part result.value) seat.old.view }
    {
        let mut word = self.read_word(seat, WordId::Name(name));
        for _ in rt.forever() {
            if word < BOOK as u64 {
                let held = self.lock(rt, seat, LockId(word as u8));
                let found = self.read_word(seat, WordId::Name(name));
                if found == word {
                    return held;
                }
                self.unlock(seat, held);
                word = found;
            } else {
                yield_now();
                word = self.read_word(seat, WordId::Name(name));
            }
        }
        unreachable!()
    }

    /// Raises the stage word of a core by one, under the book and the lock of the core's home. The view then names the core.
    pub fn set_stage(&self, seat: &mut LockSeat, r: ResId, b: &HeldBook)
        requires set { seat.old.table ≡ self.now.table }
        requires core { has_core seat.old.view.input r.0 ≡ true }
        requires book { Holds book_lock seat.old.view }
        requires held { Next seat.old.view.front b.now.history }
        requires home { (k : ℕ) × HasName k r.0 seat.old.view }
        requires nobody { seat.old.view.named ≡ 0 }
        ensures { seat.new ≡ sitting_with seat.old (after_naming r.0 seat.old.view) }
    {
        b.book.tell();
        let mut me = seated::<V>(&mut seat.badge);
        self.table
            .shared
            .fetch_add::<Raise>(&mut me, WordId::Stage(r).index(), 1);
        seat.badge = me.into_badge();
    }

    /// Loads the stage word of a core, which the view keeps with the core and counts. In some history that begins with the front, the book's at the load,
    /// the core has at most so many decisions.
    pub fn read_stage(&self, seat: &mut LockSeat, r: ResId) -> u64
        requires set { seat.old.table ≡ self.now.table }
        requires core { has_core seat.old.view.input r.0 ≡ true }
        ensures kept { seat.new ≡ sitting_with seat.old (has_loaded r.0 result seat.old.view) }
        ensures counts { (h : List Entry) × IsPrefix seat.old.view.front h
            × (decides_at h r.0 ≤ result) }
    {
        let mut me = seated::<V>(&mut seat.badge);
        let found = self
            .table
            .shared
            .load::<Load>(&mut me, WordId::Stage(r).index());
        seat.badge = me.into_badge();
        found
    }
}
