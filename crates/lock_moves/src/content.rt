//! What the locks guard, and how locks, names and words are named.

ghost use Rattle.std.specs.Prelude.{◌≡◌, ◌<◌, ◌+◌};
ghost use Rattle.std.specs.Borrow.{sem};
ghost use Rattle.lock_moves.specs.Words.{name_number, word_index};
ghost use Rattle.lock_moves.specs.Loans.{held_lends, held_book_lends};

use crate::names::Names;
use journal_core::Book;
use sched_base::{DomId, ResId};
use std::marker::Model;
use std::snapshot::Snapshot;

/// The tool's lock, after those of the 16 pools.
pub const TOOL: LockId = LockId(16);

/// The number of the book's lock, the last one. The locks below guard the parts of the state.
pub(crate) const BOOK: usize = 17;

/// How many locks there are.
pub(crate) const LOCKS: usize = 18;

/// The word of the moment. It comes after those of the locks and of 128 names.
pub(crate) const NOW: usize = 146;

/// The word of the first core's stage.
pub(crate) const STAGES: usize = 147;

/// How many words there are.
pub(crate) const WORDS: usize = 211;

/// The number of a lock: a pool's from 0 to 15, then the tool's (`TOOL`), and then the book's.
#[derive(Clone, Copy)]
pub struct LockId(pub u8);

/// A name: a core or a domain. Its word says which lock guards what it names.
#[derive(Clone, Copy)]
pub enum NameId {
    Res(ResId),
    Dom(DomId),
}

/// A word that seats share: a lock's, which is 0 where the lock is free and 1 where it is taken; a name's, which is the number of its lock;
/// the moment; and a core's stage, which counts its decisions.
#[derive(Clone, Copy)]
pub enum WordId {
    Lock(LockId),
    Name(NameId),
    Now,
    Stage(ResId),
}

impl NameId {
    /// The number of the name: that of a core, or 64 more than that of a domain.
    pub fn number(self) -> usize
        ensures { result ≡ name_number self }
    {
        match self {
            NameId::Res(r) => r.0 as usize,
            NameId::Dom(d) => 64 + d.0 as usize,
        }
    }
}

impl WordId {
    /// The number of the word.
    pub(crate) fn index(self) -> usize
        ensures { result ≡ word_index self }
    {
        match self {
            WordId::Lock(lock) => lock.0 as usize,
            WordId::Name(name) => LOCKS + name.number(),
            WordId::Now => NOW,
            WordId::Stage(r) => STAGES + r.0 as usize,
        }
    }
}

/// A value that is a part of the machine's state.
pub trait Part: Drop {
    ghost use Rattle.std.specs.Prelude.{ℕ};
    ghost use Rattle.sched_model.specs.declared.machine.Machine.{Machine};
    ghost use Rattle.journal_core.specs.Parts.{StatePart};
    ghost use Rattle.lock_moves.specs.NameSets.{AreNamesOf};

    ghost part: { Self → StatePart };

    /// What else holds of a value of this machine at a moment.
    ghost suits: { Machine → ℕ → Self → Type 0 };

    /// The cores and domains that the part lists.
    fn names(&self) -> Names
        ensures { AreNamesOf (part self.now) result };
}

/// What lies in the slot of a lock.
#[derive(Drop)]
pub(crate) enum Content<V> {
    Out,
    Value(V),
    Ledger(Book),
    // What a step that moves no slot says of the book. It lies in none.
    Told(Snapshot<Book>),
}

/// The value of a lock that was taken. Contracts see the number of the lock and the value.
#[derive(Drop)]
pub struct Held<V> {
    pub(crate) lock: LockId,
    pub(crate) value: V,
}

impl<V> Model for Held<V> {
    ghost use Rattle.lock_moves.specs.Sets.{Taken};

    ghost Value = { Taken V };

    ghost view = { λ h. record { lock = h.lock.0; value = h.value } };
}

impl<V> Held<V> {
    /// A lock that was taken, with its value.
    pub fn new(lock: LockId, value: V) -> Held<V>
        ensures lock { result.lock ≡ lock.0 }
        ensures value { result.value ≡ value }
    {
        Held { lock, value }
    }

    /// The value, without its lock.
    pub fn into_value(self) -> V
        ensures { result ≡ self.value }
    {
        self.value
    }

    /// The lock.
    pub fn lock(&self) -> LockId
        ensures { result.0 ≡ self.now.lock }
    {
        self.lock
    }

    /// The value.
    pub fn get(&self) -> &V
        ensures { result.now ≡ self.now.value }
    {
        &self.value
    }

    /// The value, for writing.
    pub fn get_mut(&mut self) -> &mut V
        ensures* writes_back { sem 𝓛 (held_lends V.row self.entry result) }
        ensures value { result.now ≡ self.old.value }
    {
        &mut self.value
    }
}

/// The book of a set whose book was taken. Contracts see it as the book.
#[derive(Drop)]
pub struct HeldBook {
    pub(crate) book: Book,
}

impl Model for HeldBook {
    ghost use Rattle.journal_core.specs.Books.{Chronicle};

    ghost Value = { Chronicle };

    ghost view = { λ h. h.book };
}

impl HeldBook {
    /// The book.
    pub fn get(&self) -> &Book
        ensures { result.now ≡ self.now }
    {
        &self.book
    }

    /// The book, for the commit of the next entry.
    pub fn get_mut(&mut self) -> &mut Book
        ensures* writes_back { sem 𝓛 (held_book_lends self.entry result) }
        ensures value { result.now ≡ self.old }
    {
        &mut self.book
    }
}
