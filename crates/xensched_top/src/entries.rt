//! The entries of a run, one after the other, whoever has them: the engine, which makes them, or a book, in which they stand.

use engine::Engine;
use journal_core::Book;
use pcpu_threads::RunEnd;
use sched_model::event::Entry;
use std::marker::Model;

/// The entries of a run, and how it ends behind them.
pub(crate) trait Entries {
    ghost use Rattle.std.specs.Prelude.{◌≡◌, List, [], ◌∷◌, IfNone, IfSome};
    ghost use Rattle.sched_model.specs.declared.event.Entry.{Entry as EntryValue};
    ghost use Rattle.pcpu_threads.specs.declared.ends.RunEnd.{RunEnd as End};

    /// The entries that are still to come.
    ghost coming: { Self → List EntryValue };

    /// How the run ends behind them.
    ghost ending: { Self → End };

    /// The next entry, or none where all have come.
    fn next(&mut self) -> Option<Entry>
        ensures some { IfSome result (λ entry. coming self.old ≡ entry ∷ coming self.new) }
        ensures none { IfNone result (coming self.old ≡ []) }
        ensures same { IfNone result (self.new ≡ self.old) }
        ensures ending { ending self.new ≡ ending self.old };

    /// How the run ended, once all entries have come.
    fn end(&self) -> RunEnd
        requires { coming self.now ≡ [] }
        ensures { result ≡ ending self.now };
}

/// The entries of the ordered run of a machine, as the engine makes them, at most so many as are left.
#[derive(Drop)]
pub(crate) struct OrderedEntries {
    engine: Engine,
    left: u32,
    over: bool,
}

impl Model for OrderedEntries {
    ghost use Rattle.xensched_top.specs.Entries.{Coming, ordered_entries};

    ghost Value = { Coming };

    ghost view = { λ o. ordered_entries o.engine.machine o.engine.state o.left o.over };
}

impl OrderedEntries {
    ghost use Rattle.std.specs.Prelude.{◌≡◌, false};
    ghost use Rattle.xensched_top.specs.Entries.{ordered_entries};

    /// Those of the engine's machine in its state, at most this many.
    pub(crate) fn of(engine: Engine, limit: u32) -> OrderedEntries
        ensures { result ≡ ordered_entries engine.machine engine.state limit false }
    {
        OrderedEntries {
            engine,
            left: limit,
            over: false,
        }
    }

    /// Gives back the memory of the engine.
    pub(crate) fn close(self) {
        self.engine.close();
    }
}

impl Entries for OrderedEntries {
    ghost coming = { λ o. o.entries };

    ghost ending = { λ o. o.end };

    fn next(&mut self) -> Option<Entry> {
        if self.over || self.left == 0 {
            return None;
        }
        let step = self.engine.go_on();
        self.left -= 1;
        self.over = step.last;
        Some(step.entry)
    }

    fn end(&self) -> RunEnd {
        if self.over {
            RunEnd::Finished
        } else {
            RunEnd::Full
        }
    }
}

/// The entries of a run that has ended so, as they stand in its book.
#[derive(Drop)]
pub(crate) struct RecordedEntries {
    book: Book,
    place: u32,
    end: RunEnd,
}

impl Model for RecordedEntries {
    ghost use Rattle.xensched_top.specs.Entries.{Coming, recorded_entries};

    ghost Value = { Coming };

    ghost view = { λ r. recorded_entries r.book.history r.place r.end };
}

impl RecordedEntries {
    ghost use Rattle.std.specs.Prelude.{◌≡◌};
    ghost use Rattle.xensched_top.specs.Entries.{recorded_entries};

    /// Those of the book, from the first one on.
    pub(crate) fn of(book: Book, end: RunEnd) -> RecordedEntries
        ensures { result ≡ recorded_entries book.history 0 end }
    {
        RecordedEntries::behind(book, 0, end)
    }

    /// Those of the book from this place on.
    pub(crate) fn behind(book: Book, place: u32, end: RunEnd) -> RecordedEntries
        ensures { result ≡ recorded_entries book.history place end }
    {
        RecordedEntries { book, place, end }
    }
}

impl Entries for RecordedEntries {
    ghost coming = { λ r. r.entries };

    ghost ending = { λ r. r.end };

    fn next(&mut self) -> Option<Entry> {
        if self.place >= self.book.len() {
            return None;
        }
        let entry = self.book.get(self.place);
        self.place += 1;
        Some(entry)
    }

    fn end(&self) -> RunEnd {
        self.end
    }
}
