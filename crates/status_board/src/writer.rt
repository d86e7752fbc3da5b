//! The writer of a board.

ghost use Rattle.std.specs.Prelude.{◌≡◌, ◌≤◌, ◌++◌, ◌∷◌, [], drop, IfSome, OnOk, OnErr};
ghost use Rattle.left_right.specs.Sides.{view};

use crate::reader::{BoardReader, Told};
use crate::rule::{Author, Learn, Seat, Seen, Tell};
use crate::sums::Sums;
use core::mem::replace_with;
use sched_base::NoMemory;
use sched_model::event::Entry;
use std::alloc::Global;
use std::marker::Model;
use std::sync::Wait;

/// The writer of a board. It is not `Drop`: end it by `close`.
pub struct BoardWriter {
    author: Author,
    cores: u8,
}

impl Model for BoardWriter {
    ghost use Rattle.std.specs.Prelude.{◌≡◌, ◌≤◌, drop};
    ghost use Rattle.left_right.specs.Sides.{view as knows};
    ghost use Rattle.status_board.specs.Boards.{Desk};

    ghost Value = { Desk };

    ghost view = { λ w. record {
      cores = w.cores;
      published = w.author.desk.shown.value;
      pending = drop w.author.behind w.author.log.items;
    } };

    ghost invariant = { λ w. (w.cores ≤ 64)
        × (knows w.author.desk.place ≡ w.author.desk.shown.value) };
}

/// A new seat at the board that knows what the writer has published, where there is a free one.
fn seat_told(author: &mut Author) -> Option<Seat>
    ensures told { IfSome result (λ s. view s.place ≡ view author.old.desk.place) }
    ensures shown { author.new.desk.shown ≡ author.old.desk.shown }
    ensures pending { drop author.new.behind author.new.log.items
        ≡ drop author.old.behind author.old.log.items }
    ensures view { view author.new.desk.place ≡ view author.old.desk.place }
{
    let mut seat = author.factory().reader().ok()?;
    seat.learn::<Learn>(author.tell::<Tell>());
    Some(seat)
}

/// Publishes what is pending.
fn published<R: Wait>(author: Author, rt: &R) -> (Author, ())
    requires { view author.desk.place ≡ author.desk.shown.value }
    ensures shown { result.0.desk.shown.value ≡ author.desk.shown.value
        ++ drop author.behind author.log.items }
    ensures pending { drop result.0.behind result.0.log.items ≡ [] }
    ensures view { view result.0.desk.place ≡ result.0.desk.shown.value }
{
    let (author, _done) = author.publish_as::<Seen, R>(rt);
    (author, ())
}

impl BoardWriter {
    /// The writer of a board of so many cores.
    pub(crate) fn over(author: Author, cores: u8) -> BoardWriter
        requires cores { cores ≤ 64 }
        requires view { view author.desk.place ≡ author.desk.shown.value }
        ensures { result ≡ record {
          cores = cores;
          published = author.desk.shown.value;
          pending = drop author.behind author.log.items;
        } }
    {
        BoardWriter { author, cores }
    }

    /// Adds an entry to those that wait to be published. Its one error is want of memory, and then nothing is changed.
    pub fn add(&mut self, _alloc: Global, e: &Entry) -> Result<(), NoMemory>
        ensures added { OnOk result (self.new
            ≡ record self.old { pending = self.old.pending ++ e.now ∷ [] }) }
        ensures unchanged { OnErr result (self.new ≡ self.old) }
    {
        self.author.append(*e).map_err(|_| NoMemory)
    }

    /// Publishes the entries that wait, all at once. It may wait for readers that are at the board.
    pub fn publish<R: Wait>(&mut self, rt: &R)
        ensures { self.new ≡ record self.old {
          published = self.old.published
              ++ self.old.pending;
          pending = [];
        } }
    {
        replace_with(&mut self.author, rt, published)
    }

    /// Tells what is published, for one reader of this board to learn. A board has two places for each of its readers, and a `Told`
    /// that waits takes one: where none is free, the reader that learns it shows these totals until it learns again.
    pub fn tell(&mut self) -> Told
        ensures told { result ≡ record { cores = self.old.cores; list = self.old.published } }
        ensures kept { self.new ≡ self.old }
    {
        let seat = seat_told(&mut self.author);
        Told::of(BoardReader::seated(seat, self.author.published(), self.cores))
    }

    /// Ends the board, and waits for readers that are at it. Each reader keeps what it has seen.
    pub fn close<R: Wait>(self, rt: &R) {
        let BoardWriter { author, cores: _ } = self;
        author.take(rt);
    }
}
