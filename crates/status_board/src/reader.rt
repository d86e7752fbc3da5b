//! The readers of a board.

ghost use Rattle.std.specs.Prelude.{◌≡◌, ◌≤◌, ◌↔◌, List, IfSome, IsTrue, MatchOption};
ghost use mathlib.Core.List.{IsPrefix};
ghost use Rattle.left_right.specs.Sides.{view};
ghost use Rattle.status_board.specs.Boards.{longer_list};
ghost use Rattle.status_board.specs.Totals.{totals_of};

use crate::rule::{Seat, Seen};
use crate::sums::Sums;
use crate::totals::Totals;
use std::marker::Model;
use std::snapshot::Snapshot;

/// A reader of a board. It keeps the totals of what it has seen, so that it has an answer where the board gives none.
#[derive(Drop)]
pub struct BoardReader {
    seat: Option<Seat>,
    seen: Snapshot<Sums>,
    cores: u8,
    totals: Totals,
}

impl Model for BoardReader {
    ghost use Rattle.std.specs.Prelude.{◌≡◌, ◌≤◌, IfSome};
    ghost use Rattle.left_right.specs.Sides.{view as knows};
    ghost use Rattle.status_board.specs.Boards.{Watch};
    ghost use Rattle.status_board.specs.Totals.{totals_of};

    ghost Value = { Watch };

    ghost view = { λ r. record { cores = r.cores; seen = r.seen.value } };

    ghost invariant = { λ r. IfSome r.seat (λ s. knows s.place ≡ r.seen.value) × (r.cores ≤ 64)
        × (r.totals ≡ totals_of r.cores r.seen.value) };
}

/// What a writer tells a reader: the entries that were published, and their totals.
#[derive(Drop)]
pub struct Told {
    reader: BoardReader,
}

impl Model for Told {
    ghost use Rattle.status_board.specs.Boards.{News};

    ghost Value = { News };

    ghost view = { λ t. record { cores = t.reader.cores; list = t.reader.seen } };
}

/// What a seat sees: the list, for contracts alone, and its totals.
#[derive(Drop)]
struct Sight {
    list: Snapshot<Sums>,
    totals: Totals,
}

/// Enters the board, where the board lets the seat in.
fn enter(seat: Seat, cores: u8) -> (Seat, Option<Sight>)
    requires { cores ≤ 64 }
    ensures later { IfSome result.1 (λ s. IsPrefix (view seat.place) s.list.value) }
    ensures totals { IfSome result.1 (λ s. s.totals ≡ totals_of cores s.list.value) }
    ensures seat { MatchOption result.1 (view result.0.place ≡ view seat.place)
        (λ s. view result.0.place ≡ s.list.value) }
{
    match seat.enter_as::<Seen>() {
        Ok(reading) => {
            let sums = reading.get();
            let list = Snapshot::of(sums);
            let totals = sums.totals(cores);
            (reading.leave(), Some(Sight { list, totals }))
        }
        Err(seat) => (seat, None),
    }
}

impl BoardReader {
    /// A reader in the seat that has seen these entries.
    pub(crate) fn seated(seat: Option<Seat>, sums: &Sums, cores: u8) -> BoardReader
        requires seat { IfSome seat (λ s. view s.place ≡ sums.now) }
        requires cores { cores ≤ 64 }
        ensures { result ≡ record { cores = cores; seen = sums.now } }
    {
        BoardReader {
            seat,
            seen: Snapshot::of(sums),
            cores,
            totals: sums.totals(cores),
        }
    }

    /// Takes in what the writer told: from then on the reader shows no less. The `Told` is to be one of the same board.
    pub fn learn(&mut self, told: Told)
        requires cores { told.cores ≡ self.old.cores }
        ensures seen { self.new.seen ≡ longer_list self.old.seen told.list }
        ensures cores { self.new.cores ≡ self.old.cores }
    {
        if told.reader.totals.entries > self.totals.entries {
            *self = told.reader;
        }
    }

    /// The totals of what is published. It never waits. Where the board gives no answer, as after its writer was closed, they
    /// are those that the reader saw or learned last.
    pub fn look(&mut self) -> Totals
        ensures totals { result ≡ totals_of self.new.cores self.new.seen }
        ensures later { IsPrefix self.old.seen self.new.seen }
        ensures cores { self.new.cores ≡ self.old.cores }
    {
        if let Some(seat) = self.seat.take() {
            let (seat, sight) = enter(seat, self.cores);
            self.seat = Some(seat);
            if let Some(sight) = sight {
                self.seen = sight.list;
                self.totals = sight.totals;
            }
        }
        self.totals.duplicate()
    }
}

impl Told {
    /// What this reader has seen.
    pub(crate) fn of(reader: BoardReader) -> Told
        ensures { result ≡ record { cores = reader.cores; list = reader.seen } }
    {
        Told { reader }
    }

    /// Whether it is of a board with as many cores as that of the reader.
    pub fn fits(&self, reader: &BoardReader) -> bool
        ensures { IsTrue result ↔ (self.now.cores ≡ reader.now.cores) }
    {
        self.reader.cores == reader.cores
    }

    /// The totals of the entries that were published.
    pub fn totals(&self) -> Totals
        ensures { result ≡ totals_of self.now.cores self.now.list }
    {
        self.reader.totals.duplicate()
    }
}
