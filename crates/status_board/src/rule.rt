//! The rule of a board, and what its steps tell.

use crate::sums::Sums;
use atomic_table::{Join, Split};
use crossbeam_utils::rule::{Outcome, Protocol};
use left_right::reader::Reader;
use left_right::writer::Writer;
use sched_model::event::Entry;
use sched_report::Past;

/// What each thread has seen begins the published entries.
pub(crate) struct Shown;

impl Protocol<Sums, Past> for Shown {
    ghost use Rattle.std.specs.Prelude.{[]};
    ghost use Rattle.status_board.specs.Boards.{BeginAll};

    ghost holds = { BeginAll };

    ghost first = { [] };
}

/// What a look and a publish tell.
pub(crate) struct Seen;

impl Outcome<Sums, Past> for Seen {
    ghost use Rattle.status_board.specs.Boards.{Sees};

    ghost then = { Sees };
}

/// The writer gives away what it has published, and keeps it.
pub(crate) struct Tell;

impl Split<Past> for Tell {
    ghost left = { λ seen. seen };

    ghost right = { λ seen. seen };
}

/// A new reader takes in what the writer told.
pub(crate) struct Learn;

impl Join<Past> for Learn {
    ghost use Rattle.std.specs.Prelude.{[]};

    ghost both = { λ seen told. told };

    ghost spent = { [] };
}

/// A reader's place at the board.
pub(crate) type Seat = Reader<Sums, Past, Shown>;

/// The writer's place.
pub(crate) type Author = Writer<Sums, Entry, Past, Shown>;
