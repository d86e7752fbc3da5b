//! What tells how far a run has come, in no bytes.

use journal_core::Book;
use sched_model::config::Config;
use sched_model::event::Entry;
use sched_model::work::Work;
use std::marker::Model;
use std::mem::size_of;
use std::snapshot::Snapshot;

/// The input of a run, and a beginning of the run: the witness of a call on a part of the machine's state. It keeps neither; contracts
/// alone see them, and no call reads them. That the history is a run is what a clause or an invariant of its holder says.
#[derive(Drop)]
#[cycle(trail)]
pub struct Trail {
    way: Snapshot<TrailOrigin>,
}

// The trail has no bytes.
const _: () = prove!(size_of::<Trail>() == 0);

// How a trail was made. It is a snapshot too, so that a trail is let go without a look at it.
#[derive(Drop)]
#[cycle(trail)]
enum TrailOrigin {
    Opened(Snapshot<Config>, Snapshot<Work>),
    Read(Snapshot<Book>),
    Added(Snapshot<Trail>, Snapshot<Entry>),
}

impl Model for Trail {
    ghost use Rattle.machine_parts.specs.Told.{Told, told_size};

    ghost Value = { Told };

    ghost use Rattle.machine_parts.specs.Ways.{told_by};

    ghost view = { λ t. told_by t.way.value };

    ghost size = { told_size };
}

impl Trail {
    ghost use Rattle.std.specs.Prelude.{◌≡◌};
    ghost use Rattle.machine_parts.specs.Told.{Told, told_new, told_of, told_more};

    /// Of this input, before the first entry.
    pub fn opened(config: &Config, work: &Work) -> Trail
        ensures { result ≡ told_new config.now work.now }
    {
        Trail {
            way: Snapshot::of(&TrailOrigin::Opened(Snapshot::of(config), Snapshot::of(work))),
        }
    }

    /// As far as the book has come.
    pub fn of(book: &Book) -> Trail
        ensures { result ≡ told_of book.now }
    {
        Trail {
            way: Snapshot::of(&TrailOrigin::Read(Snapshot::of(book))),
        }
    }

    /// With one entry more.
    pub fn add(&mut self, e: &Entry)
        ensures { self.new ≡ told_more self.old e.now }
    {
        *self = Trail {
            way: Snapshot::of(&TrailOrigin::Added(Snapshot::of(self), Snapshot::of(e))),
        };
    }
}
