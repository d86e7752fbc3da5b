//! The rule of the table, and what each step tells.
use crate::content::{Content, Part};
use crate::view::View;
use atomic_table::{Join, Play, Split, TableRule};
use journal_core::Book;
use std::snapshot::Snapshot;

pub(crate) struct Agreement;

impl<V: Part> TableRule<Content<V>, View, Snapshot<Book>> for Agreement {
    ghost use Rattle.std.specs.Prelude.{length};
    ghost use Rattle.lock_moves.specs.Agreement.{Agrees};
    ghost use Rattle.lock_moves.specs.SeatSight.{view_opening};

    ghost holds = { λ key. Agrees V.part V.suits key.value.input key.value.limit
        (length key.value.history) };

    ghost first = { λ key. view_opening key.value };
}

pub(crate) struct Take;

impl<V: Part> Play<Content<V>, View> for Take {
    ghost use Rattle.lock_moves.specs.Plays.{tried};

    ghost then = { tried V.part V.suits };
}

pub(crate) struct TakeBook;

impl<V> Play<Content<V>, View> for TakeBook {
    ghost use Rattle.lock_moves.specs.Plays.{tried_book};

    ghost then = { tried_book };
}

pub(crate) struct Settle;

impl<V> Play<Content<V>, View> for Settle {
    ghost use Rattle.lock_moves.specs.Plays.{settled};

    ghost then = { settled };
}

pub(crate) struct Fetch;

impl<V> Play<Content<V>, View> for Fetch {
    ghost use Rattle.lock_moves.specs.Plays.{fetched};

    ghost then = { fetched };
}

pub(crate) struct Put;

impl<V> Play<Content<V>, View> for Put {
    ghost use Rattle.lock_moves.specs.Plays.{put_back};

    ghost then = { put_back };
}

pub(crate) struct Commit;

impl<V> Play<Content<V>, View> for Commit {
    ghost use Rattle.lock_moves.specs.Plays.{committed};

    ghost then = { committed };
}

pub(crate) struct CommitOn;

impl<V> Play<Content<V>, View> for CommitOn {
    ghost use Rattle.lock_moves.specs.Plays.{went_on};

    ghost then = { went_on };
}

pub(crate) struct ReadWord;

impl<V> Play<Content<V>, View> for ReadWord {
    ghost use Rattle.lock_moves.specs.Plays.{looked};

    ghost then = { looked };
}

pub(crate) struct WriteName;

impl<V> Play<Content<V>, View> for WriteName {
    ghost use Rattle.lock_moves.specs.Plays.{named};

    ghost then = { named };
}

pub(crate) struct Clock;

impl<V> Play<Content<V>, View> for Clock {
    ghost use Rattle.lock_moves.specs.Plays.{timed};

    ghost then = { timed };
}

pub(crate) struct Load;

impl<V> Play<Content<V>, View> for Load {
    ghost use Rattle.lock_moves.specs.Plays.{loaded};

    ghost then = { loaded };
}

pub(crate) struct Raise;

impl<V> Play<Content<V>, View> for Raise {
    ghost use Rattle.lock_moves.specs.Plays.{raised};

    ghost then = { raised };
}

pub(crate) struct Cut;

impl Split<View> for Cut {
    ghost use Rattle.lock_moves.specs.SeatSight.{view_lessened, view_newcomer};

    ghost left = { view_lessened };

    ghost right = { view_newcomer };
}

// What a seat took in begins what it has seen.
pub(crate) struct Tally;

impl<V> Play<Content<V>, View> for Tally {
    ghost use Rattle.lock_moves.specs.Plays.{found_beside};

    ghost then = { found_beside };
}

pub(crate) struct Glue;

impl Join<View> for Glue {
    ghost use Rattle.lock_moves.specs.SeatSight.{view_joined, spent_view};

    ghost both = { view_joined };

    ghost spent = { spent_view };
}
