//! The history of a run of one free core, which stalls once.

ghost use Rattle.std.specs.Prelude.{◌≡◌, IfOk};
ghost use Rattle.board_trials.specs.Example.{stalling_book};

use journal_core::Book;
use sched_base::{Moment, NoMemory, ProcId, ResId, Span};
use sched_model::config::Config;
use sched_model::event::{Entry, Event};
use sched_model::row::Row;
use sched_model::work::{StallLine, Work};
use std::alloc::Global;
use std::test::Fail;

/// A book for three entries of the run of one core, with no pool and no domain, and a stall of 2 nanoseconds at 3.
fn empty_book(alloc: Global) -> Result<Book, NoMemory>
    ensures { IfOk result (λ book. book ≡ stalling_book) }
{
    let stall = StallLine {
        at: Moment(3),
        cpu: ProcId(0),
        span: Span(2),
    };
    let stalls = vec![in alloc; stall]?;
    let config = Config {
        granularity: 1,
        processors: 1,
        horizon: Moment(9),
        pools: Row::from_vec(Vec::new(alloc)),
        domains: Row::from_vec(Vec::new(alloc)),
    };
    let work = Work {
        stalls: Row::from_vec(stalls),
        commands: Row::from_vec(Vec::new(alloc)),
    };
    Book::room(alloc, &config, &work, 3)
}

/// The whole run.
const END: Entry = Entry {
    at: Moment(0),
    event: Event::End { next: Moment(3) },
};

const STALL: Entry = Entry {
    at: Moment(3),
    event: Event::Stall {
        p: ProcId(0),
        until: Moment(5),
    },
};

const FINISH: Entry = Entry {
    at: Moment(3),
    event: Event::Finish,
};

/// Commits the whole run. It answers whether each moment is the right one, and the last entry has room but no further one.
fn commit_all(book: &mut Book) -> [bool; 5]
    requires { book.old ≡ stalling_book }
{
    let start = book.now().0 == 0;
    book.commit(END);
    let later = book.now().0 == 3;
    book.commit(STALL);
    let room_for_last = book.room_left();
    book.commit(FINISH);
    [
        start,
        later,
        room_for_last,
        book.now().0 == 3,
        !book.room_left(),
    ]
}

/// Whether the book tells the whole run.
fn tells_all(book: &Book) -> bool {
    book.len() == 3 && book.get(0) == END && book.get(1) == STALL && book.get(2) == FINISH
}

#[test]
fn a_book_has_what_was_committed(rt: HostRuntime) -> Result<(), Fail> {
    let mut book = empty_book(rt.alloc())?;
    let right = commit_all(&mut book);
    let numbers = book.limit() == 3 && book.decides(ResId(0)) == 0;
    let all = tells_all(&book);
    drop(book);
    assert_eq!(rt; right, [true; 5]);
    assert_eq!(rt; [numbers, all], [true; 2]);
    Ok(())
}
