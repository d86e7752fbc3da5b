//! The checker's judgement of a history.

ghost use Rattle.sched_model.specs.CheckedMachine.{IsChecked};

use journal_core::Book;
use sched_base::NoMemory;
use sched_check::checker::Checker;
use sched_model::machine::Machine;
use std::alloc::Global;
use std::fmt;

/// What the checker says of a history.
#[derive(Clone, Copy)]
pub enum Judged {
    Whole,
    Beginning,
    NoRun,
}

impl fmt::Display for Judged {
    fn fmt<W: fmt::Write>(&self, f: &mut fmt::Formatter<W>) -> fmt::Result {
        f.write_str(match self {
            Judged::Whole => "a whole run",
            Judged::Beginning => "the beginning of a run",
            Judged::NoRun => "no run",
        })
    }
}

/// Has the checker take each entry of the book.
fn judge_entries(checker: &mut Checker, book: &Book) -> Judged {
    for i in 0..book.len() {
        if checker.step(&book.get(i)).is_err() {
            return Judged::NoRun;
        }
    }
    if checker.finished() {
        Judged::Whole
    } else {
        Judged::Beginning
    }
}

/// Judges the history of a book by the checker, which goes through the plain machine. Where `ordered` says so, each event has to be the first that may come.
pub fn judge(
    alloc: Global,
    machine: Machine,
    ordered: bool,
    book: &Book,
) -> Result<Judged, NoMemory>
    requires { IsChecked machine }
{
    let mut checker = Checker::open(alloc, machine, ordered)?;
    let judged = judge_entries(&mut checker, book);
    checker.close();
    Ok(judged)
}
