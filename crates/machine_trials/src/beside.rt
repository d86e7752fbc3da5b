//! Runs of the engine, with the checker beside it, whose plain machine goes through every event of the same two files.

ghost use Rattle.sched_model.specs.CheckedMachine.{IsChecked};

use crate::answers::put_line;
use crate::files::machine_of;
use crate::stop::{Stop, printed};
use engine::Engine;
use sched_base::NoMemory;
use sched_check::checker::Checker;
use sched_io::Store;
use sched_model::event::Entry;
use sched_model::machine::Machine;
use std::alloc::Global;

/// The most entries that a run of the engine has here.
const MOST_ENTRIES: u32 = 1000;

/// The engine's next entry, where the checker takes it: where the plain machine is at the same moment, has the same first action and does the same event, or
/// ends the moment with the same next one.
fn next_entry(engine: &mut Engine, checker: &mut Checker) -> Result<Entry, Stop> {
    let entry = engine.go_on().entry;
    match checker.step(&entry) {
        Ok(()) => Ok(entry),
        Err(_) => Err(Stop::Differ),
    }
}

/// Prints what both do, up to the end of the run.
fn follow<R: Print>(rt: &R, engine: &mut Engine, checker: &mut Checker) -> Result<(), Stop> {
    for _ in 0..MOST_ENTRIES {
        let entry = next_entry(engine, checker)?;
        printed(put_line(rt, entry))?;
        if checker.finished() {
            return Ok(());
        }
    }
    Err(Stop::TooLong)
}

/// Opens the engine of the machine, and goes through its run beside the checker.
fn with_engine<R: Print>(
    rt: &R,
    alloc: Global,
    machine: Machine,
    checker: &mut Checker,
) -> Result<(), Stop>
    requires { IsChecked machine }
{
    match Engine::open(alloc, machine) {
        Ok(mut engine) => {
            let end = follow(rt, &mut engine, checker);
            engine.close();
            end
        }
        Err(NoMemory) => Err(Stop::NoMemory),
    }
}

/// A checker of the ordered run of the two files, at its opening.
fn checker_of<S: Store>(
    alloc: Global,
    domains: &str,
    work: &str,
    store: &mut S,
) -> Result<Checker, Stop> {
    let machine = machine_of(alloc, domains, work, store)?;
    match Checker::open(alloc, machine, true) {
        Ok(checker) => Ok(checker),
        Err(NoMemory) => Err(Stop::NoMemory),
    }
}

/// The engine of the two files goes through its run beside the checker.
fn run_beside<R: Print, S: Store>(
    rt: &R,
    alloc: Global,
    domains: &str,
    work: &str,
    store: &mut S,
    checker: &mut Checker,
) -> Result<(), Stop> {
    let machine = machine_of(alloc, domains, work, store)?;
    with_engine(rt, alloc, machine, checker)
}

/// The engine and the plain machine go through the run of the two files, which are read once for each, and print it.
pub fn try_engine<R: Print, S: Store>(
    rt: &R,
    alloc: Global,
    domains: &str,
    work: &str,
    store: &mut S,
) -> Result<(), Stop> {
    let mut checker = checker_of(alloc, domains, work, store)?;
    let end = run_beside(rt, alloc, domains, work, store, &mut checker);
    checker.close();
    end
}
