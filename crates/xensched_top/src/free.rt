//! A free run: each processor of the machine has a worker, the workers act side by side in threads, and the events of a moment come in the order in
//! which the workers find them. Its schedule is written while it goes on, and its report once it has ended.

ghost use Rattle.std.specs.Prelude.{◌≡◌, ◌≤◌, ◌<◌, ◌^◌, ℕ, [], length, true, false, is_ok, IfOk, IfErr, OnOk};
ghost use Rattle.command_line.specs.Commands.{MayBe};
ghost use Rattle.sched_model.specs.CheckedMachine.{IsChecked, IsWithin};
ghost use Rattle.xensched_top.specs.Answers.{PutsNothing, Writes};
ghost use Rattle.sched_model.specs.declared.machine.Machine.{Machine};
ghost use Rattle.xensched_top.specs.Ends.{HasEnded};
ghost use Rattle.xensched_top.specs.Written.{HasRun, HasWritten};

use crate::entries::{Entries, RecordedEntries};
use crate::output::{Output, put_entries, status_of};
use crate::status::Status;
use crate::writing::Writing;
use command_line::Form;
use pcpu_threads::{Hall, run_free, run_heard, split_crew, split_workers};
use sched_base::{Failed, NoMemory};
use sched_io::{OpenGate, Sink};
use sched_model::machine::Machine;
use std::alloc::Global;
use std::sync::Wait;
use std::thread::Threads;

/// Makes a run of the machine, with at most this many entries, and answers them and how it ended. All memory of the run is taken before its first event.
fn make_run<R: Threads + Wait + Sync>(
    rt: &R,
    alloc: Global,
    machine: &Machine,
    limit: u32,
) -> Result<RecordedEntries, NoMemory>
    requires checked { IsChecked machine.now }
    requires limit { IsWithin 1 4000000 limit }
    ensures ended { IfOk result (λ run. HasEnded run.end false limit machine.now run.entries) }
    ensures few { IfOk result (λ run. length run.entries < 2 ^ 32) }
{
    let (hall, mut seat) = Hall::open(alloc, &machine.config, &machine.work, limit)?;
    match split_workers(alloc, &hall, &mut seat, machine.config.processors) {
        Ok(workers) => {
            let domains = machine.config.domains.len() as u8;
            let (book, end) = run_free(rt, hall, seat, workers, domains, &OpenGate);
            book.tell();
            Ok(RecordedEntries::of(book, end))
        }
        Err(_) => {
            drop(hall.end(seat));
            Err(NoMemory)
        }
    }
}

/// Makes a run of the machine, with at most this many entries, and writes its entries while it goes on. It answers those that are not written yet.
/// All memory of the run is taken before its first event.
fn make_heard<R: Threads + Wait + Sync, K: Sink>(
    rt: &R,
    alloc: Global,
    machine: &Machine,
    limit: u32,
    writing: &mut Writing,
    sink: &mut K,
) -> Result<RecordedEntries, NoMemory>
    requires checked { IsChecked machine.now }
    requires limit { IsWithin 1 4000000 limit }
    requires fine { writing.old.failed ≡ false }
    ensures run { IfOk result (λ rest. HasRun K.told K.faults limit machine.now rest sink.old
        writing.new sink.new) }
    ensures refused { IfErr result (λ e. sink.new ≡ sink.old) }
{
    let (hall, mut seat) = Hall::open(alloc, &machine.config, &machine.work, limit)?;
    match split_crew(alloc, &hall, &mut seat, machine.config.processors) {
        Ok((workers, scribe)) => {
            let domains = machine.config.domains.len() as u8;
            let (book, end, read) = run_heard(
                rt, hall, seat, workers, scribe, domains, &OpenGate, writing, sink,
            );
            book.tell();
            Ok(RecordedEntries::behind(book, read as u32, end))
        }
        Err(_) => {
            drop(hall.end(seat));
            Err(NoMemory)
        }
    }
}

/// Makes a run of the machine, with at most this many entries, and writes its schedule while it goes on.
fn write_schedule<R: Threads + Wait + Sync, K: Sink>(
    rt: &R,
    alloc: Global,
    machine: Machine,
    limit: u32,
    sink: &mut K,
) -> Status
    requires checked { IsChecked machine }
    requires limit { IsWithin 1 4000000 limit }
    ensures written { Writes false Form.Schedule limit machine (K.told sink.old) (K.told sink.new)
        (K.faults sink.old) (K.faults sink.new) result }
    ensures nothing { PutsNothing result → sink.new ≡ sink.old }
    ensures counts { K.faults sink.old ≤ K.faults sink.new }
{
    let mut writing = Writing::new();
    match make_heard(rt, alloc, &machine, limit, &mut writing, sink) {
        Ok(mut rest) => {
            let status = match put_rest(&writing, &mut rest, sink) {
                Ok(()) => status_of(rest.end(), limit),
                Err(_) => Status::WriteFault,
            };
            drop(rest);
            drop(machine);
            status
        }
        Err(_) => {
            drop(machine);
            Status::NoMemory
        }
    }
}

/// Writes the lines of the entries that are left, unless a put has failed before.
fn put_rest<K: Sink>(
    writing: &Writing,
    rest: &mut RecordedEntries,
    sink: &mut K,
) -> Result<(), Failed>
    ensures written { (limit : ℕ) (m : Machine) (out : K) →
        HasRun K.told K.faults limit m rest.old out writing.now sink.old →
        HasWritten K.told K.faults limit m (is_ok result) rest.old.end out sink.new }
    ensures all { OnOk result (rest.new.entries ≡ []) }
    ensures ending { OnOk result (rest.new.end ≡ rest.old.end) }
{
    if writing.failed {
        return Err(Failed);
    }
    put_entries(rest, sink)
}

/// Makes a run of the machine, with at most this many entries, and writes its report.
fn write_report<R: Threads + Wait + Sync, K: Sink>(
    rt: &R,
    alloc: Global,
    machine: Machine,
    limit: u32,
    sink: &mut K,
) -> Status
    requires checked { IsChecked machine }
    requires limit { IsWithin 1 4000000 limit }
    ensures written { Writes false Form.Report limit machine (K.told sink.old) (K.told sink.new)
        (K.faults sink.old) (K.faults sink.new) result }
    ensures nothing { PutsNothing result → sink.new ≡ sink.old }
    ensures counts { K.faults sink.old ≤ K.faults sink.new }
{
    let output = match Output::open(alloc, Form::Report, &machine.config) {
        Ok(output) => output,
        Err(_) => {
            drop(machine);
            return Status::NoMemory;
        }
    };
    match make_run(rt, alloc, &machine, limit) {
        Ok(mut entries) => {
            let status = output.write(&mut entries, limit, sink);
            drop(entries);
            drop(machine);
            status
        }
        Err(_) => {
            drop(output);
            drop(machine);
            Status::NoMemory
        }
    }
}

/// Makes a run of the machine, with at most this many entries, and writes what is asked of it, which is not watched.
pub(crate) fn write_free<R: Threads + Wait + Sync, K: Sink>(
    rt: &R,
    alloc: Global,
    machine: Machine,
    form: Form,
    limit: u32,
    sink: &mut K,
) -> Status
    requires checked { IsChecked machine }
    requires form { MayBe true form }
    requires limit { IsWithin 1 4000000 limit }
    ensures written { Writes false form limit machine (K.told sink.old) (K.told sink.new)
        (K.faults sink.old) (K.faults sink.new) result }
    ensures nothing { PutsNothing result → sink.new ≡ sink.old }
    ensures counts { K.faults sink.old ≤ K.faults sink.new }
{
    match form {
        Form::Schedule => write_schedule(rt, alloc, machine, limit, sink),
        Form::Report => write_report(rt, alloc, machine, limit, sink),
        Form::Watch => unreachable!(),
    }
}
