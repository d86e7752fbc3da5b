//! A watched run: a free run, beside which a status board is written and looked at once in each moment. What was seen is written once the run has ended.

ghost use Rattle.std.specs.Prelude.{◌≡◌, ◌≤◌, [], false, IfOk, OnOk, OnErr, Some, length, slice_get};
ghost use Rattle.sched_io.specs.Faults.{Rose};
ghost use Rattle.sched_io.specs.Puts.{Adds, AddsPart};
ghost use Rattle.sched_model.specs.declared.machine.Machine.{Machine};
ghost use Rattle.sched_model.specs.CheckedMachine.{IsChecked, IsWithin};
ghost use Rattle.sched_report.specs.Stays.{last_moment};
ghost use Rattle.pcpu_watch.specs.Looks.{AreLooks};
ghost use Rattle.xensched_top.specs.Answers.{PutsNothing, Writes};
ghost use Rattle.xensched_top.specs.Ends.{HasEnded};
ghost use Rattle.xensched_top.specs.WatchedRun.{text_of_look, text_of_watch, watch_lines};

use crate::output::status_of;
use crate::status::Status;
use command_line::Form;
use journal_core::Book;
use pcpu_threads::{Hall, RunEnd};
use pcpu_watch::{Look, Looks, watch_run};
use sched_base::{Failed, Moment, NoMemory};
use sched_io::{OpenGate, Sink};
use sched_model::machine::Machine;
use sched_print::LineBuf;
use sched_report::put_last_line;
use std::alloc::Global;
use std::sync::Wait;
use std::thread::Threads;

/// Makes a watched run of the machine, with at most this many entries: its book, how it ended, and the looks. Once the run has begun, memory is taken for
/// what the board is to show alone.
fn make_watched<R: Threads + Wait + Sync>(
    rt: &R,
    alloc: Global,
    machine: &Machine,
    limit: u32,
) -> Result<(Book, RunEnd, Looks), NoMemory>
    requires checked { IsChecked machine.now }
    requires limit { IsWithin 1 4000000 limit }
    ensures ends { IfOk result (λ r. HasEnded r.1 false limit machine.now r.0.history) }
    ensures looks { IfOk result (λ r. AreLooks r.0.history r.2.items) }
{
    let looks = Looks::room(alloc, limit + 1)?;
    let (hall, seat) = Hall::open(alloc, &machine.config, &machine.work, limit)?;
    let processors = machine.config.processors;
    let domains = machine.config.domains.len() as u8;
    let watched = watch_run(rt, alloc, hall, seat, processors, domains, looks, &OpenGate);
    if let Ok((book, _, _)) = &watched {
        book.tell();
    }
    watched
}

/// Writes the line of a look, the one with this number from 1, with its newline, into an empty buffer.
fn put_look(number: u32, look: Look, line: &mut LineBuf)
    requires { line.old ≡ [] }
    ensures { line.new ≡ text_of_look number look }
{
    line.put_two_fields(b"look ", u64::from(number), b" entries ", look.entries);
    line.put_field(b" at ", look.moment.0);
    line.put(b"\n");
}

/// The moment of the book's last entry, 0 where there is none.
fn last_of(book: &Book) -> Moment
    ensures { result.0 ≡ last_moment book.now.history }
{
    match book.len() {
        0 => Moment(0),
        count => book.get(count - 1).at,
    }
}

/// Writes the line with this number, from 0, of a watched run into an empty buffer: that of a look, or the last one.
fn put_watch_line(book: &Book, looks: &Looks, number: u32, line: &mut LineBuf)
    requires place { number ≤ length looks.now.items }
    requires empty { line.old ≡ [] }
    ensures { slice_get (watch_lines looks.now.items book.now.history) number ≡ Some line.new }
{
    if number < looks.len() {
        put_look(number + 1, looks.get(number), line);
    } else {
        put_last_line(book.len(), last_of(book), line);
    }
}

/// Writes the looks and how the run ended, one put a line.
fn put_watch<K: Sink>(book: &Book, looks: &Looks, sink: &mut K) -> Result<(), Failed>
    ensures whole { OnOk result (Adds (K.told sink.old) (K.told sink.new)
        (text_of_watch looks.now.items book.now.history)) }
    ensures part { OnErr result (AddsPart (K.told sink.old) (K.told sink.new)
        (text_of_watch looks.now.items book.now.history)) }
    ensures counts { K.faults sink.old ≤ K.faults sink.new }
    ensures cause { OnErr result (Rose (K.faults sink.old) (K.faults sink.new)) }
{
    let mut line = LineBuf::new();
    for number in 0..looks.len() {
        line.clear();
        put_watch_line(book, looks, number, &mut line);
        sink.put(line.as_bytes())?;
    }
    line.clear();
    put_watch_line(book, looks, looks.len(), &mut line);
    sink.put(line.as_bytes())?;
    Ok(())
}

/// Writes what was seen of a run that has ended so, with at most this many entries.
fn put_watched<K: Sink>(book: &Book, end: RunEnd, limit: u32, looks: &Looks, sink: &mut K) -> Status
    requires looks { AreLooks book.now.history looks.now.items }
    ensures written { (m : Machine) → HasEnded end false limit m book.now.history →
        Writes false Form.Watch limit m (K.told sink.old) (K.told sink.new) (K.faults sink.old)
        (K.faults sink.new) result }
    ensures nothing { PutsNothing result → sink.new ≡ sink.old }
    ensures counts { K.faults sink.old ≤ K.faults sink.new }
{
    match put_watch(book, looks, sink) {
        Ok(()) => status_of(end, limit),
        Err(_) => Status::WriteFault,
    }
}

/// Makes a watched run of the machine, with at most this many entries, and writes what was seen of it.
pub(crate) fn write_watched<R: Threads + Wait + Sync, K: Sink>(
    rt: &R,
    alloc: Global,
    machine: Machine,
    limit: u32,
    sink: &mut K,
) -> Status
    requires checked { IsChecked machine }
    requires limit { IsWithin 1 4000000 limit }
    ensures written { Writes false Form.Watch limit machine (K.told sink.old) (K.told sink.new)
        (K.faults sink.old) (K.faults sink.new) result }
    ensures nothing { PutsNothing result → sink.new ≡ sink.old }
    ensures counts { K.faults sink.old ≤ K.faults sink.new }
{
    match make_watched(rt, alloc, &machine, limit) {
        Ok((book, end, looks)) => {
            let status = put_watched(&book, end, limit, &looks, sink);
            drop(looks);
            drop(book);
            drop(machine);
            status
        }
        Err(_) => {
            drop(machine);
            Status::NoMemory
        }
    }
}
