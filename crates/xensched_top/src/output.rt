//! What is written of a run's entries, one put a line: the schedule, or the report.

ghost use Rattle.std.specs.Prelude.{◌≡◌, ◌≤◌, ◌<◌, ◌^◌, [], true, Bool, length, IfOk, OnOk, OnErr};
ghost use Rattle.command_line.specs.Commands.{MayBe};
ghost use Rattle.command_line.specs.declared.command.Form.{Form as FormValue};
ghost use Rattle.sched_io.specs.Faults.{Rose};
ghost use Rattle.sched_io.specs.Puts.{Adds, AddsPart};
ghost use Rattle.sched_model.specs.declared.machine.Machine.{Machine};
ghost use Rattle.sched_model.specs.CheckedMachine.{IsCheckedConfig};
ghost use Rattle.sched_print.specs.Line.{text};
ghost use Rattle.xensched_top.specs.Answers.{PutsNothing, Writes};
ghost use Rattle.xensched_top.specs.Ends.{HasEnded, run_status};
ghost use Rattle.xensched_top.specs.Outputs.{HasNothing, IsFor};

use crate::entries::Entries;
use crate::report::put_report;
use crate::status::Status;
use command_line::Form;
use pcpu_threads::RunEnd;
use sched_base::{Failed, NoMemory};
use sched_io::Sink;
use sched_model::config::Config;
use sched_print::EntryLine;
use sched_report::Report;
use std::alloc::Global;

/// What is written of a run: its entries, or their report, to which none was added.
#[derive(Drop)]
pub(crate) enum Output {
    Schedule,
    Report(Report),
}

/// The status of a run that ended so, with at most this many entries.
pub(crate) fn status_of(end: RunEnd, limit: u32) -> Status
    ensures { result ≡ run_status limit end }
{
    match end {
        RunEnd::Finished => Status::Ok,
        RunEnd::Full => Status::Full(u64::from(limit)),
    }
}

/// Writes the lines of all entries.
pub(crate) fn put_entries<E: Entries, K: Sink>(entries: &mut E, sink: &mut K) -> Result<(), Failed>
    ensures whole { OnOk result (Adds (K.told sink.old) (K.told sink.new)
        (text (E.coming entries.old))) }
    ensures part { OnErr result (AddsPart (K.told sink.old) (K.told sink.new)
        (text (E.coming entries.old))) }
    ensures counts { K.faults sink.old ≤ K.faults sink.new }
    ensures cause { OnErr result (Rose (K.faults sink.old) (K.faults sink.new)) }
    ensures all { OnOk result (E.coming entries.new ≡ []) }
    ensures ending { E.ending entries.new ≡ E.ending entries.old }
{
    let mut line = EntryLine::new();
    while let Some(entry) = entries.next() {
        line.set(&entry);
        sink.put(line.as_bytes())?;
    }
    Ok(())
}

/// Adds all entries to an empty report.
fn add_entries<E: Entries>(entries: &mut E, report: &mut Report)
    requires few { length (E.coming entries.old) < 2 ^ 32 }
    requires empty { report.old.entries ≡ [] }
    ensures config { report.new.config ≡ report.old.config }
    ensures entries { report.new.entries ≡ E.coming entries.old }
    ensures all { E.coming entries.new ≡ [] }
    ensures ending { E.ending entries.new ≡ E.ending entries.old }
{
    while let Some(entry) = entries.next() {
        report.add(&entry);
    }
}

impl Output {
    /// What is written in this form of a run of a machine with this config. All memory for it is taken here.
    pub(crate) fn open(alloc: Global, form: Form, config: &Config) -> Result<Output, NoMemory>
        requires form { MayBe true form }
        requires checked { IsCheckedConfig config.now }
        ensures form { IfOk result (IsFor form config.now) }
        ensures nothing { IfOk result HasNothing }
    {
        match form {
            Form::Schedule => Ok(Output::Schedule),
            Form::Report => Ok(Output::Report(Report::room(alloc, config)?)),
            Form::Watch => unreachable!(),
        }
    }

    /// Writes it of all entries of a run, and answers the status of the run's end, where at most this many entries were allowed.
    pub(crate) fn write<E: Entries, K: Sink>(
        self,
        entries: &mut E,
        limit: u32,
        sink: &mut K,
    ) -> Status
        requires nothing { HasNothing self }
        requires few { length (E.coming entries.old) < 2 ^ 32 }
        ensures written { (ordered : Bool) → (form : FormValue) → (m : Machine) →
            IsFor form m.config self →
            HasEnded (E.ending entries.old) ordered limit m (E.coming entries.old) →
            Writes ordered form limit m (K.told sink.old) (K.told sink.new) (K.faults sink.old)
            (K.faults sink.new) result }
        ensures nothing { PutsNothing result → sink.new ≡ sink.old }
        ensures counts { K.faults sink.old ≤ K.faults sink.new }
    {
        let put = match self {
            Output::Schedule => put_entries(entries, sink),
            Output::Report(mut report) => {
                add_entries(entries, &mut report);
                let put = put_report(&report, sink);
                drop(report);
                put
            }
        };
        match put {
            Ok(()) => status_of(entries.end(), limit),
            Err(_) => Status::WriteFault,
        }
    }
}
