//! The ordered run: in each state the first event that may come. What is asked of it is written while it is made.

ghost use Rattle.std.specs.Prelude.{◌≡◌, ◌≤◌, ◌<◌, ◌^◌, true};
ghost use Rattle.command_line.specs.Commands.{MayBe};
ghost use Rattle.sched_model.specs.CheckedMachine.{IsChecked};
ghost use Rattle.xensched_top.specs.Answers.{PutsNothing, Writes};

use crate::entries::OrderedEntries;
use crate::output::Output;
use crate::status::Status;
use command_line::Form;
use engine::Engine;
use sched_io::Sink;
use sched_model::machine::Machine;
use std::alloc::Global;

/// Makes the ordered run of the machine, with at most this many entries, and writes what is asked of it. All memory is taken before its first event.
pub(crate) fn write_ordered<K: Sink>(
    alloc: Global,
    machine: Machine,
    form: Form,
    limit: u32,
    sink: &mut K,
) -> Status
    requires checked { IsChecked machine }
    requires form { MayBe true form }
    ensures written { Writes true form limit machine (K.told sink.old) (K.told sink.new)
        (K.faults sink.old) (K.faults sink.new) result }
    ensures nothing { PutsNothing result → sink.new ≡ sink.old }
    ensures counts { K.faults sink.old ≤ K.faults sink.new }
{
    let output = match Output::open(alloc, form, &machine.config) {
        Ok(output) => output,
        Err(_) => {
            drop(machine);
            return Status::NoMemory;
        }
    };
    match Engine::open(alloc, machine) {
        Ok(engine) => {
            let mut entries = OrderedEntries::of(engine, limit);
            let status = output.write(&mut entries, limit, sink);
            entries.close();
            status
        }
        Err(_) => {
            drop(output);
            Status::NoMemory
        }
    }
}
