//! What a sink keeps is handed on before the program answers.

ghost use Rattle.std.specs.Prelude.{◌≡◌, ◌≤◌};
ghost use Rattle.xensched_top.specs.Answers.{IsHandedOn, PutsNothing, PutsWhole};

use crate::status::Status;
use sched_io::Sink;

/// Hands on what the sink keeps, where a task was done whose status is this, and answers the same; or that the sink failed.
pub(crate) fn hand_on<K: Sink>(status: Status, sink: &mut K) -> Status
    ensures answer { IsHandedOn status (K.faults sink.old) (K.faults sink.new) result }
    ensures told { K.told sink.new ≡ K.told sink.old }
    ensures nothing { PutsNothing status → sink.new ≡ sink.old }
    ensures none_kept { PutsWhole status → K.kept sink.new ≡ 0 }
    ensures counts { K.faults sink.old ≤ K.faults sink.new }
{
    match status {
        Status::Ok | Status::Full(_) | Status::NotRun(_) => match sink.flush() {
            Ok(()) => status,
            Err(_) => Status::WriteFault,
        },
        _ => status,
    }
}
