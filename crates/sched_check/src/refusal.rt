//! Why an entry is not taken.

use sched_base::Moment;
use sched_model::event::Entry;

/// Why an entry may not come next. Whether the run is over is looked at first, and then the moment; of an End or a Finish whether something
/// is to come before it, and then which of the two is due; of the others whether they may come, whether it is their turn, and last the
/// fields that they print.
#[derive(Clone, Copy)]
pub enum NotStep {
    /// The run is over.
    AfterFinish,
    /// The run is at this moment, and the entry is of another.
    Moment { now: Moment },
    /// Nothing that may come now has the kind and the subject of the entry.
    NotEnabled,
    /// The first action that may come was asked for, and is another one: this entry.
    NotFirst { first: Entry },
    /// The kind and the subject may come, and other fields are printed then: those of this entry.
    Differs { due: Entry },
    /// Something is to come before the moment ends: this entry is the first that may.
    NotQuiet { first: Entry },
    /// The end of the moment is due, and it names this next one.
    EndAt { next: Moment },
    /// The end of the run is due.
    FinishDue,
}
