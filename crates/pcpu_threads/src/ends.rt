//! How a run ends.

ghost use Rattle.std.specs.Prelude.{◌≡◌};
ghost use Rattle.pcpu_threads.specs.Ends.{run_end_after};

use hall::{Full, Turn};

/// How a run ends.
#[derive(Clone, Copy)]
pub enum RunEnd {
    /// The run is over.
    Finished,
    /// The book is full, and a further entry is due.
    Full,
}

/// How a turn of the whole machine ends the run, or none where the run goes on.
pub(crate) fn end_of(turn: Result<Turn, Full>) -> Option<RunEnd>
    ensures { result ≡ run_end_after turn }
{
    match turn {
        Ok(Turn::Stepped { .. } | Turn::Closed { .. }) => None,
        Ok(Turn::Finished { .. } | Turn::Over { .. }) => Some(RunEnd::Finished),
        Err(_) => Some(RunEnd::Full),
    }
}
