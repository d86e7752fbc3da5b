//! How a watched run ends.

ghost use Rattle.std.specs.Prelude.{◌≡◌};
ghost use Rattle.pcpu_watch.specs.WatchedRun.{end_of};

use pcpu_threads::RunEnd;

/// How a watched run ends.
#[derive(Clone, Copy)]
pub enum WatchEnd {
    /// The run is over.
    Finished,
    /// The book is full, and a further entry is due.
    Full,
    /// Memory for what the board is to show was wanted. The run was left where it stood.
    NoMemory,
}

/// How a watched run ends for which no memory was wanted.
pub(crate) fn watch_end(end: RunEnd) -> WatchEnd
    ensures { result ≡ end_of end }
{
    match end {
        RunEnd::Finished => WatchEnd::Finished,
        RunEnd::Full => WatchEnd::Full,
    }
}
