//! Why a line is not done to its end.

use std::io;
use thiserror::Error;

/// Why what a line asks for does not go on.
#[derive(Clone, Copy, Debug, Error)]
pub enum Stop {
    /// The words ask for nothing that there is.
    #[error("usage")]
    Usage,
    /// A file could not be read.
    #[error("cannot read")]
    ReadFault,
    /// A file describes no machine, or no workload of it.
    #[error("a faulty file")]
    BadFile,
    /// Memory was wanted and not found.
    #[error("no memory")]
    NoMemory,
    /// Two machines that go side by side do not do the same.
    #[error("two machines differ")]
    Differ,
    /// The run does not end within as many entries as one may have.
    #[error("too many entries")]
    TooLong,
    /// The output could not be written.
    #[error("cannot write")]
    WriteFault,
}

/// The answer to a print.
pub fn printed(answer: io::Result<()>) -> Result<(), Stop> {
    match answer {
        Ok(()) => Ok(()),
        Err(_) => Err(Stop::WriteFault),
    }
}
