//! Why a work file cannot be read.

use thiserror::Error;

/// What is wrong with a line.
#[derive(Clone, Copy, Debug, Error)]
pub enum WorkCause {
    /// A word is missing, is one too many, or is neither `stall` nor `xl`.
    #[error("Word")]
    Word,
    /// A word is no number, or a number outside its range.
    #[error("Number")]
    Number,
    /// The machine has no such processor.
    #[error("Target")]
    Target,
    /// The moment is before that of the last line that says something.
    #[error("Order")]
    Order,
    /// It would be the 4097th line of its kind.
    #[error("Many")]
    Many,
}

/// Why a work file cannot be read.
#[derive(Clone, Copy, Debug, Error)]
pub enum WorkFault {
    /// Memory was wanted and not found.
    #[error("no memory")]
    NoMemory,
    /// The first line with a fault, and the first fault of that line. Lines are numbered from 1; the number stands still
    /// at 2^32 - 1.
    #[error("line {line} {cause}")]
    Bad { line: u32, cause: WorkCause },
}
