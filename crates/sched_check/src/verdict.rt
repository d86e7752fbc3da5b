//! The verdict, and why it is no.

use crate::refusal::NotStep;

/// Why the line that a verdict names is not the next line of a run.
#[derive(Clone, Copy)]
pub enum Cause {
    /// The schedule ends within the line: no newline ends it.
    Cut,
    /// The line is no entry's text. The place is the length of its longest beginning with which the text of an entry begins.
    NotEntry { place: u32 },
    /// The line is an entry's text, and the entry may not come next.
    NotStep(NotStep),
    /// There is no such line, and the run is not over.
    Unfinished,
}

/// What is said of a schedule.
#[derive(Clone, Copy)]
pub enum Verdict {
    /// It is the text of a whole run with this many entries.
    Yes { entries: u32 },
    /// It is not: the lines before this one, which are counted from 1, are the text of a run, and the cause holds of it.
    No { line: u32, cause: Cause },
}
