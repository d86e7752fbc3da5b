//! The workload: the stalls and the commands, in order of their moments.

use crate::command::{Command, Syntax};
use crate::row::Row;
use sched_base::{Moment, ProcId, Span};

/// A processor that stalls for a span.
#[derive(Clone, Copy)]
pub struct StallLine {
    pub at: Moment,
    pub cpu: ProcId,
    pub span: Span,
}

/// A command, or the place at which its words have no reading.
#[derive(Drop)]
pub struct CommandLine {
    pub at: Moment,
    pub command: Result<Command, Syntax>,
}

/// The stalls in order, at most 4096.
pub type Stalls = Row<StallLine>;

/// The commands in order, at most 4096.
pub type Commands = Row<CommandLine>;

/// The whole workload.
#[derive(Drop)]
pub struct Work {
    pub stalls: Stalls,
    pub commands: Commands,
}
