//! One line of the work file.

ghost use Rattle.std.specs.Prelude.{◌≡◌, ◌≤◌, ◌^◌, ◌==◌, length, IfOk};
ghost use Rattle.xl_words.specs.Parts.{words};
ghost use Rattle.work_file.specs.Line.{is_silent_line, number_within, stall_of, command_of, said_at, line_of, IsCheckedLine};

use crate::fault::WorkCause;
use sched_base::{Moment, NoMemory, ProcId, Span};
use sched_model::config::Config;
use sched_model::machine::MOST_SPAN;
use sched_model::work::{CommandLine, StallLine};
use std::alloc::Global;
use xl_words::{next_word, read_command, read_number};

/// What one line says.
#[derive(Drop)]
pub(crate) enum Line {
    Silent,
    Stall(StallLine),
    Command(CommandLine),
}

fn is_silent(line: &[u8]) -> bool
    ensures { result ≡ is_silent_line line.now }
{
    line.is_empty() || line[0] == b'#'
}

/// The number that the word spells, where it is in the range.
fn number_in(low: u64, high: u64, word: &[u8]) -> Result<u64, WorkCause>
    ensures value { result ≡ number_within low high word.now }
    ensures range { IfOk result (λ n. (low ≤ n) × (n ≤ high)) }
{
    match read_number(word) {
        Some(n) if low <= n && n <= high => Ok(n),
        _ => Err(WorkCause::Number),
    }
}

/// A stall, from the words behind `stall`.
#[tactic(auto, unfolding(crate::specs::Line::stall_of))]
fn stall_behind(config: &Config, at: u64, rest: &[u8]) -> Result<Line, WorkCause>
    requires { at ≤ 10 ^ 13 }
    ensures value { result ≡ stall_of config.now at (words rest.now) }
    ensures checked { IfOk result (IsCheckedLine config.now) }
{
    let Some((cpu, rest)) = next_word(rest) else {
        return Err(WorkCause::Word);
    };
    let Some((length, rest)) = next_word(rest) else {
        return Err(WorkCause::Word);
    };
    if next_word(rest).is_some() {
        return Err(WorkCause::Word);
    }
    let Some(cpu) = read_number(cpu) else {
        return Err(WorkCause::Number);
    };
    let span = number_in(1, MOST_SPAN, length)?;
    if cpu >= u64::from(config.processors) {
        return Err(WorkCause::Target);
    }
    Ok(Line::Stall(StallLine {
        at: Moment(at),
        cpu: ProcId(cpu as u8),
        span: Span(span),
    }))
}

/// A command, from the words behind `xl`.
fn command_behind(
    alloc: Global,
    config: &Config,
    at: u64,
    rest: &[u8],
) -> Result<Result<Line, WorkCause>, NoMemory>
    requires { at ≤ 10 ^ 13 }
    ensures value { IfOk result (λ said. said ≡ command_of at (words rest.now)) }
    ensures checked { IfOk result (λ said. IfOk said (IsCheckedLine config.now)) }
{
    if next_word(rest).is_none() {
        return Ok(Err(WorkCause::Word));
    }
    let command = read_command(alloc, rest)?;
    Ok(Ok(Line::Command(CommandLine {
        at: Moment(at),
        command,
    })))
}

/// What stands behind the moment.
fn said_behind(
    alloc: Global,
    config: &Config,
    at: u64,
    rest: &[u8],
) -> Result<Result<Line, WorkCause>, NoMemory>
    requires { at ≤ 10 ^ 13 }
    ensures value { IfOk result (λ said. said ≡ said_at config.now at (words rest.now)) }
    ensures checked { IfOk result (λ said. IfOk said (IsCheckedLine config.now)) }
{
    let Some((kind, rest)) = next_word(rest) else {
        return Ok(Err(WorkCause::Word));
    };
    if kind == b"stall".as_slice() {
        Ok(stall_behind(config, at, rest))
    } else if kind == b"xl".as_slice() {
        command_behind(alloc, config, at, rest)
    } else {
        Ok(Err(WorkCause::Word))
    }
}

/// What the line says, or the first of its faults. The list of a command takes memory.
pub(crate) fn read_line(
    alloc: Global,
    config: &Config,
    line: &[u8],
) -> Result<Result<Line, WorkCause>, NoMemory>
    ensures value { IfOk result (λ said. said ≡ line_of config.now line.now) }
    ensures checked { IfOk result (λ said. IfOk said (IsCheckedLine config.now)) }
{
    if is_silent(line) {
        return Ok(Ok(Line::Silent));
    }
    let Some((word, rest)) = next_word(line) else {
        return Ok(Err(WorkCause::Number));
    };
    match number_in(0, MOST_SPAN, word) {
        Ok(at) => said_behind(alloc, config, at, rest),
        Err(cause) => Ok(Err(cause)),
    }
}
