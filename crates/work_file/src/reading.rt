//! The reader of the work file, line by line.

ghost use Rattle.std.specs.Prelude.{◌≡◌, ◌<◌, ◌≤◌, ◌++◌, ◌∷◌, [], List, ℕ, None, Ok, length, OnOk, IfOk, IfErr};
ghost use Rattle.sched_base.specs.Numbers.{moment};
ghost use Rattle.sched_model.specs.CheckedMachine.{IsCheckedWork};
ghost use Rattle.work_file.specs.Lines.{place_cause, next_line, IsFault};
ghost use Rattle.work_file.specs.Reading.{IsCheckedReading, IsLineFault, work_from};

use crate::fault::{WorkCause, WorkFault};
use crate::line::{Line, read_line};
use sched_base::Moment;
use sched_model::config::Config;
use sched_model::work::{CommandLine, Commands, StallLine, Stalls, Work};
use std::alloc::Global;

/// The most lines of a kind.
const MOST_LINES: usize = 4096;

/// What is read: the number of the next line, the moment of the last line that says something, and what the lines say.
#[derive(Drop)]
pub(crate) struct Reading {
    pub line: u32,
    pub last: Moment,
    pub stalls: Stalls,
    pub commands: Commands,
}

/// Why a line cannot stand behind those that are read.
fn place_fault(last: Moment, count: usize, at: Moment) -> Option<WorkCause>
    requires { count ≤ 4096 }
    ensures { result ≡ place_cause last.0 count at.0 }
{
    if at.0 < last.0 {
        Some(WorkCause::Order)
    } else if count == MOST_LINES {
        Some(WorkCause::Many)
    } else {
        None
    }
}

impl Reading {
    /// Adds a stall.
    fn add_stall(&mut self, stall: StallLine) -> Result<(), WorkFault>
        requires { length self.old.stalls ≤ 4096 }
        ensures ok { OnOk result (self.new
            ≡ record self.old {
              line = next_line self.old.line;
              last = stall.at;
              stalls = self.old.stalls ++ stall ∷ [];
            }) }
        ensures place { OnOk result (place_cause self.old.last.0 (length self.old.stalls) stall.at.0
            ≡ None) }
        ensures fault { IfErr result (λ fault.
            IsLineFault fault self.old.line
            (place_cause self.old.last.0 (length self.old.stalls) stall.at.0)) }
    {
        if let Some(cause) = place_fault(self.last, self.stalls.len(), stall.at) {
            return Err(WorkFault::Bad {
                line: self.line,
                cause,
            });
        }
        if self.stalls.push(stall).is_err() {
            return Err(WorkFault::NoMemory);
        }
        self.last = stall.at;
        self.line = self.line.saturating_add(1);
        Ok(())
    }

    /// Adds a command.
    fn add_command(&mut self, command: CommandLine) -> Result<(), WorkFault>
        requires { length self.old.commands ≤ 4096 }
        ensures ok { OnOk result (self.new
            ≡ record self.old {
              line = next_line self.old.line;
              last = command.at;
              commands = self.old.commands ++ command ∷ [];
            }) }
        ensures place { OnOk result (place_cause self.old.last.0 (length self.old.commands)
            command.at.0 ≡ None) }
        ensures fault { IfErr result (λ fault.
            IsLineFault fault self.old.line
            (place_cause self.old.last.0 (length self.old.commands) command.at.0)) }
    {
        let at = command.at;
        if let Some(cause) = place_fault(self.last, self.commands.len(), at) {
            return Err(WorkFault::Bad {
                line: self.line,
                cause,
            });
        }
        if self.commands.push(command).is_err() {
            return Err(WorkFault::NoMemory);
        }
        self.last = at;
        self.line = self.line.saturating_add(1);
        Ok(())
    }

    /// Reads one line more.
    pub(crate) fn take(
        &mut self,
        alloc: Global,
        config: &Config,
        line: &[u8],
    ) -> Result<(), WorkFault>
        requires { IsCheckedReading config.now self.old }
        ensures ok { OnOk result ((lines : List (List ℕ)) →
            work_from config.now self.old (line.now ∷ lines)
            ≡ work_from config.now self.new lines) }
        ensures checked { OnOk result (IsCheckedReading config.now self.new) }
        ensures fault { IfErr result (λ fault. (lines : List (List ℕ)) →
            IsFault fault (work_from config.now self.old (line.now ∷ lines))) }
    {
        let Ok(said) = read_line(alloc, config, line) else {
            return Err(WorkFault::NoMemory);
        };
        match said {
            Err(cause) => Err(WorkFault::Bad {
                line: self.line,
                cause,
            }),
            Ok(Line::Silent) => {
                self.line = self.line.saturating_add(1);
                Ok(())
            }
            Ok(Line::Stall(stall)) => self.add_stall(stall),
            Ok(Line::Command(command)) => self.add_command(command),
        }
    }

    /// Reads the last line, which no newline ends, and gives the work.
    pub(crate) fn finish(
        mut self,
        alloc: Global,
        config: &Config,
        line: &[u8],
    ) -> Result<Work, WorkFault>
        requires { IsCheckedReading config.now self }
        ensures work { IfOk result (λ work. work_from config.now self (line.now ∷ []) ≡ Ok work) }
        ensures fault { IfErr result (λ fault.
            IsFault fault (work_from config.now self (line.now ∷ []))) }
        ensures checked { IfOk result (IsCheckedWork config.now) }
    {
        match self.take(alloc, config, line) {
            Err(fault) => Err(fault),
            Ok(()) => {
                let Reading {
                    line: _,
                    last: _,
                    stalls,
                    commands,
                } = self;
                Ok(Work { stalls, commands })
            }
        }
    }
}
