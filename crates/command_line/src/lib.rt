//! The words of the command line, and the command that they are.
//!
//! `run [--ordered] [--events N] DOMAINS WORK`, `report [--ordered] [--events N] DOMAINS WORK`,
//! `watch [--events N] DOMAINS WORK`, `make SEED PROCESSORS DOMAINS domains|work`, `load SEED PROCESSORS DOMAINS`, `check [--ordered] DOMAINS WORK SCHEDULE`.
//! The words are read with `clap`: the options stand anywhere behind the command's name, each once; `--` ends them.
//! A number is decimal digits, with a plus before them or none.
#![tactic(auto)]

ghost use Rattle.std.specs.Prelude.{◌≡◌, IfOk, IfSome, option_map};
ghost use Rattle.command_line.specs.Commands.{asked_of, IsInRange, asked_command};

pub mod command;
mod entries;
mod tree;

use clap::error::ErrorKind;
pub use command::{Form, Made, ProgramCommand};
use entries::command_in;
use sched_base::NoMemory;
use std::alloc::Global;
use tree::tree;

/// The command that the words behind the program's own name are, or none where they are no command. An error says that memory was wanted.
pub fn command_of(alloc: Global, words: &[String]) -> Result<Option<ProgramCommand<'_>>, NoMemory>
    ensures value { IfOk result
        (λ command. option_map asked_of command ≡ asked_command words.now) }
    ensures ranges { IfOk result (λ command. IfSome command IsInRange) }
{
    match tree(alloc)?.try_get_matches_from(words) {
        Ok(matches) => Ok(command_in(&matches)),
        Err(error) => match error.kind() {
            ErrorKind::OutOfMemory => Err(NoMemory),
            _ => Ok(None),
        },
    }
}
