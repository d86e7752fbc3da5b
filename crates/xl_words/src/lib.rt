//! The commands that steer a machine, read from their words. docs/FORMATS-work.md has the commands and their words.
#![tactic(auto)]

ghost use Rattle.std.specs.Prelude.{◌≡◌, IfOk};
ghost use Rattle.sched_model.specs.CheckedMachine.{IsCheckedCommand};
ghost use Rattle.xl_words.specs.Grammar.{command_of};

mod commands;
mod fields;
mod lists;
mod options;
mod parts;
mod values;

pub use parts::{cut, next_word};
use sched_base::NoMemory;
use sched_model::command::{Command, Syntax};
use std::alloc::Global;
pub use values::read_number;

/// The command that the words spell. Words are the longest runs without a space.
///
/// Where they spell none, the place of [`Syntax`] is the index, from 0, of the first word with which no command's words
/// go on, or the count of the words where they end too early. The list of a command takes memory; where it is wanted, that
/// alone is said.
#[tactic(auto, unfolding(crate::specs::Grammar::reading))]
pub fn read_command(alloc: Global, words: &[u8]) -> Result<Result<Command, Syntax>, NoMemory>
    ensures value { IfOk result (λ answer. answer ≡ command_of words.now) }
    ensures checked { IfOk result (λ answer. IfOk answer IsCheckedCommand) }
{
    let Some((name, rest)) = next_word(words) else {
        return Ok(Err(Syntax { place: 0 }));
    };
    if name == b"cpupool-list".as_slice() {
        Ok(commands::pool_list(rest))
    } else if name == b"cpupool-create".as_slice() {
        Ok(commands::pool_create(rest))
    } else if name == b"cpupool-destroy".as_slice() {
        Ok(commands::pool_destroy(rest))
    } else if name == b"cpupool-rename".as_slice() {
        Ok(commands::pool_rename(rest))
    } else if name == b"cpupool-cpu-add".as_slice() {
        Ok(commands::cpu_add(rest))
    } else if name == b"cpupool-cpu-remove".as_slice() {
        Ok(commands::cpu_remove(rest))
    } else if name == b"cpupool-migrate".as_slice() {
        Ok(commands::migrate(rest))
    } else if name == b"sched-credit2".as_slice() {
        Ok(commands::sched_credit2(rest))
    } else if name == b"sched-rtds".as_slice() {
        Ok(commands::sched_rtds(rest))
    } else if name == b"pause".as_slice() {
        Ok(commands::pause(rest))
    } else if name == b"unpause".as_slice() {
        Ok(commands::unpause(rest))
    } else if name == b"arinc-set".as_slice() {
        commands::arinc_set(alloc, rest)
    } else if name == b"vcpu-pin".as_slice() {
        commands::vcpu_pin(alloc, rest)
    } else {
        Ok(Err(Syntax { place: 0 }))
    }
}
