//! The work file: stalls of processors, and commands, each at its moment. docs/FORMATS-work.md has the format.
#![tactic(auto)]

ghost use Rattle.std.specs.Prelude.{◌≡◌, Ok, IfOk, IfErr};
ghost use Rattle.sched_model.specs.CheckedMachine.{IsCheckedWork};
ghost use Rattle.std.specs.Str.Lines.{strip_carriage_return};
ghost use Rattle.work_file.specs.Lines.{work_of, IsFault};

mod fault;
mod line;
mod load;
mod reading;

pub use fault::{WorkCause, WorkFault};
pub use load::make_load;
use reading::Reading;
use sched_base::Moment;
use sched_model::config::Config;
use sched_model::work::{Commands, Stalls, Work};
use std::alloc::Global;
use xl_words::cut;

/// The line without the one carriage return at its end, if there is one.
fn without_return(line: &[u8]) -> &[u8]
    ensures { result.now ≡ strip_carriage_return line.now }
{
    match line {
        [front @ .., b'\r'] => front,
        _ => line,
    }
}

/// The workload that the bytes of a work file say, for the machine.
///
/// A fault is that of the first line that has one, or `NoMemory`, of which nothing else is said. A command that has no
/// reading is kept with the place of its fault. The time is in proportion to the count of the bytes.
#[tactic(auto, using(crate::proofs::LastLemmas::last_line))]
pub fn read_work(alloc: Global, bytes: &[u8], config: &Config) -> Result<Work, WorkFault>
    ensures work { IfOk result (λ work. work_of config.now bytes.now ≡ Ok work) }
    ensures fault { IfErr result (λ fault. IsFault fault (work_of config.now bytes.now)) }
    ensures checked { IfOk result (IsCheckedWork config.now) }
{
    let mut reading = Reading {
        line: 1,
        last: Moment(0),
        stalls: Stalls::from_vec(Vec::new(alloc)),
        commands: Commands::from_vec(Vec::new(alloc)),
    };
    let mut rest = bytes;
    loop {
        match cut(rest, b'\n') {
            (line, None) => return reading.finish(alloc, config, line),
            (line, Some(behind)) => {
                reading.take(alloc, config, without_return(line))?;
                rest = behind;
            }
        }
    }
}
