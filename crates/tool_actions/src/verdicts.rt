//! What is answered to the next command, by the tool and by the places of the pools.

ghost use Rattle.std.specs.Prelude.{◌≡◌, [], Some, slice_get};
ghost use Rattle.sched_model.specs.CheckedMachine.{IsCheckedCommand};
ghost use Rattle.sched_model.specs.Commands.{judged_command};
ghost use Rattle.sched_model.specs.Machine.{line_verdict};
ghost use Rattle.cpupool.specs.Facts.{subject_rate, subject_stored};
ghost use Rattle.machine_parts.specs.Places.{AllStand, GoesOn, state_of};
ghost use Rattle.machine_parts.specs.Parts.{AreParts};

use cpupool::ToolState;
use machine_parts::{PoolSlot, Trail};
use sched_model::command::Command;
use sched_model::event::Refusal;
use sched_model::facts::{Facts, Subject};
use sched_model::plan::Plan;
use sched_model::short::Short;
use sched_model::work::CommandLine;

/// What is told where there is no pool.
fn no_facts() -> Facts
    ensures rate { result.rate ≡ 0 }
    ensures units { result.units ≡ [] }
{
    Facts {
        rate: 0,
        units: Short::new(),
    }
}

/// The rate limit of the subject's pool, and the set values of the units of its domain.
fn facts_of(slots: &[PoolSlot], trail: &Trail, subject: Subject) -> Facts
    requires goes { GoesOn trail.now }
    requires stand { AllStand trail.now slots.now }
    ensures rate { result.rate ≡ subject_rate (state_of trail.now) subject }
    ensures units { result.units ≡ subject_stored trail.now.input.config.granularity
        (state_of trail.now) subject }
{
    let Some(pool) = subject.pool else {
        return no_facts();
    };
    let i = pool.0 as usize;
    if i < slots.len() {
        slots[i].facts(subject.dom)
    } else {
        no_facts()
    }
}

/// What the command will do, or why it is refused.
pub(crate) fn judged(
    slots: &[PoolSlot],
    tool: &ToolState,
    trail: &Trail,
    command: &Command,
) -> Result<Plan, Refusal>
    requires parts { AreParts trail.now slots.now tool.now }
    requires command { IsCheckedCommand command.now }
    ensures { result ≡ judged_command trail.now.input (state_of trail.now) command.now }
{
    let facts = facts_of(slots, trail, tool.subject(command));
    tool.judge(command, &facts)
}

/// What is answered to the next line with a command.
pub(crate) fn verdict_of(
    slots: &[PoolSlot],
    tool: &ToolState,
    trail: &Trail,
    line: &CommandLine,
) -> Result<Plan, Refusal>
    requires parts { AreParts trail.now slots.now tool.now }
    requires next { slice_get trail.now.input.work.commands (state_of trail.now).next_command
        ≡ Some line.now }
    ensures { result ≡ line_verdict trail.now.input (state_of trail.now) line.now }
{
    match &line.command {
        Err(fault) => Err(Refusal::Syntax {
            place: u64::from(fault.place),
        }),
        Ok(c) => judged(slots, tool, trail, c),
    }
}
