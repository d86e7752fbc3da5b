//! What lies under the locks of a hall at the opening of its machine. Each value is opened where no other large one stands in a way out.

ghost use Rattle.std.specs.Prelude.{◌≡◌, ◌++◌, ◌∷◌, [], ℕ, map, IfOk};
ghost use Rattle.sched_model.specs.declared.machine.Machine.{Machine};
ghost use Rattle.sched_model.specs.CheckedMachine.{IsChecked};
ghost use Rattle.sched_model.specs.Opening.{opening};
ghost use Rattle.journal_core.specs.Books.{chronicle};
ghost use Rattle.journal_core.specs.Parts.{tool_of as part_of_tool};
ghost use Rattle.cpupool.specs.Tool.{tool_of};
ghost use Rattle.machine_parts.specs.Counts.{AreSpares};
ghost use Rattle.lock_moves.specs.TableContent.{AreParts};
ghost use Rattle.hall.specs.declared.value.PartState.TheVariants as value;
ghost use Rattle.hall.specs.Values.{part_of_value, suits_value};

use crate::value::{PartState, ToolKept};
use cpupool::ToolState;
use machine_opening::{open_slots, open_spares};
use machine_parts::PoolSlot;
use sched_base::NoMemory;
use sched_model::config::Config;
use sched_model::work::Work;
use std::alloc::Global;
use std::boxed::Box;

/// What the tool keeps: what it knows of the machine, and the spare pools.
fn open_kept(alloc: Global, config: &Config, work: &Work) -> Result<Box<ToolKept>, NoMemory>
    requires checked { IsChecked (record { config = config.now; work = work.now }) }
    ensures tool { let m : Machine = record { config = config.now; work = work.now } in
        IfOk result (λ kept. kept.value.tool ≡ tool_of m (opening m)) }
    ensures spares { let m : Machine = record { config = config.now; work = work.now } in
        IfOk result (λ kept. AreSpares m 0 (part_of_tool (opening m)) kept.value.spares) }
{
    let spares = open_spares(alloc, config, work)?;
    match ToolState::open(alloc, config, work) {
        Ok(tool) => Ok(Box::new(alloc, ToolKept { tool, spares })?),
        Err(full) => {
            drop(spares);
            Err(full.into())
        }
    }
}

/// The values of the locks: the places of the pools in their order, and what the tool keeps.
fn values_of(
    alloc: Global,
    slots: Vec<PoolSlot>,
    tool: Box<ToolKept>,
) -> Result<Vec<PartState>, NoMemory>
    ensures { IfOk result (λ values. values.items ≡ map value.Pool slots.items ++ value.Tool tool
        ∷ []) }
{
    let mut values = Vec::new(alloc);
    for slot in slots {
        values.push(PartState::Pool(slot))?;
    }
    values.push(PartState::Tool(tool))?;
    Ok(values)
}

/// The values of the locks at the opening of the machine.
pub(crate) fn open_values(
    alloc: Global,
    config: &Config,
    work: &Work,
) -> Result<Vec<PartState>, NoMemory>
    requires checked { IsChecked (record { config = config.now; work = work.now }) }
    ensures { IfOk result (λ values. (limit : ℕ) → AreParts part_of_value suits_value
        (chronicle config.now work.now [] limit) values.items) }
{
    let kept = open_kept(alloc, config, work)?;
    match open_slots(alloc, config) {
        Ok(slots) => values_of(alloc, slots, kept),
        Err(full) => {
            drop(kept);
            Err(full)
        }
    }
}
