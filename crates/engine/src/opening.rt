//! The parts of an engine at the opening of its machine.

ghost use Rattle.std.specs.Prelude.{◌≡◌, IfOk};
ghost use Rattle.sched_model.specs.declared.machine.Machine.{Machine};
ghost use Rattle.sched_model.specs.declared.work.Work.{Work};
ghost use Rattle.sched_model.specs.CheckedMachine.{IsChecked, IsCheckedConfig};
ghost use Rattle.sched_model.specs.Opening.{opening};
ghost use Rattle.journal_core.specs.Parts.{tool_of as part_of_tool};
ghost use Rattle.cpupool.specs.Tool.{tool_of};
ghost use Rattle.machine_parts.specs.Counts.{AreSpares};
ghost use Rattle.machine_parts.specs.Places.{AllStand};
ghost use Rattle.machine_parts.specs.Told.{told_new};
ghost use Rattle.engine.specs.EngineState.{AreKept};

use crate::keeping::{none_times, read_all};
use cpupool::ToolState;
use machine_opening::{open_slots, open_spares};
use machine_parts::{PoolSlot, Spares, Trail};
use sched_base::{Moment, NoMemory};
use sched_model::action::Action;
use sched_model::config::Config;
use sched_model::work::Work;
use std::alloc::Global;

/// What is kept of the pools, asked at 0: the first events and the next moments.
fn keep(
    alloc: Global,
    slots: &[PoolSlot],
) -> Result<(Vec<Option<Action>>, Vec<Option<Moment>>), NoMemory>
    ensures { IfOk result (λ kept. AreKept 0 slots.now kept.0.items kept.1.items) }
{
    let mut firsts = none_times(alloc, slots.len())?;
    let mut nexts = none_times(alloc, slots.len())?;
    read_all(
        slots,
        Moment(0),
        firsts.as_mut_slice(),
        nexts.as_mut_slice(),
    );
    Ok((firsts, nexts))
}

/// The pools at their places, with what is kept of them at 0.
pub(crate) fn open_pools(
    alloc: Global,
    config: &Config,
) -> Result<(Vec<PoolSlot>, Vec<Option<Action>>, Vec<Option<Moment>>), NoMemory>
    requires checked { IsCheckedConfig config.now }
    ensures stand { IfOk result (λ pools. (work : Work) →
        AllStand (told_new config.now work) pools.0.items) }
    ensures kept { IfOk result (λ pools. AreKept 0 pools.0.items pools.1.items pools.2.items) }
{
    let slots = open_slots(alloc, config)?;
    let (firsts, nexts) = keep(alloc, slots.as_slice())?;
    Ok((slots, firsts, nexts))
}

/// A trail before the first entry, what the tool knows, and the spare pools. The tool takes the workload over.
pub(crate) fn open_tool(
    alloc: Global,
    config: &Config,
    work: Work,
) -> Result<(Trail, ToolState, Spares), NoMemory>
    requires checked { IsChecked (record { config = config.now; work = work }) }
    ensures trail { IfOk result (λ parts. parts.0 ≡ told_new config.now work) }
    ensures tool { let m : Machine = record { config = config.now; work = work } in IfOk result
        (λ parts. parts.1 ≡ tool_of m (opening m)) }
    ensures spares { let m : Machine = record { config = config.now; work = work } in IfOk result
        (λ parts. AreSpares m 0 (part_of_tool (opening m)) parts.2) }
{
    let spares = match open_spares(alloc, config, &work) {
        Ok(spares) => spares,
        Err(full) => {
            drop(work);
            return Err(full);
        }
    };
    let trail = Trail::opened(config, &work);
    match ToolState::open_with(alloc, config, work) {
        Ok(tool) => Ok((trail, tool, spares)),
        Err(full) => {
            drop(spares);
            Err(full)
        }
    }
}
