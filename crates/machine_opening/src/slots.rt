//! The places of a machine's pools at its opening.

ghost use Rattle.std.specs.Prelude.{◌≡◌, ◌<◌, Some, IfOk, slice_get};
ghost use Rattle.sched_model.specs.declared.work.Work.{Work};
ghost use Rattle.sched_model.specs.CheckedMachine.{IsCheckedConfig};
ghost use Rattle.machine_opening.specs.OpeningPool.{kinds_of};
ghost use Rattle.machine_parts.specs.Told.{told_new};
ghost use Rattle.machine_parts.specs.Places.{AllStand, StandsAt};
ghost use Rattle.machine_opening.specs.OpenedPool.{IsOpened};

use crate::boxed::boxed;
use crate::pool::opened;
use any_scheduler::AnyPolicy;
use machine_parts::{AnyPool, PoolSlot};
use sched_base::NoMemory;
use sched_model::config::{Config, SchedKind};
use std::alloc::Global;
use std::vec::Vec;

/// This pool of the file, which has this scheduler, with its cores and its domains.
fn open_pool(
    alloc: Global,
    config: &Config,
    place: u8,
    kind: SchedKind,
) -> Result<AnyPool, NoMemory>
    requires checked { IsCheckedConfig config.now }
    requires kind { slice_get (kinds_of config.now) place ≡ Some kind }
    ensures { IfOk result (λ pool. IsOpened config.now place pool.value) }
{
    let pool = opened(alloc, config, place, AnyPolicy::empty(kind))?;
    boxed(alloc, pool)
}

/// This place: the file's pool of that number, or none.
fn open_slot(alloc: Global, config: &Config, place: u8) -> Result<PoolSlot, NoMemory>
    requires checked { IsCheckedConfig config.now }
    requires place { place < 16 }
    ensures { IfOk result (λ slot. (work : Work) → StandsAt (told_new config.now work) place slot) }
{
    match config.pools.as_slice().get(usize::from(place)) {
        None => Ok(PoolSlot::default()),
        Some(home) => Ok(PoolSlot::of(open_pool(alloc, config, place, home.kind)?)),
    }
}

/// The 16 places of the pools of a machine at its opening, whatever its workload: those of the file's pools have these, with their cores
/// and their domains, and the others are empty. Each pool has the memory of a run.
pub fn open_slots(alloc: Global, config: &Config) -> Result<Vec<PoolSlot>, NoMemory>
    requires checked { IsCheckedConfig config.now }
    ensures { IfOk result (λ slots. (work : Work) →
        AllStand (told_new config.now work) slots.items) }
{
    let mut slots = Vec::with_capacity(alloc, 16)?;
    for i in 0..16u8 {
        slots.push_reserved(open_slot(alloc, config, i)?);
    }
    Ok(slots)
}
