//! The spare pools of a machine at its opening.

ghost use Rattle.std.specs.Prelude.{◌≡◌, ◌≤◌, ◌+◌, ◌-◌, [], IfOk, OnOk, length};
ghost use Rattle.sched_model.specs.declared.config.SchedKind.{SchedKind as Kind};
ghost use Rattle.sched_model.specs.CheckedMachine.{IsChecked, IsCheckedConfig};
ghost use Rattle.sched_model.specs.Opening.{opening};
ghost use Rattle.journal_core.specs.Parts.{tool_of};
ghost use Rattle.machine_parts.specs.Counts.{AreSpares, configured_of};
ghost use Rattle.machine_parts.specs.Kinds.{count_of};
ghost use Rattle.machine_parts.specs.Spares.{shelf_of};
ghost use Rattle.machine_opening.specs.OpeningShelves.{CanFill, filled_shelves, filled_for, filled_up, spare_seen};

use crate::boxed::boxed;
use crate::counts::{configured, most_of_each};
use crate::pool::spare;
use any_scheduler::AnyPolicy;
use machine_parts::{AnyPool, KindCounts, Spares};
use sched_base::NoMemory;
use sched_model::config::{Config, SchedKind};
use sched_model::work::Work;
use std::alloc::Global;

/// A pool of the scheduler that is not in use.
fn spare_pool(alloc: Global, config: &Config, kind: SchedKind) -> Result<AnyPool, NoMemory>
    requires { IsCheckedConfig config.now }
    ensures { IfOk result (λ pool. pool.value ≡ spare_seen config.now kind) }
{
    let pool = spare(alloc, config, AnyPolicy::empty(kind))?;
    boxed(alloc, pool)
}

/// So many spare pools of the scheduler come in.
fn fill(
    alloc: Global,
    config: &Config,
    kind: SchedKind,
    count: u8,
    spares: &mut Spares,
) -> Result<(), NoMemory>
    requires checked { IsCheckedConfig config.now }
    requires room { length (shelf_of kind spares.old).pools + count
        ≤ (shelf_of kind spares.old).capacity }
    ensures { OnOk result (spares.new ≡ filled_shelves config.now kind count spares.old) }
{
    for i in 0..count {
        let pool = spare_pool(alloc, config, kind)?;
        spares.give(kind, pool);
    }
    Ok(())
}

/// Spare pools of the scheduler come in, up to the most pools of it at once, less those of the file.
fn fill_for(
    alloc: Global,
    config: &Config,
    most: KindCounts,
    kind: SchedKind,
    spares: &mut Spares,
) -> Result<(), NoMemory>
    requires checked { IsCheckedConfig config.now }
    requires room { CanFill config.now most kind (shelf_of kind spares.old) }
    ensures { OnOk result (spares.new ≡ filled_for config.now most kind spares.old) }
{
    let here = configured(config.pools.as_slice(), kind) as u8;
    fill(alloc, config, kind, most.of(kind) - here, spares)
}

/// The same of each scheduler.
fn fill_up(
    alloc: Global,
    config: &Config,
    most: KindCounts,
    spares: &mut Spares,
) -> Result<(), NoMemory>
    requires checked { IsCheckedConfig config.now }
    requires room { (kind : Kind) → CanFill config.now most kind (shelf_of kind spares.old) }
    ensures { OnOk result (spares.new ≡ filled_up config.now most spares.old) }
{
    fill_for(alloc, config, most, SchedKind::Credit2, spares)?;
    fill_for(alloc, config, most, SchedKind::Rtds, spares)?;
    fill_for(alloc, config, most, SchedKind::Arinc653, spares)?;
    fill_for(alloc, config, most, SchedKind::Null, spares)
}

/// The spare pools of a machine at its opening: of each scheduler as many as the machine has at once at most, less those of the file, and
/// room for as many as it has at once. Each has the memory of a run.
pub fn open_spares(alloc: Global, config: &Config, work: &Work) -> Result<Spares, NoMemory>
    requires checked { IsChecked (record { config = config.now; work = work.now }) }
    ensures { IfOk result (λ spares. AreSpares (record { config = config.now; work = work.now }) 0
        (tool_of (opening (record { config = config.now; work = work.now }))) spares) }
{
    let most = most_of_each(config, work);
    let mut spares = Spares::room(alloc, most)?;
    match fill_up(alloc, config, most, &mut spares) {
        Ok(()) => Ok(spares),
        Err(full) => {
            drop(spares);
            Err(full)
        }
    }
}
