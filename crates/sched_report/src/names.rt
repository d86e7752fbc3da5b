//! The units of a machine, in order.

ghost use Rattle.std.specs.Prelude.{◌≡◌, ◌+◌, ◌^◌, ◌<◌, ◌≤◌, ◌++◌, IfOk, length, map};
ghost use Rattle.std.specs.List.{AllByRecursion};
ghost use Rattle.sched_base.specs.declared.UnitId.{UnitId as UnitRecord};
ghost use Rattle.sched_base.specs.Numbers.{domain};
ghost use Rattle.sched_model.specs.declared.config.DomConfig.{DomConfig as DomRecord};
ghost use Rattle.sched_model.specs.Places.{numbers_from};
ghost use Rattle.sched_model.specs.Actions.{units_from};

use sched_base::{DomId, NoMemory, UnitId};
use sched_model::config::DomConfig;

/// Adds the units of a domain, of which there are count.
fn push_units(names: &mut Vec<UnitId>, d: u8, count: u8) -> Result<(), NoMemory>
    ensures { IfOk result (λ done. names.new.items ≡ names.old.items
        ++ map (λ k. let u : UnitRecord = record { dom = domain d; n = k } in u)
        (numbers_from 0 count)) }
{
    for n in 0..count {
        names.push(UnitId { dom: DomId(d), n })?;
    }
    Ok(())
}

/// Adds the units of these domains, of which the first has the number d, where a unit has `granularity` vCPUs.
pub fn push_names(
    names: &mut Vec<UnitId>,
    granularity: u8,
    d: u8,
    domains: &[DomConfig],
) -> Result<(), NoMemory>
    requires granularity { (1 ≤ granularity) × (granularity ≤ 4) }
    requires guests { AllByRecursion (λ (x : DomRecord). length x.guests ≤ 32) domains.now }
    requires few { d + length domains.now ≤ 64 }
    ensures { IfOk result (λ done. names.new.items ≡ names.old.items
        ++ units_from granularity d domains.now) }
{
    match domains {
        [] => Ok(()),
        [domain, rest @ ..] => {
            let size = granularity as usize;
            let count = (domain.guests.len() + size - 1) / size;
            push_units(names, d, count as u8)?;
            push_names(names, granularity, d + 1, rest)
        }
    }
}
