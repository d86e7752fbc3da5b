//! The cores at the opening.

ghost use Rattle.std.specs.Prelude.{◌≡◌, ◌≤◌, ◌<◌, IfOk, length, map};
ghost use Rattle.std.specs.List.{list_any};
ghost use Rattle.sched_model.specs.Places.{numbers_from};
ghost use Rattle.sched_model.specs.State.{has_core_bit};
ghost use Rattle.sched_model.specs.Opening.{free_core_at_opening};
ghost use Rattle.sched_model.specs.declared.config.PoolConfig.{PoolConfig as PoolRecord};
ghost use Rattle.pool_records.specs.OpeningCores.{opening_core};

use pool_records::leaving::fresh_core;
use pool_records::opening::{has_core, no_stalls};
use sched_base::{NoMemory, ResId};
use sched_model::config::{Config, PoolConfig};
use sched_model::row::Row;
use sched_model::state::{FreeCore, Resource};
use std::alloc::Global;

/// The core r, where it is in the set.
fn core_of_set(cores: u64, r: ResId, granularity: u8) -> Option<Resource>
    requires few { granularity ≤ 4 }
    requires core { r.0 < 64 }
    ensures { result ≡ opening_core granularity cores r.0 }
{
    if has_core(cores, r) {
        Some(fresh_core(&no_stalls(granularity)))
    } else {
        None
    }
}

/// The cores of a pool that has this set of them: one place for each core of the machine.
#[tactic(auto, using(crate::proofs::Growing::length_of_numbers))]
pub fn fresh_cores(
    alloc: Global,
    cores: u64,
    count: u8,
    granularity: u8,
) -> Result<Row<Option<Resource>>, NoMemory>
    requires few { granularity ≤ 4 }
    requires count { count ≤ 64 }
    ensures cores { IfOk result (λ row. row ≡ map (opening_core granularity cores)
        (numbers_from 0 count)) }
    ensures few { IfOk result (λ row. length row ≤ 64) }
{
    let mut places = Vec::new(alloc);
    for r in 0..count {
        places.push(core_of_set(cores, ResId(r), granularity))?;
    }
    Ok(Row::from_vec(places))
}

/// Whether one of the pools has the core.
fn is_in_pool(pools: &[PoolConfig], r: ResId) -> bool
    requires { r.0 < 64 }
    ensures { result ≡ list_any (λ (pool : PoolRecord). has_core_bit pool.cores r.0) pools.now }
{
    pools.iter().any(|pool| has_core(pool.cores, r))
}

/// The core r, where no pool has it.
fn free_core(config: &Config, r: ResId) -> Option<FreeCore>
    requires few { config.now.granularity ≤ 4 }
    requires core { r.0 < 64 }
    ensures { result ≡ free_core_at_opening config.now r.0 }
{
    if is_in_pool(config.pools.as_slice(), r) {
        None
    } else {
        Some(FreeCore {
            target: None,
            stall_ends: no_stalls(config.granularity),
        })
    }
}

/// The cores of no pool: one place for each core of the machine.
#[tactic(auto, using(pool_records::proofs::Growing::numbers_one_more))]
pub fn free_cores(
    alloc: Global,
    config: &Config,
    count: u8,
) -> Result<Row<Option<FreeCore>>, NoMemory>
    requires few { config.now.granularity ≤ 4 }
    requires count { count ≤ 64 }
    ensures { IfOk result (λ row. row ≡ map (free_core_at_opening config.now)
        (numbers_from 0 count)) }
{
    let mut places = Vec::new(alloc);
    for r in 0..count {
        places.push(free_core(config, ResId(r)))?;
    }
    Ok(Row::from_vec(places))
}
