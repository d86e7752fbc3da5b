//! The state at the opening.

ghost use Rattle.std.specs.Prelude.{◌≡◌, ◌+◌, ◌-◌, ◌≤◌, ◌<◌, ◌*◌, ◌++◌, [], Option, Some, None, IfOk, OnOk, replicate, length, map};
ghost use Rattle.sched_model.specs.declared.config.PoolConfig.{PoolConfig as PoolConfigRecord};
ghost use Rattle.sched_model.specs.CheckedMachine.{IsChecked, IsCheckedConfig};
ghost use Rattle.sched_model.specs.Opening.{pool_with_pins, pool_with_configured, pool_with_domains, pool_at_opening, pools_at_opening, opening};
ghost use Rattle.std.specs.List.{All};
ghost use Rattle.plain_schedulers.specs.Parameters.{ParamsFit};
ghost use Rattle.plain_opening.specs.OpeningPool.{FewWait, AllFewWait, JoinFits, pool_after_domain};

use crate::cores::{free_cores, fresh_cores};
use crate::spare::pool_of_cores;
use plain_pool::domains::with_domain;
use pool_records::opening::core_count;
use pool_records::rows::fresh_vcpus;
use sched_base::{Cores, DomId, Moment, Name, NoMemory};
use sched_model::config::{Config, DomConfig, PoolConfig};
use sched_model::machine::{MOST_POOLS, Machine};
use sched_model::row::Row;
use sched_model::state::{Domain, Pool, State};
use scheduler_records::pins::pin;
use std::alloc::Global;

/// The sets of cores of the units of the domain d set, the first of them that of this unit.
#[tactic(auto, using(crate::proofs::Queues::pinned_once))]
fn with_pins(d: DomId, first: u8, pins: &[Cores], pool: &mut Pool)
    requires few { first + length pins.now ≤ 32 }
    ensures { pool.new ≡ pool_with_pins d.0 first pins.now pool.old }
{
    match pins {
        [] => {}
        [cores, rest @ ..] => {
            pin(d, Some(first), *cores, &mut pool.scheduler.affinity);
            with_pins(d, first + 1, rest, pool);
        }
    }
}

/// The domain d of the file joins the pool.
#[tactic(auto, using(crate::proofs::Queues::cores_by_configured))]
fn with_configured(
    alloc: Global,
    granularity: u8,
    d: DomId,
    joining: &DomConfig,
    pool: &mut Pool,
) -> Result<(), NoMemory>
    requires some { 0 < granularity }
    requires few { granularity ≤ 4 }
    requires cores { length pool.old.resources ≤ 64 }
    requires guests { length joining.now.guests ≤ 32 }
    requires params { ParamsFit joining.now.params }
    requires room { FewWait (pool_with_configured granularity d.0 joining.now pool.old) }
    ensures pool { OnOk result (pool.new ≡ pool_with_configured granularity d.0 joining.now
        pool.old) }
    ensures cores { OnOk result (pool.new.resources ≡ pool.old.resources) }
{
    let fresh = Domain {
        paused: false,
        moving: None,
        vcpus: fresh_vcpus(alloc, joining.guests.as_slice())?,
    };
    with_domain(granularity, Moment(0), d, fresh, &joining.params, pool);
    with_pins(d, 0, joining.pins.as_slice(), pool);
    Ok(())
}

/// The domain d of the file joins this pool, where this is its home.
fn configured_if(
    alloc: Global,
    granularity: u8,
    place: u8,
    d: DomId,
    joining: &DomConfig,
    pool: &mut Pool,
) -> Result<(), NoMemory>
    requires some { 0 < granularity }
    requires few { granularity ≤ 4 }
    requires cores { length pool.old.resources ≤ 64 }
    requires fits { JoinFits joining.now }
    requires room { FewWait (pool_after_domain granularity place d.0 joining.now pool.old) }
    ensures pool { OnOk result (pool.new ≡ pool_after_domain granularity place d.0 joining.now
        pool.old) }
    ensures cores { OnOk result (pool.new.resources ≡ pool.old.resources) }
{
    if joining.home.0 == place {
        with_configured(alloc, granularity, d, joining, pool)
    } else {
        Ok(())
    }
}

/// The domains whose home is this pool join it, the first of the list being the domain d.
#[tactic(auto, using(crate::proofs::Queues::room_of_first))]
fn with_domains(
    alloc: Global,
    granularity: u8,
    place: u8,
    d: DomId,
    domains: &[DomConfig],
    pool: &mut Pool,
) -> Result<(), NoMemory>
    requires some { 0 < granularity }
    requires few { granularity ≤ 4 }
    requires cores { length pool.old.resources ≤ 64 }
    requires domains { All JoinFits domains.now }
    requires count { d.0 + length domains.now ≤ 64 }
    requires room { FewWait (pool_with_domains granularity place d.0 domains.now pool.old) }
    ensures { OnOk result (pool.new ≡ pool_with_domains granularity place d.0 domains.now
        pool.old) }
{
    match domains {
        [] => Ok(()),
        [joining, rest @ ..] => {
            configured_if(alloc, granularity, place, d, joining, pool)?;
            with_domains(alloc, granularity, place, DomId(d.0 + 1), rest, pool)
        }
    }
}

/// This pool with its cores and domains.
#[tactic(auto, using(crate::proofs::Joining::joins_fit))]
fn opening_pool(
    alloc: Global,
    config: &Config,
    place: u8,
    pool: &PoolConfig,
) -> Result<Pool, NoMemory>
    requires checked { IsCheckedConfig config.now }
    requires room { FewWait (pool_at_opening config.now place pool.now) }
    ensures { IfOk result (λ opened. opened ≡ pool_at_opening config.now place pool.now) }
{
    let g = config.granularity;
    let cores = fresh_cores(alloc, pool.cores, core_count(config), g)?;
    let mut opened = pool_of_cores(alloc, config, &pool.params, cores)?;
    match with_domains(
        alloc,
        g,
        place,
        DomId(0),
        config.domains.as_slice(),
        &mut opened,
    ) {
        Ok(()) => Ok(opened),
        Err(full) => {
            drop(opened);
            Err(full)
        }
    }
}

/// Adds so many empty places.
fn push_empty<T: Drop>(count: usize, places: &mut Vec<Option<T>>) -> Result<(), NoMemory>
    ensures { OnOk result (places.new.items ≡ places.old.items ++ replicate count None) }
{
    for i in 0..count {
        places.push(None)?;
    }
    Ok(())
}

/// The name of each pool.
fn names_of(alloc: Global, pools: &[PoolConfig]) -> Result<Vec<Option<Name>>, NoMemory>
    ensures { IfOk result (λ names. names.items ≡ map (λ (pool : PoolConfigRecord). Some pool.name)
        pools.now) }
{
    let mut names = Vec::new(alloc);
    for pool in pools {
        names.push(Some(pool.name.duplicate()))?;
    }
    Ok(names)
}

/// The name of each pool, and empty places up to the most pools that there may be.
fn opening_names(alloc: Global, pools: &[PoolConfig]) -> Result<Row<Option<Name>>, NoMemory>
    requires { length pools.now ≤ 16 }
    ensures { IfOk result (λ names. names ≡ map (λ (pool : PoolConfigRecord). Some pool.name)
        pools.now ++ replicate (16 - length pools.now) None) }
{
    let mut names = names_of(alloc, pools)?;
    push_empty(usize::from(MOST_POOLS) - pools.len(), &mut names)?;
    Ok(Row::from_vec(names))
}

/// Adds the pools of the list, the first of them with this number.
#[tactic(auto, using(crate::proofs::Growing::pushed_before))]
fn push_pools(
    alloc: Global,
    config: &Config,
    place: u8,
    pools: &[PoolConfig],
    places: &mut Vec<Option<Pool>>,
) -> Result<(), NoMemory>
    requires checked { IsCheckedConfig config.now }
    requires few { place + length pools.now ≤ 16 }
    requires room { AllFewWait config.now place pools.now }
    ensures { OnOk result (places.new.items ≡ places.old.items
        ++ pools_at_opening config.now place pools.now) }
{
    match pools {
        [] => Ok(()),
        [pool, rest @ ..] => {
            places.push(Some(opening_pool(alloc, config, place, pool)?))?;
            push_pools(alloc, config, place + 1, rest, places)
        }
    }
}

/// Adds the pools of the file, and empty places up to the most pools that there may be.
fn push_all(alloc: Global, config: &Config, places: &mut Vec<Option<Pool>>) -> Result<(), NoMemory>
    requires checked { IsCheckedConfig config.now }
    requires room { AllFewWait config.now 0 config.now.pools }
    ensures { OnOk result (places.new.items ≡ places.old.items
        ++ (pools_at_opening config.now 0 config.now.pools
        ++ replicate (16 - length config.now.pools) None)) }
{
    let pools = config.pools.as_slice();
    push_pools(alloc, config, 0, pools, places)?;
    push_empty(usize::from(MOST_POOLS) - pools.len(), places)
}

/// The pools of the file, and empty places up to the most pools that there may be.
fn opening_pools(alloc: Global, config: &Config) -> Result<Row<Option<Pool>>, NoMemory>
    requires checked { IsCheckedConfig config.now }
    requires room { AllFewWait config.now 0 config.now.pools }
    ensures { IfOk result (λ pools. pools ≡ pools_at_opening config.now 0 config.now.pools
        ++ replicate (16 - length config.now.pools) None) }
{
    let mut places = Vec::new(alloc);
    match push_all(alloc, config, &mut places) {
        Ok(()) => Ok(Row::from_vec(places)),
        Err(full) => {
            drop(places);
            Err(full)
        }
    }
}

/// The state at the opening of a machine whose values have passed the checks of the domain file and of the work file.
#[tactic(auto, using(crate::proofs::Room::few_wait))]
pub fn open_state(alloc: Global, machine: &Machine) -> Result<State, NoMemory>
    requires { IsChecked machine.now }
    ensures { IfOk result (λ s. s ≡ opening machine.now) }
{
    let config = &machine.config;
    let names = opening_names(alloc, config.pools.as_slice())?;
    let free = free_cores(alloc, config, core_count(config))?;
    Ok(State {
        now: 0,
        names,
        pools: opening_pools(alloc, config)?,
        free,
        next_stall: 0,
        next_command: 0,
    })
}
