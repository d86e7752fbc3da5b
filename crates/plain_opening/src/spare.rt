//! Pools without domains and cores, and those that the commands of a work file may make.

ghost use Rattle.std.specs.Prelude.{◌≡◌, ◌<◌, [], None, IfOk, replicate};
ghost use Rattle.sched_model.specs.Opening.{fresh_pool};
ghost use Rattle.sched_model.specs.Policy.{empty_records};
ghost use Rattle.plain_opening.specs.OpeningPool.{spare_of_line, spares_of};

use pool_records::opening::core_count;
use sched_base::NoMemory;
use sched_model::command::Command;
use sched_model::config::{Config, PoolParams, SchedKind, same_frame};
use sched_model::machine::Machine;
use sched_model::row::{Row, empty_places};
use sched_model::short::Short;
use sched_model::state::{ArincRecords, Credit2Records, Pool, Records, Resource, Scheduler};
use sched_model::work::CommandLine;
use scheduler_records::params::default_pool_params;
use std::alloc::Global;

/// The records of a pool with these parameters and no domain, on a machine of so many domains and cores.
fn fresh_records(
    alloc: Global,
    params: &PoolParams,
    domains: usize,
    cores: usize,
) -> Result<Records, NoMemory>
    ensures { IfOk result (λ records. records ≡ empty_records params.now domains cores) }
{
    match params {
        PoolParams::Credit2 { limit } => Ok(Records::Credit2Pool(Credit2Records {
            limit: *limit,
            last_reset: None,
            domains: empty_places(alloc, domains)?,
        })),
        PoolParams::Rtds => Ok(Records::RtdsPool(empty_places(alloc, domains)?)),
        PoolParams::Arinc653 { frame } => Ok(Records::ArincPool(ArincRecords {
            frame: same_frame(frame),
            installed: 0,
        })),
        PoolParams::Null => Ok(Records::NullPool(empty_places(alloc, cores)?)),
    }
}

/// The scheduler of a pool with these parameters and no domain, on a machine of so many domains and cores.
fn empty_scheduler(
    alloc: Global,
    params: &PoolParams,
    domains: usize,
    cores: usize,
) -> Result<Scheduler, NoMemory>
    ensures { IfOk result (λ scheduler. scheduler
        ≡ record {
          queue = [];
          affinity = replicate domains None;
          records = empty_records
              params.now domains cores;
        }) }
{
    let affinity = empty_places(alloc, domains)?;
    Ok(Scheduler {
        records: fresh_records(alloc, params, domains, cores)?,
        affinity,
        queue: Short::new(),
    })
}

/// A pool without domains, which has these cores.
pub(crate) fn pool_of_cores(
    alloc: Global,
    config: &Config,
    params: &PoolParams,
    resources: Row<Option<Resource>>,
) -> Result<Pool, NoMemory>
    requires { 0 < config.now.granularity }
    ensures { IfOk result (λ pool. pool ≡ record (fresh_pool config.now params.now)
        { resources = resources }) }
{
    let count = config.domains.len();
    let domains = empty_places(alloc, count)?;
    Ok(Pool {
        scheduler: empty_scheduler(alloc, params, count, core_count(config) as usize)?,
        domains,
        resources,
    })
}

/// A pool without domains and cores.
pub fn empty_pool(alloc: Global, config: &Config, params: &PoolParams) -> Result<Pool, NoMemory>
    requires { 0 < config.now.granularity }
    ensures { IfOk result (λ pool. pool ≡ fresh_pool config.now params.now) }
{
    let resources = empty_places(alloc, core_count(config) as usize)?;
    pool_of_cores(alloc, config, params, resources)
}

/// The pool that the command on the line makes, where it makes one: of Credit2, unless it names another scheduler.
fn spare_for(alloc: Global, config: &Config, line: &CommandLine) -> Result<Option<Pool>, NoMemory>
    requires { 0 < config.now.granularity }
    ensures { IfOk result (λ spare. spare ≡ spare_of_line config.now line.now) }
{
    match &line.command {
        Ok(Command::PoolCreate { name: _, sched }) => {
            let kind = match sched {
                None => SchedKind::Credit2,
                Some(kind) => *kind,
            };
            Ok(Some(empty_pool(alloc, config, &default_pool_params(kind))?))
        }
        _ => Ok(None),
    }
}

/// The pools that the commands of the work file may make: one place for each command, with the pool that it makes.
pub fn open_spares(alloc: Global, machine: &Machine) -> Result<Row<Option<Pool>>, NoMemory>
    requires { 0 < machine.now.config.granularity }
    ensures { IfOk result (λ spares. spares ≡ spares_of machine.now) }
{
    let mut spares = Vec::new(alloc);
    for line in machine.work.commands.as_slice() {
        spares.push(spare_for(alloc, &machine.config, line)?)?;
    }
    Ok(Row::from_vec(spares))
}
