//! The commands on pools and their cores, judged. The first check that fails gives the refusal.

ghost use Rattle.std.specs.Prelude.{◌≡◌};
ghost use Rattle.cpupool.specs.Verdicts.{last_core_refusal};

use crate::outline::Outline;
use crate::pools::{
    core_home, core_total, count_of, domain_total, first_domain, first_empty_place, has_core,
    kind_of, place_named,
};
use crate::tool::ToolState;
use sched_base::{DomId, Name, PoolId, ResId};
use sched_model::command::Which;
use sched_model::config::SchedKind;
use sched_model::event::{Refusal, Reply};
use sched_model::plan::Plan;

/// Why a core may not be taken from this pool: it is the pool's only one, and the pool has a domain.
fn last_core(place: PoolId, pool: &Outline) -> Option<Refusal>
    ensures { result ≡ last_core_refusal place.0 pool.now }
{
    if core_total(pool) != 1 {
        return None;
    }
    match first_domain(DomId(0), pool.domains.as_slice()) {
        None => None,
        Some(dom) => Some(Refusal::LastCpu { pool: place, dom }),
    }
}

impl ToolState {
    ghost use Rattle.std.specs.Prelude.{◌≡◌, ◌==◌, true, not};
    ghost use Rattle.cpupool.specs.Verdicts.{taken_name, seen_pool_list, seen_pool_create, seen_pool_destroy, seen_pool_rename, seen_cpu_add, seen_cpu_remove};

    /// `cpupool-list`
    fn list_pools(&self) -> Plan
        ensures { Ok result ≡ seen_pool_list self.now None }
    {
        let pools = count_of(self.pools.as_slice());
        let free = count_of(self.free.as_slice());
        let reply = Reply::Pools {
            pools,
            free: free * self.granularity as u64,
        };
        Plan::PoolList { pool: None, reply }
    }

    /// `cpupool-list [POOL]`
    pub(crate) fn judge_pool_list(&self, pool: &Option<Which>) -> Result<Plan, Refusal>
        ensures { result ≡ seen_pool_list self.now pool.now }
    {
        let Some(which) = pool else {
            return Ok(self.list_pools());
        };
        let Some(named) = self.named_pool(which) else {
            return Err(Refusal::NoPool);
        };
        let reply = Reply::Pool {
            pool: named.i,
            kind: kind_of(named.pool),
            cpus: core_total(named.pool) * self.granularity as u64,
            domains: domain_total(named.pool),
        };
        Ok(Plan::PoolList {
            pool: Some(named.i),
            reply,
        })
    }

    /// Why a new pool may not have the name: a pool has it.
    fn any_named(&self, name: &Name) -> Option<Refusal>
        ensures { result ≡ taken_name self.now.part name.now (λ i. true) }
    {
        match place_named(PoolId(0), self.names.as_slice(), name) {
            None => None,
            Some(pool) => Some(Refusal::NameTaken { pool }),
        }
    }

    /// Why this pool may not have the name: another pool has it.
    fn other_named(&self, first: PoolId, name: &Name) -> Option<Refusal>
        ensures { result ≡ taken_name self.now.part name.now (λ other. not (other == first.0)) }
    {
        match place_named(PoolId(0), self.names.as_slice(), name) {
            None => None,
            Some(pool) => {
                if pool.0 == first.0 {
                    None
                } else {
                    Some(Refusal::NameTaken { pool })
                }
            }
        }
    }

    /// `cpupool-create name=NAME [sched=SCHED]`
    pub(crate) fn judge_pool_create(
        &self,
        name: &Name,
        sched: Option<SchedKind>,
    ) -> Result<Plan, Refusal>
        ensures { result ≡ seen_pool_create self.now name.now sched }
    {
        if let Some(fault) = self.any_named(name) {
            return Err(fault);
        }
        match first_empty_place(PoolId(0), self.pools.as_slice()) {
            None => Err(Refusal::PoolsFull),
            Some(pool) => Ok(Plan::PoolCreate {
                pool,
                name: name.duplicate(),
                kind: sched.unwrap_or(SchedKind::Credit2),
                reply: Reply::Done,
            }),
        }
    }

    /// `cpupool-destroy POOL`
    pub(crate) fn judge_pool_destroy(&self, which: &Which) -> Result<Plan, Refusal>
        ensures { result ≡ seen_pool_destroy self.now which.now }
    {
        let Some(named) = self.named_pool(which) else {
            return Err(Refusal::NoPool);
        };
        let pool = named.i;
        if pool.0 == 0 {
            return Err(Refusal::PoolZero);
        }
        let cores = core_total(named.pool);
        let domains = domain_total(named.pool);
        if cores != 0 || domains != 0 {
            let cpus = cores * self.granularity as u64;
            return Err(Refusal::PoolHolds {
                pool,
                cpus,
                domains,
            });
        }
        Ok(Plan::PoolDestroy {
            pool,
            reply: Reply::Done,
        })
    }

    /// `cpupool-rename POOL NAME`
    pub(crate) fn judge_pool_rename(&self, which: &Which, name: &Name) -> Result<Plan, Refusal>
        ensures { result ≡ seen_pool_rename self.now which.now name.now }
    {
        let Some(named) = self.named_pool(which) else {
            return Err(Refusal::NoPool);
        };
        if let Some(fault) = self.other_named(named.i, name) {
            return Err(fault);
        }
        Ok(Plan::PoolRename {
            pool: named.i,
            name: name.duplicate(),
            reply: Reply::Done,
        })
    }

    /// `cpupool-cpu-add POOL CPU`
    pub(crate) fn judge_cpu_add(&self, which: &Which, cpu: u64) -> Result<Plan, Refusal>
        ensures { result ≡ seen_cpu_add self.now which.now cpu }
    {
        let Some(named) = self.named_pool(which) else {
            return Err(Refusal::NoPool);
        };
        if cpu >= self.processors as u64 {
            return Err(Refusal::NoCpu { cpu });
        }
        let core = ResId(cpu as u8 / self.granularity);
        if let Some(pool) = core_home(PoolId(0), self.pools.as_slice(), core) {
            return Err(Refusal::CpuTaken { cpu, pool });
        }
        if kind_of(named.pool) == SchedKind::Arinc653 && core_total(named.pool) > 0 {
            return Err(Refusal::ArincOne { pool: named.i });
        }
        Ok(Plan::CpuAdd {
            pool: named.i,
            core,
            reply: Reply::Done,
        })
    }

    /// `cpupool-cpu-remove POOL CPU`
    pub(crate) fn judge_cpu_remove(&self, which: &Which, cpu: u64) -> Result<Plan, Refusal>
        ensures { result ≡ seen_cpu_remove self.now which.now cpu }
    {
        let Some(named) = self.named_pool(which) else {
            return Err(Refusal::NoPool);
        };
        if cpu >= self.processors as u64 {
            return Err(Refusal::NoCpu { cpu });
        }
        let core = ResId(cpu as u8 / self.granularity);
        if !has_core(named.pool, core) {
            return Err(Refusal::CpuElsewhere { cpu });
        }
        if let Some(fault) = last_core(named.i, named.pool) {
            return Err(fault);
        }
        Ok(Plan::CpuRemove {
            pool: named.i,
            core,
            reply: Reply::Done,
        })
    }
}
