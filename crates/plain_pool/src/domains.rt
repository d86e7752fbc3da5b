//! Domains that join a pool and part from it, and units that are queued.

ghost use Rattle.sched_model.specs.CheckedMachine.{most_span};
ghost use Rattle.std.specs.Prelude.{◌≡◌, ◌<◌, ◌≤◌, length};
ghost use Rattle.sched_model.specs.Places.{at_place, numbers_from};
ghost use Rattle.sched_model.specs.Pool.{pool_with_queued_if_off, pool_with_queued_units, pool_with_domain, pool_without_domain};
ghost use Rattle.plain_schedulers.specs.Parameters.{ParamsFit};

use crate::waking::is_off;
use plain_schedulers::params::{join, part};
use plain_schedulers::queue::enqueue;
use pool_records::runnable::is_runnable;
use pool_records::units::unit_count;
use sched_base::{DomId, Moment, UnitId};
use sched_model::config::DomParams;
use sched_model::places::{set_place, take_item};
use sched_model::state::{Domain, Pool};

/// The unit joins the queue where it is runnable and off.
fn queue_if_off(granularity: u8, u: UnitId, pool: &mut Pool)
    requires cores { length pool.old.resources ≤ 64 }
    requires room { length (pool_with_queued_if_off granularity u pool.old).scheduler.queue ≤ 256 }
    ensures { pool.new ≡ pool_with_queued_if_off granularity u pool.old }
{
    if is_runnable(granularity, pool.domains.as_slice(), u) && is_off(pool, u) {
        enqueue(u, &mut pool.scheduler);
    }
}

/// The same of the domain's units, of which there are count, one after another.
pub fn queue_units(granularity: u8, d: DomId, count: u8, pool: &mut Pool)
    requires cores { length pool.old.resources ≤ 64 }
    requires room { length (pool_with_queued_units granularity d.0 (numbers_from 0 count)
        pool.old).scheduler.queue ≤ 256 }
    ensures { pool.new ≡ pool_with_queued_units granularity d.0 (numbers_from 0 count) pool.old }
{
    for n in 0..count {
        let u = UnitId { dom: d, n };
        queue_if_off(granularity, u, pool);
    }
}

/// The domain joins the pool at t with these parameters, and its units that may run wait.
pub fn with_domain(
    granularity: u8,
    t: Moment,
    d: DomId,
    joining: Domain,
    params: &DomParams,
    pool: &mut Pool,
)
    requires some { 0 < granularity }
    requires few { granularity ≤ 4 }
    requires early { t.0 ≤ most_span }
    requires cores { length pool.old.resources ≤ 64 }
    requires vcpus { length joining.vcpus ≤ 32 }
    requires params { ParamsFit params.now }
    requires room { length (pool_with_domain granularity t.0 d.0 joining params.now
        pool.old).scheduler.queue ≤ 256 }
    ensures { pool.new ≡ pool_with_domain granularity t.0 d.0 joining params.now pool.old }
{
    let count = unit_count(granularity, &joining);
    set_place(&mut pool.domains, d.0, Some(joining));
    join(d, count, params, t, &mut pool.scheduler);
    queue_units(granularity, d, count, pool);
}

/// The domain parts from the pool, which is to have none of its units on a core. It is none where the pool has no such domain.
pub fn without_domain(d: DomId, pool: &mut Pool) -> Option<Domain>
    ensures domain { result ≡ at_place pool.old.domains d.0 }
    ensures pool { pool.new ≡ pool_without_domain d.0 pool.old }
{
    part(d, &mut pool.scheduler);
    take_item(&mut pool.domains, d.0 as usize)
}
