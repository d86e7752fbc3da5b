//! Domains that are paused or leave for another pool.

ghost use Rattle.std.specs.Prelude.{◌≡◌, ◌<◌, ◌≤◌, length};
ghost use Rattle.sched_model.specs.Places.{change_each};
ghost use Rattle.sched_laws.specs.EachPlace.{AllPlaces};
ghost use Rattle.sched_model.specs.Pool.{withdrawn_pool, paused_pool, unpaused_pool, pool_with_moving};
ghost use Rattle.pool_records.specs.Fits.{DomainFits, PoolFits};
ghost use Rattle.pool_records.specs.Marks.{pending_of};
ghost use Rattle.plain_pool.specs.Pauses.{is_paused_at, paused_count};

use crate::domains::queue_units;
use plain_schedulers::queue::dequeue_domain;
use pool_records::cores::is_of_domain;
use pool_records::pausing::{set_paused, set_target};
use pool_records::units::unit_count;
use sched_base::{DomId, PoolId};
use sched_model::places::item_at;
use sched_model::row::Row;
use sched_model::state::{Domain, Pool, Resource};

/// The cores that run a unit of the domain are to decide anew.
fn mark_cores_of(d: DomId, cores: &mut Row<Option<Resource>>)
    ensures { cores.new ≡ change_each 0 (pending_of d.0) cores.old }
{
    for r in 0..cores.len() {
        if let Some(c) = cores.item_mut(r) {
            if is_of_domain(d, c.cur) {
                c.pending = true;
            }
        }
    }
}

/// The domain's units stop waiting, and the cores that run one are to decide anew.
fn withdraw(d: DomId, pool: &mut Pool)
    ensures { pool.new ≡ withdrawn_pool d.0 pool.old }
{
    dequeue_domain(d, &mut pool.scheduler);
    mark_cores_of(d, &mut pool.resources);
}

/// Whether the domain is there and paused.
fn is_paused(d: DomId, domains: &[Option<Domain>]) -> bool
    ensures { result ≡ is_paused_at d.0 domains.now }
{
    match item_at(domains, d.0 as usize) {
        None => false,
        Some(domain) => domain.paused,
    }
}

/// The domain is paused: its units stop waiting, and the cores that run one are to decide anew. Nothing changes where it is paused already.
pub fn pause(d: DomId, pool: &mut Pool)
    ensures { pool.new ≡ paused_pool d.0 pool.old }
{
    if !is_paused(d, pool.domains.as_slice()) {
        set_paused(d, true, &mut pool.domains);
        withdraw(d, pool);
    }
}

/// How many units the domain has, where it is there and paused.
fn paused_units(granularity: u8, d: DomId, domains: &[Option<Domain>]) -> Option<u8>
    requires some { 0 < granularity }
    requires few { granularity ≤ 4 }
    requires fits { AllPlaces DomainFits domains.now }
    ensures { result ≡ paused_count granularity d.0 domains.now }
{
    match item_at(domains, d.0 as usize) {
        None => None,
        Some(domain) => {
            if domain.paused {
                Some(unit_count(granularity, domain))
            } else {
                None
            }
        }
    }
}

/// The domain is no longer paused, and its units that may run wait. Nothing changes where it is not paused.
pub fn unpause(granularity: u8, d: DomId, pool: &mut Pool)
    requires some { 0 < granularity }
    requires few { granularity ≤ 4 }
    requires fits { PoolFits pool.old }
    requires room { length (unpaused_pool granularity d.0 pool.old).scheduler.queue ≤ 256 }
    ensures { pool.new ≡ unpaused_pool granularity d.0 pool.old }
{
    if let Some(count) = paused_units(granularity, d, pool.domains.as_slice()) {
        set_paused(d, false, &mut pool.domains);
        queue_units(granularity, d, count, pool);
    }
}

/// The domain is moving to this pool: its units stop waiting, and the cores that run one are to decide anew.
pub fn set_moving(d: DomId, place: u8, pool: &mut Pool)
    ensures { pool.new ≡ pool_with_moving d.0 place pool.old }
{
    set_target(d, Some(PoolId(place)), &mut pool.domains);
    withdraw(d, pool);
}
