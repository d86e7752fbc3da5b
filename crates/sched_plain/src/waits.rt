//! From when on something of a core or of a domain may come, at the earliest. Stalls are left out, so it may come later.

ghost use Rattle.std.specs.Prelude.{◌≡◌, ℕ, ◌+◌, ◌≤◌, length};
ghost use Rattle.sched_model.specs.Places.{at_place};
ghost use Rattle.pool_records.specs.Fits.{PoolFits};
ghost use Rattle.sched_plain.specs.Waits.{IsCoreWait, IsDomainWait, awaited_deadline, is_calm as is_calm_core, least_of_deadlines, least_of_domain_timers, least_of_refill_at, least_of_units_at, least_of_works, wait_of_core, wait_of_vcpus};

use plain_pool::ready::{end_if, is_about, lesser, of_vcpus, work_on};
use pool_records::cores::{any_held, is_open};
use sched_base::{DomId, Moment, ResId, UnitId};
use sched_model::places::item_at;
use sched_model::state::{
    Credit2Domain, Domain, Pool, Processor, Records, Resource, RtdsUnit, RtdsUnits,
};

/// The least so far, or when the work on one of these processors is done.
fn of_works(best: u64, pool: &Pool, processors: &[Processor]) -> u64
    requires { PoolFits pool.now }
    ensures { result ≡ least_of_works pool.now best processors.now }
{
    match processors {
        [] => best,
        [q, rest @ ..] => of_works(lesser(best, work_on(pool, q)), pool, rest),
    }
}

/// Whether the core is not between two units: it is not to decide, gathers nobody, saves nothing and stays.
fn is_calm(core: &Resource) -> bool
    ensures { result ≡ is_calm_core core.now }
{
    !core.pending
        && !core.leaving
        && is_open(core)
        && core.saving.is_none()
        && !any_held(core.processors.as_slice())
}

/// What the core waits for.
fn of_core(pool: &Pool, core: &Resource) -> u64
    requires { PoolFits pool.now }
    ensures { result ≡ wait_of_core pool.now core.now }
{
    if is_calm(core) {
        of_works(lesser(u64::MAX, core.due), pool, core.processors.as_slice())
    } else {
        0
    }
}

/// A moment before which no event of the core may come.
pub fn core_wait(pool: &Pool, r: ResId) -> u64
    requires { PoolFits pool.now }
    ensures { (g : ℕ) → IsCoreWait g pool.now r.0 result }
{
    match item_at(pool.resources.as_slice(), r.0 as usize) {
        None => u64::MAX,
        Some(c) => of_core(pool, c),
    }
}

/// What the vCPUs of the domain wait for, where it stays.
fn of_domain(d: DomId, domains: &[Option<Domain>]) -> u64
    ensures { result ≡ wait_of_vcpus (at_place domains.now d.0) }
{
    match item_at(domains, d.0 as usize) {
        None => u64::MAX,
        Some(x) => {
            if x.moving.is_some() {
                0
            } else {
                of_vcpus(u64::MAX, x.vcpus.as_slice())
            }
        }
    }
}

/// The deadline of the unit, unless it has come and the unit neither waits nor is on a core.
fn deadline_of(now: Moment, pool: &Pool, u: UnitId, deadline: u64) -> Option<Moment>
    requires { length pool.now.resources ≤ 64 }
    ensures { result ≡ awaited_deadline now.0 pool.now u deadline }
{
    end_if(
        now.0 < deadline || is_about(pool, u),
        Some(Moment(deadline)),
    )
}

/// The least so far, or such a deadline of one of these units of the domain d, of which the first has this index.
fn of_units(first: u8, best: u64, now: Moment, pool: &Pool, d: DomId, units: &[RtdsUnit]) -> u64
    requires few { first + length units.now ≤ 32 }
    requires cores { length pool.now.resources ≤ 64 }
    ensures { result ≡ least_of_deadlines now.0 pool.now d.0 first best units.now }
{
    match units {
        [] => best,
        [x, rest @ ..] => {
            let at = deadline_of(now, pool, UnitId { dom: d, n: first }, x.deadline);
            of_units(first + 1, lesser(best, at), now, pool, d, rest)
        }
    }
}

/// The same of the units of the domain, where there are any.
fn of_units_at(best: u64, now: Moment, pool: &Pool, d: DomId, domains: &[Option<RtdsUnits>]) -> u64
    requires { length pool.now.resources ≤ 64 }
    ensures { result ≡ least_of_units_at now.0 pool.now d.0 best (at_place domains.now d.0) }
{
    match item_at(domains, d.0 as usize) {
        None => best,
        Some(units) => of_units(0, best, now, pool, d, units.as_slice()),
    }
}

/// The least so far, or the refill of the domain.
fn of_refill_at(best: u64, d: DomId, domains: &[Option<Credit2Domain>]) -> u64
    ensures { result ≡ least_of_refill_at best (at_place domains.now d.0) }
{
    match item_at(domains, d.0 as usize) {
        None => best,
        Some(x) => lesser(best, x.refill.map(Moment)),
    }
}

/// The least so far, or when one of the domain's timers comes.
fn of_timers(best: u64, now: Moment, pool: &Pool, d: DomId, records: &Records) -> u64
    requires { length pool.now.resources ≤ 64 }
    ensures { result ≡ least_of_domain_timers now.0 pool.now d.0 best records.now }
{
    match records {
        Records::Credit2Pool(own) => of_refill_at(best, d, own.domains.as_slice()),
        Records::RtdsPool(domains) => of_units_at(best, now, pool, d, domains.as_slice()),
        _ => best,
    }
}

/// A moment before which no event of the domain may come, as it is found now.
pub fn domain_wait(now: Moment, pool: &Pool, d: DomId) -> u64
    requires { PoolFits pool.now }
    ensures { (g : ℕ) → IsDomainWait g pool.now d.0 result }
{
    let vcpus = of_domain(d, pool.domains.as_slice());
    of_timers(vcpus, now, pool, d, &pool.scheduler.records)
}
