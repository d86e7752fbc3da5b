//! From when on something of a pool may come: the least moment, by one scan of its cores, its domains and its records.

ghost use Rattle.std.specs.Prelude.{◌≡◌, ℕ, ◌+◌, ◌<◌, ◌≤◌, ◌^◌, length, true};
ghost use Rattle.sched_model.specs.Places.{numbered_items};
ghost use Rattle.pool_laws.specs.ReadyMoments.{guarded_moment, later_of, may_gather, may_core_move, first_stall_end, lowest_stall_end};
ghost use Rattle.pool_records.specs.Fits.{PoolFits};
ghost use Rattle.plain_pool.specs.Ready.{AreFewRecords, AreWhole, IsLeastWith, IsReadyIn, ScanFits, lesser_moment, least_each, work_done_moment, running_work_moment, move_moment, block_moment, least_of_processor, due_moment, is_to_decide, decide_moment, is_to_save, save_moment, moved_moment, is_core_calm, least_of_blocks, least_of_core, least_of_cores, least_of_vcpus, may_domain_move, dom_moved_moment, least_of_domain, least_of_domains, least_of_refills, refill_end, is_waiting_or_on, repl_end, least_of_units, least_of_all_units, least_of_timers, least_of_scheduler};

use plain_schedulers::queue::has_unit;
use pool_records::cores::{all_held, any_held, core_of, first_core, has_domain, is_held, is_open};
use pool_records::vcpus::{done_at, vcpu_of};
use sched_base::{DomId, Moment, UnitId, VcpuId};
use sched_model::places::item_at;
use sched_model::state::{
    Credit2Domain, Doing, Domain, Pool, Processor, Records, Resource, RtdsUnit, RtdsUnits, Vcpu,
};

/// The lesser of the least so far and a moment, where there is one.
pub fn lesser(best: u64, at: Option<Moment>) -> u64
    ensures { result ≡ lesser_moment best at }
{
    match at {
        None => best,
        Some(m) => best.min(m.0),
    }
}

/// The moment, where the condition holds.
pub fn end_if(condition: bool, at: Option<Moment>) -> Option<Moment>
    ensures { result ≡ guarded_moment condition at }
{
    if condition { at } else { None }
}

/// The later of two moments, where both are there.
fn later(a: Option<Moment>, b: Option<Moment>) -> Option<Moment>
    ensures { result ≡ later_of a b }
{
    match a {
        None => None,
        Some(m) => match b {
            None => None,
            Some(n) => Some(Moment(m.0.max(n.0))),
        },
    }
}

/// The end of the stall of the core's first processor.
fn first_end(core: &Resource) -> Option<Moment>
    ensures { result ≡ first_stall_end core.now }
{
    match core.processors.as_slice() {
        [] => None,
        [p, ..] => Some(p.stall_end),
    }
}

/// The end of the stall of the pool's lowest processor.
fn lowest_end(pool: &Pool) -> Option<Moment>
    ensures { result ≡ lowest_stall_end pool.now }
{
    let cores = pool.resources.as_slice();
    match first_core(cores) {
        None => None,
        Some(r) => match item_at(cores, r) {
            None => None,
            Some(c) => first_end(c),
        },
    }
}

/// When the work of the vCPU is done.
#[tactic(auto, unfolding(crate::specs::Ready::work_done_moment))]
fn done_of(pool: &Pool, v: VcpuId) -> Option<Moment>
    requires { PoolFits pool.now }
    ensures { result ≡ work_done_moment pool.now v }
{
    match vcpu_of(pool.domains.as_slice(), v) {
        None => None,
        Some(x) => done_at(x),
    }
}

/// When the work of the vCPU that the processor runs is done.
#[tactic(auto, unfolding(crate::specs::Ready::running_work_moment))]
pub fn work_on(pool: &Pool, q: &Processor) -> Option<Moment>
    requires { PoolFits pool.now }
    ensures { result ≡ running_work_moment pool.now q.now }
{
    match q.doing {
        Doing::Guest(v) => done_of(pool, v),
        _ => None,
    }
}

/// Whether the core's processors may arrive.
fn gathers(core: &Resource) -> bool
    ensures { result ≡ may_gather core.now }
{
    core.pending && is_open(core) && core.saving.is_none()
}

/// From when on the processor of the core may arrive, or leave.
#[tactic(auto, unfolding(crate::specs::Ready::move_moment))]
fn move_end(core: &Resource, q: &Processor) -> Option<Moment>
    ensures { result ≡ move_moment core.now q.now }
{
    if is_held(q) {
        end_if(!is_open(core), Some(q.stall_end))
    } else {
        end_if(gathers(core), Some(q.stall_end))
    }
}

/// From when on the vCPU that the processor runs may block.
#[tactic(auto, unfolding(crate::specs::Ready::block_moment))]
fn block_end(pool: &Pool, q: &Processor) -> Option<Moment>
    requires { PoolFits pool.now }
    ensures { result ≡ block_moment pool.now q.now }
{
    later(work_on(pool, q), Some(q.stall_end))
}

/// The least so far, or from when on the processor of the core may arrive, leave or block.
fn of_processor(best: u64, pool: &Pool, core: &Resource, q: &Processor) -> u64
    requires { PoolFits pool.now }
    ensures { result ≡ least_of_processor pool.now core.now best q.now }
{
    lesser(lesser(best, move_end(core, q)), block_end(pool, q))
}

/// The same of each of these processors of the core.
fn of_processors(best: u64, pool: &Pool, core: &Resource, processors: &[Processor]) -> u64
    requires { PoolFits pool.now }
    ensures { result ≡ least_each (least_of_processor pool.now core.now) best processors.now }
{
    match processors {
        [] => best,
        [q, rest @ ..] => of_processors(of_processor(best, pool, core, q), pool, core, rest),
    }
}

/// From when on the core's due has come.
#[tactic(auto, unfolding(crate::specs::Ready::due_moment))]
fn due_end(core: &Resource) -> Option<Moment>
    ensures { result ≡ due_moment core.now }
{
    end_if(!core.pending, later(core.due, first_end(core)))
}

/// Whether the core's processors are all held, and its stage is open.
fn decides(core: &Resource) -> bool
    ensures { result ≡ is_to_decide core.now }
{
    all_held(core.processors.as_slice()) && is_open(core)
}

/// From when on the core may decide.
#[tactic(auto, unfolding(crate::specs::Ready::decide_moment))]
fn decide_end(core: &Resource) -> Option<Moment>
    ensures { result ≡ decide_moment core.now }
{
    end_if(decides(core), first_end(core))
}

/// Whether the core saves a unit, and none of its processors is held.
fn saves(core: &Resource) -> bool
    ensures { result ≡ is_to_save core.now }
{
    core.saving.is_some() && !any_held(core.processors.as_slice())
}

/// From when on the core may save.
#[tactic(auto, unfolding(crate::specs::Ready::save_moment))]
fn save_end(core: &Resource) -> Option<Moment>
    ensures { result ≡ save_moment core.now }
{
    end_if(saves(core), first_end(core))
}

/// Whether the core is leaving the pool, and nothing is on it.
fn may_move(core: &Resource) -> bool
    ensures { result ≡ may_core_move core.now }
{
    core.leaving && core.cur.is_none() && core.saving.is_none() && !core.pending && is_open(core)
}

/// From when on the core may leave the pool.
#[tactic(auto, unfolding(crate::specs::Ready::moved_moment))]
fn moved_end(core: &Resource) -> Option<Moment>
    ensures { result ≡ moved_moment core.now }
{
    end_if(may_move(core), first_end(core))
}

/// Whether the core is not to decide, stays, saves nothing and has no processor that is held.
fn is_calm(core: &Resource) -> bool
    ensures { result ≡ is_core_calm core.now }
{
    !core.pending && !core.leaving && core.saving.is_none() && !any_held(core.processors.as_slice())
}

/// The least so far, or from when on the vCPU of one of these processors may block.
fn of_blocks(best: u64, pool: &Pool, processors: &[Processor]) -> u64
    requires { PoolFits pool.now }
    ensures { result ≡ least_of_blocks pool.now best processors.now }
{
    match processors {
        [] => best,
        [q, rest @ ..] => of_blocks(lesser(best, block_end(pool, q)), pool, rest),
    }
}

/// The least so far, or from when on something of a calm core may come: nothing but its due and a block of its processors does.
fn of_calm(best: u64, pool: &Pool, core: &Resource) -> u64
    requires fits { PoolFits pool.now }
    requires calm { is_core_calm core.now ≡ true }
    ensures { result ≡ least_of_core pool.now best core.now }
{
    let blocks = of_blocks(best, pool, core.processors.as_slice());
    lesser(blocks, due_end(core))
}

/// The same of a core that is not calm.
#[tactic(auto, unfolding(crate::specs::Ready::least_of_core))]
fn of_busy(best: u64, pool: &Pool, core: &Resource) -> u64
    requires { PoolFits pool.now }
    ensures { result ≡ least_of_core pool.now best core.now }
{
    let siblings = of_processors(best, pool, core, core.processors.as_slice());
    let due = lesser(siblings, due_end(core));
    let decides = lesser(due, decide_end(core));
    let saves = lesser(decides, save_end(core));
    lesser(saves, moved_end(core))
}

/// The least so far, or from when on something of the core may come. At the end of a moment most cores are calm.
fn of_core(best: u64, pool: &Pool, core: &Resource) -> u64
    requires { PoolFits pool.now }
    ensures { result ≡ least_of_core pool.now best core.now }
{
    if is_calm(core) {
        of_calm(best, pool, core)
    } else {
        of_busy(best, pool, core)
    }
}

/// The same of each of these cores, of which the first has the number r.
fn of_cores(r: usize, best: u64, pool: &Pool, cores: &[Option<Resource>]) -> u64
    requires few { r + length cores.now < 2 ^ 64 }
    requires fits { PoolFits pool.now }
    ensures { result ≡ least_of_cores pool.now best (numbered_items r cores.now) }
{
    match cores {
        [] => best,
        [None, None, None, None, rest @ ..] => of_cores(r + 4, best, pool, rest),
        [None, rest @ ..] => of_cores(r + 1, best, pool, rest),
        [Some(c), rest @ ..] => of_cores(r + 1, of_core(best, pool, c), pool, rest),
    }
}

/// The least so far, or from when on one of the vCPUs may wake.
pub fn of_vcpus(best: u64, vcpus: &[Vcpu]) -> u64
    ensures { result ≡ least_of_vcpus best vcpus.now }
{
    match vcpus {
        [] => best,
        [x, rest @ ..] => of_vcpus(lesser(best, x.asleep_until), rest),
    }
}

/// Whether the domain is moving, and no unit of it is on a core.
fn may_dom_move(pool: &Pool, d: DomId, x: &Domain) -> bool
    requires { length pool.now.resources ≤ 64 }
    ensures { result ≡ may_domain_move pool.now d.0 x.now }
{
    x.moving.is_some() && !has_domain(0, pool.resources.as_slice(), d)
}

/// From when on the domain may move.
#[tactic(auto, unfolding(crate::specs::Ready::dom_moved_moment))]
fn dom_moved_end(pool: &Pool, d: DomId, x: &Domain) -> Option<Moment>
    requires { length pool.now.resources ≤ 64 }
    ensures { result ≡ dom_moved_moment pool.now d.0 x.now }
{
    end_if(may_dom_move(pool, d, x), Some(Moment(0)))
}

/// The least so far, or from when on something of the domain may come.
#[tactic(auto, unfolding(crate::specs::Ready::least_of_domain))]
fn of_domain(best: u64, pool: &Pool, d: DomId, x: &Domain) -> u64
    requires { length pool.now.resources ≤ 64 }
    ensures { result ≡ least_of_domain pool.now d.0 best x.now }
{
    lesser(
        of_vcpus(best, x.vcpus.as_slice()),
        dom_moved_end(pool, d, x),
    )
}

/// The same of each of these domains, of which the first has the number d.
fn of_domains(d: u8, best: u64, pool: &Pool, domains: &[Option<Domain>]) -> u64
    requires few { d + length domains.now ≤ 64 }
    requires cores { length pool.now.resources ≤ 64 }
    ensures { result ≡ least_of_domains pool.now best (numbered_items d domains.now) }
{
    match domains {
        [] => best,
        [None, None, None, None, rest @ ..] => of_domains(d + 4, best, pool, rest),
        [None, rest @ ..] => of_domains(d + 1, best, pool, rest),
        [Some(x), rest @ ..] => {
            of_domains(d + 1, of_domain(best, pool, DomId(d), x), pool, rest)
        }
    }
}

/// The least so far, or from when on the domain may be refilled, which is not before this end.
#[tactic(auto, unfolding(crate::specs::Ready::refill_end))]
fn of_refill(best: u64, end: Moment, x: &Credit2Domain) -> u64
    ensures { result ≡ lesser_moment best (refill_end end x.now) }
{
    lesser(best, later(x.refill.map(Moment), Some(end)))
}

/// The same of each of these domains, of which the first has the number d.
fn of_refills(d: u8, best: u64, end: Moment, domains: &[Option<Credit2Domain>]) -> u64
    requires { d + length domains.now ≤ 64 }
    ensures { result ≡ least_of_refills end best (numbered_items d domains.now) }
{
    match domains {
        [] => best,
        [None, rest @ ..] => of_refills(d + 1, best, end, rest),
        [Some(x), rest @ ..] => of_refills(d + 1, of_refill(best, end, x), end, rest),
    }
}

/// Whether the unit waits or is on a core.
pub fn is_about(pool: &Pool, u: UnitId) -> bool
    requires { length pool.now.resources ≤ 64 }
    ensures { result ≡ is_waiting_or_on pool.now u }
{
    has_unit(pool.scheduler.queue.as_slice(), u) || core_of(pool.resources.as_slice(), u).is_some()
}

/// The least so far, or from when on the unit of this deadline may be replenished, which is not before this end. Where the unit stands is
/// asked only where its deadline comes before the least so far.
fn of_unit(best: u64, end: Moment, pool: &Pool, u: UnitId, deadline: u64) -> u64
    requires { length pool.now.resources ≤ 64 }
    ensures { result ≡ lesser_moment best (repl_end pool.now end u deadline) }
{
    let at = deadline.max(end.0);
    if best <= at {
        return best;
    }
    lesser(best, end_if(is_about(pool, u), Some(Moment(at))))
}

/// The same of each of these units of the domain d, of which the first has this index.
fn of_units(first: u8, best: u64, end: Moment, pool: &Pool, d: DomId, units: &[RtdsUnit]) -> u64
    requires few { first + length units.now ≤ 32 }
    requires cores { length pool.now.resources ≤ 64 }
    ensures { result ≡ least_of_units pool.now end d.0 first best units.now }
{
    match units {
        [] => best,
        [x, rest @ ..] => {
            let next = of_unit(best, end, pool, UnitId { dom: d, n: first }, x.deadline);
            of_units(first + 1, next, end, pool, d, rest)
        }
    }
}

/// The same of each unit of these domains, of which the first has the number d.
fn of_all_units(d: u8, best: u64, end: Moment, pool: &Pool, domains: &[Option<RtdsUnits>]) -> u64
    requires few { d + length domains.now ≤ 64 }
    requires cores { length pool.now.resources ≤ 64 }
    ensures { result ≡ least_of_all_units pool.now end best (numbered_items d domains.now) }
{
    match domains {
        [] => best,
        [None, rest @ ..] => of_all_units(d + 1, best, end, pool, rest),
        [Some(units), rest @ ..] => {
            let next = of_units(0, best, end, pool, DomId(d), units.as_slice());
            of_all_units(d + 1, next, end, pool, rest)
        }
    }
}

/// The least so far, or from when on one of the scheduler's timers may come, which is not before this end.
#[tactic(auto, unfolding(crate::specs::Ready::least_of_timers))]
fn of_timers(best: u64, end: Moment, pool: &Pool, records: &Records) -> u64
    requires records { AreFewRecords records.now }
    requires cores { length pool.now.resources ≤ 64 }
    ensures { result ≡ least_of_timers pool.now end best records.now }
{
    match records {
        Records::Credit2Pool(own) => of_refills(0, best, end, own.domains.as_slice()),
        Records::RtdsPool(domains) => of_all_units(0, best, end, pool, domains.as_slice()),
        _ => best,
    }
}

/// The same, where no timer comes before the end of the stall of the pool's lowest processor.
#[tactic(auto, unfolding(crate::specs::Ready::least_of_scheduler))]
fn of_scheduler(best: u64, pool: &Pool) -> u64
    requires { ScanFits pool.now }
    ensures { result ≡ least_of_scheduler pool.now best }
{
    match lowest_end(pool) {
        None => best,
        Some(end) => of_timers(best, end, pool, &pool.scheduler.records),
    }
}

/// The least of the moment so far and of those from which on the events of the pool may come, moves included, while nothing else happens.
pub fn least_ready(best: u64, pool: &Pool) -> u64
    requires { ScanFits pool.now }
    ensures { (g : ℕ) → AreWhole g pool.now → IsLeastWith best (IsReadyIn g pool.now) result }
{
    let cores = of_cores(0, best, pool, pool.resources.as_slice());
    let domains = of_domains(0, cores, pool, pool.domains.as_slice());
    of_scheduler(domains, pool)
}
