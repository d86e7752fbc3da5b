//! When the events of one pool may come.

ghost use Rattle.std.specs.Prelude.{◌≡◌, ◌<◌, ◌≤◌, ◌/◌, ◌%◌, length, Some, None, false};
ghost use Rattle.std.specs.Option.{option_copied};
ghost use Rattle.sched_model.specs.Pool.{enabled_in, pool_processor, running_guest, is_lowest_processor_up};
ghost use Rattle.sched_model.specs.declared.action.Action.TheVariants.{Moved, DomMoved, Wake, Block, Slice, Repl, Refill, Arrive, Decide, Leave, Save};
ghost use Rattle.pool_records.specs.Fits.{PoolFits};
ghost use Rattle.plain_pool.specs.Rows.{done_among, processor_up};

use plain_schedulers::queue::has_unit;
use plain_schedulers::records::{next_refill, replenish_due};
use pool_records::cores::{
    all_held, any_held, core_of, first_core, first_up, has_come, has_domain, is_held, is_open,
    is_up,
};
use pool_records::vcpus::{done_at, vcpu_of};
use sched_base::{DomId, Moment, ProcId, ResId, UnitId, VcpuId};
use sched_model::action::Action;
use sched_model::places::item_at;
use sched_model::state::{Doing, Pool, Processor};

/// The processor with this number.
pub fn processor_of(granularity: u8, pool: &Pool, p: ProcId) -> Option<&Processor>
    requires { 0 < granularity }
    ensures { option_copied result ≡ pool_processor granularity pool.now p.0 }
{
    let c = item_at(pool.resources.as_slice(), (p.0 / granularity) as usize)?;
    c.processors.as_slice().get((p.0 % granularity) as usize)
}

/// The vCPU that the processor runs.
pub fn guest_of(granularity: u8, pool: &Pool, p: ProcId) -> Option<VcpuId>
    requires { 0 < granularity }
    ensures { result ≡ running_guest granularity pool.now p.0 }
{
    match processor_of(granularity, pool, p) {
        None => None,
        Some(q) => match q.doing {
            Doing::Guest(v) => Some(v),
            _ => None,
        },
    }
}

/// Whether the pool's lowest processor is up.
fn lowest_up(t: Moment, pool: &Pool) -> bool
    ensures { result ≡ is_lowest_processor_up t.0 pool.now }
{
    let cores = pool.resources.as_slice();
    match first_core(cores) {
        None => false,
        Some(r) => match item_at(cores, r) {
            None => false,
            Some(c) => first_up(t, c),
        },
    }
}

/// Whether the domain is moving, and no unit of it is on a core.
fn may_dom_moved(granularity: u8, t: Moment, pool: &Pool, d: DomId) -> bool
    requires { length pool.now.resources ≤ 64 }
    ensures { result ≡ enabled_in granularity t.0 pool.now (DomMoved d) }
{
    match item_at(pool.domains.as_slice(), d.0 as usize) {
        None => false,
        Some(domain) => { domain.moving.is_some() && !has_domain(0, pool.resources.as_slice(), d) }
    }
}

/// Whether the core may be moved: it is leaving, and nothing is on it.
fn may_moved(granularity: u8, t: Moment, pool: &Pool, r: ResId) -> bool
    ensures { result ≡ enabled_in granularity t.0 pool.now (Moved r) }
{
    match item_at(pool.resources.as_slice(), r.0 as usize) {
        None => false,
        Some(c) => {
            c.leaving
                && c.cur.is_none()
                && c.saving.is_none()
                && !c.pending
                && is_open(c)
                && first_up(t, c)
        }
    }
}

/// Whether the vCPU sleeps and its wake moment has come.
fn may_wake(granularity: u8, t: Moment, pool: &Pool, v: VcpuId) -> bool
    ensures { result ≡ enabled_in granularity t.0 pool.now (Wake v) }
{
    match vcpu_of(pool.domains.as_slice(), v) {
        None => false,
        Some(x) => has_come(t, x.asleep_until),
    }
}

/// Whether the work of the vCPU is done at t.
fn is_done(t: Moment, pool: &Pool, v: VcpuId) -> bool
    requires { PoolFits pool.now }
    ensures { result ≡ done_among t.0 pool.now v }
{
    match vcpu_of(pool.domains.as_slice(), v) {
        None => false,
        Some(x) => has_come(t, done_at(x)),
    }
}

/// Whether the processor is there and up at t.
fn is_processor_up(granularity: u8, t: Moment, pool: &Pool, p: ProcId) -> bool
    requires { 0 < granularity }
    ensures { result ≡ processor_up granularity t.0 pool.now p.0 }
{
    match processor_of(granularity, pool, p) {
        None => false,
        Some(q) => is_up(t, q),
    }
}

/// Whether the processor runs a vCPU whose work is done, and is up.
fn may_block(granularity: u8, t: Moment, pool: &Pool, p: ProcId) -> bool
    requires some { 0 < granularity }
    requires fits { PoolFits pool.now }
    ensures { result ≡ enabled_in granularity t.0 pool.now (Block p) }
{
    match guest_of(granularity, pool, p) {
        None => false,
        Some(v) => is_done(t, pool, v) && is_processor_up(granularity, t, pool, p),
    }
}

/// Whether the core's due has come, it is not pending yet, and its first processor is up.
fn may_slice(granularity: u8, t: Moment, pool: &Pool, r: ResId) -> bool
    ensures { result ≡ enabled_in granularity t.0 pool.now (Slice r) }
{
    match item_at(pool.resources.as_slice(), r.0 as usize) {
        None => false,
        Some(c) => has_come(t, c.due) && !c.pending && first_up(t, c),
    }
}

/// Whether the unit waits or runs, its deadline has come, and the pool's lowest processor is up.
fn may_repl(granularity: u8, t: Moment, pool: &Pool, u: UnitId) -> bool
    requires { PoolFits pool.now }
    ensures { result ≡ enabled_in granularity t.0 pool.now (Repl u) }
{
    replenish_due(&pool.scheduler.records, t, u)
        && lowest_up(t, pool)
        && (has_unit(pool.scheduler.queue.as_slice(), u)
            || core_of(pool.resources.as_slice(), u).is_some())
}

/// Whether the domain's refill has come, and the pool's lowest processor is up.
fn may_refill(granularity: u8, t: Moment, pool: &Pool, d: DomId) -> bool
    requires { PoolFits pool.now }
    ensures { result ≡ enabled_in granularity t.0 pool.now (Refill d) }
{
    has_come(t, next_refill(&pool.scheduler.records, d)) && lowest_up(t, pool)
}

/// Whether the processor's core is pending, open and saves nothing, and the processor is not held and is up.
fn may_arrive(granularity: u8, t: Moment, pool: &Pool, p: ProcId) -> bool
    requires { 0 < granularity }
    ensures { result ≡ enabled_in granularity t.0 pool.now (Arrive p) }
{
    let gathers = match item_at(pool.resources.as_slice(), (p.0 / granularity) as usize) {
        None => false,
        Some(c) => c.pending && is_open(c) && c.saving.is_none(),
    };
    let free = match processor_of(granularity, pool, p) {
        None => false,
        Some(q) => !is_held(q) && is_up(t, q),
    };
    gathers && free
}

/// Whether all processors of the core are held, its stage is open, and its first processor is up.
fn may_decide(granularity: u8, t: Moment, pool: &Pool, r: ResId) -> bool
    ensures { result ≡ enabled_in granularity t.0 pool.now (Decide r) }
{
    match item_at(pool.resources.as_slice(), r.0 as usize) {
        None => false,
        Some(c) => all_held(c.processors.as_slice()) && is_open(c) && first_up(t, c),
    }
}

/// Whether the processor's core has decided, and the processor is held and up.
fn may_leave(granularity: u8, t: Moment, pool: &Pool, p: ProcId) -> bool
    requires { 0 < granularity }
    ensures { result ≡ enabled_in granularity t.0 pool.now (Leave p) }
{
    let decided = match item_at(pool.resources.as_slice(), (p.0 / granularity) as usize) {
        None => false,
        Some(c) => !is_open(c),
    };
    let waits = match processor_of(granularity, pool, p) {
        None => false,
        Some(q) => is_held(q) && is_up(t, q),
    };
    decided && waits
}

/// Whether the core saves a unit, nobody of it is held, and its first processor is up.
fn may_save(granularity: u8, t: Moment, pool: &Pool, r: ResId) -> bool
    ensures { result ≡ enabled_in granularity t.0 pool.now (Save r) }
{
    match item_at(pool.resources.as_slice(), r.0 as usize) {
        None => false,
        Some(c) => { c.saving.is_some() && !any_held(c.processors.as_slice()) && first_up(t, c) }
    }
}

/// Whether an event of this pool may come at t.
pub fn is_enabled_in(granularity: u8, t: Moment, pool: &Pool, action: Action) -> bool
    requires some { 0 < granularity }
    requires fits { PoolFits pool.now }
    ensures { result ≡ enabled_in granularity t.0 pool.now action }
{
    match action {
        Action::Stall => false,
        Action::Xl => false,
        Action::Moved(r) => may_moved(granularity, t, pool, r),
        Action::DomMoved(d) => may_dom_moved(granularity, t, pool, d),
        Action::Wake(v) => may_wake(granularity, t, pool, v),
        Action::Block(p) => may_block(granularity, t, pool, p),
        Action::Slice(r) => may_slice(granularity, t, pool, r),
        Action::Repl(u) => may_repl(granularity, t, pool, u),
        Action::Refill(d) => may_refill(granularity, t, pool, d),
        Action::Arrive(p) => may_arrive(granularity, t, pool, p),
        Action::Decide(r) => may_decide(granularity, t, pool, r),
        Action::Leave(p) => may_leave(granularity, t, pool, p),
        Action::Save(r) => may_save(granularity, t, pool, r),
    }
}
