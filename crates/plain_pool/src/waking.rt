//! A vCPU wakes, or sleeps.

ghost use Rattle.sched_model.specs.CheckedMachine.{most_span};
ghost use Rattle.std.specs.Prelude.{◌≡◌, ◌<◌, ◌≤◌, length, IsTrue};
ghost use Rattle.sched_model.specs.declared.action.Action.TheVariants.{Wake, Block};
ghost use Rattle.sched_model.specs.Pool.{enabled_in, after_in, event_in, is_unit_off, joined_siblings};
ghost use Rattle.pool_records.specs.Fits.{PoolFits};
ghost use Rattle.plain_pool.specs.Wakes.{idles_at, after_placing};

use crate::pool::{guest_of, processor_of};
use plain_schedulers::queue::{enqueue, has_unit};
use pool_records::cores::{core_of, is_idle, is_on_core};
use pool_records::doing::{change_doing, set_pending, take};
use pool_records::runnable::is_runnable;
use pool_records::units::unit_of;
use pool_records::vcpus::{sleep_vcpu, wake_vcpu};
use sched_base::{Moment, ProcId, ResId, UnitId, VcpuId};
use sched_model::event::Event;
use sched_model::state::{Doing, Pool};

/// Whether the unit is in no queue, no cur and no saving.
pub fn is_off(pool: &Pool, u: UnitId) -> bool
    requires { length pool.now.resources ≤ 64 }
    ensures { result ≡ is_unit_off pool.now u }
{
    !has_unit(pool.scheduler.queue.as_slice(), u) && !is_on_core(0, pool.resources.as_slice(), u)
}

/// Whether the processor is there and idles.
fn is_idle_at(granularity: u8, pool: &Pool, p: ProcId) -> bool
    requires { 0 < granularity }
    ensures { result ≡ idles_at granularity pool.now p.0 }
{
    match processor_of(granularity, pool, p) {
        None => false,
        Some(q) => is_idle(q),
    }
}

/// The vCPU is started on its own processor, where its unit is cur of a core and that processor idles.
fn join_siblings(granularity: u8, t: Moment, v: VcpuId, pool: &mut Pool)
    requires some { 0 < granularity }
    requires few { granularity ≤ 4 }
    requires cores { length pool.old.resources ≤ 64 }
    ensures { pool.new ≡ joined_siblings granularity t.0 v pool.old }
{
    if let Some(r) = core_of(pool.resources.as_slice(), unit_of(granularity, v)) {
        let p = r as u8 * granularity + v.n % granularity;
        if is_idle_at(granularity, pool, ProcId(p)) {
            take(granularity, t, ProcId(p), Some(v), pool);
        }
    }
}

/// A vCPU that is awake now finds its place: its unit waits, where it was off, and else its processor runs it.
fn find_place(granularity: u8, t: Moment, v: VcpuId, pool: &mut Pool)
    requires some { 0 < granularity }
    requires few { granularity ≤ 4 }
    requires cores { length pool.old.resources ≤ 64 }
    requires room { length (after_placing granularity t.0 v pool.old).scheduler.queue ≤ 256 }
    ensures { pool.new ≡ after_placing granularity t.0 v pool.old }
{
    let u = unit_of(granularity, v);
    if is_runnable(granularity, pool.domains.as_slice(), u) {
        if is_off(pool, u) {
            enqueue(u, &mut pool.scheduler);
        } else {
            join_siblings(granularity, t, v, pool);
        }
    }
}

/// The vCPU wakes.
pub fn wake(granularity: u8, t: Moment, v: VcpuId, pool: &mut Pool) -> Event
    requires some { 0 < granularity }
    requires few { granularity ≤ 4 }
    requires fits { PoolFits pool.old }
    requires room { length (after_in granularity t.0 pool.old (Wake v)).scheduler.queue ≤ 256 }
    ensures event { result ≡ event_in granularity t.0 pool.old (Wake v) }
    ensures pool { pool.new ≡ after_in granularity t.0 pool.old (Wake v) }
{
    wake_vcpu(&mut pool.domains, v);
    find_place(granularity, t, v, pool);
    Event::Wake { v }
}

/// The vCPU that the processor runs sleeps; its core is to decide anew, where its unit is no longer runnable.
pub fn block(granularity: u8, t: Moment, p: ProcId, pool: &mut Pool) -> Event
    requires enabled { IsTrue (enabled_in granularity t.0 pool.old (Block p)) }
    requires some { 0 < granularity }
    requires early { t.0 ≤ most_span }
    requires fits { PoolFits pool.old }
    ensures event { result ≡ event_in granularity t.0 pool.old (Block p) }
    ensures pool { pool.new ≡ after_in granularity t.0 pool.old (Block p) }
{
    let Some(v) = guest_of(granularity, pool, p) else {
        unreachable!();
    };
    sleep_vcpu(&mut pool.domains, v, t);
    change_doing(granularity, p, Doing::Idle, &mut pool.resources);
    if !is_runnable(
        granularity,
        pool.domains.as_slice(),
        unit_of(granularity, v),
    ) {
        set_pending(ResId(p.0 / granularity), &mut pool.resources);
    }
    Event::Block { p, v }
}
