//! The events of one pool, before its cores are looked at.

ghost use Rattle.sched_model.specs.CheckedMachine.{most_span};
ghost use Rattle.std.specs.Prelude.{◌≡◌, ◌<◌, ◌≤◌, ◌/◌, length, IsTrue, true, None, Some};
ghost use Rattle.sched_model.specs.declared.action.Action.TheVariants.{Slice, Arrive, Leave, Save};
ghost use Rattle.sched_model.specs.Pool.{enabled_in, after_in, change_core, change_processor, event_in, reopened_core, started_on, vcpu_to_run, with_doing};
ghost use Rattle.sched_model.specs.declared.state.Doing.TheVariants as doing;
ghost use Rattle.scheduler_records.specs.Fits.{RecordsFit};
ghost use Rattle.pool_records.specs.Fits.{PoolFits};
ghost use Rattle.sched_model.specs.Actions.{IsOfPool};

use crate::deciding::decide;
use crate::pool::guest_of;
use crate::replenishing::{refill, replenish};
use crate::waking::{block, wake};
use plain_schedulers::queue::enqueue;
use pool_records::changes::take_saved;
use pool_records::doing::{change_doing, leave_at, set_pending};
use pool_records::runnable::is_runnable;
use pool_records::vcpus::{start_vcpu, stop_vcpu, vcpu_of};
use sched_base::{Moment, ProcId, ResId, VcpuId};
use sched_model::action::Action;
use sched_model::event::Event;
use sched_model::places::item_at;
use sched_model::state::{Doing, Pool, Resource};

/// The core's due has come.
pub fn slice(granularity: u8, t: Moment, r: ResId, pool: &mut Pool) -> Event
    ensures event { result ≡ event_in granularity t.0 pool.old (Slice r) }
    ensures pool { pool.new ≡ after_in granularity t.0 pool.old (Slice r) }
{
    set_pending(r, &mut pool.resources);
    Event::Slice { r }
}

/// The processor arrives: its vCPU stops, and it waits for its siblings.
pub fn arrive(granularity: u8, t: Moment, p: ProcId, pool: &mut Pool) -> Event
    requires { 0 < granularity }
    ensures event { result ≡ event_in granularity t.0 pool.old (Arrive p) }
    ensures pool { pool.new ≡ after_in granularity t.0 pool.old (Arrive p) }
{
    if let Some(v) = guest_of(granularity, pool, p) {
        stop_vcpu(&mut pool.domains, v, t);
    }
    change_doing(granularity, p, Doing::Held, &mut pool.resources);
    Event::Arrive { p }
}

/// The vCPU of the core's cur that belongs on the core's i-th processor, where cur is runnable and that vCPU is there and awake.
pub fn vcpu_for(granularity: u8, pool: &Pool, core: &Resource, sibling: u8) -> Option<VcpuId>
    requires few { granularity ≤ 4 }
    requires place { sibling < 4 }
    requires fits { PoolFits pool.now }
    ensures { result ≡ vcpu_to_run granularity pool.now core.now sibling }
{
    let u = core.cur?;
    let n = u.n as usize * granularity as usize + sibling as usize;
    if n >= 32 {
        return None;
    }
    let v = VcpuId {
        dom: u.dom,
        n: n as u8,
    };
    let x = vcpu_of(pool.domains.as_slice(), v)?;
    if is_runnable(granularity, pool.domains.as_slice(), u) && x.asleep_until.is_none() {
        Some(v)
    } else {
        None
    }
}

/// The processor leaves the meeting with the vCPU, or idles; the last one opens the stage.
fn part(granularity: u8, t: Moment, p: ProcId, taken: Option<VcpuId>, pool: &mut Pool)
    requires { 0 < granularity }
    ensures { pool.new ≡ change_core (p.0 / granularity) reopened_core (elim taken [
      | None ↦ change_processor granularity p.0 (with_doing doing.Idle) pool.old
      | Some v ↦ started_on granularity t.0 p.0 v pool.old
    ]) }
{
    match taken {
        None => leave_at(granularity, p, Doing::Idle, &mut pool.resources),
        Some(v) => {
            start_vcpu(&mut pool.domains, v, t);
            leave_at(granularity, p, Doing::Guest(v), &mut pool.resources);
        }
    }
}

/// The processor leaves the meeting with the vCPU of its place in the core's unit, or idles; the last one opens the stage.
pub fn leave(granularity: u8, t: Moment, p: ProcId, pool: &mut Pool) -> Event
    requires enabled { IsTrue (enabled_in granularity t.0 pool.old (Leave p)) }
    requires some { 0 < granularity }
    requires few { granularity ≤ 4 }
    requires fits { PoolFits pool.old }
    ensures event { result ≡ event_in granularity t.0 pool.old (Leave p) }
    ensures pool { pool.new ≡ after_in granularity t.0 pool.old (Leave p) }
{
    let Some(c) = item_at(pool.resources.as_slice(), (p.0 / granularity) as usize) else {
        unreachable!();
    };
    let v = vcpu_for(granularity, pool, c, p.0 % granularity);
    part(granularity, t, p, v, pool);
    Event::Leave { p, v }
}

/// The saved unit waits at the end of the queue where it is runnable, and else is off.
pub fn save(granularity: u8, t: Moment, r: ResId, pool: &mut Pool) -> Event
    requires enabled { IsTrue (enabled_in granularity t.0 pool.old (Save r)) }
    requires room { length (after_in granularity t.0 pool.old (Save r)).scheduler.queue ≤ 256 }
    ensures event { result ≡ event_in granularity t.0 pool.old (Save r) }
    ensures pool { pool.new ≡ after_in granularity t.0 pool.old (Save r) }
{
    let Some(u) = take_saved(r, &mut pool.resources) else {
        unreachable!();
    };
    let queued = is_runnable(granularity, pool.domains.as_slice(), u);
    if queued {
        enqueue(u, &mut pool.scheduler);
    }
    Event::Save { r, u, queued }
}

/// The event happens in the pool, before the pool's cores are looked at.
pub fn happen(granularity: u8, t: Moment, action: Action, pool: &mut Pool) -> Event
    requires some { 0 < granularity }
    requires few { granularity ≤ 4 }
    requires early { t.0 ≤ most_span }
    requires fits { PoolFits pool.old }
    requires records { RecordsFit t.0 pool.old.scheduler.records }
    requires enabled { enabled_in granularity t.0 pool.old action ≡ true }
    requires own { IsOfPool action }
    requires room { length (after_in granularity t.0 pool.old action).scheduler.queue ≤ 256 }
    ensures event { result ≡ event_in granularity t.0 pool.old action }
    ensures pool { pool.new ≡ after_in granularity t.0 pool.old action }
{
    match action {
        Action::Wake(v) => wake(granularity, t, v, pool),
        Action::Block(p) => block(granularity, t, p, pool),
        Action::Slice(r) => slice(granularity, t, r, pool),
        Action::Repl(u) => replenish(granularity, t, u, pool),
        Action::Refill(d) => refill(granularity, t, d, pool),
        Action::Arrive(p) => arrive(granularity, t, p, pool),
        Action::Decide(r) => decide(granularity, t, r, pool),
        Action::Leave(p) => leave(granularity, t, p, pool),
        Action::Save(r) => save(granularity, t, r, pool),
        _ => unreachable!(),
    }
}
