//! What the processors of a core do.

ghost use Rattle.std.specs.Prelude.{◌≡◌, ◌≤◌, ◌<◌, ◌/◌, ◌%◌, ◌*◌, true, IfSome, None, slice_set};
ghost use Rattle.sched_model.specs.Pool.{after_arrive, after_block, taken_at};
ghost use Rattle.sched_base.specs.Numbers.{has_moment_come};
ghost use Rattle.sched_ops.specs.Seen.{Seen as SchedulerSeen};
ghost use Rattle.unit_state.specs.Seen.{IsNow, done_among, is_awake_among};
ghost use Rattle.pool_core.specs.Seen.{guest_among, pool_of};
ghost use Rattle.pool_core.specs.ProcessorEvents.{IsMoved, IsParting, work_of};

use core_state::CoreState;
use pool_records::units::unit_of;
use sched_base::{Moment, ProcId, ResId, UnitId, VcpuId};
use sched_model::state::Doing;
use unit_state::Guests;

/// The vCPU that the processor runs.
pub fn guest_of(cores: &CoreState, p: ProcId) -> Option<VcpuId>
    ensures { result ≡ guest_among cores.now.granularity cores.now.resources p.0 }
{
    match cores.processor(p) {
        None => None,
        Some(q) => match q.doing {
            Doing::Guest(v) => Some(v),
            Doing::Idle | Doing::Held => None,
        },
    }
}

/// The vCPU that the processor runs, and whose work is done at t, sleeps; its core is to decide anew, where its unit is no longer
/// runnable.
pub fn block(guests: &mut Guests, cores: &mut CoreState, p: ProcId, v: VcpuId, t: Moment)
    requires now { IsNow guests.old t.0 }
    requires same { cores.old.granularity ≡ guests.old.granularity }
    requires some { 0 < guests.old.granularity }
    requires done { has_moment_come t.0 (done_among guests.old.domains v) ≡ true }
    ensures pool { (s : SchedulerSeen) → pool_of guests.new cores.new s
        ≡ after_block guests.old.granularity t.0 p.0 v (pool_of guests.old cores.old s) }
    ensures works { cores.new.works ≡ slice_set cores.old.works p.0 None }
    ensures rest { IsMoved t.0 guests.old guests.new cores.old cores.new }
{
    guests.block(v, t);
    cores.idle(p);
    let g = guests.granularity();
    if !guests.runnable(unit_of(g, v)) {
        cores.set_pending(ResId(p.0 / g));
    }
}

/// The processor waits for its siblings. A vCPU that it ran is stopped.
pub fn arrive(guests: &mut Guests, cores: &mut CoreState, p: ProcId, t: Moment)
    requires now { IsNow guests.old t.0 }
    requires same { cores.old.granularity ≡ guests.old.granularity }
    ensures pool { (s : SchedulerSeen) → pool_of guests.new cores.new s
        ≡ after_arrive guests.old.granularity t.0 p.0 (pool_of guests.old cores.old s) }
    ensures works { cores.new.works ≡ slice_set cores.old.works p.0 None }
    ensures rest { IsMoved t.0 guests.old guests.new cores.old cores.new }
{
    match guest_of(cores, p) {
        None => cores.hold(p),
        Some(v) => {
            guests.stop(v, t);
            cores.hold(p);
        }
    }
}

/// The vCPU that the processor takes when it leaves: the one of its core's unit at its place, where that is awake and the unit
/// is runnable.
fn taken_by(guests: &Guests, cores: &CoreState, p: ProcId) -> Option<VcpuId>
    requires same { cores.now.granularity ≡ guests.now.granularity }
    ensures taken { (s : SchedulerSeen) → result
        ≡ taken_at guests.now.granularity (pool_of guests.now cores.now s) p.0 }
    ensures awake { IfSome result (λ v. is_awake_among guests.now.domains v ≡ true) }
{
    guests.keeps();
    let g = guests.granularity();
    let u = cores.core(ResId(p.0 / g))?.cur?;
    if !guests.runnable(u) {
        return None;
    }
    let v = VcpuId {
        dom: u.dom,
        n: u.n * g + p.0 % g,
    };
    if guests.awake(v) { Some(v) } else { None }
}

/// The processor takes the vCPU, if there is one, and its siblings are one fewer; after the last of them the core's stage is open
/// again: the vCPU.
pub fn leave(guests: &mut Guests, cores: &mut CoreState, p: ProcId, t: Moment) -> Option<VcpuId>
    requires now { IsNow guests.old t.0 }
    requires same { cores.old.granularity ≡ guests.old.granularity }
    ensures taken { (s : SchedulerSeen) → result
        ≡ taken_at guests.old.granularity (pool_of guests.old cores.old s) p.0 }
    ensures pool { IsParting t.0 p.0 result guests.old guests.new cores.old cores.new }
    ensures works { cores.new.works ≡ slice_set cores.old.works p.0
        (work_of guests.new.domains result) }
    ensures rest { IsMoved t.0 guests.old guests.new cores.old cores.new }
{
    let taken = taken_by(guests, cores, p);
    match taken {
        None => cores.leave(p, Doing::Idle, None),
        Some(v) => {
            guests.start(v, t);
            let work = guests.done_at(v);
            cores.leave(p, Doing::Guest(v), work);
        }
    }
    taken
}
