//! Units that come to wait: that of a vCPU that wakes, and one that a core puts away.

ghost use Rattle.std.specs.Prelude.{◌≡◌, ◌<◌, ◌||◌, true};
ghost use Rattle.sched_model.specs.State.{runnable_among};
ghost use Rattle.sched_model.specs.declared.action.Action.TheVariants.{Save};
ghost use Rattle.sched_model.specs.Pool.{after_wake, after_in, event_in, joined_siblings};
ghost use Rattle.policy_laws.specs.Holds.{Holds};
ghost use Rattle.sched_ops.specs.Seen.{Seen as SchedulerSeen};
ghost use Rattle.unit_state.specs.Seen.{IsNow, is_awake_among, is_due_among};
ghost use Rattle.pool_core.specs.Events.{MayAct};
ghost use Rattle.pool_core.specs.Seen.{pool_of};
ghost use Rattle.pool_core.specs.ProcessorEvents.{IsMoved};
ghost use Rattle.pool_core.specs.Wakes.{done_started, idles_among, is_held_among, came_by_save, came_by_wake, joined_works, woken_works, KeepsRoom};

use core_state::CoreState;
use pool_records::cores::is_idle;
use pool_records::units::unit_of;
use sched_base::{Moment, ProcId, ResId, UnitId, VcpuId};
use sched_model::event::Event;
use sched_ops::Policy;
use unit_state::Guests;

/// Whether the processor is there and idles.
fn is_idle_at(cores: &CoreState, p: ProcId) -> bool
    ensures { result ≡ idles_among cores.now.granularity cores.now.resources p.0 }
{
    match cores.processor(p) {
        None => false,
        Some(q) => is_idle(q),
    }
}

/// The vCPU, which is awake, is started on its own processor, where its unit is a core's own and that processor idles.
fn join_siblings(guests: &mut Guests, cores: &mut CoreState, v: VcpuId, t: Moment)
    requires now { IsNow guests.old t.0 }
    requires same { cores.old.granularity ≡ guests.old.granularity }
    requires some { 0 < guests.old.granularity }
    requires awake { is_awake_among guests.old.domains v ≡ true }
    ensures pool { (s : SchedulerSeen) → pool_of guests.new cores.new s
        ≡ joined_siblings guests.old.granularity t.0 v (pool_of guests.old cores.old s) }
    ensures works { cores.new.works ≡ joined_works guests.old.granularity v
        (done_started t.0 v guests.old.domains) cores.old.resources cores.old.works }
    ensures rest { IsMoved t.0 guests.old guests.new cores.old cores.new }
{
    cores.keeps();
    let g = guests.granularity();
    if let Some(r) = cores.core_with(unit_of(g, v)) {
        let p = r * g + v.n % g;
        if is_idle_at(cores, ProcId(p)) {
            guests.start(v, t);
            let work = guests.done_at(v);
            cores.run(ProcId(p), v, work);
        }
    }
}

/// Whether the unit, where each runnable one waits or is on a core, does so.
fn has_place(guests: &Guests, cores: &CoreState, u: UnitId) -> bool
    ensures { result ≡ (runnable_among guests.now.granularity guests.now.domains u
        || is_held_among cores.now.resources u) }
{
    guests.runnable(u) || cores.has_unit(u)
}

/// The vCPU, whose wake moment has come, wakes. Its unit waits, where it is runnable now and was nowhere; where it is a core's own,
/// the vCPU is started on its own processor, if that idles. The unit that waits now, and did not before.
pub fn wake<P: Policy>(
    guests: &mut Guests,
    cores: &mut CoreState,
    policy: &mut P,
    v: VcpuId,
    t: Moment,
) -> Option<UnitId>
    requires now { IsNow guests.old t.0 }
    requires same { cores.old.granularity ≡ guests.old.granularity }
    requires due { is_due_among t.0 guests.old.domains v ≡ true }
    requires holds { Holds guests.old.granularity t.0
        (pool_of guests.old cores.old (P.seen policy.old)) }
    ensures pool { pool_of guests.new cores.new (P.seen policy.new)
        ≡ after_wake guests.old.granularity t.0 v
        (pool_of guests.old cores.old (P.seen policy.old)) }
    ensures came { result ≡ came_by_wake guests.old.granularity v
        (pool_of guests.old cores.old (P.seen policy.old)) }
    ensures works { cores.new.works ≡ woken_works guests.old.granularity t.0 v
        (pool_of guests.old cores.old (P.seen policy.old)) cores.old.works }
    ensures rest { IsMoved t.0 guests.old guests.new cores.old cores.new }
    ensures room { KeepsRoom (P.seen policy.old) (P.seen policy.new) }
{
    let u = unit_of(guests.granularity(), v);
    let had_place = has_place(guests, cores, u);
    guests.wake(v, t);
    if !guests.runnable(u) {
        return None;
    }
    if had_place {
        join_siblings(guests, cores, v, t);
        None
    } else {
        policy.enqueue(u);
        Some(u)
    }
}

/// The core puts away the unit that it saves, which waits again where it is runnable: the unit, where it does. The event is written in its
/// place.
pub fn save<P: Policy>(
    guests: &Guests,
    cores: &mut CoreState,
    policy: &mut P,
    r: ResId,
    t: Moment,
    out: &mut Event,
) -> Option<UnitId>
    requires { MayAct t.0 (Save r) guests.now cores.old (P.seen policy.old) }
    ensures event { out.new ≡ event_in guests.now.granularity t.0
        (pool_of guests.now cores.old (P.seen policy.old)) (Save r) }
    ensures came { result ≡ came_by_save out.new }
    ensures pool { pool_of guests.now cores.new (P.seen policy.new)
        ≡ after_in guests.now.granularity t.0 (pool_of guests.now cores.old (P.seen policy.old))
        (Save r) }
    ensures cores { cores.new ≡ record cores.old { resources = cores.new.resources } }
    ensures room { KeepsRoom (P.seen policy.old) (P.seen policy.new) }
{
    let Some(u) = cores.save(r) else {
        unreachable!();
    };
    let queued = guests.runnable(u);
    *out = Event::Save { r, u, queued };
    if !queued {
        return None;
    }
    policy.enqueue(u);
    Some(u)
}
