//! The events of a pool, over its parts: each is written in its place, and answers what it leaves to the look at the cores.

ghost use Rattle.std.specs.Prelude.{◌≡◌, ℕ, true};
ghost use Rattle.sched_model.specs.declared.action.Action.TheVariants.{Arrive, Block, Decide, Leave, Refill, Repl, Save, Slice, Wake};
ghost use Rattle.sched_model.specs.Actions.{IsOfPool};
ghost use Rattle.core_state.specs.Seen.{Seen as CoresSeen};
ghost use Rattle.sched_ops.specs.Conditions.{IsNow};
ghost use Rattle.sched_ops.specs.Seen.{Seen as SchedulerSeen};
ghost use Rattle.sched_ops.specs.Timers.{is_due};
ghost use Rattle.sched_ops.specs.declared.timer.Timer.TheVariants as timers;
ghost use Rattle.unit_state.specs.Seen.{Seen as GuestsSeen};
ghost use Rattle.pool_core.specs.Events.{HasActed, MayAct, MayCome};

use crate::{deciding, doing, waking};
use core_state::CoreState;
use sched_base::{DomId, Moment, ProcId, ResId, UnitId, VcpuId};
use sched_model::action::Action;
use sched_model::event::Event;
use sched_ops::{Policy, Timer};
use unit_state::Guests;

/// What an event leaves to the look: whether a settled pool is so still, but for the unit that came to wait, and that unit.
#[derive(Clone, Copy)]
pub struct Outcome {
    pub spares: bool,
    pub came: Option<UnitId>,
}

/// A vCPU that sleeps, and whose wake moment has come at t, wakes.
fn wake<P: Policy>(
    guests: &mut Guests,
    cores: &mut CoreState,
    policy: &mut P,
    v: VcpuId,
    t: Moment,
    out: &mut Event,
) -> Outcome
    requires { MayAct t.0 (Wake v) guests.old cores.old (P.seen policy.old) }
    ensures { HasActed t.0 (Wake v) guests.old guests.new cores.old cores.new (P.seen policy.old)
        (P.seen policy.new) out.new result }
{
    guests.keeps();
    cores.keeps();
    policy.keeps();
    let came = waking::wake(guests, cores, policy, v, t);
    *out = Event::Wake { v };
    Outcome { spares: true, came }
}

/// A vCPU that a processor runs, and whose work is done at t, sleeps.
fn block(
    guests: &mut Guests,
    cores: &mut CoreState,
    p: ProcId,
    t: Moment,
    out: &mut Event,
) -> Outcome
    requires { MayCome t.0 (Block p) guests.old cores.old }
    ensures { (s : SchedulerSeen) → MayAct t.0 (Block p) guests.old cores.old s →
        HasActed t.0 (Block p) guests.old guests.new cores.old cores.new s s out.new result }
{
    let Some(v) = doing::guest_of(cores, p) else {
        unreachable!();
    };
    doing::block(guests, cores, p, v, t);
    *out = Event::Block { p, v };
    Outcome {
        spares: true,
        came: None,
    }
}

/// A core whose due has come at t is to decide anew.
fn slice(cores: &mut CoreState, r: ResId, out: &mut Event) -> Outcome
    ensures { (t : ℕ) (guests : GuestsSeen) (s : SchedulerSeen) →
        MayAct t (Slice r) guests cores.old s →
        HasActed t (Slice r) guests guests cores.old cores.new s s out.new result }
{
    cores.set_pending(r);
    *out = Event::Slice { r };
    Outcome {
        spares: true,
        came: None,
    }
}

/// The budget of a capped Credit2 domain, whose refill has come at t, is filled. Each core is to be looked at.
fn refill<P: Policy>(policy: &mut P, d: DomId, t: Moment, out: &mut Event) -> Outcome
    requires now { IsNow (P.seen policy.old) t.0 }
    requires due { is_due t.0 (P.seen policy.old).scheduler (timers.Refill d) ≡ true }
    ensures { (guests : GuestsSeen) (cores : CoresSeen) →
        MayAct t.0 (Refill d) guests cores (P.seen policy.old) →
        HasActed t.0 (Refill d) guests guests cores cores (P.seen policy.old) (P.seen policy.new)
        out.new result }
{
    *out = policy.timer(Timer::Refill(d), t);
    Outcome {
        spares: false,
        came: None,
    }
}

/// A processor of a core that is to decide anew waits for its siblings.
fn arrive(
    guests: &mut Guests,
    cores: &mut CoreState,
    p: ProcId,
    t: Moment,
    out: &mut Event,
) -> Outcome
    requires { MayCome t.0 (Arrive p) guests.old cores.old }
    ensures { (s : SchedulerSeen) → MayAct t.0 (Arrive p) guests.old cores.old s →
        HasActed t.0 (Arrive p) guests.old guests.new cores.old cores.new s s out.new result }
{
    doing::arrive(guests, cores, p, t);
    *out = Event::Arrive { p };
    Outcome {
        spares: true,
        came: None,
    }
}

/// A core, all of whose processors wait, decides. Each core is to be looked at where that may free something.
fn decide<P: Policy>(
    guests: &Guests,
    cores: &mut CoreState,
    policy: &mut P,
    r: ResId,
    t: Moment,
    out: &mut Event,
) -> Outcome
    requires { MayAct t.0 (Decide r) guests.now cores.old (P.seen policy.old) }
    ensures { HasActed t.0 (Decide r) guests.now guests.now cores.old cores.new (P.seen policy.old)
        (P.seen policy.new) out.new result }
{
    policy.keeps();
    let spares = deciding::frees_nothing(cores, policy, r);
    deciding::decide(guests, cores, policy, r, t, out);
    Outcome { spares, came: None }
}

/// A processor leaves its siblings after their core decided.
fn leave(
    guests: &mut Guests,
    cores: &mut CoreState,
    p: ProcId,
    t: Moment,
    out: &mut Event,
) -> Outcome
    requires { MayCome t.0 (Leave p) guests.old cores.old }
    ensures { (s : SchedulerSeen) → MayAct t.0 (Leave p) guests.old cores.old s →
        HasActed t.0 (Leave p) guests.old guests.new cores.old cores.new s s out.new result }
{
    cores.keeps();
    let v = doing::leave(guests, cores, p, t);
    *out = Event::Leave { p, v };
    Outcome {
        spares: true,
        came: None,
    }
}

/// An event of the pool that may come at t, written in its place.
pub fn act<P: Policy>(
    guests: &mut Guests,
    cores: &mut CoreState,
    policy: &mut P,
    action: Action,
    t: Moment,
    out: &mut Event,
) -> Outcome
    requires own { IsOfPool action }
    requires may { MayAct t.0 action guests.old cores.old (P.seen policy.old) }
    ensures { HasActed t.0 action guests.old guests.new cores.old cores.new (P.seen policy.old)
        (P.seen policy.new) out.new result }
{
    match action {
        Action::Wake(v) => wake(guests, cores, policy, v, t, out),
        Action::Block(p) => block(guests, cores, p, t, out),
        Action::Slice(r) => slice(cores, r, out),
        Action::Repl(u) => {
            *out = deciding::replenish(cores, policy, u, t);
            Outcome {
                spares: false,
                came: None,
            }
        }
        Action::Refill(d) => refill(policy, d, t, out),
        Action::Arrive(p) => arrive(guests, cores, p, t, out),
        Action::Decide(r) => decide(guests, cores, policy, r, t, out),
        Action::Leave(p) => leave(guests, cores, p, t, out),
        Action::Save(r) => Outcome {
            spares: true,
            came: waking::save(guests, cores, policy, r, t, out),
        },
        Action::Stall | Action::Xl | Action::Moved(_) | Action::DomMoved(_) => unreachable!(),
    }
}
