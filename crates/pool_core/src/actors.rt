//! Which event of one actor comes first. t is the moment.

ghost use Rattle.std.specs.Prelude.{◌≡◌, ◌≢◌, ◌*◌, ◌%◌, ◌&&◌, ℕ, false, not, None, Some};
ghost use Rattle.sched_model.specs.declared.action.Action.TheVariants.{Arrive, Block, Decide, Leave, Save, Slice};
ghost use Rattle.sched_model.specs.declared.action.Actor.TheVariants.{Dom, Proc};
ghost use Rattle.sched_model.specs.Places.{test_at};
ghost use Rattle.sched_model.specs.Pool.{enabled_in, is_held_back};
ghost use Rattle.sched_model.specs.State.{is_not_stalled};
ghost use Rattle.pool_laws.specs.ReadyMoments.{may_gather};
ghost use Rattle.policy_laws.specs.Holds.{AreOn};
ghost use Rattle.unit_state.specs.Seen.{Seen as GuestsSeen};
ghost use Rattle.core_state.specs.Ends.{may_core_part};
ghost use Rattle.core_state.specs.Seen.{Seen as CoresSeen, processor_among};
ghost use Rattle.sched_ops.specs.Seen.{Seen as SchedulerSeen};
ghost use Rattle.pool_core.specs.Events.{TellsMayCome};
ghost use Rattle.pool_core.specs.Order.{IsFirstByIn};
ghost use Rattle.pool_laws.specs.Actors.{IsFirstBy};
ghost use Rattle.pool_core.specs.Seen.{pool_of};

use crate::doing::guest_of;
use crate::due::first_timer;
use core_state::CoreState;
use pool_records::cores::{all_held, any_held, first_up, has_come, is_held, is_open, is_up};
use sched_base::{DomId, Moment, ProcId, ResId, VcpuId};
use sched_model::action::{Action, Actor};
use sched_ops::Policy;
use unit_state::Guests;

/// Whether the processor is there and not stalled.
fn is_up_at(cores: &CoreState, p: ProcId, t: Moment) -> bool
    ensures { result ≡ elim (processor_among cores.now.granularity cores.now.resources p.0)
        [ None ↦ false | Some q ↦ is_not_stalled t.0 q ] }
{
    match cores.processor(p) {
        None => false,
        Some(q) => is_up(t, q),
    }
}

/// Whether the vCPU that the processor runs may block.
fn may_block(guests: &Guests, cores: &CoreState, p: ProcId, t: Moment) -> bool
    requires same { cores.now.granularity ≡ guests.now.granularity }
    ensures { (s : SchedulerSeen) → result
        ≡ enabled_in guests.now.granularity t.0 (pool_of guests.now cores.now s) (Block p) }
{
    match guest_of(cores, p) {
        None => false,
        Some(v) => has_come(t, guests.done_at(v)) && is_up_at(cores, p, t),
    }
}

/// Whether the core's due may come.
fn may_slice(cores: &CoreState, r: ResId, t: Moment) -> bool
    ensures { (g : ℕ) → TellsMayCome g t.0 cores.now (Slice r) result }
{
    match cores.core(r) {
        None => false,
        Some(c) => has_come(t, c.due) && !c.pending && first_up(t, c),
    }
}

/// Whether the core's processors may arrive.
fn gathers(cores: &CoreState, r: ResId) -> bool
    ensures { result ≡ test_at cores.now.resources r.0 may_gather }
{
    match cores.core(r) {
        None => false,
        Some(c) => c.pending && is_open(c) && c.saving.is_none(),
    }
}

/// Whether the processor is there, does not wait for its siblings, and is not stalled.
fn is_free_at(cores: &CoreState, p: ProcId, t: Moment) -> bool
    ensures { result ≡ elim (processor_among cores.now.granularity cores.now.resources p.0)
        [ None ↦ false | Some q ↦ not (is_held_back q) && is_not_stalled t.0 q ] }
{
    match cores.processor(p) {
        None => false,
        Some(q) => !is_held(q) && is_up(t, q),
    }
}

/// Whether the processor may arrive.
fn may_arrive(cores: &CoreState, p: ProcId, t: Moment) -> bool
    ensures { TellsMayCome cores.now.granularity t.0 cores.now (Arrive p) result }
{
    cores.keeps();
    gathers(cores, ResId(p.0 / cores.granularity())) && is_free_at(cores, p, t)
}

/// Whether the core may decide.
fn may_decide(cores: &CoreState, r: ResId, t: Moment) -> bool
    ensures { (g : ℕ) → TellsMayCome g t.0 cores.now (Decide r) result }
{
    match cores.core(r) {
        None => false,
        Some(c) => all_held(c.processors.as_slice()) && is_open(c) && first_up(t, c),
    }
}

/// Whether the core's processors may leave.
fn parts(cores: &CoreState, r: ResId) -> bool
    ensures { result ≡ test_at cores.now.resources r.0 may_core_part }
{
    match cores.core(r) {
        None => false,
        Some(c) => !is_open(c),
    }
}

/// Whether the processor is there, waits for its siblings, and is not stalled.
fn is_held_at(cores: &CoreState, p: ProcId, t: Moment) -> bool
    ensures { result ≡ elim (processor_among cores.now.granularity cores.now.resources p.0)
        [ None ↦ false | Some q ↦ is_held_back q && is_not_stalled t.0 q ] }
{
    match cores.processor(p) {
        None => false,
        Some(q) => is_held(q) && is_up(t, q),
    }
}

/// Whether the processor may leave.
fn may_leave(cores: &CoreState, p: ProcId, t: Moment) -> bool
    ensures { TellsMayCome cores.now.granularity t.0 cores.now (Leave p) result }
{
    cores.keeps();
    parts(cores, ResId(p.0 / cores.granularity())) && is_held_at(cores, p, t)
}

/// Whether the core may put away the unit that it saves.
fn may_save(cores: &CoreState, r: ResId, t: Moment) -> bool
    ensures { (g : ℕ) → TellsMayCome g t.0 cores.now (Save r) result }
{
    match cores.core(r) {
        None => false,
        Some(c) => c.saving.is_some() && !any_held(c.processors.as_slice()) && first_up(t, c),
    }
}

/// The first replenishment or refill that may come, by the first processor p of the core r: the pool's lowest processor does these.
fn timer_by<P: Policy>(
    cores: &CoreState,
    policy: &P,
    r: ResId,
    p: ProcId,
    t: Moment,
) -> Option<Action>
    requires number { p.0 ≡ r.0 * cores.now.granularity }
    ensures { (guests : GuestsSeen) → AreOn (pool_of guests cores.now (P.seen policy.now)) →
        IsFirstByIn 7 9 cores.now.granularity t.0 (pool_of guests cores.now (P.seen policy.now))
        (Proc p) result }
{
    cores.keeps();
    match cores.first() {
        None => None,
        Some(first) => if first == r.0 {
            first_timer(cores, policy, t)
        } else {
            None
        },
    }
}

/// The first event by the first processor p of the core r that may come, of those that come at a moment of their own.
fn leader_due<P: Policy>(
    guests: &Guests,
    cores: &CoreState,
    policy: &P,
    r: ResId,
    p: ProcId,
    t: Moment,
) -> Option<Action>
    requires same { cores.now.granularity ≡ guests.now.granularity }
    requires on { AreOn (pool_of guests.now cores.now (P.seen policy.now)) }
    requires number { p.0 ≡ r.0 * cores.now.granularity }
    ensures { IsFirstByIn 4 9 guests.now.granularity t.0
        (pool_of guests.now cores.now (P.seen policy.now)) (Proc p) result }
{
    cores.keeps();
    if may_block(guests, cores, p, t) {
        return Some(Action::Block(p));
    }
    if may_slice(cores, r, t) {
        return Some(Action::Slice(r));
    }
    timer_by(cores, policy, r, p, t)
}

/// The first event by the first processor p of the core r that may come, of those by which a core decides anew.
fn leader_step(cores: &CoreState, r: ResId, p: ProcId, t: Moment) -> Option<Action>
    requires number { p.0 ≡ r.0 * cores.now.granularity }
    ensures { (guests : GuestsSeen) (s : SchedulerSeen) →
        IsFirstByIn 9 13 cores.now.granularity t.0 (pool_of guests cores.now s) (Proc p) result }
{
    cores.keeps();
    if may_arrive(cores, p, t) {
        return Some(Action::Arrive(p));
    }
    if may_decide(cores, r, t) {
        return Some(Action::Decide(r));
    }
    if may_leave(cores, p, t) {
        return Some(Action::Leave(p));
    }
    if may_save(cores, r, t) {
        return Some(Action::Save(r));
    }
    None
}

/// The first event that may come by a processor that is not the first of its core.
fn first_of_sibling(guests: &Guests, cores: &CoreState, p: ProcId, t: Moment) -> Option<Action>
    requires same { cores.now.granularity ≡ guests.now.granularity }
    requires number { p.0 % cores.now.granularity ≢ 0 }
    ensures { (s : SchedulerSeen) → IsFirstBy guests.now.granularity t.0
        (pool_of guests.now cores.now s) (Proc p) result }
{
    if may_block(guests, cores, p, t) {
        return Some(Action::Block(p));
    }
    if may_arrive(cores, p, t) {
        return Some(Action::Arrive(p));
    }
    if may_leave(cores, p, t) {
        return Some(Action::Leave(p));
    }
    None
}

/// The first event by the processor that may come.
fn first_of_processor<P: Policy>(
    guests: &Guests,
    cores: &CoreState,
    policy: &P,
    p: ProcId,
    t: Moment,
) -> Option<Action>
    requires same { cores.now.granularity ≡ guests.now.granularity }
    requires on { AreOn (pool_of guests.now cores.now (P.seen policy.now)) }
    ensures { IsFirstBy guests.now.granularity t.0
        (pool_of guests.now cores.now (P.seen policy.now)) (Proc p) result }
{
    cores.keeps();
    let g = cores.granularity();
    if p.0 % g != 0 {
        return first_of_sibling(guests, cores, p, t);
    }
    let r = ResId(p.0 / g);
    match leader_due(guests, cores, policy, r, p, t) {
        Some(action) => Some(action),
        None => leader_step(cores, r, p, t),
    }
}

/// The wake of the domain's first vCPU that may wake.
fn first_of_domain(guests: &Guests, d: DomId, t: Moment) -> Option<Action>
    ensures { (cores : CoresSeen) (s : SchedulerSeen) →
        IsFirstBy guests.now.granularity t.0 (pool_of guests.now cores s) (Dom d) result }
{
    guests.keeps();
    for n in 0..32u8 {
        let v = VcpuId { dom: d, n };
        if has_come(t, guests.wakes_at(v)) {
            return Some(Action::Wake(v));
        }
    }
    None
}

/// The first event of the pool by the actor that may come at t, by kind, then by number and index. `None` where none may.
pub fn enabled_for<P: Policy>(
    guests: &Guests,
    cores: &CoreState,
    policy: &P,
    actor: Actor,
    t: Moment,
) -> Option<Action>
    requires same { cores.now.granularity ≡ guests.now.granularity }
    requires on { AreOn (pool_of guests.now cores.now (P.seen policy.now)) }
    ensures { IsFirstBy guests.now.granularity t.0
        (pool_of guests.now cores.now (P.seen policy.now)) actor result }
{
    match actor {
        Actor::Proc(p) => first_of_processor(guests, cores, policy, p, t),
        Actor::Dom(d) => first_of_domain(guests, d, t),
        Actor::Tool => None,
    }
}
