//! Domains that join a pool, pause, go on and part.

ghost use Rattle.std.specs.Prelude.{◌≡◌, ◌≤◌, ◌<◌, ◌+◌, ◌-◌, ◌&&◌, not, true, is_some, ℕ, None, Some, length};
ghost use Rattle.std.specs.Option.{ForSome};
ghost use Rattle.sched_model.specs.declared.state.Resource.{Resource};
ghost use Rattle.sched_model.specs.Places.{at_place, change_each, clear_at, has_listed_unit, numbers_from, put_at, test_at};
ghost use Rattle.sched_model.specs.Policy.{scheduler_without_queued, records_kind};
ghost use Rattle.sched_model.specs.Pool.{is_domain_unit, paused_pool, pool_with_queued_if_off, pool_with_queued_units, pool_with_moving, domain_unit_count, unpaused_pool, pool_with_domain, pool_without_domain};
ghost use Rattle.sched_model.specs.State.{runnable_among};
ghost use Rattle.sched_laws.specs.PoolFacts.{OnePlace};
ghost use Rattle.sched_ops.specs.Seen.{scheduler_without_unit, units_of, with_scheduler};
ghost use Rattle.core_state.specs.Seen.{Seen as CoresSeen, changed_core};
ghost use Rattle.pool_records.specs.Marks.{pending_of};
ghost use Rattle.sched_ops.specs.Conditions.{AreDomParams, HasNoneBusy, IsNow, has_joined_domain};
ghost use Rattle.unit_state.specs.Parts.{IsPart, IsStill};
ghost use Rattle.policy_laws.specs.Holds.{AreOn, HasMembers, Holds};
ghost use Rattle.pool_core.specs.Seen.{pool_of};
ghost use Rattle.pool_core.specs.Domains.{MayQueue};
ghost use Rattle.sched_base.specs.Units.{unit_id};
ghost use Rattle.pool_core.specs.Wakes.{is_held_among, KeepsRoom};

use core_state::CoreState;
use pool_records::cores::is_of_domain;
use pool_records::units::unit_count;
use sched_base::{DomId, Moment, PoolId, ResId, UnitId};
use sched_model::config::DomParams;
use sched_ops::Policy;
use unit_state::{DomPart, Guests};

/// The unit, which does not wait, waits where it is runnable and no core has it.
fn queue_if_off<P: Policy>(guests: &Guests, cores: &CoreState, policy: &mut P, u: UnitId)
    requires may { MayQueue (pool_of guests.now cores.now (P.seen policy.old)) u }
    ensures pool { pool_of guests.now cores.now (P.seen policy.new)
        ≡ pool_with_queued_if_off guests.now.granularity u
        (pool_of guests.now cores.now (P.seen policy.old)) }
    ensures room { KeepsRoom (P.seen policy.old) (P.seen policy.new) }
{
    if guests.runnable(u) && !cores.has_unit(u) {
        policy.enqueue(u);
    }
}

/// The units of the domain with the indices below count, none of which waits, wait in this order, where they are runnable and no
/// core has them.
pub fn queue_units<P: Policy>(
    guests: &Guests,
    cores: &CoreState,
    policy: &mut P,
    d: DomId,
    count: u8,
)
    requires may { (n : ℕ) → n < count → MayQueue (pool_of guests.now cores.now (P.seen policy.old))
        (unit_id d.0 n) }
    ensures pool { pool_of guests.now cores.now (P.seen policy.new)
        ≡ pool_with_queued_units guests.now.granularity d.0 (numbers_from 0 count)
        (pool_of guests.now cores.now (P.seen policy.old)) }
    ensures room { KeepsRoom (P.seen policy.old) (P.seen policy.new) }
{
    for n in 0..count {
        queue_if_off(guests, cores, policy, UnitId { dom: d, n });
    }
}

/// The domain joins the pool at t, with these parameters. Its units wait that are runnable.
pub fn join<P: Policy>(
    guests: &mut Guests,
    cores: &CoreState,
    policy: &mut P,
    part: DomPart,
    params: &DomParams,
    t: Moment,
)
    requires part { IsPart part }
    requires place { part.d.0 < length guests.old.domains }
    requires absent { at_place guests.old.domains part.d.0 ≡ None }
    requires granularity { part.granularity ≡ guests.old.granularity }
    requires room { domain_unit_count part.granularity part.domain ≤ guests.old.spare }
    requires known { guests.old.spare ≤ (P.seen policy.old).spare }
    requires params { AreDomParams (records_kind (P.seen policy.old).scheduler.records) params.now }
    requires now { IsNow (P.seen policy.old) t.0 }
    requires holds { Holds guests.old.granularity t.0
        (pool_of guests.old cores.now (P.seen policy.old)) }
    ensures pool { pool_of guests.new cores.now (P.seen policy.new)
        ≡ pool_with_domain guests.old.granularity t.0 part.d.0 part.domain params.now
        (pool_of guests.old cores.now (P.seen policy.old)) }
    ensures guests { guests.new ≡ record guests.old {
      domains = put_at part.d.0 part.domain guests.old.domains;
      spare = guests.old.spare -
          domain_unit_count part.granularity part.domain;
    } }
    ensures spare { (P.seen policy.new).spare
        ≡ (P.seen policy.old).spare - domain_unit_count part.granularity part.domain }
    ensures latest { (P.seen policy.new).latest ≡ t.0 }
{
    guests.keeps();
    let d = part.d;
    let count = unit_count(part.granularity, &part.domain);
    guests.add(part);
    policy.join(d, count, params, t);
    queue_units(guests, cores, policy, d, count);
}

/// Whether the unit, which waits exactly where it is runnable and no core has it, does so.
fn is_waiting(guests: &Guests, cores: &CoreState, u: UnitId) -> bool
    ensures { result ≡ (runnable_among guests.now.granularity guests.now.domains u
        && not (is_held_among cores.now.resources u)) }
{
    guests.runnable(u) && !cores.has_unit(u)
}

/// The unit, which waits exactly where it is runnable and no core has it, waits no more.
fn dequeue<P: Policy>(guests: &Guests, cores: &CoreState, policy: &mut P, u: UnitId)
    requires waits { has_listed_unit (P.seen policy.old).scheduler.queue u
        ≡ (runnable_among guests.now.granularity guests.now.domains u
        && not (is_held_among cores.now.resources u)) }
    ensures { P.seen policy.new ≡ with_scheduler
        (scheduler_without_unit u (P.seen policy.old).scheduler) (P.seen policy.old) }
{
    if is_waiting(guests, cores, u) {
        policy.dequeue(u);
    }
}

/// None of the domain's units waits any more.
fn dequeue_domain<P: Policy>(guests: &Guests, cores: &CoreState, policy: &mut P, d: DomId)
    requires some { 0 < guests.now.granularity }
    requires one { OnePlace guests.now.granularity
        (pool_of guests.now cores.now (P.seen policy.old)) }
    requires members { HasMembers guests.now.granularity
        (pool_of guests.now cores.now (P.seen policy.old)) }
    ensures { P.seen policy.new ≡ with_scheduler
        (scheduler_without_queued d.0 (P.seen policy.old).scheduler) (P.seen policy.old) }
{
    for n in 0..guests.unit_count(d) {
        dequeue(guests, cores, policy, UnitId { dom: d, n });
    }
}

/// Whether the core's own unit is one of the domain.
pub(crate) fn runs_one_of(cores: &CoreState, d: DomId, r: ResId) -> bool
    ensures { result ≡ test_at cores.now.resources r.0
        (λ (c : Resource). is_domain_unit d.0 c.cur) }
{
    match cores.core(r) {
        None => false,
        Some(c) => is_of_domain(d, c.cur),
    }
}

/// The core is to decide anew where its own unit is one of the domain.
fn mark_core(cores: &mut CoreState, d: DomId, r: ResId)
    ensures { cores.new ≡ changed_core r.0 (pending_of d.0 r.0) cores.old }
{
    if runs_one_of(cores, d, r) {
        cores.set_pending(r);
    }
}

/// The cores whose own unit is one of the domain are to decide anew.
fn mark_cores_of(cores: &mut CoreState, d: DomId)
    ensures { cores.new ≡ record cores.old
        { resources = change_each 0 (pending_of d.0) cores.old.resources } }
{
    for r in 0..cores.places() {
        mark_core(cores, d, ResId(r));
    }
}

/// A domain that is not paused is paused: none of its units waits any more, and the cores that have one as their own are to decide
/// anew.
pub fn pause<P: Policy>(guests: &mut Guests, cores: &mut CoreState, policy: &mut P, d: DomId)
    requires one { OnePlace guests.old.granularity
        (pool_of guests.old cores.old (P.seen policy.old)) }
    requires members { HasMembers guests.old.granularity
        (pool_of guests.old cores.old (P.seen policy.old)) }
    ensures pool { pool_of guests.new cores.new (P.seen policy.new)
        ≡ paused_pool d.0 (pool_of guests.old cores.old (P.seen policy.old)) }
    ensures guests { guests.new ≡ record guests.old { domains = guests.new.domains } }
    ensures cores { cores.new ≡ record cores.old { resources = cores.new.resources } }
    ensures room { KeepsRoom (P.seen policy.old) (P.seen policy.new) }
{
    if !guests.is_paused(d) {
        guests.keeps();
        dequeue_domain(guests, cores, policy, d);
        guests.set_paused(d, true);
        mark_cores_of(cores, d);
    }
}

/// The domain is moving to the pool: none of its units waits any more, and the cores that have one as their own are to decide anew.
pub fn set_moving<P: Policy>(
    guests: &mut Guests,
    cores: &mut CoreState,
    policy: &mut P,
    d: DomId,
    to: PoolId,
)
    requires one { OnePlace guests.old.granularity
        (pool_of guests.old cores.old (P.seen policy.old)) }
    requires members { HasMembers guests.old.granularity
        (pool_of guests.old cores.old (P.seen policy.old)) }
    ensures pool { pool_of guests.new cores.new (P.seen policy.new)
        ≡ pool_with_moving d.0 to.0 (pool_of guests.old cores.old (P.seen policy.old)) }
    ensures guests { guests.new ≡ record guests.old { domains = guests.new.domains } }
    ensures cores { cores.new ≡ record cores.old { resources = cores.new.resources } }
    ensures room { KeepsRoom (P.seen policy.old) (P.seen policy.new) }
{
    guests.keeps();
    dequeue_domain(guests, cores, policy, d);
    guests.set_moving(d, Some(to));
    mark_cores_of(cores, d);
}

/// A domain that is paused is so no longer: its units wait that are runnable and that no core has.
pub fn unpause<P: Policy>(guests: &mut Guests, cores: &CoreState, policy: &mut P, d: DomId)
    requires one { OnePlace guests.old.granularity
        (pool_of guests.old cores.now (P.seen policy.old)) }
    requires members { HasMembers guests.old.granularity
        (pool_of guests.old cores.now (P.seen policy.old)) }
    requires on { AreOn (pool_of guests.old cores.now (P.seen policy.old)) }
    ensures pool { pool_of guests.new cores.now (P.seen policy.new)
        ≡ unpaused_pool guests.old.granularity d.0
        (pool_of guests.old cores.now (P.seen policy.old)) }
    ensures guests { guests.new ≡ record guests.old { domains = guests.new.domains } }
    ensures room { KeepsRoom (P.seen policy.old) (P.seen policy.new) }
{
    if guests.is_paused(d) {
        let count = guests.unit_count(d);
        guests.set_paused(d, false);
        queue_units(guests, cores, policy, d, count);
    }
}

/// The domain parts from the pool. None of its units waits or is on, and none of its vCPUs is started.
pub fn take<P: Policy>(guests: &mut Guests, policy: &mut P, d: DomId) -> DomPart
    requires here { is_some (at_place guests.old.domains d.0) ≡ true }
    requires still { ForSome (at_place guests.old.domains d.0) IsStill }
    requires joined { has_joined_domain (P.seen policy.old).scheduler d.0 ≡ true }
    requires idle { HasNoneBusy (P.seen policy.old).scheduler d.0 }
    ensures pool { (cores : CoresSeen) → pool_of guests.new cores (P.seen policy.new)
        ≡ pool_without_domain d.0 (pool_of guests.old cores (P.seen policy.old)) }
    ensures number { result.d ≡ d }
    ensures granularity { result.granularity ≡ guests.old.granularity }
    ensures domain { at_place guests.old.domains d.0 ≡ Some result.domain }
    ensures part { IsPart result }
    ensures guests { guests.new ≡ record guests.old {
      domains = clear_at d.0 guests.old.domains;
      spare = guests.old.spare + domain_unit_count
          result.granularity result.domain;
    } }
    ensures spare { (P.seen policy.new).spare
        ≡ (P.seen policy.old).spare + units_of (P.seen policy.old).scheduler d.0 }
    ensures latest { (P.seen policy.new).latest ≡ (P.seen policy.old).latest }
{
    policy.part(d);
    guests.take(d)
}
