//! A place for a pool: what is asked of its pool, and what is done to it alone.

use any_scheduler::AnyPolicy;
use pool_core::pool::PoolState;
use sched_base::{DomId, Moment, ProcId, ResId};
use sched_model::action::{Action, Actor};
use sched_model::facts::Facts;
use sched_model::short::Short;
use std::boxed::Box;
use std::marker::Model;

/// A pool of any scheduler, behind a pointer, so that it is moved at no cost.
pub type AnyPool = Box<PoolState<AnyPolicy>>;

/// A place for a pool of a machine. Contracts see the pool with what its state keeps beside it, or nothing where the place is empty.
///
/// A pool at a place is in use, and has room for all units that a machine may have, 256. All moments are in nanoseconds. No call takes
/// memory.
#[derive(Drop)]
pub struct PoolSlot {
    pub(crate) state: Option<AnyPool>,
}

impl Model for PoolSlot {
    ghost use Rattle.std.specs.Prelude.{Option, option_map};
    ghost use Rattle.std.specs.Option.{ForSome};
    ghost use Rattle.pool_core.specs.Seen.{Seen};
    ghost use Rattle.machine_parts.specs.Rooms.{IsPlaced};

    ghost Value = { Option Seen };

    ghost view = { λ a. option_map (λ b. b.value) a.state };

    ghost invariant = { λ a. ForSome a.state (λ b. IsPlaced b.value) };
}

impl Default for PoolSlot {
    ghost use Rattle.std.specs.Prelude.{◌≡◌, None};

    ghost is_default = { λ a. a ≡ None };

    /// An empty place.
    fn default() -> PoolSlot {
        PoolSlot { state: None }
    }
}

impl PoolSlot {
    ghost use Rattle.std.specs.Prelude.{◌≡◌, ℕ, [], false, not, None, Some, is_some, option_map, map};
    ghost use Rattle.std.specs.Option.{ForSome};
    ghost use Rattle.sched_model.specs.Places.{at_place};
    ghost use Rattle.sched_model.specs.Policy.{pool_rate_limit};
    ghost use Rattle.sched_model.specs.Pool.{enabled_in, pool_processor, settled_pool};
    ghost use Rattle.sched_model.specs.State.{has_core_bit};
    ghost use Rattle.sched_model.specs.declared.action.Action.TheVariants.{DomMoved, Moved};
    ghost use Rattle.pool_laws.specs.ReadyMoments.{ready_in};
    ghost use Rattle.policy_laws.specs.Holds.{Holds};
    ghost use Rattle.pool_laws.specs.Actors.{IsFirstBy};
    ghost use Rattle.pool_laws.specs.FirstEvents.{IsFirstEnabled, IsNextMoment};
    ghost use Rattle.pool_core.specs.Params.{stored_in};
    ghost use Rattle.pool_core.specs.Seen.{IsNow, seen_at, extended_stall_end, with_stall};
    ghost use Rattle.machine_parts.specs.Places.{with_pool};
    ghost use Rattle.machine_parts.specs.Rooms.{IsPlaced};

    /// A place with this pool.
    pub fn of(pool: AnyPool) -> PoolSlot
        requires placed { IsPlaced pool.value }
        ensures { result ≡ Some pool.value }
    {
        PoolSlot { state: Some(pool) }
    }

    /// Whether there is no pool here.
    pub fn is_empty(&self) -> bool
        ensures { result ≡ not (is_some self.now) }
    {
        self.state.is_none()
    }

    /// Does nothing, and tells what every pool at a place keeps: it is in use and has room for all units of a machine, and what every
    /// pool's state keeps.
    pub fn keeps(&self)
        ensures placed { ForSome self.now IsPlaced }
        ensures pool { ForSome self.now (λ seen. Holds seen.granularity seen.latest seen.pool) }
    {
        if let Some(pool) = &self.state {
            pool.keeps();
        }
    }

    /// The first event of the pool that may come at t: by kind, then by number and index. `None` where none may, and where there is no
    /// pool.
    pub fn first_enabled(&self, t: Moment) -> Option<Action>
        ensures pool { ForSome self.now (λ seen.
            IsFirstEnabled seen.granularity t.0 seen.pool result) }
        ensures empty { self.now ≡ None → result ≡ None }
    {
        match &self.state {
            None => None,
            Some(pool) => pool.first_enabled(t),
        }
    }

    /// The first event of the pool by the actor that may come at t: by kind, then by number and index. `None` where none may, and where
    /// there is no pool.
    pub fn enabled_for(&self, actor: Actor, t: Moment) -> Option<Action>
        ensures pool { ForSome self.now (λ seen.
            IsFirstBy seen.granularity t.0 seen.pool actor result) }
        ensures empty { self.now ≡ None → result ≡ None }
    {
        match &self.state {
            None => None,
            Some(pool) => pool.enabled_for(actor, t),
        }
    }

    /// A hint: whose turn it is after this event at t, where a core goes on with its switch.
    pub fn goes_on(&self, done: Action, t: Moment) -> Option<Actor> {
        match &self.state {
            None => None,
            Some(pool) => pool.goes_on(done, t),
        }
    }

    /// A hint: whose turn it is where a core is to begin a switch, and one of them runs nothing.
    pub fn begins(&self) -> Option<Actor> {
        match &self.state {
            None => None,
            Some(pool) => pool.begins(),
        }
    }

    /// The least moment at which an event of the pool may come. `None` where none may ever, while nothing else happens, and where there
    /// is no pool.
    pub fn next_moment(&self) -> Option<Moment>
        ensures pool { ForSome self.now (λ seen. IsNextMoment seen.granularity seen.pool result) }
        ensures empty { self.now ≡ None → result ≡ None }
    {
        match &self.state {
            None => None,
            Some(pool) => pool.next_moment(),
        }
    }

    /// From when on the core may leave the pool. `None` where it may not, while nothing else happens, and where there is no pool.
    pub fn moved_next(&self, r: ResId) -> Option<Moment>
        ensures pool { ForSome self.now (λ seen. result
            ≡ ready_in seen.granularity seen.pool (Moved r)) }
        ensures empty { self.now ≡ None → result ≡ None }
    {
        match &self.state {
            None => None,
            Some(pool) => pool.moved_next(r),
        }
    }

    /// Whether the core may leave the pool at t.
    pub fn moved_ready(&self, r: ResId, t: Moment) -> bool
        ensures pool { ForSome self.now (λ seen. result
            ≡ enabled_in seen.granularity t.0 seen.pool (Moved r)) }
        ensures empty { self.now ≡ None → result ≡ false }
    {
        match &self.state {
            None => false,
            Some(pool) => pool.moved_ready(r, t),
        }
    }

    /// Whether the domain may leave the pool: it is moving, and no core has a unit of it. That does not depend on the moment.
    pub fn dom_ready(&self, d: DomId) -> bool
        ensures pool { ForSome self.now (λ seen. (t : ℕ) → result
            ≡ enabled_in seen.granularity t seen.pool (DomMoved d)) }
        ensures empty { self.now ≡ None → result ≡ false }
    {
        match &self.state {
            None => false,
            Some(pool) => pool.dom_ready(d),
        }
    }

    /// The rate limit in microseconds, 0 where the scheduler has none, and the set values of the units of the domain, where one is
    /// named: in order, at most 32, and none where the domain is not here. 0 and none where there is no pool.
    pub fn facts(&self, d: Option<DomId>) -> Facts
        ensures rate { ForSome self.now (λ seen. result.rate
            ≡ pool_rate_limit seen.pool.scheduler.records) }
        ensures units { ForSome self.now (λ seen. map Some result.units
            ≡ stored_in seen.granularity seen.pool.domains seen.pool.scheduler.records d) }
        ensures empty { self.now ≡ None → (result.rate ≡ 0) × (result.units ≡ []) }
    {
        match &self.state {
            None => Facts {
                rate: 0,
                units: Short::new(),
            },
            Some(pool) => pool.facts(d),
        }
    }

    /// The cores and the domains that the pool has, with bit n for the number n. None where there is no pool.
    pub fn members(&self) -> (u64, u64)
        ensures cores { ForSome self.now (λ seen. (r : ℕ) → has_core_bit result.0 r
            ≡ is_some (at_place seen.pool.resources r)) }
        ensures domains { ForSome self.now (λ seen. (d : ℕ) → has_core_bit result.1 d
            ≡ is_some (at_place seen.pool.domains d)) }
        ensures empty { self.now ≡ None → result ≡ (0, 0) }
    {
        match &self.state {
            None => (0, 0),
            Some(pool) => pool.members(),
        }
    }

    /// The closure alone: each core that is to decide anew at t is pending.
    pub fn settle(&mut self, t: Moment)
        requires now { ForSome self.old (λ seen. IsNow seen t.0) }
        ensures { self.new ≡ option_map (λ seen. seen_at t.0 (settled_pool t.0 seen.pool) seen)
            self.old }
    {
        let Some(pool) = &mut self.state else {
            return;
        };
        pool.settle(t);
    }

    /// A processor is stalled up to this moment, if it is not yet for longer: the end of its stall. The cores are not looked at.
    pub fn stall(&mut self, p: ProcId, until: Moment) -> Moment
        ensures pool { ForSome self.old (λ seen. result
            ≡ extended_stall_end (pool_processor seen.granularity seen.pool p.0) until) }
        ensures empty { self.old ≡ None → result ≡ until }
        ensures after { self.new ≡ with_pool
            (λ seen. with_stall seen.granularity p.0 result seen.pool) self.old }
    {
        let Some(pool) = &mut self.state else {
            return until;
        };
        pool.stall(p, until)
    }
}
