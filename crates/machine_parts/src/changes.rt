//! What the tool changes in the pool of a place: its cores, its domains and its parameters. After each change that is at a moment the
//! cores are looked at, as after an event.

use crate::slot::PoolSlot;
use crate::trail::Trail;
use sched_base::{DomId, Moment, PoolId, ResId};
use sched_model::config::{DomParams, ParamChange};
use sched_model::facts::{ResPart, RtdsGiven};
use unit_state::DomPart;

impl PoolSlot {
    ghost use Rattle.std.specs.Prelude.{◌≡◌, ◌≤◌, ◌<◌, ◌+◌, ◌-◌, true, None, Some, length, option_map};
    ghost use Rattle.std.specs.Option.{ForSome, IsSome};
    ghost use Rattle.sched_model.specs.declared.action.Action.TheVariants.{DomMoved, Moved};
    ghost use Rattle.sched_model.specs.Commands.{pool_with_rtds};
    ghost use Rattle.sched_model.specs.Places.{at_place, numbers_from};
    ghost use Rattle.sched_model.specs.Policy.{records_kind};
    ghost use Rattle.sched_model.specs.Pool.{enabled_in, paused_pool, pool_with_leaving, pool_with_moving, changed_pool, settled_pool, domain_unit_count, unpaused_pool, pool_with_domain, pool_without_domain};
    ghost use Rattle.sched_ops.specs.Conditions.{AreDomParams, IsChange};
    ghost use Rattle.state_ranges.specs.Ranges.{DomainInRange};
    ghost use Rattle.pool_records.specs.Cores.{ends_of};
    ghost use Rattle.unit_state.specs.Parts.{IsPart};
    ghost use Rattle.unit_state.specs.Seen.{units_at};
    ghost use Rattle.pool_core.specs.Params.{AreGiven};
    ghost use Rattle.pool_core.specs.Seen.{IsNow, seen_at, with_core, with_spare, without_core};
    ghost use Rattle.machine_parts.specs.Places.{GoesOn, StandsAt, state_of, with_pool};

    /// A core comes into the pool. Its processors are stalled up to these moments, and it is to decide.
    pub fn attach(&mut self, core: &ResPart, t: Moment)
        requires now { ForSome self.old (λ seen. IsNow seen t.0) }
        requires place { ForSome self.old (λ seen. core.now.r.0 < length seen.pool.resources) }
        requires absent { ForSome self.old (λ seen. at_place seen.pool.resources core.now.r.0
            ≡ None) }
        requires siblings { ForSome self.old (λ seen. length core.now.stall_ends
            ≡ seen.granularity) }
        ensures { self.new ≡ option_map (λ seen.
            seen_at t.0 (settled_pool t.0 (with_core core.now.r.0 core.now.stall_ends seen.pool))
            seen)
            self.old }
    {
        let Some(pool) = &mut self.state else {
            return;
        };
        pool.attach(core, t);
    }

    /// A core that is leaving, and whose part in this is done, goes out: its number and the ends of its processors' stalls.
    pub fn detach(&mut self, r: ResId, t: Moment) -> ResPart
        requires some { IsSome self.old }
        requires now { ForSome self.old (λ seen. IsNow seen t.0) }
        requires ready { ForSome self.old
            (λ seen. enabled_in seen.granularity t.0 seen.pool (Moved r) ≡ true) }
        ensures number { result.r ≡ r }
        ensures ends { ForSome self.old (λ seen.
            option_map ends_of (at_place seen.pool.resources r.0) ≡ Some result.stall_ends) }
        ensures after { self.new ≡ option_map
            (λ seen. seen_at t.0 (settled_pool t.0 (without_core r.0 seen.pool)) seen) self.old }
    {
        let Some(pool) = &mut self.state else {
            unreachable!();
        };
        pool.detach(r, t)
    }

    /// The parameters of the scheduler, or of a domain or a unit of it, change. The cores that this concerns are to decide anew.
    pub fn set_params(&mut self, change: &ParamChange, t: Moment)
        requires now { ForSome self.old (λ seen. IsNow seen t.0) }
        requires change { ForSome self.old
            (λ seen. IsChange (records_kind seen.pool.scheduler.records) seen.pool.scheduler
            change.now) }
        ensures { self.new ≡ option_map (λ seen.
            seen_at t.0 (settled_pool t.0 (changed_pool change.now t.0 seen.pool)) seen)
            self.old }
    {
        let Some(pool) = &mut self.state else {
            return;
        };
        pool.set_params(change, t);
    }

    /// So many units of the domain, from the unit first on, get new RTDS parameters; what is not given stays as it was set. They are
    /// in force from a unit's next replenishment on. Where the scheduler is another, nothing changes but by the look at the cores.
    pub fn set_units(&mut self, d: DomId, first: u8, count: u8, given: RtdsGiven, t: Moment)
        requires now { ForSome self.old (λ seen. IsNow seen t.0) }
        requires units { ForSome self.old
            (λ seen. first + count ≤ units_at seen.granularity (at_place seen.pool.domains d.0)) }
        requires given { 0 < count → AreGiven given.period given.budget }
        ensures { self.new ≡ option_map (λ seen.
            seen_at t.0 (settled_pool t.0 (pool_with_rtds t.0 d.0 given.period given.budget
            given.extra (numbers_from first count) seen.pool)) seen) self.old }
    {
        let Some(pool) = &mut self.state else {
            return;
        };
        pool.set_units(d, first, count, given, t);
    }

    /// A core is leaving; it is to decide where it has a unit. The cores are not looked at.
    pub fn set_leaving(&mut self, r: ResId)
        ensures { self.new ≡ with_pool (λ seen. pool_with_leaving r.0 seen.pool) self.old }
    {
        let Some(pool) = &mut self.state else {
            return;
        };
        pool.set_leaving(r);
    }

    /// A domain is paused: its units stop waiting, and the cores that run one are to decide anew.
    pub fn pause(&mut self, d: DomId, t: Moment)
        requires now { ForSome self.old (λ seen. IsNow seen t.0) }
        ensures { self.new ≡ option_map (λ seen.
            seen_at t.0 (settled_pool t.0 (paused_pool d.0 seen.pool)) seen) self.old }
    {
        let Some(pool) = &mut self.state else {
            return;
        };
        pool.pause(d, t);
    }

    /// A domain goes on: its units that are runnable wait.
    pub fn unpause(&mut self, d: DomId, t: Moment)
        requires now { ForSome self.old (λ seen. IsNow seen t.0) }
        ensures { self.new ≡ option_map (λ seen.
            seen_at t.0 (settled_pool t.0 (unpaused_pool seen.granularity d.0 seen.pool)) seen)
            self.old }
    {
        let Some(pool) = &mut self.state else {
            return;
        };
        pool.unpause(d, t);
    }

    /// A domain is moving to a pool: its units stop waiting, and the cores that run one are to decide anew.
    pub fn set_moving(&mut self, d: DomId, to: PoolId, t: Moment)
        requires now { ForSome self.old (λ seen. IsNow seen t.0) }
        ensures { self.new ≡ option_map (λ seen.
            seen_at t.0 (settled_pool t.0 (pool_with_moving d.0 to.0 seen.pool)) seen) self.old }
    {
        let Some(pool) = &mut self.state else {
            return;
        };
        pool.set_moving(d, to, t);
    }

    /// A domain that is moving, and no unit of which a core has, goes out. The cores are not looked at.
    pub fn take_domain(&mut self, d: DomId) -> DomPart
        requires some { IsSome self.old }
        requires ready { ForSome self.old
            (λ seen. enabled_in seen.granularity seen.latest seen.pool (DomMoved d) ≡ true) }
        ensures number { result.d ≡ d }
        ensures granularity { ForSome self.old (λ seen. result.granularity ≡ seen.granularity) }
        ensures domain { ForSome self.old (λ seen. at_place seen.pool.domains d.0
            ≡ Some result.domain) }
        ensures part { IsPart result }
        ensures after { self.new ≡ option_map
            (λ seen. with_spare (seen.spare + domain_unit_count result.granularity result.domain)
            (record seen { pool = pool_without_domain d.0 seen.pool })) self.old }
    {
        let Some(pool) = &mut self.state else {
            unreachable!();
        };
        pool.take_domain(d)
    }

    /// A domain of the machine, none of whose vCPUs is started, comes into the pool that is this part, with these parameters. Its units
    /// that are runnable wait. There is room for them, since the pool has room for all units of the machine.
    pub fn give_domain(
        &mut self,
        trail: &Trail,
        place: u8,
        part: DomPart,
        params: &DomParams,
        t: Moment,
    )
        requires goes { GoesOn trail.now }
        requires stands { StandsAt trail.now place self.old }
        requires some { IsSome self.old }
        requires now { t.0 ≡ (state_of trail.now).now }
        requires part { IsPart part }
        requires stays { part.domain.moving ≡ None }
        requires domain { DomainInRange trail.now.input (state_of trail.now).now part.d.0
            part.domain }
        requires granularity { part.granularity ≡ trail.now.input.config.granularity }
        requires absent { ForSome self.old (λ seen. at_place seen.pool.domains part.d.0 ≡ None) }
        requires params { ForSome self.old
            (λ seen. AreDomParams (records_kind seen.pool.scheduler.records) params.now) }
        ensures { self.new ≡ option_map (λ seen.
            with_spare (seen.spare - domain_unit_count part.granularity part.domain)
            (seen_at t.0 (settled_pool t.0 (pool_with_domain seen.granularity t.0 part.d.0
            part.domain params.now seen.pool)) seen)) self.old }
    {
        let Some(pool) = &mut self.state else {
            unreachable!();
        };
        pool.give_domain(part, params, t);
    }
}
