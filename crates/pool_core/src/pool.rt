//! One pool.
//!
//! *Design.* A pool joins its vCPUs (`Guests`), its cores (`CoreState`) and a scheduler behind `Policy`. A core runs one unit at a time, a
//! vCPU on each of its processors. To change its unit it becomes pending; its processors arrive, one by one, and wait; when all have, it
//! decides, that is, it asks the scheduler; then its processors leave, one by one, and each runs the vCPU at its place in the chosen unit,
//! if that is awake; when all have left, the core saves the unit that it had before, if it had another one, and that waits again if it is
//! runnable. Each of these steps is an event of its own, and so are a vCPU that wakes or blocks, a core whose slice ends, and the timers of
//! the scheduler. Each call answers the event with its printed fields, and leaves the pool that the definitions say.
//!
//! *Settling.* After each event the scheduler is asked once which of the cores that are not leaving have to decide again (`wanted`): those
//! that idle while a unit waits for them, whose unit may not be there, or for which a better unit waits. These become pending. A mark says
//! that this was done, and that nothing changed since on which it depends. Then an event that concerns no waiting unit leaves nothing to
//! look at, and after one by which a unit came to wait that unit alone is compared (`wanted_for`). Time alone takes the mark away only
//! where the scheduler's answers depend on it.
//!
//! *Queue scheme.* The queue of waiting units is the scheduler's. Whether a unit waits is asked of no queue: a unit waits exactly where it
//! is runnable and no core has it as its own or saves it. From when on each event may come is kept in sets and heaps of moments, by core,
//! processor, vCPU and timer, so the first event and the next moment are read and not searched.
//!
//! *Locking.* There is none here: a pool is the part of the machine that one schedule lock guards. `engine` owns 16 of them, and `hall`
//! puts each under its lock. Only `room` takes memory.
//!
//! *Ordering.* Of the events that may come at one moment the first is the least by kind, then by number of the core, processor or domain,
//! then by index. Moments never fall from call to call.

use crate::actors::enabled_for;
use crate::domains::{join, pause, set_moving, take, unpause};
use crate::due::{first_enabled, next_moment};
use crate::events::act;
use crate::params::{facts, part_of, set_params};
use crate::settling::{Mark, settle};
use crate::timed::Timed;
use crate::turns::{Visits, begins, goes_on};
use crate::units::set_units;
use core_state::CoreState;
use pool_records::cores::has_come;
use pool_records::leaving::fresh_core;
use sched_base::{DomId, Moment, NoMemory, PoolId, ProcId, ResId, UnitId};
use sched_model::action::{Action, Actor};
use sched_model::config::{DomParams, ParamChange, PoolParams};
use sched_model::event::Event;
use sched_model::facts::{Facts, ResPart, RtdsGiven};
use sched_ops::{Places, Policy};
use std::alloc::Global;
use std::marker::Model;
use unit_state::{DomPart, Guests};

/// A pool: its domains, its cores and its scheduler. Contracts see the pool as the machine has it, how many processors a core has, how
/// many units may still join, the greatest moment that was given, and whether the pool is in use.
///
/// All moments are in nanoseconds, each at least the greatest one given before and at most 10^13. No call but `room` takes memory.
#[derive(Drop)]
pub struct PoolState<P: Policy> {
    guests: Guests,
    cores: CoreState,
    policy: Timed<P>,
    mark: Mark,
    in_use: bool,
    /// A hint, of which contracts see nothing.
    visits: Visits,
}

impl<P: Policy> Model for PoolState<P> {
    ghost use Rattle.pool_core.specs.Seen.{Seen, pool_of};

    ghost Value = { Seen };

    ghost use Rattle.pool_core.specs.PoolState.{IsAtRest};

    ghost view = { λ a. record {
      pool = pool_of a.guests a.cores a.policy;
      granularity = a.guests.granularity;
      spare = a.guests.spare;
      latest = a.mark.latest.0;
      in_use = a.in_use;
    } };

    ghost invariant = { λ a. IsAtRest a.mark a.guests a.cores a.policy };
}

impl<P: Policy> PoolState<P> {
    ghost use Rattle.std.specs.Prelude.{◌≡◌, ℕ, ◌≤◌, ◌<◌, ◌+◌, ◌-◌, ◌*◌, true, false, is_some, IfOk, None, Some, length, map, option_map};
    ghost use Rattle.sched_model.specs.CheckedMachine.{IsGranularity};
    ghost use Rattle.sched_model.specs.State.{has_core_bit};
    ghost use Rattle.sched_model.specs.Commands.{pool_with_rtds};
    ghost use Rattle.sched_model.specs.Places.{at_place, numbers_from};
    ghost use Rattle.sched_model.specs.Policy.{standard_pool_params, records_kind, pool_rate_limit};
    ghost use Rattle.sched_ops.specs.Conditions.{AreDomParams, ArePoolParams, IsChange, is_vacant};
    ghost use Rattle.sched_ops.specs.Seen.{restarted_scheduler};
    ghost use Rattle.core_state.specs.Seen.{extended_stall_end};
    ghost use Rattle.pool_records.specs.Cores.{ends_of};
    ghost use Rattle.pool_laws.specs.ReadyMoments.{ready_in};
    ghost use Rattle.pool_laws.specs.CoreLooks.{IsSettled};
    ghost use Rattle.policy_laws.specs.Holds.{Holds};
    ghost use Rattle.sched_model.specs.Actions.{IsOfPool};
    ghost use Rattle.pool_core.specs.Params.{AreGiven, stored_in};
    ghost use Rattle.unit_state.specs.Parts.{IsPart};
    ghost use Rattle.unit_state.specs.Seen.{units_at};
    ghost use Rattle.pool_laws.specs.Actors.{IsFirstBy};
    ghost use Rattle.pool_laws.specs.FirstEvents.{IsFirstEnabled, IsNextMoment};
    ghost use Rattle.sched_model.specs.declared.action.Action.TheVariants.{DomMoved, Moved};
    ghost use Rattle.sched_model.specs.Pool.{enabled_in, event_in, paused_pool, pool_processor, pool_with_leaving, pool_with_moving, changed_pool, settled_pool, domain_unit_count, unpaused_pool, pool_with_domain, pool_without_domain};
    ghost use Rattle.pool_core.specs.CoreLooks.{pool_but};
    ghost use Rattle.pool_core.specs.Seen.{IsEmpty, IsNow, seen_after, seen_at, vacant_pool, with_core, with_spare, with_stall, without_core};

    /// A pool with so many places for domains and for cores of 1, 2 or 4 processors each, at most 64 domains and 64 processors, and room
    /// for so many units, at most 256. It is not in use. Its scheduler, which has no domain, takes its default parameters.
    pub fn room(
        alloc: Global,
        granularity: u8,
        places: Places,
        units: usize,
        policy: P,
    ) -> Result<PoolState<P>, NoMemory>
        requires granularity { IsGranularity granularity }
        requires domains { places.domains ≤ 64 }
        requires cores { places.cores * granularity ≤ 64 }
        requires units { units ≤ 256 }
        requires vacant { is_vacant (P.seen policy).scheduler ≡ true }
        requires early { (P.seen policy).latest ≡ 0 }
        ensures { IfOk result (λ pool. pool
            ≡ vacant_pool (standard_pool_params (records_kind (P.seen policy).scheduler.records))
            granularity
            places.domains places.cores units) }
    {
        let mut policy = policy;
        policy.reserve(alloc, places, units)?;
        let guests = Guests::room(alloc, granularity, places.domains, units)?;
        let cores = CoreState::room(alloc, granularity, places.cores)?;
        Ok(PoolState {
            guests,
            cores,
            policy: Timed::of(policy),
            mark: Mark::unsettled(Moment(0)),
            in_use: false,
            visits: Visits::none(),
        })
    }

    /// A pool that is not in use, and has neither a domain nor a core, begins anew with these parameters, and is in use.
    pub fn open(&mut self, params: &PoolParams)
        requires unused { self.old.in_use ≡ false }
        requires empty { IsEmpty self.old.pool }
        requires params { ArePoolParams (records_kind self.old.pool.scheduler.records) params.now }
        ensures { self.new ≡ record self.old {
          pool = record self.old.pool {
            scheduler = restarted_scheduler params.now self.old.pool.scheduler;
          };
          in_use = true;
        } }
    {
        self.mark.settled = false;
        self.policy.restart(params);
        self.in_use = true;
    }

    /// A pool that is in use, and has neither a domain nor a core any more, is in use no longer. Its memory stays, and it may be opened
    /// anew.
    pub fn shut(&mut self)
        requires used { self.old.in_use ≡ true }
        requires empty { IsEmpty self.old.pool }
        ensures { self.new ≡ record self.old { in_use = false } }
    {
        self.in_use = false;
    }

    /// Whether the pool is in use: opened, and not shut since.
    pub fn in_use(&self) -> bool
        ensures { result ≡ self.now.in_use }
    {
        self.in_use
    }

    /// A core comes into a pool that is in use. Its processors are stalled up to these moments, and it is to decide.
    pub fn attach(&mut self, core: &ResPart, t: Moment)
        requires used { self.old.in_use ≡ true }
        requires now { IsNow self.old t.0 }
        requires place { core.now.r.0 < length self.old.pool.resources }
        requires absent { at_place self.old.pool.resources core.now.r.0 ≡ None }
        requires siblings { length core.now.stall_ends ≡ self.old.granularity }
        ensures { self.new ≡ seen_at t.0
            (settled_pool t.0 (with_core core.now.r.0 core.now.stall_ends self.old.pool)) self.old }
    {
        self.cores.keeps();
        self.cores.put(core.r, fresh_core(&core.stall_ends));
        self.mark = Mark::unsettled(t);
        self.look(false, None);
    }

    /// A core that is leaving, and whose part in this is done, goes out: its number and the ends of its processors' stalls.
    pub fn detach(&mut self, r: ResId, t: Moment) -> ResPart
        requires now { IsNow self.old t.0 }
        requires ready { enabled_in self.old.granularity t.0 self.old.pool (Moved r) ≡ true }
        ensures number { result.r ≡ r }
        ensures ends { option_map ends_of (at_place self.old.pool.resources r.0)
            ≡ Some result.stall_ends }
        ensures after { self.new ≡ seen_at t.0 (settled_pool t.0 (without_core r.0 self.old.pool))
            self.old }
    {
        let Some(core) = self.cores.take(r) else {
            unreachable!();
        };
        let part = part_of(r, &core);
        self.mark = Mark::unsettled(t);
        self.look(false, None);
        part
    }

    /// The parameters of the scheduler, or of a domain or a unit of it, change. The cores that this concerns are to decide anew.
    pub fn set_params(&mut self, change: &ParamChange, t: Moment)
        requires now { IsNow self.old t.0 }
        requires change { IsChange (records_kind self.old.pool.scheduler.records)
            self.old.pool.scheduler change.now }
        ensures { self.new ≡ seen_at t.0
            (settled_pool t.0 (changed_pool change.now t.0 self.old.pool)) self.old }
    {
        set_params(&self.guests, &mut self.cores, &mut self.policy, change, t);
        self.mark = Mark::unsettled(t);
        self.look(false, None);
    }

    /// So many units of the domain, from the unit first on, get new RTDS parameters; what is not given stays as it was set. They are
    /// in force from a unit's next replenishment on. Where the scheduler is another, nothing changes but by the look at the cores.
    pub fn set_units(&mut self, d: DomId, first: u8, count: u8, given: RtdsGiven, t: Moment)
        requires now { IsNow self.old t.0 }
        requires units { first + count ≤ units_at self.old.granularity
            (at_place self.old.pool.domains d.0) }
        requires given { 0 < count → AreGiven given.period given.budget }
        ensures { self.new ≡ seen_at t.0
            (settled_pool t.0 (pool_with_rtds t.0 d.0 given.period given.budget given.extra
            (numbers_from first count) self.old.pool)) self.old }
    {
        self.guests.keeps();
        set_units(&mut self.policy, d, first, count, given, t);
        self.mark = Mark::unsettled(t);
        self.look(false, None);
    }

    /// The rate limit in microseconds, 0 where the scheduler has none, and the set values of the units of the domain, where one is
    /// named: in order, at most 32, and none where the domain is not here.
    pub fn facts(&self, d: Option<DomId>) -> Facts
        ensures rate { result.rate ≡ pool_rate_limit self.now.pool.scheduler.records }
        ensures units { map Some result.units ≡ stored_in self.now.granularity self.now.pool.domains
            self.now.pool.scheduler.records d }
    {
        facts(&self.guests, &self.policy, d)
    }

    /// The cores and the domains that are here: core r is bit r of the first number, domain d is bit d of the second.
    #[tactic(auto, using(sched_laws::proofs::HomeCores::home_has))]
    pub fn members(&self) -> (u64, u64)
        ensures cores { (r : ℕ) → has_core_bit result.0 r
            ≡ is_some (at_place self.now.pool.resources r) }
        ensures domains { (d : ℕ) → has_core_bit result.1 d
            ≡ is_some (at_place self.now.pool.domains d) }
    {
        (self.cores.home().0, self.guests.members())
    }

    /// A domain, none of whose vCPUs is started, comes into a pool that is in use, with these parameters. Its units that are runnable
    /// wait.
    pub fn give_domain(&mut self, part: DomPart, params: &DomParams, t: Moment)
        requires used { self.old.in_use ≡ true }
        requires now { IsNow self.old t.0 }
        requires part { IsPart part }
        requires stays { part.domain.moving ≡ None }
        requires place { part.d.0 < length self.old.pool.domains }
        requires absent { at_place self.old.pool.domains part.d.0 ≡ None }
        requires granularity { part.granularity ≡ self.old.granularity }
        requires room { domain_unit_count part.granularity part.domain ≤ self.old.spare }
        requires params { AreDomParams (records_kind self.old.pool.scheduler.records) params.now }
        ensures { self.new ≡ with_spare (self.old.spare - domain_unit_count part.granularity
            part.domain) (seen_at t.0 (settled_pool t.0
            (pool_with_domain self.old.granularity t.0 part.d.0 part.domain
            params.now self.old.pool)) self.old) }
    {
        join(
            &mut self.guests,
            &self.cores,
            &mut self.policy,
            part,
            params,
            t,
        );
        self.mark = Mark::unsettled(t);
        self.look(false, None);
    }

    /// A domain that is moving, and no unit of which a core has, goes out.
    pub fn take_domain(&mut self, d: DomId) -> DomPart
        requires ready { enabled_in self.old.granularity self.old.latest self.old.pool (DomMoved d)
            ≡ true }
        ensures number { result.d ≡ d }
        ensures granularity { result.granularity ≡ self.old.granularity }
        ensures domain { at_place self.old.pool.domains d.0 ≡ Some result.domain }
        ensures part { IsPart result }
        ensures after { self.new ≡ with_spare
            (self.old.spare + domain_unit_count result.granularity result.domain)
            (record self.old { pool = pool_without_domain d.0 self.old.pool }) }
    {
        self.mark.settled = false;
        take(&mut self.guests, &mut self.policy, d)
    }

    /// A core is leaving; it is to decide where it has a unit.
    pub fn set_leaving(&mut self, r: ResId)
        ensures { self.new ≡ record self.old { pool = pool_with_leaving r.0 self.old.pool } }
    {
        self.mark.settled = false;
        self.cores.set_leaving(r);
    }

    /// A processor is stalled up to this moment, if it is not yet for longer: the end of its stall.
    pub fn stall(&mut self, p: ProcId, until: Moment) -> Moment
        ensures end { result ≡ extended_stall_end
            (pool_processor self.old.granularity self.old.pool p.0) until }
        ensures after { self.new ≡ record self.old
            { pool = with_stall self.old.granularity p.0 result self.old.pool } }
    {
        self.mark.settled = false;
        self.cores.stall(p, until)
    }

    /// The end of every call that changes the pool: the cores are looked at, at the greatest moment given. Where the pool is settled, but
    /// for the unit that came to wait, that unit alone is compared, and nothing where none came.
    #[inline(always)]
    fn look(&mut self, settled: bool, came: Option<UnitId>)
        requires { settled ≡ true → IsSettled self.old.latest (pool_but came self.old.pool) }
        ensures { self.new ≡ seen_at self.old.latest (settled_pool self.old.latest self.old.pool)
            self.old }
    {
        let t = self.mark.latest;
        settle(&mut self.cores, &self.policy, settled, came, t);
        self.mark.settled = true;
    }

    /// From now on what has come at t is at hand.
    fn tell(&mut self, t: Moment)
        ensures { self.new ≡ self.old }
    {
        self.cores.advance(t);
    }

    /// Which unit a core that decided has now.
    fn remember(&mut self, action: Action, t: Moment)
        ensures { self.new ≡ self.old }
    {
        if let Action::Decide(r) = action {
            self.visits.note(&self.cores, r, t);
        }
    }

    /// The closure alone: each core that is to decide anew at t is pending.
    pub fn settle(&mut self, t: Moment)
        requires now { IsNow self.old t.0 }
        ensures { self.new ≡ seen_at t.0 (settled_pool t.0 self.old.pool) self.old }
    {
        self.tell(t);
        let settled = self.mark.is_settled(&self.policy, t);
        self.mark = Mark::unsettled(t);
        self.look(settled, None);
    }

    /// The first event of the pool that may come at t: by kind, then by number and index. `None` where none may.
    pub fn first_enabled(&self, t: Moment) -> Option<Action>
        ensures { IsFirstEnabled self.now.granularity t.0 self.now.pool result }
    {
        first_enabled(&self.guests, &self.cores, &self.policy, t)
    }

    /// The first event of the pool by the actor that may come at t: by kind, then by number and index. `None` where none may.
    pub fn enabled_for(&self, actor: Actor, t: Moment) -> Option<Action>
        ensures { IsFirstBy self.now.granularity t.0 self.now.pool actor result }
    {
        enabled_for(&self.guests, &self.cores, &self.policy, actor, t)
    }

    /// A hint: whose turn it is after this event at t, where a core goes on with its switch.
    pub fn goes_on(&self, done: Action, t: Moment) -> Option<Actor> {
        goes_on(&self.cores, done, t)
    }

    /// A hint: whose turn it is where a core is to begin a switch, and one of them runs nothing.
    pub fn begins(&self) -> Option<Actor> {
        begins(&self.visits, &self.guests, &self.cores)
    }

    /// The least moment at which an event of the pool may come. `None` where none may ever, while nothing else happens.
    pub fn next_moment(&self) -> Option<Moment>
        ensures { IsNextMoment self.now.granularity self.now.pool result }
    {
        next_moment(&self.guests, &self.cores, &self.policy)
    }

    /// From when on the core may leave the pool. `None` where it may not, while nothing else happens.
    pub fn moved_next(&self, r: ResId) -> Option<Moment>
        ensures { result ≡ ready_in self.now.granularity self.now.pool (Moved r) }
    {
        self.cores.move_end(r)
    }

    /// Whether the core may leave the pool at t.
    pub fn moved_ready(&self, r: ResId, t: Moment) -> bool
        ensures { result ≡ enabled_in self.now.granularity t.0 self.now.pool (Moved r) }
    {
        has_come(t, self.cores.move_end(r))
    }

    /// Whether the domain may leave the pool: it is moving, and no core has a unit of it. That does not depend on the moment.
    pub fn dom_ready(&self, d: DomId) -> bool
        ensures { (t : ℕ) → result ≡ enabled_in self.now.granularity t self.now.pool (DomMoved d) }
    {
        self.guests.moving(d).is_some() && !self.cores.has_domain(d)
    }

    /// Does nothing, and tells what every pool keeps: each unit in one place, siblings of one unit, records of all units, a core's own
    /// unit on in the records and no other, a started vCPU on a processor.
    pub fn keeps(&self)
        ensures { Holds self.now.granularity self.now.latest self.now.pool }
    {
        let _ = &self.mark;
    }

    /// An event of the pool that may come at t.
    pub fn perform(&mut self, action: Action, t: Moment) -> Event
        requires now { IsNow self.old t.0 }
        requires own { IsOfPool action }
        requires enabled { enabled_in self.old.granularity t.0 self.old.pool action ≡ true }
        ensures event { result ≡ event_in self.old.granularity t.0 self.old.pool action }
        ensures after { self.new ≡ seen_after t.0 action self.old }
    {
        let mut event = Event::Finish;
        self.perform_into(action, t, &mut event);
        event
    }

    /// The same, and the event is written in its place.
    pub fn perform_into(&mut self, action: Action, t: Moment, out: &mut Event)
        requires now { IsNow self.old t.0 }
        requires own { IsOfPool action }
        requires enabled { enabled_in self.old.granularity t.0 self.old.pool action ≡ true }
        ensures event { out.new ≡ event_in self.old.granularity t.0 self.old.pool action }
        ensures after { self.new ≡ seen_after t.0 action self.old }
    {
        self.tell(t);
        let settled = self.mark.is_settled(&self.policy, t);
        let outcome = act(
            &mut self.guests,
            &mut self.cores,
            &mut self.policy,
            action,
            t,
            out,
        );
        self.mark = Mark::unsettled(t);
        self.look(settled & outcome.spares, outcome.came);
        self.remember(action, t);
    }

    /// A domain is paused: its units stop waiting, and the cores that run one are to decide anew. Where it is not here or paused
    /// already, nothing changes but by the look at the cores.
    pub fn pause(&mut self, d: DomId, t: Moment)
        requires now { IsNow self.old t.0 }
        ensures { self.new
            ≡ seen_at t.0 (settled_pool t.0 (paused_pool d.0 self.old.pool)) self.old }
    {
        pause(&mut self.guests, &mut self.cores, &mut self.policy, d);
        self.mark = Mark::unsettled(t);
        self.look(false, None);
    }

    /// A domain goes on: its units that are runnable wait. Where it is not here or not paused, nothing changes but by the look at
    /// the cores.
    pub fn unpause(&mut self, d: DomId, t: Moment)
        requires now { IsNow self.old t.0 }
        ensures { self.new ≡ seen_at t.0
            (settled_pool t.0 (unpaused_pool self.old.granularity d.0 self.old.pool)) self.old }
    {
        unpause(&mut self.guests, &self.cores, &mut self.policy, d);
        self.mark = Mark::unsettled(t);
        self.look(false, None);
    }

    /// A domain is moving to a pool: its units stop waiting, and the cores that run one are to decide anew.
    pub fn set_moving(&mut self, d: DomId, to: PoolId, t: Moment)
        requires now { IsNow self.old t.0 }
        ensures { self.new ≡ seen_at t.0 (settled_pool t.0
            (pool_with_moving d.0 to.0 self.old.pool)) self.old }
    {
        set_moving(&mut self.guests, &mut self.cores, &mut self.policy, d, to);
        self.mark = Mark::unsettled(t);
        self.look(false, None);
    }
}
