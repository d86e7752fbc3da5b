//! The calls of a scheduler.

use crate::choice::Choice;
use crate::timer::Timer;
use sched_base::{Cores, DomId, Moment, NoMemory, UnitId};
use sched_model::ask::Ask;
use sched_model::config::{DomParams, ParamChange, PoolParams};
use sched_model::event::Event;
use sched_model::facts::Stored;
use sched_model::state::Resource;
use std::alloc::Global;

/// How many domains and cores a machine has: at most 64 of each.
#[derive(Clone, Copy)]
pub struct Places {
    pub domains: u8,
    pub cores: u8,
}

/// A scheduler of one pool. Contracts see its waiting units in order of arrival, the sets of cores of all units and its records,
/// as the machine has them; how many units may still join; and the greatest moment that it was given.
///
/// A unit that was chosen is on, until the core that has it chooses otherwise. All moments are in nanoseconds, each at least the
/// greatest one given before and at most 10^13. No call but `reserve` takes memory.
pub trait Policy: Drop {
    ghost use Rattle.std.specs.Prelude.{◌≡◌, ℕ, ◌≤◌, ◌<◌, ◌-◌, ◌+◌, true, false, OnOk, OnErr, length, None, Some};
    ghost use Rattle.sched_model.specs.Places.{at_place, has_listed_unit};
    ghost use Rattle.sched_model.specs.State.{has_core_bit};
    ghost use Rattle.sched_model.specs.Policy.{decision_of, after_decision, scheduler_with_queued, joined_scheduler, parted_scheduler, changed_scheduler, pool_rate_limit, records_kind, standard_pool_params};
    ghost use Rattle.sched_laws.specs.EachPlace.{EachPlace};
    ghost use Rattle.sched_ops.specs.Seen.{Seen, Tells, vacant_scheduler, restarted_scheduler, scheduler_without_unit, units_of, with_scheduler, seen_at};
    ghost use Rattle.sched_ops.specs.Conditions.{IsNow, IsAsked, IsAway, HasNoneBusy, ArePoolParams, AreDomParams, IsChange, Keeps, is_member, is_vacant, has_joined_domain};
    ghost use Rattle.sched_ops.specs.Timers.{next_scheduler_timer, is_due, timer_event, after_timer};
    ghost use Rattle.sched_ops.specs.WantedCores.{MayAsk, is_core_wanted};
    ghost use Rattle.settle_laws.specs.Wanted.{reads_moment};
    ghost use Rattle.settle_laws.specs.Frees.{may_free};
    ghost use Rattle.sched_ops.specs.Told.{IsInRange};
    ghost use Rattle.sched_model.specs.Policy.{unit_stored};

    /// What callers see.
    ghost seen: { Self → Seen };

    /// Takes the memory for a pool of a machine with these places, of which so many units may join. It has the default
    /// parameters then, and no domain. Where memory is wanted, it is as before.
    fn reserve(&mut self, alloc: Global, places: Places, units: usize) -> Result<(), NoMemory>
        requires domains { places.domains ≤ 64 }
        requires cores { places.cores ≤ 64 }
        requires units { units ≤ 256 }
        requires vacant { is_vacant (seen self.old).scheduler ≡ true }
        ensures scheduler { OnOk result ((seen self.new).scheduler
            ≡ vacant_scheduler (standard_pool_params
            (records_kind (seen self.old).scheduler.records)) places.domains places.cores) }
        ensures room { OnOk result (units ≤ (seen self.new).spare) }
        ensures latest { OnOk result ((seen self.new).latest ≡ (seen self.old).latest) }
        ensures as_before { OnErr result (seen self.new ≡ seen self.old) };

    /// Begins anew with these parameters and fresh records: no reset yet, and a frame, where there is one, installed at 0.
    fn restart(&mut self, params: &PoolParams)
        requires vacant { is_vacant (seen self.old).scheduler ≡ true }
        requires params { ArePoolParams (records_kind (seen self.old).scheduler.records)
            params.now }
        ensures { seen self.new
            ≡ with_scheduler (restarted_scheduler params.now (seen self.old).scheduler)
            (seen self.old) };

    /// The domain joins at t, with so many units, 1 to 32. Its units may have all cores; none of them waits yet.
    fn join(&mut self, d: DomId, units: u8, params: &DomParams, t: Moment)
        requires place { d.0 < length (seen self.old).scheduler.affinity }
        requires absent { at_place (seen self.old).scheduler.affinity d.0 ≡ None }
        requires some { 1 ≤ units }
        requires few { units ≤ 32 }
        requires room { units ≤ (seen self.old).spare }
        requires params { AreDomParams (records_kind (seen self.old).scheduler.records) params.now }
        requires now { IsNow (seen self.old) t.0 }
        ensures scheduler { (seen self.new).scheduler
            ≡ joined_scheduler d.0 units params.now t.0 (seen self.old).scheduler }
        ensures spare { (seen self.new).spare ≡ (seen self.old).spare - units }
        ensures latest { (seen self.new).latest ≡ t.0 };

    /// The domain parts. None of its units waits or is on.
    fn part(&mut self, d: DomId)
        requires joined { has_joined_domain (seen self.old).scheduler d.0 ≡ true }
        requires idle { HasNoneBusy (seen self.old).scheduler d.0 }
        ensures scheduler { (seen self.new).scheduler
            ≡ parted_scheduler d.0 (seen self.old).scheduler }
        ensures spare { (seen self.new).spare
            ≡ (seen self.old).spare + units_of (seen self.old).scheduler d.0 }
        ensures latest { (seen self.new).latest ≡ (seen self.old).latest };

    /// The unit, which neither waits nor is on, waits behind all others.
    fn enqueue(&mut self, u: UnitId)
        requires away { IsAway (seen self.old).scheduler u }
        ensures { seen self.new
            ≡ with_scheduler (scheduler_with_queued u (seen self.old).scheduler) (seen self.old) };

    /// The unit, which waits, waits no more.
    fn dequeue(&mut self, u: UnitId)
        requires waits { has_listed_unit (seen self.old).scheduler.queue u ≡ true }
        ensures { seen self.new
            ≡ with_scheduler (scheduler_without_unit u (seen self.old).scheduler) (seen self.old) };

    /// Decides for a core. The chosen unit is on then and waits no more; the core's own, where it is another, is not on.
    fn choose(&mut self, ask: &Ask) -> Choice
        requires asked { IsAsked (seen self.old) ask.now }
        ensures answer { Tells result (decision_of ask.now (seen self.old).scheduler) }
        ensures after { seen self.new
            ≡ seen_at ask.now.at.0
            (after_decision (decision_of ask.now (seen self.old).scheduler)
            (seen self.old).scheduler) (seen self.old) };

    /// The cores that are to decide anew at t: of the cores at these places each that is neither leaving nor to decide already, and
    /// that has none while a unit waits for it, or whose own unit is not allowed on it, or for which a better one waits. A core's own
    /// unit is on since a moment not after t.
    fn wanted(&self, cores: &[Option<Resource>], t: Moment, home: Cores) -> Cores
        requires now { IsNow (seen self.now) t.0 }
        requires few { length cores.now ≤ 64 }
        requires asks { EachPlace (MayAsk t.0 (seen self.now).scheduler) cores.now }
        ensures { (r : ℕ)
            → has_core_bit result.0 r
            ≡ is_core_wanted t.0 home.0 (seen self.now).scheduler r (at_place cores.now r) };

    /// The same, where without the unit none of them would be to decide anew: one that has just come to wait, or was replenished while it
    /// waits. So this unit alone may make a core decide.
    fn wanted_for(&self, u: UnitId, cores: &[Option<Resource>], t: Moment, home: Cores) -> Cores
        requires now { IsNow (seen self.now) t.0 }
        requires few { length cores.now ≤ 64 }
        requires asks { EachPlace (MayAsk t.0 (seen self.now).scheduler) cores.now }
        requires before { (r : ℕ)
            → is_core_wanted t.0 home.0 (scheduler_without_unit u (seen self.now).scheduler) r
            (at_place cores.now r) ≡ false }
        ensures { (r : ℕ)
            → has_core_bit result.0 r
            ≡ is_core_wanted t.0 home.0 (seen self.now).scheduler r (at_place cores.now r) };

    /// Whether the answer to a core may change with the moment alone. Where it may not, cores that are not wanted at one moment are
    /// not wanted at any other, as long as nothing else changes.
    fn asks_moment(&self) -> bool
        ensures { result ≡ reads_moment (seen self.now).scheduler.records };

    /// Whether a decision of a core that has this unit of its own, and is leaving or not, may free something, so that a core is wanted
    /// then that was not before.
    fn frees(&self, cur: Option<UnitId>, leaving: bool) -> bool
        ensures { result ≡ may_free cur leaving (seen self.now).scheduler.records };

    /// The first timer, by domain and unit, whose moment has come at t; where there is none, the one of the least moment. `None`
    /// where no timer is armed. A replenishment is armed while its unit waits or is on.
    fn timer_due(&self, t: Moment) -> Option<(Moment, Timer)>
        ensures { result ≡ next_scheduler_timer t.0 (seen self.now).scheduler };

    /// Carries out a timer whose moment has come at t, and answers its event.
    fn timer(&mut self, which: Timer, t: Moment) -> Event
        requires now { IsNow (seen self.old) t.0 }
        requires due { is_due t.0 (seen self.old).scheduler which ≡ true }
        ensures event { result ≡ timer_event t.0 (seen self.old).scheduler which }
        ensures after { seen self.new
            ≡ seen_at t.0 (after_timer t.0 (seen self.old).scheduler which) (seen self.old) };

    /// Changes parameters at t. Those of an RTDS unit wait for its next replenishment.
    fn set_params(&mut self, change: &ParamChange, t: Moment)
        requires now { IsNow (seen self.old) t.0 }
        requires change { IsChange (records_kind (seen self.old).scheduler.records)
            (seen self.old).scheduler change.now }
        ensures { seen self.new
            ≡ seen_at t.0 (changed_scheduler change.now t.0 (seen self.old).scheduler)
            (seen self.old) };

    /// The set values of a unit; for RTDS the newest ones.
    fn stored(&self, u: UnitId) -> Stored
        requires member { is_member (seen self.now).scheduler u ≡ true }
        ensures value { unit_stored (seen self.now).scheduler.records u ≡ Some result }
        ensures range { IsInRange result };

    /// The rate limit in microseconds, 0 for a scheduler that has none.
    fn rate(&self) -> u32
        ensures { result ≡ pool_rate_limit (seen self.now).scheduler.records };

    /// Does nothing, and tells what every scheduler keeps: no unit waits twice, those that wait have joined and are not on, no unit is
    /// kept for two cores, and what is left of a charge is below the weight of the unit's domain.
    fn keeps(&self)
        ensures { Keeps (seen self.now) };
}
