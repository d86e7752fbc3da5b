//! An RTDS scheduler that has its memory.

ghost use Rattle.sched_model.specs.CheckedMachine.{most_span};
ghost use Rattle.std.specs.Prelude.{◌≡◌, ◌≤◌, ◌<◌, IfOk, replicate, None, true};
ghost use Rattle.std.specs.Option.{IfSome};
ghost use Rattle.sched_model.specs.Places.{at_place};
ghost use Rattle.rtds_queue.specs.Lists.{empty_lists, holds};
ghost use Rattle.unit_places.specs.Places.{unit_index};
ghost use Rattle.rtds_core.specs.RtdsParts.{size, renewed_if, rearmed_dues};
ghost use Rattle.rtds_core.specs.WantedCores.{is_ready};

use crate::alarms::Alarms;
use crate::best::{due_of, key_of, pick, switch};
use crate::masks::set_masks;
use crate::records::join_records;
use crate::wanted::{Ahead, open_cores, outrun_by, stands_behind, wanted};
use rtds_queue::RtdsQueues;
use sched_base::{Cores, DomId, Moment, NoMemory, Span, UnitId};
use sched_model::ask::Ask;
use sched_model::config::{DomParams, ParamChange, Pins};
use sched_model::event::Event;
use sched_model::facts::Stored;
use sched_model::places::{item_at, set_place};
use sched_model::row::{Row, empty_places};
use sched_model::short::copies;
use sched_model::state::{Resource, RtdsUnit, RtdsUnits};
use sched_ops::{Choice, Places, Timer};
use scheduler_records::pins::pin;
use scheduler_records::rtds::{
    budget_left, burn_cur, replenish, replenishment, rtds_unit, set_next,
};
use std::alloc::Global;
use std::marker::Model;
use unit_places::Masks;

/// The scheduler's parts: the units' records and their sets of cores, the waiting ones in queues, the sets once more by
/// place of unit, the moments of the replenishments, how many units may still join, and the greatest moment given.
#[derive(Drop)]
pub struct RtdsState {
    domains: Row<Option<RtdsUnits>>,
    affinity: Row<Option<Pins>>,
    queues: RtdsQueues,
    masks: Masks,
    alarms: Alarms,
    spare: usize,
    latest: u64,
}

impl Model for RtdsState {
    ghost use Rattle.sched_ops.specs.Seen.{Seen};

    ghost Value = { Seen };

    ghost use Rattle.rtds_core.specs.RtdsParts.{IsKept, seen_of};

    ghost view = { λ a. seen_of a.domains a.affinity a.queues a.spare a.latest };

    ghost invariant = { λ a. IsKept a.domains a.affinity a.queues a.masks a.alarms a.spare
        a.latest };
}

/// Queues with room for so many units, with the sets of cores and the alarms of each place of a unit.
fn empty_tables(alloc: Global, units: usize) -> Result<(RtdsQueues, Masks, Alarms), NoMemory>
    ensures queues { IfOk result (λ tables. tables.0 ≡ empty_lists units) }
    ensures alarms { IfOk result (λ tables. tables.2 ≡ replicate 2048 None) }
{
    let masks = Masks::room(alloc)?;
    let queues = RtdsQueues::room(alloc, units)?;
    let alarms = Alarms::room(alloc)?;
    Ok((queues, masks, alarms))
}

/// How many units the domain has.
fn count_units(affinity: &[Option<Pins>], d: DomId) -> usize
    ensures { result ≡ size (at_place affinity.now d.0) }
{
    match item_at(affinity, d.0 as usize) {
        None => 0,
        Some(sets) => sets.len(),
    }
}

/// Whether the unit waits with budget left.
fn waits_ready(domains: &[Option<RtdsUnits>], queues: &RtdsQueues, u: UnitId) -> bool
    ensures { result ≡ is_ready domains.now queues.now u }
{
    queues.has(u) && budget_left(domains, u) > 0
}

impl RtdsState {
    ghost use Rattle.std.specs.Prelude.{◌≡◌, ℕ, ◌≤◌, ◌<◌, ◌+◌, ◌-◌, true, false, IfOk, None, Some, length};
    ghost use Rattle.sched_model.specs.State.{has_core_bit};
    ghost use Rattle.sched_laws.specs.EachPlace.{EachPlace};
    ghost use Rattle.sched_model.specs.declared.config.PoolParams.TheVariants as pool_params;
    ghost use Rattle.sched_model.specs.Places.{at_place, has_listed_unit};
    ghost use Rattle.sched_model.specs.Policy.{decision_of, after_decision, scheduler_with_queued, joined_scheduler, parted_scheduler, changed_scheduler, pool_rate_limit, records_kind};
    ghost use Rattle.sched_ops.specs.declared.timer.Timer.TheVariants.{Repl};
    ghost use Rattle.sched_ops.specs.Seen.{Tells, vacant_scheduler, restarted_scheduler, scheduler_without_unit, units_of, with_scheduler, seen_at};
    ghost use Rattle.sched_ops.specs.Conditions.{IsNow, IsAsked, IsAway, HasNoneBusy, AreDomParams, IsChange, Keeps, is_member, is_vacant, has_joined_domain};
    ghost use Rattle.sched_ops.specs.Timers.{next_scheduler_timer, is_due, timer_event, after_timer};
    ghost use Rattle.sched_ops.specs.Told.{IsInRange};
    ghost use Rattle.sched_model.specs.Policy.{unit_stored};
    ghost use Rattle.sched_ops.specs.WantedCores.{MayAsk, is_core_wanted};
    ghost use Rattle.rtds_core.specs.RtdsParts.{IsRtds};

    /// The memory for a pool of a machine with these places, of which so many units may join.
    pub fn room(
        alloc: Global,
        places: Places,
        units: usize,
        latest: u64,
    ) -> Result<RtdsState, NoMemory>
        requires domains { places.domains ≤ 64 }
        requires units { units ≤ 256 }
        requires early { latest ≤ most_span }
        ensures { IfOk result (λ state. state
            ≡ record {
              scheduler = vacant_scheduler pool_params.Rtds places.domains places.cores;
              spare = units;
              latest = latest;
            }) }
    {
        let domains = empty_places(alloc, places.domains as usize)?;
        let affinity = empty_places(alloc, places.domains as usize)?;
        let (queues, masks, alarms) = empty_tables(alloc, units)?;
        Ok(RtdsState {
            domains,
            affinity,
            queues,
            masks,
            alarms,
            spare: units,
            latest,
        })
    }

    /// The greatest moment that was given, in nanoseconds.
    pub fn latest(&self) -> u64
        ensures latest { result ≡ self.now.latest }
        ensures early { result ≤ most_span }
    {
        self.latest
    }

    /// The domain joins at t, with so many units. They may have all cores, and none of them waits yet.
    pub fn join(&mut self, d: DomId, units: u8, params: &DomParams, t: Moment)
        requires place { d.0 < length self.old.scheduler.affinity }
        requires absent { at_place self.old.scheduler.affinity d.0 ≡ None }
        requires few { units ≤ 32 }
        requires room { units ≤ self.old.spare }
        requires params { AreDomParams (records_kind self.old.scheduler.records) params.now }
        requires now { IsNow self.old t.0 }
        ensures scheduler { self.new.scheduler
            ≡ joined_scheduler d.0 units params.now t.0 self.old.scheduler }
        ensures spare { self.new.spare ≡ self.old.spare - units }
        ensures latest { self.new.latest ≡ t.0 }
    {
        self.queues.law_order();
        let every_core = Cores(u64::MAX);
        set_place(&mut self.affinity, d.0, Some(copies(every_core, units)));
        join_records(d, units, params, t, &mut self.domains);
        set_masks(d, None, every_core, &mut self.masks);
        self.spare -= units as usize;
        self.latest = t.0;
    }

    /// The domain parts. None of its units waits or is on.
    pub fn part(&mut self, d: DomId)
        requires joined { has_joined_domain self.old.scheduler d.0 ≡ true }
        requires idle { HasNoneBusy self.old.scheduler d.0 }
        ensures scheduler { self.new.scheduler ≡ parted_scheduler d.0 self.old.scheduler }
        ensures spare { self.new.spare ≡ self.old.spare + units_of self.old.scheduler d.0 }
        ensures latest { self.new.latest ≡ self.old.latest }
    {
        self.queues.law_order();
        let units = count_units(self.affinity.as_slice(), d);
        set_place(&mut self.affinity, d.0, None);
        set_place(&mut self.domains, d.0, None);
        self.spare += units;
    }

    /// The unit, which neither waits nor is on, waits behind all others: among the eligible ones, or among the spent ones
    /// where it has no budget left. Its replenishment is armed.
    pub fn enqueue(&mut self, u: UnitId)
        requires away { IsAway self.old.scheduler u }
        ensures { self.new ≡ with_scheduler (scheduler_with_queued u self.old.scheduler) self.old }
    {
        self.queues.law_order();
        if let Some(x) = rtds_unit(self.domains.as_slice(), u) {
            let deadline = Moment(x.deadline);
            self.alarms.arm(u, deadline);
            self.queues.put(u, key_of(x), x.left == 0);
        }
    }

    /// The unit, which waits, waits no more, and its replenishment is not armed.
    pub fn dequeue(&mut self, u: UnitId)
        requires waits { has_listed_unit self.old.scheduler.queue u ≡ true }
        ensures { self.new ≡ with_scheduler (scheduler_without_unit u self.old.scheduler) self.old }
    {
        self.queues.law_order();
        self.alarms.disarm(u);
        let _ = self.queues.remove(u);
    }

    /// Decides for a core: its own unit is charged, and then the first that waits and may have the core is compared with it.
    pub fn choose(&mut self, ask: &Ask) -> Choice
        requires asked { IsAsked self.old ask.now }
        ensures answer { Tells result (decision_of ask.now self.old.scheduler) }
        ensures after { self.new ≡ seen_at ask.now.at.0
            (after_decision (decision_of ask.now self.old.scheduler) self.old.scheduler) self.old }
    {
        self.queues.law_order();
        burn_cur(ask.cur, ask.at, &mut self.domains);
        let chosen = pick(
            self.domains.as_slice(),
            self.affinity.as_slice(),
            &self.queues,
            &self.masks,
            ask,
        );
        let due = due_of(self.domains.as_slice(), ask.at.0, chosen);
        switch(
            ask.at.0,
            ask.cur,
            chosen,
            &mut self.domains,
            &mut self.queues,
            &mut self.alarms,
        );
        self.latest = ask.at.0;
        Choice {
            unit: chosen,
            due,
            reset: 0,
        }
    }

    /// The cores that are to decide anew at t, of those at these places: a unit waits for the core while it has none, or its own is not
    /// allowed on it, or the first that waits and may have it goes before its own.
    pub fn wanted(&self, cores: &[Option<Resource>], t: Moment, home: Cores) -> Cores
        requires few { length cores.now ≤ 64 }
        requires asks { EachPlace (MayAsk t.0 self.now.scheduler) cores.now }
        ensures { (r : ℕ) → has_core_bit result.0 r
            ≡ is_core_wanted t.0 home.0 self.now.scheduler r (at_place cores.now r) }
    {
        self.queues.law_order();
        wanted(
            self.domains.as_slice(),
            &self.queues,
            &self.masks,
            cores,
            home,
        )
    }

    /// The same, where none of them would be to decide anew without this unit. Where it waits with budget left, these are the cores that it
    /// outruns: none, where another unit stands first and may be on each. The queue is not searched.
    pub fn wanted_for(&self, u: UnitId, cores: &[Option<Resource>], t: Moment, home: Cores) -> Cores
        requires few { length cores.now ≤ 64 }
        requires asks { EachPlace (MayAsk t.0 self.now.scheduler) cores.now }
        requires before { (r : ℕ)
            → is_core_wanted t.0 home.0 (scheduler_without_unit u self.now.scheduler) r
            (at_place cores.now r) ≡ false }
        ensures { (r : ℕ) → has_core_bit result.0 r
            ≡ is_core_wanted t.0 home.0 self.now.scheduler r (at_place cores.now r) }
    {
        self.queues.law_order();
        if !waits_ready(self.domains.as_slice(), &self.queues, u) {
            return Cores(0);
        }
        if stands_behind(&self.queues, &self.masks, u, home) {
            return Cores(0);
        }
        let coming = Ahead {
            unit: u,
            cores: open_cores(self.masks.get(u), home),
        };
        outrun_by(self.domains.as_slice(), coming, cores)
    }

    /// The first replenishment, by domain and unit, whose moment has come at t; where there is none, the one of the least
    /// moment.
    pub fn timer_due(&self, t: Moment) -> Option<(Moment, Timer)>
        ensures { result ≡ next_scheduler_timer t.0 self.now.scheduler }
    {
        self.alarms.next(t)
    }

    /// The unit, which is due at t, is replenished. One that waits is eligible then, and its arrival stays.
    pub fn replenish(&mut self, u: UnitId, t: Moment) -> Event
        requires now { IsNow self.old t.0 }
        requires due { is_due t.0 self.old.scheduler (Repl u) ≡ true }
        ensures event { result ≡ timer_event t.0 self.old.scheduler (Repl u) }
        ensures after { self.new ≡ seen_at t.0 (after_timer t.0 self.old.scheduler (Repl u))
            self.old }
    {
        self.queues.law_order();
        replenish(t, u, &mut self.domains);
        self.latest = t.0;
        let unit = rtds_unit(self.domains.as_slice(), u).copied();
        renew(unit, u, &mut self.queues, &mut self.alarms);
        replenishment(u, unit)
    }

    /// Changes parameters at t: those of a unit wait for its next replenishment, and sets of cores are in force at once.
    pub fn set_params(&mut self, change: &ParamChange, t: Moment)
        requires now { IsNow self.old t.0 }
        requires change { IsChange (records_kind self.old.scheduler.records) self.old.scheduler
            change.now }
        ensures { self.new ≡ seen_at t.0 (changed_scheduler change.now t.0 self.old.scheduler)
            self.old }
    {
        self.latest = t.0;
        match change {
            ParamChange::Unit {
                unit,
                period,
                budget,
                extra,
            } => set_next(*unit, *period, *budget, *extra, &mut self.domains),
            ParamChange::Pin { dom, unit, cores } => {
                pin(*dom, *unit, *cores, &mut self.affinity);
                set_masks(*dom, *unit, *cores, &mut self.masks);
            }
            _ => {}
        }
    }

    /// The newest values that are set of a unit.
    pub fn stored(&self, u: UnitId) -> Stored
        requires member { is_member self.now.scheduler u ≡ true }
        ensures value { unit_stored self.now.scheduler.records u ≡ Some result }
        ensures range { IsInRange result }
    {
        match rtds_unit(self.domains.as_slice(), u) {
            None => Stored::Null,
            Some(x) => Stored::Rtds {
                period: Span(x.next_period),
                budget: Span(x.next_budget),
                extra: x.next_extra,
            },
        }
    }

    /// The rate limit, of which RTDS has none.
    pub fn rate(&self) -> u32
        ensures { result ≡ pool_rate_limit self.now.scheduler.records }
    {
        let _ = &self.latest;
        0
    }

    /// Does nothing, and tells that a scheduler that no domain has joined is as a fresh one.
    pub fn law_vacant(&self)
        requires { is_vacant self.now.scheduler ≡ true }
        ensures { restarted_scheduler pool_params.Rtds self.now.scheduler ≡ self.now.scheduler }
    {
        let _ = &self.latest;
    }

    /// Does nothing, and tells that no unit waits twice, that those that wait have joined and are not on, and that the records
    /// are of RTDS.
    pub fn keeps(&self)
        ensures keeps { Keeps self.now }
        ensures rtds { IsRtds self.now }
        ensures early { self.now.latest ≤ most_span }
    {
        self.queues.law_order();
    }
}

/// A unit that was replenished: one that is not on waits among the eligible, with its arrival as it was, and its new deadline
/// is armed.
fn renew(unit: Option<RtdsUnit>, u: UnitId, queues: &mut RtdsQueues, alarms: &mut Alarms)
    requires id { unit_index u < 2048 }
    requires waits { IfSome unit (λ x. x.burned ≡ None → holds queues.old u ≡ true) }
    ensures queues { queues.new ≡ renewed_if unit u queues.old }
    ensures alarms { alarms.new ≡ rearmed_dues unit u alarms.old }
{
    if let Some(x) = unit {
        alarms.arm(u, Moment(x.deadline));
        if x.burned.is_none() {
            queues.renew(u, key_of(&x));
        }
    }
}
