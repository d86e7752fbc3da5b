//! ARINC 653 as a scheduler of a pool.
//!
//! *Design.* A pool has a frame, or none: a list of windows, each with a unit and a span, which begins again once in each major span from
//! the moment on at which it was installed. In a window a core runs the window's unit, where that is its own and may go on, or waits; else
//! it idles, and so in what the windows leave of the major span. The core asks again at the end of the window. A new frame starts at once.
//! A core that is leaving is given nothing.
//!
//! *Queue scheme.* No queue is searched: only the window's unit is ever chosen, and whether a unit waits is a mark in a table
//! (`pool_units`, which keeps the order of arrival beside it, since that is part of what contracts see). The window that the last decision
//! found is kept with its end (`Present`), so a question within it does not walk the frame. Settling a pool finds the window's unit, and
//! whether it waits, once, and compares each core with that.
//!
//! *Locking.* There is none here: a scheduler is owned by its pool, and a pool is what a schedule lock guards (`hall`). Only `reserve`
//! takes memory.
//!
//! *Ordering.* A window's unit is better than every other unit, so there are no equals. There are no timers: the ends of windows are the
//! moments at which cores ask again.
//!
//! `Arinc` has the units of its pool, or none before the first `reserve`. What it knows without them stands beside: the frame, the window that
//! was found last, and the greatest moment given.

ghost use Rattle.sched_model.specs.CheckedMachine.{most_span};
ghost use Rattle.std.specs.Prelude.{◌≡◌, ◌≤◌, ◌<◌, ℕ, [], None, true};
ghost use Rattle.std.specs.Option.{ForSome};
ghost use Rattle.sched_model.specs.declared.state.Records.TheVariants.{ArincPool};
ghost use Rattle.sched_model.specs.declared.config.SchedKind.TheVariants.{Arinc653};
ghost use Rattle.sched_model.specs.Arinc.{current_window_unit};
ghost use Rattle.sched_model.specs.Policy.{has_better_waiting, decision_of, empty_records};
ghost use Rattle.sched_model.specs.declared.state.ArincRecords.{ArincRecords as ArincRecord};
ghost use Rattle.sched_laws.specs.RecordRanges.{IsFrame};
ghost use Rattle.scheduler_records.specs.Parts.{scheduler_of};
ghost use Rattle.sched_ops.specs.Conditions.{ArePoolParams};
ghost use Rattle.sched_ops.specs.Affinity.{is_member_among};
ghost use Rattle.sched_ops.specs.Seen.{Tells};
ghost use Rattle.sched_model.specs.Places.{has_listed_unit};
ghost use Rattle.pool_units.specs.Units.{without_chosen};
ghost use Rattle.arinc_frame.specs.ArincView.{units_by};
ghost use Rattle.arinc_frame.specs.Frames.{IsPresent};
ghost use Rattle.arinc_frame.specs.WaitingUnits.{eligible_window_unit, chosen_window_unit, allowed_unit, queued_window_unit, is_another_unit};

use crate::window::{Present, found_at, window_now};
use pool_units::PoolUnits;
use sched_base::{Cores, DomId, Moment, NoMemory, ResId, UnitId};
use sched_model::ask::Ask;
use sched_model::config::{DomParams, Frame, ParamChange, PoolParams, same_frame};
use sched_model::event::Event;
use sched_model::facts::Stored;
use sched_model::state::{ArincRecords, Resource};
use sched_model::units::{is_same, is_there};
use sched_ops::{Choice, Places, Policy, Timer, wanted_where};
use std::alloc::Global;
use std::marker::Model;
use std::mem;

/// The scheduler ARINC 653 of one pool. It holds no memory until the first `reserve`, and has no place for a domain then.
///
/// Contracts see what they see of every scheduler: the waiting units, the sets of cores, the frame with the moment of its installation, how
/// many units may still join, and the greatest moment given.
#[derive(Drop)]
pub struct Arinc {
    units: Option<PoolUnits>,
    records: ArincRecords,
    present: Option<Present>,
    latest: u64,
}

impl Model for Arinc {
    ghost use Rattle.sched_ops.specs.Seen.{Seen};
    ghost use Rattle.arinc_frame.specs.ArincView.{seen_by};
    ghost use Rattle.arinc_frame.specs.Frames.{IsReady};

    ghost Value = { Seen };

    ghost view = { λ a. seen_by a.units a.records a.latest };

    ghost invariant = { λ a. IsReady a.records a.present a.latest };
}

/// The unit of the present window.
fn unit_now(records: &ArincRecords, present: Option<Present>, t: Moment) -> Option<UnitId>
    requires frame { ForSome records.now.frame IsFrame }
    requires present { ForSome present (IsPresent records.now) }
    requires early { t.0 ≤ most_span }
    ensures { result ≡ current_window_unit records.now t.0 }
{
    match window_now(records, present, t) {
        None => None,
        Some(window) => window.unit,
    }
}

/// Whether there is a unit, and another one than the core's own.
fn is_other(unit: Option<UnitId>, own: UnitId) -> bool
    ensures { result ≡ is_another_unit unit own }
{
    match unit {
        None => false,
        Some(u) => !is_same(u, own),
    }
}

fn if_waits(units: &PoolUnits, unit: Option<UnitId>) -> Option<UnitId>
    ensures { result ≡ queued_window_unit units.now unit }
{
    let u = unit?;
    if units.waits(u) { Some(u) } else { None }
}

/// The unit, where it may have the core.
fn if_allowed(units: &PoolUnits, unit: Option<UnitId>, home: Cores, core: ResId) -> Option<UnitId>
    requires { core.0 < 64 }
    ensures { result ≡ allowed_unit units.now unit home.0 core.0 }
{
    let u = unit?;
    if units.is_allowed(home, core, u) {
        Some(u)
    } else {
        None
    }
}

/// The window's unit, where it waits and may have the core.
fn awaited(units: &PoolUnits, unit: Option<UnitId>, home: Cores, core: ResId) -> Option<UnitId>
    requires { core.0 < 64 }
    ensures { result ≡ eligible_window_unit units.now unit home.0 core.0 }
{
    if_allowed(units, if_waits(units, unit), home, core)
}

/// Whether a core with this unit of its own is to decide anew, where this is the window's unit, if it waits: that may have the core, and is
/// another one than the core's own, or the core's own is not allowed on it.
fn is_wanted(
    units: &PoolUnits,
    waiting: Option<UnitId>,
    cur: Option<UnitId>,
    core: ResId,
    home: Cores,
) -> bool
    requires { core.0 < 64 }
    ensures { (records : ArincRecord) (since t : ℕ) → waiting
        ≡ queued_window_unit units.now (current_window_unit records t) → result
        ≡ has_better_waiting cur since t core.0 home.0
        (scheduler_of units.now.queue units.now.affinity (ArincPool records)) }
{
    let here = if_allowed(units, waiting, home, core);
    match cur {
        None => here.is_some(),
        Some(own) => !units.is_allowed(home, core, own) || is_other(here, own),
    }
}

/// The window's unit, where it is the core's own and may go on, or waits.
fn chosen(units: &PoolUnits, unit: Option<UnitId>, ask: &Ask) -> Option<UnitId>
    requires { ask.now.core.0 < 64 }
    ensures { result ≡ chosen_window_unit units.now unit ask.now }
{
    let u = unit?;
    if is_there(ask.cur, u) && ask.runnable {
        return Some(u);
    }
    awaited(units, unit, ask.home, ask.core)
}

fn frame_of(params: &PoolParams) -> Option<Frame>
    requires { ArePoolParams Arinc653 params.now }
    ensures frame { ForSome result IsFrame }
    ensures records { (domains cores : ℕ) → empty_records params.now domains cores
        ≡ ArincPool (record { frame = result; installed = 0 }) }
{
    match params {
        PoolParams::Arinc653 { frame } => same_frame(frame),
        _ => None,
    }
}

/// The decision for a core.
fn decide(units: &PoolUnits, records: &ArincRecords, present: Option<Present>, ask: &Ask) -> Choice
    requires frame { ForSome records.now.frame IsFrame }
    requires present { ForSome present (IsPresent records.now) }
    requires early { ask.now.at.0 ≤ most_span }
    requires core { ask.now.core.0 < 64 }
    ensures { Tells result (decision_of ask.now
        (scheduler_of units.now.queue units.now.affinity (ArincPool records.now))) }
{
    let window = if ask.leaving {
        None
    } else {
        window_now(records, present, ask.at)
    };
    match window {
        None => Choice {
            unit: None,
            due: None,
            reset: 0,
        },
        Some(window) => Choice {
            unit: chosen(units, window.unit, ask),
            due: Some(Moment(window.until)),
            reset: 0,
        },
    }
}

/// The decision for a core without a unit of its own, before memory is taken: no unit has joined, so none is chosen.
fn bare_choice(records: &ArincRecords, present: Option<Present>, ask: &Ask) -> Choice
    requires frame { ForSome records.now.frame IsFrame }
    requires present { ForSome present (IsPresent records.now) }
    requires early { ask.now.at.0 ≤ most_span }
    requires none { ask.now.cur ≡ None }
    ensures { Tells result (decision_of ask.now (scheduler_of [] [] (ArincPool records.now))) }
{
    let window = if ask.leaving {
        None
    } else {
        window_now(records, present, ask.at)
    };
    let due = match window {
        None => None,
        Some(window) => Some(Moment(window.until)),
    };
    Choice {
        unit: None,
        due,
        reset: 0,
    }
}

/// The decision for a core. The unit that is chosen waits no more.
fn choose(
    units: &mut PoolUnits,
    records: &ArincRecords,
    present: Option<Present>,
    ask: &Ask,
) -> Choice
    requires frame { ForSome records.now.frame IsFrame }
    requires present { ForSome present (IsPresent records.now) }
    requires early { ask.now.at.0 ≤ most_span }
    requires core { ask.now.core.0 < 64 }
    ensures answer { Tells result (decision_of ask.now
        (scheduler_of units.old.queue units.old.affinity (ArincPool records.now))) }
    ensures taken { units.new ≡ without_chosen result.unit units.old }
{
    let choice = decide(units, records, present, ask);
    if let Some(u) = choice.unit {
        units.dequeue(u);
    }
    choice
}

/// Does nothing, and tells that the units that wait have joined.
fn law_members(units: &Option<PoolUnits>)
    ensures { (u : UnitId) → has_listed_unit (units_by units.now).queue u ≡ true →
        is_member_among (units_by units.now).affinity u ≡ true }
{
    match units {
        None => {}
        Some(units) => units.keeps(),
    }
}

impl Arinc {
    ghost use Rattle.std.specs.Prelude.{◌≡◌};
    ghost use Rattle.sched_model.specs.declared.config.SchedKind.TheVariants as kinds;
    ghost use Rattle.sched_ops.specs.Seen.{bare_seen};

    /// No domain, no place for one and no frame. It has no memory.
    pub fn empty() -> Self
        ensures { result ≡ bare_seen kinds.Arinc653 }
    {
        Arinc {
            units: None,
            records: ArincRecords {
                frame: None,
                installed: 0,
            },
            present: None,
            latest: 0,
        }
    }
}

impl Policy for Arinc {
    ghost seen = { λ a. a };

    fn reserve(&mut self, alloc: Global, places: Places, units: usize) -> Result<(), NoMemory> {
        let units = PoolUnits::room(alloc, places.domains, units)?;
        drop(mem::replace(&mut self.units, Some(units)));
        self.records = ArincRecords {
            frame: None,
            installed: 0,
        };
        self.present = None;
        Ok(())
    }

    fn restart(&mut self, params: &PoolParams) {
        law_members(&self.units);
        self.records = ArincRecords {
            frame: frame_of(params),
            installed: 0,
        };
        self.present = None;
    }

    fn join(&mut self, d: DomId, units: u8, params: &DomParams, t: Moment) {
        self.latest = t.0;
        match &mut self.units {
            None => {}
            Some(members) => members.join(d, units),
        }
    }

    fn part(&mut self, d: DomId) {
        match &mut self.units {
            None => {}
            Some(units) => units.part(d),
        }
    }

    fn enqueue(&mut self, u: UnitId) {
        match &mut self.units {
            None => {}
            Some(units) => units.enqueue(u),
        }
    }

    fn dequeue(&mut self, u: UnitId) {
        match &mut self.units {
            None => {}
            Some(units) => units.dequeue(u),
        }
    }

    fn choose(&mut self, ask: &Ask) -> Choice {
        self.latest = ask.at.0;
        self.present = found_at(&self.records, self.present, ask.at);
        match &mut self.units {
            None => bare_choice(&self.records, self.present, ask),
            Some(units) => choose(units, &self.records, self.present, ask),
        }
    }

    fn wanted(&self, cores: &[Option<Resource>], t: Moment, home: Cores) -> Cores {
        match &self.units {
            None => Cores(0),
            Some(units) => {
                let waiting = if_waits(units, unit_now(&self.records, self.present, t));
                wanted_where(cores, |core, cur, _since| {
                    is_wanted(units, waiting, cur, core, home)
                })
            }
        }
    }

    fn wanted_for(&self, u: UnitId, cores: &[Option<Resource>], t: Moment, home: Cores) -> Cores {
        self.wanted(cores, t, home)
    }

    fn asks_moment(&self) -> bool {
        let _ = &self.records;
        true
    }

    fn frees(&self, cur: Option<UnitId>, leaving: bool) -> bool {
        let _ = &self.records;
        true
    }

    fn timer_due(&self, t: Moment) -> Option<(Moment, Timer)> {
        let _ = &self.records;
        None
    }

    fn timer(&mut self, which: Timer, t: Moment) -> Event {
        let _ = &self.records;
        unreachable!()
    }

    fn set_params(&mut self, change: &ParamChange, t: Moment) {
        match change {
            ParamChange::Frame { frame } => {
                self.records = ArincRecords {
                    frame: Some(frame.duplicate()),
                    installed: t.0,
                };
                self.present = None;
            }
            ParamChange::Pin { dom, unit, cores } => match &mut self.units {
                None => {}
                Some(units) => units.pin(*dom, *unit, *cores),
            },
            _ => {}
        }
        self.latest = t.0;
    }

    fn stored(&self, u: UnitId) -> Stored {
        let _ = &self.records;
        Stored::Arinc653
    }

    fn rate(&self) -> u32 {
        let _ = &self.records;
        0
    }

    fn keeps(&self) {
        match &self.units {
            None => {}
            Some(units) => units.keeps(),
        }
    }
}
