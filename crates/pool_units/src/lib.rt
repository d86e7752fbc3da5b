//! The units of a pool: those of the domains that joined, with their sets of cores, and those that wait, in order of arrival.
//!
//! It is what the schedulers without keys have in common: nothing but the order of arrival tells their waiting units apart.
#![tactic(auto)]

ghost use Rattle.std.specs.Prelude.{◌≡◌, ◌≤◌, ◌<◌, Some, None, true, false, length, IfNone, IfOk, IfSome, slice_get};
ghost use Rattle.sched_model.specs.Places.{at_place, has_listed_unit, without_unit};
ghost use Rattle.sched_model.specs.EligibleUnits.{is_allowed_by};
ghost use Rattle.sched_ops.specs.Conditions.{IsApart};

mod marks;

use marks::Marks;
use sched_base::{Cores, DomId, NoMemory, ResId, UnitId};
use sched_model::config::Pins;
use sched_model::places::{item_at, set_place};
use sched_model::row::{Row, empty_places};
use sched_model::short::{Short, copies};
use sched_model::state::Queue;
use sched_model::units::is_same;
use scheduler_records::eligible::is_allowed;
use scheduler_records::pins::pin;
use std::alloc::Global;
use std::marker::Model;

/// The units of a pool. Contracts see those that wait, in order of arrival, the sets of cores of each domain's units, and how
/// many units may still join. At most 256 units join.
///
/// Each unit that waits is marked, so that whether one waits is told without a look at the others.
#[derive(Drop)]
pub struct PoolUnits {
    queue: Queue,
    marks: Marks,
    affinity: Row<Option<Pins>>,
    spare: usize,
}

impl Model for PoolUnits {
    ghost use Rattle.pool_units.specs.Units.{Units};
    ghost use Rattle.pool_units.specs.Marks.{IsMarked};

    ghost Value = { Units };

    ghost view = { λ a. record {
      queue = a.queue;
      affinity = a.affinity;
      spare = a.spare;
    } };

    ghost invariant = { λ a. IsMarked a.marks
        (record { queue = a.queue; affinity = a.affinity; spare = a.spare }) };
}

/// Where the unit stands among these, looked for from the end. `None` where it does not.
fn last_place(units: &[UnitId], u: UnitId) -> Option<usize>
    ensures absent { IfNone result (has_listed_unit units.now u ≡ false) }
    ensures here { IfSome result (λ place. slice_get units.now place ≡ Some u) }
{
    for place in (0..units.len()).rev() {
        if is_same(u, units[place]) {
            return Some(place);
        }
    }
    None
}

/// The unit is taken out of the queue, in which none stands twice. It is looked for from the end: one that has just come is mostly the next to go.
fn take_out(queue: &mut Queue, u: UnitId)
    requires { IsApart queue.old }
    ensures { queue.new ≡ without_unit u queue.old }
{
    if let Some(place) = last_place(queue.as_slice(), u) {
        let _ = queue.remove(place);
    }
}

impl PoolUnits {
    ghost use Rattle.std.specs.Prelude.{◌≡◌, ◌≤◌, ◌<◌, Some, None, true, false, length, IfOk};
    ghost use Rattle.pool_units.specs.Units.{vacant_units, HasNoneWaiting, after_join, after_part, after_enqueue, after_dequeue, pinned_in};
    ghost use Rattle.sched_ops.specs.Affinity.{joined_unit_count, is_member_among};
    ghost use Rattle.unit_places.specs.Places.{has_unit_place};

    /// No unit, with so many places for domains and room for so many units.
    pub fn room(alloc: Global, domains: u8, units: usize) -> Result<Self, NoMemory>
        requires domains { domains ≤ 64 }
        requires units { units ≤ 256 }
        ensures { IfOk result (λ all. all ≡ vacant_units domains units) }
    {
        let affinity = empty_places(alloc, domains as usize)?;
        Ok(PoolUnits {
            queue: Short::new(),
            marks: Marks::room(alloc, domains)?,
            affinity,
            spare: units,
        })
    }

    /// The domain joins with so many units, 1 to 32. Its units may have all cores; none of them waits.
    pub fn join(&mut self, d: DomId, units: u8)
        requires place { d.0 < length self.old.affinity }
        requires absent { at_place self.old.affinity d.0 ≡ None }
        requires few { units ≤ 32 }
        requires room { units ≤ self.old.spare }
        ensures { self.new ≡ after_join d.0 units self.old }
    {
        let sets = copies(Cores(u64::MAX), units);
        set_place(&mut self.affinity, d.0, Some(sets));
        self.spare -= units as usize;
    }

    /// How many units the domain has: none where it has not joined.
    pub fn count(&self, d: DomId) -> usize
        ensures { result ≡ joined_unit_count self.now.affinity d.0 }
    {
        let affinity = self.affinity();
        match item_at(affinity, d.0 as usize) {
            None => 0,
            Some(sets) => sets.len(),
        }
    }

    /// The domain parts. None of its units waits.
    pub fn part(&mut self, d: DomId)
        requires { HasNoneWaiting self.old d.0 }
        ensures { self.new ≡ after_part d.0 self.old }
    {
        let units = self.count(d);
        set_place(&mut self.affinity, d.0, None);
        self.spare += units;
    }

    /// The unit, which has joined and does not wait, waits behind all others.
    pub fn enqueue(&mut self, u: UnitId)
        requires member { is_member_among self.old.affinity u ≡ true }
        requires waits_not { has_listed_unit self.old.queue u ≡ false }
        ensures { self.new ≡ after_enqueue u self.old }
    {
        self.marks.set(u, true);
        self.queue.push(u);
    }

    /// The unit waits no more. One that did not wait is not looked for.
    pub fn dequeue(&mut self, u: UnitId)
        ensures { self.new ≡ after_dequeue u self.old }
    {
        if !self.marks.get(u) {
            return;
        }
        self.marks.set(u, false);
        take_out(&mut self.queue, u);
    }

    /// Whether the unit waits.
    pub fn waits(&self, u: UnitId) -> bool
        ensures { result ≡ has_listed_unit self.now.queue u }
    {
        self.marks.get(u)
    }

    /// Whether the unit may be on a core of the pool: its set has the core, or has none of the pool's cores.
    pub fn is_allowed(&self, home: Cores, core: ResId, u: UnitId) -> bool
        requires { core.0 < 64 }
        ensures { result ≡ is_allowed_by self.now.affinity home.0 core.0 u }
    {
        is_allowed(self.affinity(), home, core, u)
    }

    /// Gives one of the domain's units, or all of them, a set of cores.
    pub fn pin(&mut self, d: DomId, unit: Option<u8>, cores: Cores)
        ensures { self.new ≡ pinned_in d.0 unit cores self.old }
    {
        pin(d, unit, cores, &mut self.affinity);
    }

    /// The units that wait, in order of arrival.
    pub fn waiting(&self) -> &[UnitId]
        ensures { result.now ≡ self.now.queue }
    {
        self.queue.as_slice()
    }

    /// The sets of cores of each domain's units.
    pub fn affinity(&self) -> &[Option<Pins>]
        ensures { result.now ≡ self.now.affinity }
    {
        self.affinity.as_slice()
    }

    /// Does nothing, and tells what is always so: no unit waits twice, those that wait have joined, and each of these has a place in tables.
    pub fn keeps(&self)
        ensures apart { IsApart self.now.queue }
        ensures members { (u : UnitId) → has_listed_unit self.now.queue u ≡ true →
            is_member_among self.now.affinity u ≡ true }
        ensures places { (u : UnitId) → is_member_among self.now.affinity u ≡ true →
            has_unit_place u ≡ true }
    {
        let _ = &self.queue;
    }
}
