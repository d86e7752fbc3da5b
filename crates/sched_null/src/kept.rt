//! The units for which the cores are kept.

ghost use Rattle.std.specs.Prelude.{◌≡◌, None, Some, true, replicate, length, IfOk, ◌==◌};
ghost use Rattle.sched_model.specs.Places.{at_place};
ghost use Rattle.sched_model.specs.NullScheduler.{kept_without};
ghost use Rattle.unit_places.specs.Places.{has_unit_place, unit_index};
ghost use Rattle.sched_null.specs.KeptCores.{lasts_after};

use sched_base::{DomId, NoMemory, ResId, UnitId};
use sched_model::places::{item_at, set_place};
use sched_model::row::{Row, empty_places};
use sched_model::units::is_there;
use scheduler_records::null::{release_domain, release_unit};
use std::alloc::Global;
use std::marker::Model;
use unit_places::{PLACES, has_place, index_of};

/// A unit, or none, for each core: no unit for two of them. Contracts see the list of them, by the numbers of the cores.
///
/// Beside them stands, at the place of each unit, the core that was last kept for it. So the core of a unit is read and not looked for: it is that
/// one, or none where that is kept for it no more.
#[derive(Drop)]
pub struct Kept {
    places: Row<Option<UnitId>>,
    lasts: Row<Option<ResId>>,
}

impl Model for Kept {
    ghost use Rattle.std.specs.Prelude.{List, Option};
    ghost use Rattle.sched_base.specs.declared.UnitId.{UnitId as UnitName};
    ghost use Rattle.sched_null.specs.KeptCores.{IsKept};

    ghost Value = { List (Option UnitName) };

    ghost view = { λ a. a.places };

    ghost invariant = { λ a. IsKept a.places a.lasts };
}

/// The core is the last of the unit, where that has a place.
fn note_last(lasts: &mut Row<Option<ResId>>, u: UnitId, core: ResId)
    ensures { lasts.new ≡ lasts_after u core lasts.old }
{
    if has_place(u) {
        let place = index_of(u);
        if place < lasts.len() {
            lasts.replace(place, Some(core));
        }
    }
}

/// The last core of a unit that has a place.
fn last_of(lasts: &[Option<ResId>], u: UnitId) -> Option<ResId>
    requires { has_unit_place u ≡ true }
    ensures { result ≡ at_place lasts.now (unit_index u) }
{
    item_at(lasts, index_of(u)).copied()
}

/// No core is kept.
fn release_all(kept: &mut Row<Option<UnitId>>)
    ensures { kept.new ≡ replicate (length kept.old) None }
{
    for r in 0..kept.len() {
        kept.replace(r, None);
    }
}

impl Kept {
    ghost use Rattle.std.specs.Prelude.{◌≡◌, ◌≢◌, ◌≤◌, ◌<◌, ℕ, None, Some, true, replicate, length, IfNone, IfOk, IfSome, ◌==◌};
    ghost use Rattle.sched_base.specs.declared.UnitId.{UnitId as UnitName};
    ghost use Rattle.unit_places.specs.Places.{has_unit_place};
    ghost use Rattle.sched_model.specs.Places.{at_place, clear_at};
    ghost use Rattle.sched_model.specs.NullScheduler.{kept_without, kept_for};

    /// So many cores, kept for no unit.
    pub fn room(alloc: Global, cores: u8) -> Result<Self, NoMemory>
        requires { cores ≤ 64 }
        ensures { IfOk result (λ kept. kept ≡ replicate cores None) }
    {
        let places = empty_places(alloc, usize::from(cores))?;
        let lasts = empty_places(alloc, PLACES)?;
        Ok(Kept { places, lasts })
    }

    /// The units by the numbers of their cores.
    pub fn as_slice(&self) -> &[Option<UnitId>]
        ensures units { result.now ≡ self.now }
        ensures few { length result.now ≤ 64 }
    {
        self.places.as_slice()
    }

    /// The unit that the core is kept for.
    pub fn at(&self, core: ResId) -> Option<UnitId>
        ensures { result ≡ at_place self.now core.0 }
    {
        let kept = self.as_slice();
        let place = core.0 as usize;
        if place < kept.len() {
            kept[place]
        } else {
            None
        }
    }

    /// The core that is kept for a unit that has a place: the last one, if that still is.
    pub fn core_of(&self, u: UnitId) -> Option<ResId>
        requires { has_unit_place u ≡ true }
        ensures none { IfNone result ((r : ℕ) → at_place self.now r ≢ Some u) }
        ensures kept { IfSome result (λ core. at_place self.now core.0 ≡ Some u) }
        ensures few { IfSome result (λ core. core.0 < 64) }
    {
        let core = last_of(self.lasts.as_slice(), u)?;
        let still = is_there(self.at(core), u);
        if still { Some(core) } else { None }
    }

    /// The core is kept for the unit, and no other core is.
    pub fn keep(&mut self, core: ResId, u: UnitId)
        ensures { self.new ≡ kept_for core.0 u self.old }
    {
        if is_there(self.at(core), u) {
            return;
        }
        release_unit(u, &mut self.places);
        set_place(&mut self.places, core.0, Some(u));
        note_last(&mut self.lasts, u, core);
    }

    /// The core is kept for no unit.
    pub fn leave(&mut self, core: ResId)
        ensures { self.new ≡ clear_at core.0 self.old }
    {
        set_place(&mut self.places, core.0, None);
    }

    /// No core is kept for a unit of the domain.
    pub fn part(&mut self, d: DomId)
        ensures { self.new ≡ kept_without (λ u. u.dom.0 == d.0) self.old }
    {
        release_domain(d, &mut self.places);
    }

    /// No core is kept for any unit.
    pub fn clear(&mut self)
        ensures { self.new ≡ replicate (length self.old) None }
    {
        release_all(&mut self.places);
    }

    /// Does nothing, and tells that no unit is kept for two cores.
    pub fn keeps(&self)
        ensures { (q r : ℕ) → (u : UnitName) → at_place self.now q ≡ Some u →
            at_place self.now r ≡ Some u → q ≡ r }
    {
        let _ = &self.places;
    }
}
