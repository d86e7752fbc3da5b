//! How often each unit is a core's own or saved, so that whether a unit is on a core needs no walk over the cores.

ghost use Rattle.std.specs.Prelude.{ℕ, ◌≡◌, ◌+◌, ◌≤◌, true, length};
ghost use Rattle.std.specs.Option.{option_copied};
ghost use Rattle.sched_base.specs.declared.UnitId.{UnitId as Unit};
ghost use Rattle.sched_model.specs.Places.{at_place};
ghost use Rattle.sched_laws.specs.Counts.{one_at, over};
ghost use Rattle.sched_laws.specs.PoolFacts.{core_places};
ghost use Rattle.unit_places.specs.Places.{has_unit_place};
ghost use Rattle.core_state.specs.Counts.{AreCounts, IsChoice, IsChosen, count_of};

use sched_base::{NoMemory, ResId, UnitId};
use sched_model::places::item_at;
use sched_model::row::Row;
use sched_model::state::Resource;
use sched_model::units::is_same_choice;
use std::alloc::Global;
use std::marker::Model;
use unit_places::{PLACES, place_of};

/// A count for each unit that has a place. Contracts see the list of the counts, by the units' places.
#[derive(Drop)]
pub struct UnitCounts {
    counts: Vec<u8>,
}

impl Model for UnitCounts {
    ghost use Rattle.std.specs.Prelude.{◌≡◌, ℕ, List, length};

    ghost Value = { List ℕ };

    ghost view = { λ a. a.counts.items };

    ghost invariant = { λ a. length a.counts.items ≡ 2048 };
}

impl UnitCounts {
    ghost use Rattle.std.specs.Prelude.{ℕ, ◌≡◌, ◌+◌, ◌≤◌, true, IfOk, Some, None, if◌then◌else◌};
    ghost use Rattle.sched_base.specs.declared.UnitId.{UnitId as Unit};
    ghost use Rattle.sched_laws.specs.Counts.{one_at};
    ghost use Rattle.unit_places.specs.Places.{has_unit_place};
    ghost use Rattle.core_state.specs.Counts.{count_of};

    /// No unit is counted.
    pub fn room(alloc: Global) -> Result<UnitCounts, NoMemory>
        ensures { IfOk result (λ counts. (u : Unit) → count_of counts u ≡ 0) }
    {
        let counts = vec![in alloc; 0; PLACES]?;
        Ok(UnitCounts { counts })
    }

    /// How often the unit is counted. `None` exactly where it has no place.
    #[inline]
    pub fn of(&self, u: UnitId) -> Option<u8>
        ensures { result ≡ (if has_unit_place u then Some (count_of self.now u) else None) }
    {
        match place_of(u) {
            None => None,
            Some(place) => Some(self.counts[place]),
        }
    }

    /// The unit, if there is one, is counted once more.
    pub fn count_in(&mut self, unit: Option<UnitId>)
        requires { (u : Unit) → has_unit_place u ≡ true → count_of self.old u + 1 ≤ 255 }
        ensures { (u : Unit) → has_unit_place u ≡ true → count_of self.new u
            ≡ count_of self.old u + one_at u unit }
    {
        if let Some(u) = unit
            && let Some(place) = place_of(u)
        {
            self.counts[place] += 1;
        }
    }

    /// The unit, if there is one, is counted once less.
    pub fn count_out(&mut self, unit: Option<UnitId>)
        requires { (u : Unit) → has_unit_place u ≡ true → one_at u unit ≤ count_of self.old u }
        ensures { (u : Unit) → has_unit_place u ≡ true → count_of self.new u + one_at u unit
            ≡ count_of self.old u }
    {
        if let Some(u) = unit
            && let Some(place) = place_of(u)
        {
            self.counts[place] -= 1;
        }
    }
}

/// The units of a core are counted.
pub fn count_core_in(counts: &mut UnitCounts, core: &Resource)
    requires { (u : Unit) → has_unit_place u ≡ true → count_of counts.old u + 2 ≤ 255 }
    ensures { (u : Unit) → has_unit_place u ≡ true → count_of counts.new u
        ≡ count_of counts.old u + core_places u core.now }
{
    counts.count_in(core.cur);
    counts.count_in(core.saving);
}

/// The units of a core, if there is one, are counted no more.
fn count_core_out(counts: &mut UnitCounts, core: Option<&Resource>)
    requires { (u : Unit) → has_unit_place u ≡ true → over (core_places u)
        (option_copied core) ≤ count_of counts.old u }
    ensures { (u : Unit) → has_unit_place u ≡ true → count_of counts.new u
        + over (core_places u) (option_copied core.entry) ≡ count_of counts.old u }
{
    if let Some(c) = core {
        counts.count_out(c.cur);
        counts.count_out(c.saving);
    }
}

/// The units of the core at this place are counted no more.
pub fn count_out_at(counts: &mut UnitCounts, r: ResId, cores: &Row<Option<Resource>>)
    requires { AreCounts cores.now counts.old }
    ensures { (u : Unit) → has_unit_place u ≡ true → count_of counts.new u
        + over (core_places u) (at_place cores.now r.0) ≡ count_of counts.old u }
{
    count_core_out(counts, item_at(cores.as_slice(), r.0 as usize));
}

/// The counts after a core decided: it has this unit as its own and saves the one that it had, where that is another.
fn count_chosen(counts: &mut UnitCounts, core: &Resource, unit: Option<UnitId>)
    requires own { (u : Unit) → has_unit_place u ≡ true → core_places u core.now
        ≤ count_of counts.old u }
    requires room { (u : Unit) → has_unit_place u ≡ true → count_of counts.old u + 1 ≤ 255 }
    ensures { IsChosen unit core.now counts.old counts.new }
{
    let same = is_same_choice(unit, core.cur);
    if same {
        return;
    }
    counts.count_out(core.saving);
    counts.count_in(unit);
}

/// The same of the core at this place, where there is one.
pub fn count_choice_at(
    counts: &mut UnitCounts,
    r: ResId,
    unit: Option<UnitId>,
    cores: &Row<Option<Resource>>,
)
    requires few { length cores.now ≤ 64 }
    requires counts { AreCounts cores.now counts.old }
    ensures { IsChoice unit (at_place cores.now r.0) counts.old counts.new }
{
    match item_at(cores.as_slice(), r.0 as usize) {
        None => {}
        Some(c) => count_chosen(counts, c, unit),
    }
}
