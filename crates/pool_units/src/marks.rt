//! Which units wait, told by their places.

ghost use Rattle.std.specs.Prelude.{◌≡◌, false, replicate, slice_set, slice_index_or, IfOk};

use sched_base::{NoMemory, UnitId};
use sched_model::row::Row;
use std::alloc::Global;
use std::marker::Model;
use unit_places::{has_place, index_of};

/// A mark, or none, at the place of each unit: 32 places for each domain. Contracts see the list of the places.
#[derive(Drop)]
pub struct Marks {
    places: Row<bool>,
}

impl Model for Marks {
    ghost use Rattle.std.specs.Prelude.{List, Bool};

    ghost Value = { List Bool };

    ghost view = { λ a. a.places };
}

/// So many places without a mark.
fn empty_marks(alloc: Global, count: usize) -> Result<Row<bool>, NoMemory>
    ensures { IfOk result (λ places. places ≡ replicate count false) }
{
    let places = vec![in alloc; false; count]?;
    Ok(Row::from_vec(places))
}

/// There is a mark at the place from now on, or none, where there is such a place.
fn set_mark(places: &mut Row<bool>, place: usize, mark: bool)
    ensures { places.new ≡ slice_set places.old place mark }
{
    if place < places.len() {
        places.replace(place, mark);
    }
}

/// Whether there is a mark at the place.
fn has_mark(places: &[bool], place: usize) -> bool
    ensures { result ≡ slice_index_or places.now place false }
{
    place < places.len() && places[place]
}

impl Marks {
    ghost use Rattle.std.specs.Prelude.{◌≡◌, ◌*◌, true, false, replicate, slice_set, IfOk};
    ghost use Rattle.unit_places.specs.Places.{has_unit_place, unit_index};
    ghost use Rattle.pool_units.specs.Marks.{is_marked};

    /// The places of so many domains, without a mark.
    pub fn room(alloc: Global, domains: u8) -> Result<Self, NoMemory>
        ensures { IfOk result (λ marks. marks ≡ replicate (32 * domains) false) }
    {
        let places = empty_marks(alloc, 32 * domains as usize)?;
        Ok(Marks { places })
    }

    /// Marks a unit that has a place, or takes its mark away.
    pub fn set(&mut self, u: UnitId, mark: bool)
        requires { has_unit_place u ≡ true }
        ensures { self.new ≡ slice_set self.old (unit_index u) mark }
    {
        set_mark(&mut self.places, index_of(u), mark);
    }

    /// Whether the unit is marked.
    pub fn get(&self, u: UnitId) -> bool
        ensures { result ≡ is_marked self.now u }
    {
        has_place(u) && has_mark(self.places.as_slice(), index_of(u))
    }
}
