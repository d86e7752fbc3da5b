//! The cores on which each schedule unit may run.

ghost use Rattle.std.specs.Prelude.{◌≡◌, ℕ, IfOk, length, slice_index_or};
ghost use Rattle.sched_base.specs.CoreSets.{every_core};

use crate::places::{PLACES, index_of, place_of};
use sched_base::{Cores, NoMemory, UnitId};
use std::alloc::Global;
use std::marker::Model;

/// The set of all cores.
const EVERY_CORE: Cores = Cores(u64::MAX);

/// A set of cores for each unit. Contracts see it as the list of these sets, by the units' places.
#[derive(Drop)]
pub struct Masks {
    cores: Vec<Cores>,
}

impl Model for Masks {
    ghost use Rattle.std.specs.Prelude.{◌≡◌, List, length};
    ghost use Rattle.sched_base.specs.declared.Cores.{Cores};

    ghost Value = { List Cores };

    ghost view = { λ a. a.cores.items };

    ghost invariant = { λ a. length a.cores.items ≡ 2048 };
}

/// All cores, so many times.
fn every_core_times(alloc: Global, times: usize) -> Result<Vec<Cores>, NoMemory>
    ensures length { IfOk result (λ all. length all.items ≡ times) }
    ensures every { IfOk result (λ all. (k : ℕ) → slice_index_or all.items k every_core
        ≡ every_core) }
{
    Ok(vec![in alloc; EVERY_CORE; times]?)
}

impl Masks {
    ghost use Rattle.std.specs.Prelude.{◌≡◌, IfOk, true, false};
    ghost use Rattle.sched_base.specs.declared.UnitId.{UnitId as Unit};
    ghost use Rattle.sched_base.specs.CoreSets.{every_core};
    ghost use Rattle.sched_base.specs.Units.{same_unit};
    ghost use Rattle.unit_places.specs.Places.{has_unit_place};
    ghost use Rattle.unit_places.specs.Masks.{mask_of};

    /// All units with all cores.
    pub fn room(alloc: Global) -> Result<Masks, NoMemory>
        ensures { IfOk result (λ masks. (u : Unit) → mask_of masks u ≡ every_core) }
    {
        let cores = every_core_times(alloc, PLACES)?;
        Ok(Masks { cores })
    }

    /// Gives a unit that has a place another set of cores. All others keep theirs.
    pub fn set(&mut self, u: UnitId, cores: Cores)
        requires { has_unit_place u ≡ true }
        ensures mask { mask_of self.new u ≡ cores }
        ensures others { (w : Unit) → same_unit w u ≡ false → mask_of self.new w
            ≡ mask_of self.old w }
    {
        self.cores[index_of(u)] = cores;
    }

    /// The set of cores of a unit: all cores, where it has no place.
    pub fn get(&self, u: UnitId) -> Cores
        ensures { result ≡ mask_of self.now u }
    {
        match place_of(u) {
            None => EVERY_CORE,
            Some(place) => self.cores[place],
        }
    }
}
