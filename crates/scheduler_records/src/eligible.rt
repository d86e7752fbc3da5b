//! Which waiting units a core may take.

ghost use Rattle.std.specs.Prelude.{◌≡◌, ◌<◌, slice_index_or};
ghost use Rattle.sched_base.specs.Numbers.{core_set};
ghost use Rattle.sched_model.specs.EligibleUnits.{unit_cores, is_allowed_by};

use sched_base::{Cores, ResId, UnitId};
use sched_model::config::Pins;
use sched_model::places::item_at;

/// The unit's set of cores, where these are the sets of each domain's units.
fn cores_of(affinity: &[Option<Pins>], u: UnitId) -> u64
    ensures { result ≡ unit_cores affinity.now u }
{
    match item_at(affinity, u.dom.0 as usize) {
        None => 0,
        Some(units) => set_at(units, u.n as usize),
    }
}

/// The set of cores at a place, and the empty one past the end.
fn set_at(units: &Pins, index: usize) -> u64
    ensures { result ≡ (slice_index_or units.now index (core_set 0)).0 }
{
    let sets = units.as_slice();
    if index < sets.len() { sets[index].0 } else { 0 }
}

/// Whether the unit may be on the core: its set has the core, or has none of the pool's cores.
pub fn is_allowed(affinity: &[Option<Pins>], home: Cores, core: ResId, u: UnitId) -> bool
    requires { core.0 < 64 }
    ensures { result ≡ is_allowed_by affinity.now home.0 core.0 u }
{
    let cores = cores_of(affinity, u);
    cores / (1u64 << core.0) % 2 == 1 || cores & home.0 == 0
}
