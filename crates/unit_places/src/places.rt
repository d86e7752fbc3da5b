//! A unit's place in a table: each domain has 32, in order of its units.

ghost use Rattle.std.specs.Prelude.{◌≡◌, ◌<◌, true, IfSome};
ghost use Rattle.unit_places.specs.Places as spec;

use sched_base::UnitId;

/// The most domains that a machine has.
const DOMAINS: u8 = 64;

/// The most units that a domain has.
const UNITS_OF_DOMAIN: u8 = 32;

/// How many places there are: one for each unit that a machine may have.
pub const PLACES: usize = 2048;

/// Whether the unit has a place: its domain is one of 64, and it one of the domain's 32.
pub fn has_place(u: UnitId) -> bool
    ensures { result ≡ spec.has_unit_place u }
{
    u.dom.0 < DOMAINS && u.n < UNITS_OF_DOMAIN
}

/// The number of the place of a unit that has one. No other unit has it.
pub fn index_of(u: UnitId) -> usize
    requires { spec.has_unit_place u ≡ true }
    ensures index { result ≡ spec.unit_index u }
    ensures below { result < 2048 }
{
    u.dom.0 as usize * UNITS_OF_DOMAIN as usize + u.n as usize
}

/// The number of the unit's place, or `None` exactly where it has none.
pub fn place_of(u: UnitId) -> Option<usize>
    ensures place { result ≡ spec.unit_place_number u }
    ensures below { IfSome result (λ i. i < 2048) }
{
    if has_place(u) {
        Some(index_of(u))
    } else {
        None
    }
}
