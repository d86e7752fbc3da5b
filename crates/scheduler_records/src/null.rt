//! The null scheduler: which core is kept for which unit.

ghost use Rattle.std.specs.Prelude.{◌≡◌, ℕ, ◌+◌, ◌<◌, ◌≤◌, ◌==◌, [], length};
ghost use Rattle.std.specs.List.{list_any};
ghost use Rattle.sched_base.specs.declared.UnitId.{UnitId as UnitName};
ghost use Rattle.sched_model.specs.declared.state.Records.TheVariants.{NullPool};
ghost use Rattle.sched_model.specs.EligibleUnits.{is_unit_placed, is_core_given, may_have_core};
ghost use Rattle.sched_model.specs.Places.{at_place, numbered_items, same_unit};
ghost use Rattle.sched_model.specs.State.{has_core_bit};
ghost use Rattle.sched_model.specs.NullScheduler.{kept_without};
ghost use Rattle.scheduler_records.specs.Parts.{scheduler_of};

use crate::eligible::is_allowed;
use sched_base::{Cores, DomId, ResId, UnitId};
use sched_model::config::Pins;
use sched_model::places::item_at;
use sched_model::row::Row;
use sched_model::units::{is_same, is_there};

/// The unit that the core is kept for.
fn kept_at(kept: &[Option<UnitId>], core: ResId) -> Option<UnitId>
    ensures { result ≡ at_place kept.now core.0 }
{
    item_at(kept, core.0 as usize).copied()
}

/// Whether the set has the core.
fn has_core(home: Cores, core: ResId) -> bool
    requires { core.0 < 64 }
    ensures { result ≡ has_core_bit home.0 core.0 }
{
    home.0 / (1u64 << core.0) % 2 == 1
}

/// Whether the core is given to the unit: it is kept for it, is one of the pool's, and is allowed.
pub fn is_placed(
    kept: &[Option<UnitId>],
    affinity: &[Option<Pins>],
    home: Cores,
    core: ResId,
    u: UnitId,
) -> bool
    requires { core.0 < 64 }
    ensures { result ≡ is_unit_placed (scheduler_of [] affinity.now (NullPool kept.now)) kept.now
        home.0 core.0 u }
{
    is_there(kept_at(kept, core), u) && has_core(home, core) && is_allowed(affinity, home, core, u)
}

/// Whether some unit is given the core.
fn is_taken(kept: &[Option<UnitId>], affinity: &[Option<Pins>], home: Cores, core: ResId) -> bool
    requires { core.0 < 64 }
    ensures { result ≡ is_core_given (scheduler_of [] affinity.now (NullPool kept.now)) kept.now
        home.0 core.0 }
{
    match kept_at(kept, core) {
        None => false,
        Some(u) => is_placed(kept, affinity, home, core, u),
    }
}

/// Whether the unit is given one of these cores, of which the first has the number core.
fn has_place_from(
    core: ResId,
    places: &[Option<UnitId>],
    kept: &[Option<UnitId>],
    affinity: &[Option<Pins>],
    home: Cores,
    u: UnitId,
) -> bool
    requires { core.0 + length places.now ≤ 64 }
    ensures { result ≡ list_any (λ (e : ℕ × UnitName).
        is_unit_placed (scheduler_of [] affinity.now (NullPool kept.now)) kept.now home.0 e.0 u)
        (numbered_items core.0 places.now) }
{
    match places {
        [] => false,
        [None, rest @ ..] => has_place_from(ResId(core.0 + 1), rest, kept, affinity, home, u),
        [Some(_), rest @ ..] => {
            is_placed(kept, affinity, home, core, u)
                || has_place_from(ResId(core.0 + 1), rest, kept, affinity, home, u)
        }
    }
}

/// Whether the null scheduler's own rule lets the unit have the core: it is given the core, or neither of them is given at all.
pub fn passes(
    kept: &[Option<UnitId>],
    affinity: &[Option<Pins>],
    home: Cores,
    core: ResId,
    u: UnitId,
) -> bool
    requires core { core.0 < 64 }
    requires few { length kept.now ≤ 64 }
    ensures { result ≡ may_have_core (NullPool kept.now)
        (scheduler_of [] affinity.now (NullPool kept.now)) home.0 core.0 0 u }
{
    is_placed(kept, affinity, home, core, u)
        || (!is_taken(kept, affinity, home, core)
            && !has_place_from(ResId(0), kept, kept, affinity, home, u))
}

/// No core is kept for the unit any more.
pub fn release_unit(u: UnitId, kept: &mut Row<Option<UnitId>>)
    ensures { kept.new ≡ kept_without (same_unit u) kept.old }
{
    for r in 0..kept.len() {
        let there = kept.item_mut(r);
        if let Some(w) = *there
            && is_same(u, w)
        {
            *there = None;
        }
    }
}

/// No core is kept for a unit of the domain any more.
pub fn release_domain(d: DomId, kept: &mut Row<Option<UnitId>>)
    ensures { kept.new ≡ kept_without (λ u. u.dom.0 == d.0) kept.old }
{
    for r in 0..kept.len() {
        let there = kept.item_mut(r);
        if let Some(w) = *there
            && w.dom.0 == d.0
        {
            *there = None;
        }
    }
}
