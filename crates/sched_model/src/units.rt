//! Units, and whether two of them are the same.

ghost use Rattle.std.specs.Prelude.{◌≡◌};
ghost use Rattle.sched_model.specs.Places.{same_unit, is_unit};
ghost use Rattle.sched_model.specs.Pool.{same_choice};

use sched_base::UnitId;

/// Whether two units are the same.
pub fn is_same(u: UnitId, w: UnitId) -> bool
    ensures { result ≡ same_unit u w }
{
    u.dom.0 == w.dom.0 && u.n == w.n
}

/// Whether the unit is the one that stands there, if any does.
pub fn is_there(there: Option<UnitId>, u: UnitId) -> bool
    ensures { result ≡ is_unit there u }
{
    match there {
        None => false,
        Some(w) => is_same(w, u),
    }
}

/// Whether the choice is the unit that is there.
pub fn is_same_choice(a: Option<UnitId>, b: Option<UnitId>) -> bool
    ensures { result ≡ same_choice a b }
{
    match a {
        None => b.is_none(),
        Some(u) => match b {
            None => false,
            Some(w) => is_same(u, w),
        },
    }
}
