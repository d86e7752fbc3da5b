//! The seats of a set of locks.
ghost use Rattle.std.specs.Prelude.{◌≡◌, [], ◌∷◌};
ghost use Rattle.lock_moves.specs.Rests.{first_of_views};

use crate::content::Content;
use crate::view::View;
use atomic_table::{Badge, Seat};
use std::marker::Model;
use std::mem;

// A seat has no bytes.
const _: () = prove!(mem::size_of::<LockSeat>() == 0);

/// A seat at a set of locks: what a thread that works with it knows and holds. It has no bytes.
#[derive(Drop)]
pub struct LockSeat {
    pub(crate) badge: Badge<View>,
}

impl Model for LockSeat {
    ghost use Rattle.lock_moves.specs.SeatSight.{Sitting};

    ghost Value = { Sitting };

    ghost use Rattle.lock_moves.specs.Rests.{sitting_of, Rests};

    ghost view = { λ s. sitting_of s.badge };

    ghost invariant = { λ s. Rests s.badge };
}

// The seat of a badge, which is blank from then on.
pub(crate) fn seated<V>(badge: &mut Badge<View>) -> Seat<Content<V>, View>
    requires { badge.old.views ≡ first_of_views badge.old.views ∷ [] }
    ensures { (result.table_id ≡ badge.old.table_id) × (result.id ≡ badge.old.id)
        × (result.me ≡ (first_of_views badge.old.views, [])) }
{
    mem::replace(badge, Badge::blank()).into_seat()
}
