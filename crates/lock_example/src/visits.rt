//! A seat that takes a lock and puts it back.

ghost use Rattle.std.specs.Prelude.{◌≡◌, true};
ghost use Rattle.journal_core.specs.Parts.{lists};
ghost use Rattle.lock_moves.specs.Words.{name_number};
ghost use Rattle.lock_example.specs.Example.{part_after};
ghost use Rattle.lock_example.specs.Visits.{CanVisit, IsBack};

use crate::counter::Counter;
use lock_moves::{LockSeat, LockSet, NameId};
use std::sync::Wait;

/// Takes the lock of the name, looks at the part, and puts it back. The answer is the lock's number and the count, whose part lists the name.
pub fn visit<R: Wait>(rt: &R, set: &LockSet<Counter>, seat: &mut LockSeat, name: NameId) -> (u8, u8)
    requires can { CanVisit set.now name seat.old }
    ensures back { IsBack seat.old seat.new }
    ensures lists { lists (part_after result.0 result.1) (name_number name) ≡ true }
{
    let held = set.lock_of(rt, seat, name);
    let seen = (held.get().lock, held.get().count);
    set.unlock(seat, held);
    seen
}
