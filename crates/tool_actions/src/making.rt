//! Pools that commands make and destroy.

ghost use Rattle.std.specs.Prelude.{◌≡◌, ◌<◌, None, length};
ghost use Rattle.std.specs.List.{All};
ghost use Rattle.std.specs.Option.{ForSome, IsSome};
ghost use Rattle.machine_parts.specs.Places.{GoesOn, StandsAt, state_of};
ghost use Rattle.machine_parts.specs.Spares.{IsSpare, shelf_of};
ghost use Rattle.tool_actions.specs.MadePools.{HasGone, HasMade, MayGo};

use machine_parts::{PoolSlot, Spares, Trail};
use sched_model::config::SchedKind;
use scheduler_records::params::default_pool_params;

/// A spare pool of the scheduler comes to the place, which is empty, with default parameters.
pub(crate) fn create(slot: &mut PoolSlot, spares: &mut Spares, trail: &Trail, kind: SchedKind)
    requires empty { slot.old ≡ None }
    requires some { 0 < length (shelf_of kind spares.old).pools }
    requires suit { All (IsSpare trail.now.input (state_of trail.now).now kind)
        (shelf_of kind spares.old).pools }
    ensures { HasMade trail.now.input (state_of trail.now).now kind spares.old spares.new slot.new }
{
    let spare = spares.take(kind);
    slot.open_with(trail, spare, &default_pool_params(kind));
}

/// The pool of this place, which has this scheduler and neither a domain nor a core, becomes a spare one.
pub(crate) fn destroy(
    slot: &mut PoolSlot,
    spares: &mut Spares,
    trail: &Trail,
    place: u8,
    kind: SchedKind,
)
    requires goes { GoesOn trail.now }
    requires stands { StandsAt trail.now place slot.old }
    requires some { IsSome slot.old }
    requires goes_out { ForSome slot.old (MayGo kind spares.old) }
    ensures { HasGone trail.now.input (state_of trail.now).now kind spares.old spares.new slot.new }
{
    let pool = slot.shut(trail, place);
    spares.give(kind, pool);
}
