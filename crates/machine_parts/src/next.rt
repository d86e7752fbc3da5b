//! The next moment of the whole machine.

ghost use Rattle.std.specs.Prelude.{◌≡◌, None, option_map};
ghost use Rattle.sched_base.specs.Numbers.{moment};
ghost use Rattle.sched_model.specs.Machine.{first_enabled_action, next_in_horizon};
ghost use Rattle.journal_core.specs.Parts.{state_under_way};
ghost use Rattle.composition_laws.specs.WholeNext.{leaves_at, leaving_at, number_within};
ghost use Rattle.machine_parts.specs.Places.{state_of};
ghost use Rattle.machine_parts.specs.Parts.{AreNexts, AreParts};

use crate::order::soonest;
use crate::slot::PoolSlot;
use crate::trail::Trail;
use composition_laws::whole::law_whole_next;
use core_state::earlier;
use cpupool::{Move, ToolState};
use sched_base::{Moment, ResId};

/// From when on a core may leave its pool.
fn core_next(slots: &[PoolSlot], tool: &ToolState, trail: &Trail, r: ResId) -> Option<Moment>
    requires parts { AreParts trail.now slots.now tool.now }
    ensures { result ≡ leaves_at trail.now.input.config.granularity (state_of trail.now) r.0 }
{
    match tool.home_of_core(r) {
        None => None,
        Some(i) => slots[usize::from(i.0)].moved_next(r),
    }
}

/// From when on the core that is on its way out of its pool may leave it.
fn leaving_next(slots: &[PoolSlot], tool: &ToolState, trail: &Trail) -> Option<Moment>
    requires parts { AreParts trail.now slots.now tool.now }
    ensures { result ≡ leaving_at trail.now.input.config.granularity (state_of trail.now)
        (state_under_way (state_of trail.now)) }
{
    match tool.moving() {
        Some(Move::Res { r, to: None }) => core_next(slots, tool, trail, r),
        _ => None,
    }
}

/// The moment, where it is not past the horizon.
fn up_to(horizon: Moment, next: Option<Moment>) -> Option<Moment>
    ensures { result ≡ option_map moment (number_within horizon.0 next) }
{
    match next {
        Some(at) if at.0 <= horizon.0 => next,
        _ => None,
    }
}

/// The next moment of the run after t, where nothing may come at t and `nexts` has the least moment of each pool at which an event of it
/// may. `None` where the run is over: nothing more may come up to the horizon.
pub fn whole_next(
    slots: &[PoolSlot],
    tool: &ToolState,
    nexts: &[Option<Moment>],
    trail: &Trail,
    t: Moment,
    horizon: Moment,
) -> Option<Moment>
    requires parts { AreParts trail.now slots.now tool.now }
    requires now { t.0 ≡ (state_of trail.now).now }
    requires nexts { AreNexts slots.now nexts.now }
    requires quiet { first_enabled_action trail.now.input (state_of trail.now) t.0 ≡ None }
    requires horizon { horizon.0 ≡ trail.now.input.config.horizon.0 }
    ensures { result ≡ option_map moment (next_in_horizon trail.now.input (state_of trail.now)) }
{
    law_whole_next();
    let others = earlier(leaving_next(slots, tool, trail), soonest(nexts));
    up_to(horizon, earlier(tool.next_due(t), others))
}
