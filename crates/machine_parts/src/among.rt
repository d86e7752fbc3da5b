//! The places of all pools of a machine, of which one acts.

ghost use Rattle.std.specs.Prelude.{◌≡◌, ◌≢◌, ℕ, true, Some};
ghost use Rattle.sched_model.specs.Actions.{IsOfPool, home_pool_of_action};
ghost use Rattle.sched_model.specs.Machine.{is_action_enabled, event_of, after};
ghost use Rattle.sched_model.specs.Places.{at_place};
ghost use Rattle.machine_parts.specs.Told.{told_more};
ghost use Rattle.machine_parts.specs.Places.{AllStand, GoesOn, HasStepped, state_of};

use crate::slot::PoolSlot;
use crate::trail::Trail;
use sched_base::Moment;
use sched_model::action::Action;
use sched_model::event::Event;

/// An event of this pool, written in its place, where each of the 16 places is the part of its number in the machine, which stands where the trail leads. After
/// it all places stand where the trail leads with the entry added, and the other places are as they were.
pub fn perform_among(
    slots: &mut [PoolSlot],
    trail: &Trail,
    place: u8,
    action: Action,
    t: Moment,
    out: &mut Event,
)
    requires goes { GoesOn trail.now }
    requires now { t.0 ≡ (state_of trail.now).now }
    requires stand { AllStand trail.now slots.old }
    requires own { IsOfPool action }
    requires enabled { is_action_enabled trail.now.input (state_of trail.now)
        (state_of trail.now).now action ≡ true }
    requires home { home_pool_of_action trail.now.input.config.granularity (state_of trail.now)
        action ≡ Some place }
    ensures event { out.new ≡ event_of trail.now.input (state_of trail.now)
        (state_of trail.now).now action }
    ensures state { state_of (told_more trail.now (record { at = t; event = out.new }))
        ≡ after trail.now.input (state_of trail.now) (state_of trail.now).now action }
    ensures step { HasStepped trail.now place (told_more trail.now
        (record { at = t; event = out.new })) }
    ensures stand { AllStand (told_more trail.now (record { at = t; event = out.new })) slots.new }
    ensures others { (k : ℕ) → k ≢ place → at_place slots.new k ≡ at_place slots.old k }
{
    slots[place as usize].perform_into(trail, place, action, t, out);
}
