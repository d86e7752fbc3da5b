//! Cores that move: from no pool to the one to which they are on their way, or from a pool to none. Moments are in nanoseconds.

ghost use Rattle.std.specs.Prelude.{◌≡◌, None, Some};
ghost use Rattle.sched_model.specs.declared.action.Action.TheVariants.{Moved};
ghost use Rattle.sched_model.specs.Actions.{home_pool_of_core};
ghost use Rattle.sched_model.specs.Machine.{event_of};
ghost use Rattle.journal_core.specs.Parts.{core_to};
ghost use Rattle.machine_parts.specs.Counts.{KeepsCounts};
ghost use Rattle.machine_parts.specs.Places.{StandsAt, state_of};
ghost use Rattle.tool_actions.specs.Acts.{Begins, HasActedOn, HasMoved, MayMove, told_event};

use cpupool::{Move, ToolState};
use machine_parts::{PoolSlot, Trail};
use sched_base::{Moment, PoolId, ResId};
use sched_model::event::Event;

/// A core of no pool joins the pool to which it is on its way, whose place this is. Every other part but the tool's is as before.
fn join_core(
    slot: &mut PoolSlot,
    tool: &mut ToolState,
    trail: &Trail,
    r: ResId,
    pool: PoolId,
    t: Moment,
) -> Event
    requires begins { Begins trail.now tool.old t.0 (Moved r) }
    requires way { tool.old.part.under_way ≡ Some (core_to r.0 (Some pool.0)) }
    requires stands { StandsAt trail.now pool.0 slot.old }
    ensures event { result ≡ event_of trail.now.input (state_of trail.now) (state_of trail.now).now
        (Moved r) }
    ensures stands { StandsAt (told_event trail.now t.0 result) pool.0 slot.new }
    ensures acted { HasActedOn trail.now pool.0 (told_event trail.now t.0 result) tool.new }
    ensures counts { KeepsCounts tool.old.part tool.new.part }
{
    let core = tool.take_free(r);
    slot.attach(&core, t);
    tool.move_done();
    Event::Moved { r, to: Some(pool) }
}

/// A core leaves this pool, whose place this is, and is one of no pool then. Every other part but the tool's is as before.
fn leave_core(
    slot: &mut PoolSlot,
    tool: &mut ToolState,
    trail: &Trail,
    r: ResId,
    pool: PoolId,
    t: Moment,
) -> Event
    requires begins { Begins trail.now tool.old t.0 (Moved r) }
    requires way { tool.old.part.under_way ≡ Some (core_to r.0 None) }
    requires home { home_pool_of_core (state_of trail.now) r.0 ≡ Some pool.0 }
    requires stands { StandsAt trail.now pool.0 slot.old }
    ensures event { result ≡ event_of trail.now.input (state_of trail.now) (state_of trail.now).now
        (Moved r) }
    ensures stands { StandsAt (told_event trail.now t.0 result) pool.0 slot.new }
    ensures acted { HasActedOn trail.now pool.0 (told_event trail.now t.0 result) tool.new }
    ensures counts { KeepsCounts tool.old.part tool.new.part }
{
    let core = slot.detach(r, t);
    tool.give_free(core);
    tool.move_done();
    Event::Moved { r, to: None }
}

/// The core that is on its way moves, at a moment at which it may: the machine's own event, after which the parts are those of the state
/// that the trail leads to with the event's entry added.
pub fn move_core(
    slots: &mut [PoolSlot],
    tool: &mut ToolState,
    trail: &Trail,
    r: ResId,
    t: Moment,
) -> Event
    requires { MayMove trail.now slots.old tool.old t.0 (Moved r) }
    ensures { HasMoved trail.now t.0 (Moved r) result slots.new tool.old tool.new }
{
    match tool.moving() {
        Some(Move::Res { to: Some(i), .. }) => join_core(
            &mut slots[i.0 as usize],
            tool,
            trail,
            r,
            i,
            t,
        ),
        Some(Move::Res { to: None, .. }) => {
            let Some(home) = tool.home_of_core(r) else {
                unreachable!();
            };
            leave_core(&mut slots[home.0 as usize], tool, trail, r, home, t)
        }
        Some(Move::Dom { .. }) => unreachable!(),
        None => unreachable!(),
    }
}
