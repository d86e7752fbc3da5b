//! One act of the tool, whichever it is.

ghost use Rattle.std.specs.Prelude.{◌≡◌, true, false, None};
ghost use Rattle.sched_model.specs.declared.action.Action.TheVariants as actions;
ghost use Rattle.sched_model.specs.Machine.{is_action_enabled, event_of};
ghost use Rattle.machine_parts.specs.Counts.{AreSpares};
ghost use Rattle.machine_parts.specs.Places.{state_of};
ghost use Rattle.machine_parts.specs.Parts.{AreParts, event_pool};
ghost use Rattle.tool_actions.specs.Acts.{told_event};

use crate::commands::command;
use crate::cores::move_core;
use crate::domains::move_domain;
use crate::stalls::stall;
use cpupool::ToolState;
use machine_parts::{PoolSlot, Spares, Trail};
use sched_base::{DomId, Moment, ResId};
use sched_model::action::Action;
use sched_model::event::Event;

/// An action of the tool that may come at t: a stall, a command where no stall may come, or the move of what is on its
/// way. A core has so many processors.
pub fn act_of_tool(
    slots: &mut [PoolSlot],
    tool: &mut ToolState,
    spares: &mut Spares,
    trail: &Trail,
    granularity: u8,
    action: Action,
    t: Moment,
) -> Event
    requires parts { AreParts trail.now slots.old tool.old }
    requires granularity { granularity ≡ trail.now.input.config.granularity }
    requires now { t.0 ≡ (state_of trail.now).now }
    requires enabled { is_action_enabled trail.now.input (state_of trail.now)
        (state_of trail.now).now action ≡ true }
    requires first { action ≡ actions.Xl →
        is_action_enabled trail.now.input (state_of trail.now) (state_of trail.now).now
        actions.Stall ≡ false }
    requires spares { AreSpares trail.now.input t.0 tool.old.part spares.old }
    requires no_pool { event_pool trail.now.input.config.granularity (state_of trail.now) action
        ≡ None }
    ensures event { result ≡ event_of trail.now.input (state_of trail.now) (state_of trail.now).now
        action }
    ensures parts { AreParts (told_event trail.now t.0 result) slots.new tool.new }
    ensures spares { AreSpares trail.now.input t.0 tool.new.part spares.new }
{
    match action {
        Action::Stall => stall(slots, tool, trail, granularity, t),
        Action::Xl => command(slots, tool, spares, trail, t),
        Action::Moved(r) => move_core(slots, tool, trail, r, t),
        Action::DomMoved(d) => move_domain(slots, tool, trail, d, t),
        _ => unreachable!(),
    }
}
