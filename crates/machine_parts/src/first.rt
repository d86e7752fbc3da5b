//! The first action of the whole machine.

ghost use Rattle.std.specs.Prelude.{◌≡◌, ◌≤◌, ◌&&◌, not, is_none, ℕ, List, Option, Some, None, IfNone, IfSome, if◌then◌else◌, length};
ghost use Rattle.sched_model.specs.declared.action.Action.TheVariants.{DomMoved, Moved};
ghost use Rattle.sched_model.specs.declared.machine.Machine.{Machine};
ghost use Rattle.sched_model.specs.declared.state.State.{State};
ghost use Rattle.sched_model.specs.Machine.{enabled_at_home, first_enabled_action, has_move_under_way};
ghost use Rattle.cpupool.specs.Steps.{enabled_event};
ghost use Rattle.cpupool.specs.Tool.{Tool, tool_of};
ghost use Rattle.pool_core.specs.Seen.{Seen};
ghost use Rattle.journal_core.specs.Parts.{state_under_way};
ghost use Rattle.composition_laws.specs.WholeFirst.{first_tool_move, first_tool_action};
ghost use Rattle.machine_parts.specs.Places.{state_of};
ghost use Rattle.machine_parts.specs.Parts.{AreFirsts, AreParts, IsFirstOfPool};
ghost use Rattle.machine_parts.specs.Told.{Told};

use crate::order::{earliest, earliest_place};
use crate::slot::PoolSlot;
use crate::trail::Trail;
use composition_laws::whole::law_whole_first;
use cpupool::{Move, ToolEvent, ToolState};
use sched_base::{DomId, Moment, ResId};
use sched_model::action::Action;

/// The action, where it may come.
fn if_ready(ready: bool, action: Action) -> Option<Action>
    ensures { result ≡ (if ready then Some action else None) }
{
    if ready { Some(action) } else { None }
}

/// Whether a core that is on its way out of its pool may leave it at t.
fn core_ready(slots: &[PoolSlot], tool: &ToolState, trail: &Trail, r: ResId, t: Moment) -> bool
    requires parts { AreParts trail.now slots.now tool.now }
    ensures { result ≡ enabled_at_home trail.now.input (state_of trail.now) t.0 (Moved r) }
{
    match tool.home_of_core(r) {
        None => false,
        Some(i) => slots[usize::from(i.0)].moved_ready(r, t),
    }
}

/// Whether a domain that is on its way may leave its pool.
fn domain_ready(slots: &[PoolSlot], tool: &ToolState, trail: &Trail, d: DomId) -> bool
    requires parts { AreParts trail.now slots.now tool.now }
    ensures { (t : ℕ) → result ≡ enabled_at_home trail.now.input (state_of trail.now) t
        (DomMoved d) }
{
    match tool.home_of_domain(d) {
        None => false,
        Some(i) => slots[usize::from(i.0)].dom_ready(d),
    }
}

/// The move of what is on its way, where it may come at t.
fn move_first(slots: &[PoolSlot], tool: &ToolState, trail: &Trail, t: Moment) -> Option<Action>
    requires parts { AreParts trail.now slots.now tool.now }
    ensures { result ≡ first_tool_move trail.now.input (state_of trail.now) t.0
        (state_under_way (state_of trail.now)) }
{
    match tool.moving() {
        None => None,
        Some(Move::Res { r, to: None }) => if_ready(
            core_ready(slots, tool, trail, r, t),
            Action::Moved(r),
        ),
        Some(Move::Res { r, to: Some(_) }) => if_ready(tool.free_ready(t), Action::Moved(r)),
        Some(Move::Dom { d, .. }) => if_ready(
            domain_ready(slots, tool, trail, d),
            Action::DomMoved(d),
        ),
    }
}

/// The tool's first action that may come at t: the stall, or else the command, or else the move of what is on its way.
pub fn tool_first(slots: &[PoolSlot], tool: &ToolState, trail: &Trail, t: Moment) -> Option<Action>
    requires parts { AreParts trail.now slots.now tool.now }
    ensures { result ≡ first_tool_action trail.now.input (state_of trail.now) t.0 }
{
    match tool.tool_enabled(t) {
        Some(ToolEvent::Stall(_)) => Some(Action::Stall),
        Some(ToolEvent::Command(_)) => Some(Action::Xl),
        None => move_first(slots, tool, trail, t),
    }
}

/// Whether no stall and no command may come at t, and nothing is on its way to another pool. Then the tool does nothing at t, whatever
/// the pools do.
pub fn tool_rests(tool: &ToolState, t: Moment) -> bool
    ensures { (m : Machine) → (s : State) → tool_of m s ≡ tool.now → result
        ≡ (is_none (enabled_event m s t.0) && not (has_move_under_way s)) }
{
    tool.tool_enabled(t).is_none() && tool.moving().is_none()
}

/// The place of the pool of the first action of the machine, and that action, where `firsts` has the first event of each pool that may come at
/// a moment at which no action of the tool may. `None` where nothing may come.
pub fn pools_first(firsts: &[Option<Action>]) -> Option<(u8, Action)>
    requires few { length firsts.now ≤ 16 }
    ensures none { IfNone result ((w : Told) → (slots : List (Option Seen)) → (tool : Tool)
        → (t : ℕ) → AreParts w slots tool → AreFirsts t slots firsts.now
        → first_tool_action w.input (state_of w) t ≡ None
        → first_enabled_action w.input (state_of w) t ≡ None) }
    ensures some { IfSome result (λ found. (w : Told) → (slots : List (Option Seen)) → (tool : Tool)
        → (t : ℕ) → AreParts w slots tool → AreFirsts t slots firsts.now
        → first_tool_action w.input (state_of w) t ≡ None
        → IsFirstOfPool w t found.0 found.1) }
{
    law_whole_first();
    match earliest_place(firsts) {
        None => None,
        Some((place, action)) => Some((place as u8, action)),
    }
}

/// The first action of the machine that may come at t, where `firsts` has the first event of each pool that may. `None` where nothing
/// may come.
pub fn whole_first(
    slots: &[PoolSlot],
    tool: &ToolState,
    firsts: &[Option<Action>],
    trail: &Trail,
    t: Moment,
) -> Option<Action>
    requires parts { AreParts trail.now slots.now tool.now }
    requires firsts { AreFirsts t.0 slots.now firsts.now }
    ensures { result ≡ first_enabled_action trail.now.input (state_of trail.now) t.0 }
{
    law_whole_first();
    match tool_first(slots, tool, trail, t) {
        Some(action) => Some(action),
        None => earliest(firsts),
    }
}
