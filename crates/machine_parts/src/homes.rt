//! The pool that an event is of, told by the tool.

ghost use Rattle.std.specs.Prelude.{◌≡◌, ◌<◌, ◌/◌, option_map};
ghost use Rattle.sched_base.specs.Numbers.{pool as pool_number};
ghost use Rattle.sched_model.specs.declared.machine.Machine.{Machine};
ghost use Rattle.sched_model.specs.declared.state.State.{State};
ghost use Rattle.sched_model.specs.Actions.{home_pool_of_core};
ghost use Rattle.cpupool.specs.Tool.{tool_of};
ghost use Rattle.machine_parts.specs.Parts.{event_pool};

use cpupool::ToolState;
use sched_base::{DomId, PoolId, ProcId, ResId};
use sched_model::action::Action;

/// The pool that has the core of the processor, where one has it. A core has so many processors.
fn home_of_processor(tool: &ToolState, granularity: u8, p: ProcId) -> Option<PoolId>
    requires some { 0 < granularity }
    ensures { (m : Machine) → (s : State) → tool_of m s ≡ tool.now → result
        ≡ option_map pool_number (home_pool_of_core s (p.0 / granularity)) }
{
    tool.home_of_core(ResId(p.0 / granularity))
}

/// The pool that the event is of, where one has its subject; none of an action of the tool. A core has so many processors.
pub fn pool_of_event(tool: &ToolState, granularity: u8, action: Action) -> Option<PoolId>
    requires some { 0 < granularity }
    ensures { (m : Machine) → (s : State) → tool_of m s ≡ tool.now → result
        ≡ option_map pool_number (event_pool granularity s action) }
{
    match action {
        Action::Stall | Action::Xl | Action::Moved(_) | Action::DomMoved(_) => None,
        Action::Wake(v) => tool.home_of_domain(v.dom),
        Action::Repl(u) => tool.home_of_domain(u.dom),
        Action::Refill(d) => tool.home_of_domain(d),
        Action::Slice(r) | Action::Decide(r) | Action::Save(r) => tool.home_of_core(r),
        Action::Block(p) | Action::Arrive(p) | Action::Leave(p) => {
            home_of_processor(tool, granularity, p)
        }
    }
}
