//! The stalls of the workload. Moments are in nanoseconds.

ghost use Rattle.std.specs.Prelude.{◌≡◌, None, Some, true};
ghost use Rattle.sched_model.specs.declared.action.Action.TheVariants.{Stall};
ghost use Rattle.sched_model.specs.Machine.{event_of, is_action_enabled};
ghost use Rattle.cpupool.specs.Tool.{Tool, tool_of};
ghost use Rattle.machine_parts.specs.Counts.{KeepsCounts};
ghost use Rattle.machine_parts.specs.Places.{StandsAt, state_of};
ghost use Rattle.machine_parts.specs.Parts.{AreParts};
ghost use Rattle.tool_actions.specs.Acts.{HasActedAlone, HasActedOn, told_event};
ghost use Rattle.tool_actions.specs.Stalls.{IsNextStall, one_stall_more};

use cpupool::ToolState;
use machine_parts::{PoolSlot, Trail};
use sched_base::{Moment, ResId};
use sched_model::event::Event;
use sched_model::work::StallLine;

/// The next stall of the workload, on a processor of this pool, whose place this is. The tool has one stall more to its count, which is the
/// caller's to take; every other part is as before.
fn stall_in(slot: &mut PoolSlot, trail: &Trail, place: u8, line: StallLine, t: Moment) -> Event
    requires next { IsNextStall trail.now t.0 line (Some place) }
    requires stands { StandsAt trail.now place slot.old }
    ensures event { result ≡ event_of trail.now.input (state_of trail.now) (state_of trail.now).now
        Stall }
    ensures stands { StandsAt (told_event trail.now t.0 result) place slot.new }
    ensures acted { HasActedOn trail.now place (told_event trail.now t.0 result)
        (one_stall_more (tool_of trail.now.input (state_of trail.now))) }
{
    let until = slot.stall(line.cpu, Moment(t.0 + line.span.0));
    Event::Stall { p: line.cpu, until }
}

/// The same on a processor of a core that no pool has. The tool, which has counted the stall, keeps its end.
fn stall_in_none(tool: &mut ToolState, trail: &Trail, line: StallLine, t: Moment) -> Event
    requires next { IsNextStall trail.now t.0 line None }
    requires counted { tool.old ≡ one_stall_more (tool_of trail.now.input (state_of trail.now)) }
    ensures event { result ≡ event_of trail.now.input (state_of trail.now) (state_of trail.now).now
        Stall }
    ensures acted { HasActedAlone trail.now (told_event trail.now t.0 result) tool.new }
    ensures counts { KeepsCounts tool.old.part tool.new.part }
{
    let until = tool.stall_free(line.cpu, Moment(t.0 + line.span.0));
    Event::Stall { p: line.cpu, until }
}

/// The next stall of the workload, whose moment has come, where `granularity` is the number of a core's processors: the machine's own event, after
/// which the parts are those of the state that the trail leads to with the event's entry added.
pub fn stall(
    slots: &mut [PoolSlot],
    tool: &mut ToolState,
    trail: &Trail,
    granularity: u8,
    t: Moment,
) -> Event
    requires parts { AreParts trail.now slots.old tool.old }
    requires granularity { granularity ≡ trail.now.input.config.granularity }
    requires now { t.0 ≡ (state_of trail.now).now }
    requires enabled { is_action_enabled trail.now.input (state_of trail.now)
        (state_of trail.now).now Stall ≡ true }
    ensures event { result ≡ event_of trail.now.input (state_of trail.now) (state_of trail.now).now
        Stall }
    ensures parts { AreParts (told_event trail.now t.0 result) slots.new tool.new }
    ensures counts { KeepsCounts tool.old.part tool.new.part }
{
    let line = tool.take_stall();
    match tool.home_of_core(ResId(line.cpu.0 / granularity)) {
        None => stall_in_none(tool, trail, line, t),
        Some(i) => stall_in(&mut slots[i.0 as usize], trail, i.0, line, t),
    }
}
