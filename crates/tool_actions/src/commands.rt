//! The next command of the workload: judged by what the tool knows, and carried out on the places of the pools where it is accepted.

ghost use Rattle.std.specs.Prelude.{◌≡◌, None, true, false, option_map, suc};
ghost use Rattle.std.specs.Option.{ForSome, IsSome};
ghost use Rattle.sched_base.specs.Numbers.{pool as pool_number};
ghost use Rattle.sched_model.specs.declared.action.Action.TheVariants.{Stall, Xl};
ghost use Rattle.sched_model.specs.Commands.{plan_pool};
ghost use Rattle.sched_model.specs.Machine.{event_of, is_action_enabled};
ghost use Rattle.sched_model.specs.Places.{at_place};
ghost use Rattle.sched_model.specs.Policy.{records_kind};
ghost use Rattle.cpupool.specs.Tool.{tool_of};
ghost use Rattle.machine_parts.specs.Counts.{AreSpares};
ghost use Rattle.machine_parts.specs.Places.{state_of};
ghost use Rattle.machine_parts.specs.Parts.{AreParts};
ghost use Rattle.tool_actions.specs.Acts.{told_event};
ghost use Rattle.tool_actions.specs.CarriedPlans.{IsAccepted, KeepsPools, xl_told};
ghost use Rattle.tool_actions.specs.MadePools.{DestroysPool, MakesPool};

use crate::carrying::carry_among;
use crate::making::{create, destroy};
use crate::verdicts::{judged, verdict_of};
use cpupool::judge::reply_of;
use cpupool::{ToolEvent, ToolState};
use machine_parts::{PoolSlot, Spares, Trail};
use sched_base::{Moment, PoolId};
use sched_model::command::{Command, Which};
use sched_model::config::SchedKind;
use sched_model::event::{Event, Reply};
use sched_model::plan::Plan;

/// The pool whose cores are looked at after the command: the one that it names, or the home of the domain that it names.
fn home_of_plan(tool: &ToolState, trail: &Trail, plan: &Plan) -> Option<PoolId>
    requires known { tool_of trail.now.input (state_of trail.now) ≡ tool.now }
    ensures { result ≡ option_map pool_number (plan_pool (state_of trail.now) plan.now) }
{
    match plan {
        Plan::PoolList { pool, .. } => *pool,
        Plan::PoolCreate { pool, .. } => Some(*pool),
        Plan::PoolDestroy { pool, .. } => Some(*pool),
        Plan::PoolRename { pool, .. } => Some(*pool),
        Plan::CpuAdd { pool, .. } => Some(*pool),
        Plan::CpuRemove { pool, .. } => Some(*pool),
        Plan::Migrate { from, .. } => Some(*from),
        Plan::Credit2Dom { dom, .. } => tool.home_of_domain(*dom),
        Plan::Credit2Pool { pool, .. } => Some(*pool),
        Plan::RtdsDom { dom, .. } => tool.home_of_domain(*dom),
        Plan::Pause { dom, .. } => tool.home_of_domain(*dom),
        Plan::Unpause { dom, .. } => tool.home_of_domain(*dom),
        Plan::ArincSet { pool, .. } => Some(*pool),
        Plan::Pin { dom, .. } => tool.home_of_domain(*dom),
    }
}

/// The scheduler of this pool, as the command that lists it tells.
fn kind_of(slots: &[PoolSlot], tool: &ToolState, trail: &Trail, place: PoolId) -> SchedKind
    requires parts { AreParts trail.now slots.now tool.now }
    requires there { IsSome (at_place (state_of trail.now).pools place.0) }
    ensures { ForSome (at_place (state_of trail.now).pools place.0)
        (λ pool. result ≡ records_kind pool.scheduler.records) }
{
    let list = Command::PoolList {
        pool: Some(Which::Number(u64::from(place.0))),
    };
    match judged(slots, tool, trail, &list) {
        Ok(
            Plan::PoolList {
                reply: Reply::Pool { kind, .. },
                ..
            },
        ) => kind,
        _ => unreachable!(),
    }
}

/// The next command is accepted, and makes a pool of this scheduler at this place.
fn accept_new(
    slots: &mut [PoolSlot],
    tool: &mut ToolState,
    spares: &mut Spares,
    trail: &Trail,
    plan: &Plan,
    pool: PoolId,
    kind: SchedKind,
)
    requires parts { AreParts trail.now slots.old tool.old }
    requires enabled { is_action_enabled trail.now.input (state_of trail.now)
        (state_of trail.now).now Xl ≡ true }
    requires accepted { IsAccepted trail.now plan.now }
    requires makes { MakesPool plan.now pool kind }
    requires spares { AreSpares trail.now.input (state_of trail.now).now tool.old.part spares.old }
    ensures parts { AreParts (xl_told trail.now) slots.new tool.new }
    ensures spares { AreSpares trail.now.input (state_of trail.now).now tool.new.part spares.new }
{
    create(&mut slots[pool.0 as usize], spares, trail, kind);
    tool.advance(plan);
}

/// The next command is accepted, and destroys the pool of this place.
fn accept_end(
    slots: &mut [PoolSlot],
    tool: &mut ToolState,
    spares: &mut Spares,
    trail: &Trail,
    plan: &Plan,
    pool: PoolId,
)
    requires parts { AreParts trail.now slots.old tool.old }
    requires enabled { is_action_enabled trail.now.input (state_of trail.now)
        (state_of trail.now).now Xl ≡ true }
    requires accepted { IsAccepted trail.now plan.now }
    requires destroys { DestroysPool plan.now pool }
    requires spares { AreSpares trail.now.input (state_of trail.now).now tool.old.part spares.old }
    ensures parts { AreParts (xl_told trail.now) slots.new tool.new }
    ensures spares { AreSpares trail.now.input (state_of trail.now).now tool.new.part spares.new }
{
    let kind = kind_of(slots, tool, trail, pool);
    destroy(&mut slots[pool.0 as usize], spares, trail, pool.0, kind);
    tool.advance(plan);
}

/// The next command is accepted, and neither makes nor destroys a pool.
fn accept_change(slots: &mut [PoolSlot], tool: &mut ToolState, trail: &Trail, plan: Plan, t: Moment)
    requires parts { AreParts trail.now slots.old tool.old }
    requires now { t.0 ≡ (state_of trail.now).now }
    requires enabled { is_action_enabled trail.now.input (state_of trail.now)
        (state_of trail.now).now Xl ≡ true }
    requires accepted { IsAccepted trail.now plan }
    requires keeps { KeepsPools plan }
    ensures parts { AreParts (xl_told trail.now) slots.new tool.new }
    ensures pools { tool.new.part.pools ≡ tool.old.part.pools }
    ensures over { tool.new.part.next_command ≡ suc tool.old.part.next_command }
{
    let home = home_of_plan(tool, trail, &plan);
    tool.advance(&plan);
    carry_among(slots, trail, home, plan, t);
}

/// The next command is accepted, with this plan.
fn accept(
    slots: &mut [PoolSlot],
    tool: &mut ToolState,
    spares: &mut Spares,
    trail: &Trail,
    plan: Plan,
    t: Moment,
)
    requires parts { AreParts trail.now slots.old tool.old }
    requires now { t.0 ≡ (state_of trail.now).now }
    requires enabled { is_action_enabled trail.now.input (state_of trail.now)
        (state_of trail.now).now Xl ≡ true }
    requires accepted { IsAccepted trail.now plan }
    requires spares { AreSpares trail.now.input (state_of trail.now).now tool.old.part spares.old }
    ensures parts { AreParts (xl_told trail.now) slots.new tool.new }
    ensures spares { AreSpares trail.now.input (state_of trail.now).now tool.new.part spares.new }
{
    match plan {
        Plan::PoolCreate { pool, kind, .. } => {
            accept_new(slots, tool, spares, trail, &plan, pool, kind);
        }
        Plan::PoolDestroy { pool, .. } => accept_end(slots, tool, spares, trail, &plan, pool),
        _ => accept_change(slots, tool, trail, plan, t),
    }
}

/// The next command of the workload, whose moment has come, and which is the line of this index, from 0: the machine's own event, after
/// which the parts stand where the trail leads with the entry added. A refused command changes no pool.
pub fn command_at(
    slots: &mut [PoolSlot],
    tool: &mut ToolState,
    spares: &mut Spares,
    trail: &Trail,
    line: u32,
    t: Moment,
) -> Event
    requires parts { AreParts trail.now slots.old tool.old }
    requires now { t.0 ≡ (state_of trail.now).now }
    requires enabled { is_action_enabled trail.now.input (state_of trail.now)
        (state_of trail.now).now Xl ≡ true }
    requires number { line ≡ (state_of trail.now).next_command }
    requires spares { AreSpares trail.now.input t.0 tool.old.part spares.old }
    ensures event { result ≡ event_of trail.now.input (state_of trail.now) (state_of trail.now).now
        Xl }
    ensures parts { AreParts (told_event trail.now t.0 result) slots.new tool.new }
    ensures spares { AreSpares trail.now.input t.0 tool.new.part spares.new }
{
    match verdict_of(slots, tool, trail, tool.command(line)) {
        Err(fault) => {
            tool.refuse();
            Event::Xl {
                k: line + 1,
                reply: Err(fault),
            }
        }
        Ok(plan) => {
            let reply = reply_of(&plan);
            accept(slots, tool, spares, trail, plan, t);
            Event::Xl {
                k: line + 1,
                reply: Ok(reply),
            }
        }
    }
}

/// The same, where no stall may come before the command, so that the tool tells which line is the next.
pub fn command(
    slots: &mut [PoolSlot],
    tool: &mut ToolState,
    spares: &mut Spares,
    trail: &Trail,
    t: Moment,
) -> Event
    requires parts { AreParts trail.now slots.old tool.old }
    requires now { t.0 ≡ (state_of trail.now).now }
    requires enabled { is_action_enabled trail.now.input (state_of trail.now)
        (state_of trail.now).now Xl ≡ true }
    requires first { is_action_enabled trail.now.input (state_of trail.now) (state_of trail.now).now
        Stall ≡ false }
    requires spares { AreSpares trail.now.input t.0 tool.old.part spares.old }
    ensures event { result ≡ event_of trail.now.input (state_of trail.now) (state_of trail.now).now
        Xl }
    ensures parts { AreParts (told_event trail.now t.0 result) slots.new tool.new }
    ensures spares { AreSpares trail.now.input t.0 tool.new.part spares.new }
{
    let Some(ToolEvent::Command(k)) = tool.tool_enabled(t) else {
        unreachable!();
    };
    command_at(slots, tool, spares, trail, k, t)
}
