//! The commands of the workload: judged by what the tool keeps, and carried out where they are accepted.

ghost use Rattle.std.specs.Prelude.{◌≡◌, ◌≤◌, ℕ, Some, Ok, true, length, slice_get};
ghost use Rattle.sched_laws.specs.EachPlace.{EachPlace};
ghost use Rattle.sched_model.specs.declared.action.Action.TheVariants as actions;
ghost use Rattle.sched_model.specs.CheckedMachine.{IsCheckedCommand, most_span};
ghost use Rattle.sched_model.specs.Commands.{judged_command, plan_pool};
ghost use Rattle.sched_model.specs.Machine.{is_action_enabled, event_of, after, settled_at, line_verdict};
ghost use Rattle.sched_model.specs.Places.{change_at};
ghost use Rattle.sched_model.specs.Pool.{settled_pool};
ghost use Rattle.cpupool.specs.Tool.{KnowsMachine};
ghost use Rattle.sched_plain.specs.CommandList.{HasSpares, IsAccepted};
ghost use Rattle.sched_plain.specs.Fits.{PoolFitsAt};
ghost use Rattle.sched_plain.specs.ReachedStates.{Stands};

use crate::homes::home_of_domain;
use cpupool::ToolState;
use cpupool::judge::reply_of;
use plain_commands::carry::carry_out;
use plain_commands::facts::facts_at;
use plain_pool::settle::settle;
use sched_base::Moment;
use sched_model::command::Command;
use sched_model::event::{Event, Refusal};
use sched_model::machine::Machine;
use sched_model::plan::Plan;
use sched_model::row::Row;
use sched_model::state::{Pool, State};
use sched_model::work::CommandLine;

/// The pool whose cores are looked at after the command: the one that it names, or the home of the domain that it names.
fn pool_of_plan(state: &State, plan: &Plan) -> Option<usize>
    requires { length state.now.pools ≤ 16 }
    ensures { result ≡ plan_pool state.entry.now plan.now }
{
    match plan {
        Plan::PoolList { pool: None, .. } => None,
        Plan::PoolList { pool: Some(i), .. } => Some(i.0 as usize),
        Plan::PoolCreate { pool, .. } => Some(pool.0 as usize),
        Plan::PoolDestroy { pool, .. } => Some(pool.0 as usize),
        Plan::PoolRename { pool, .. } => Some(pool.0 as usize),
        Plan::CpuAdd { pool, .. } => Some(pool.0 as usize),
        Plan::CpuRemove { pool, .. } => Some(pool.0 as usize),
        Plan::Migrate { from, .. } => Some(from.0 as usize),
        Plan::Credit2Dom { dom, .. } => home_of_domain(state, *dom),
        Plan::Credit2Pool { pool, .. } => Some(pool.0 as usize),
        Plan::RtdsDom { dom, .. } => home_of_domain(state, *dom),
        Plan::Pause { dom, .. } => home_of_domain(state, *dom),
        Plan::Unpause { dom, .. } => home_of_domain(state, *dom),
        Plan::ArincSet { pool, .. } => Some(pool.0 as usize),
        Plan::Pin { dom, .. } => home_of_domain(state, *dom),
    }
}

/// What the command will do, or why it is refused.
fn judged(
    machine: &Machine,
    state: &State,
    command: &Command,
    tool: &mut ToolState,
) -> Result<Plan, Refusal>
    requires stands { Stands machine.now state.now }
    requires command { IsCheckedCommand command.now }
    requires tool { KnowsMachine machine.now tool.old }
    ensures verdict { result ≡ judged_command machine.now state.entry.now command.now }
    ensures tool { KnowsMachine machine.now tool.new }
{
    tool.read(state);
    let subject = tool.subject(command);
    let facts = facts_at(machine.config.granularity, state, subject);
    tool.judge(command, &facts)
}

/// What is answered to the next line with a command.
pub(crate) fn verdict(
    machine: &Machine,
    state: &State,
    line: &CommandLine,
    tool: &mut ToolState,
) -> Result<Plan, Refusal>
    requires stands { Stands machine.now state.now }
    requires next { slice_get machine.now.work.commands state.now.next_command ≡ Some line.now }
    requires tool { KnowsMachine machine.now tool.old }
    ensures verdict { result ≡ line_verdict machine.now state.entry.now line.now }
    ensures tool { KnowsMachine machine.now tool.new }
{
    match &line.command {
        Err(fault) => Err(Refusal::Syntax {
            place: u64::from(fault.place),
        }),
        Ok(c) => judged(machine, state, c, tool),
    }
}

/// The cores of the pool with this number are looked at.
fn settle_pool(t: Moment, index: usize, pools: &mut Row<Option<Pool>>)
    requires early { t.0 ≤ most_span }
    requires fits { EachPlace (PoolFitsAt t.0) pools.old }
    ensures { pools.new ≡ change_at index (settled_pool t.0) pools.old }
{
    if let Some(place) = pools.get_mut(index)
        && let Some(pool) = place
    {
        settle(t, pool);
    }
}

/// The same, where there is one.
fn settle_at(t: Moment, home: Option<usize>, state: &mut State)
    requires early { t.0 ≤ most_span }
    requires fits { EachPlace (PoolFitsAt t.0) state.old.pools }
    ensures { state.new ≡ settled_at t.0 home state.old }
{
    if let Some(i) = home {
        settle_pool(t, i, &mut state.pools);
    }
}

/// The next command, which is accepted with this plan, is over and carried out, and the cores of its pool are looked at.
fn accept(machine: &Machine, plan: Plan, state: &mut State, spares: &mut Row<Option<Pool>>)
    requires stands { Stands machine.now state.old }
    requires enabled { is_action_enabled machine.now state.old state.old.now actions.Xl ≡ true }
    requires accepted { IsAccepted machine.now state.old plan }
    requires spares { HasSpares machine.now state.old.next_command spares.old }
    ensures state { state.new ≡ after machine.now state.old state.old.now actions.Xl }
    ensures spares { HasSpares machine.now state.new.next_command spares.new }
{
    let t = state.now;
    let k = state.next_command as usize;
    let home = pool_of_plan(state, &plan);
    state.next_command += 1;
    carry_out(machine, Moment(t), k, plan, home, state, spares);
    settle_at(Moment(t), home, state);
}

/// The next command of the workload, whose moment has come.
pub fn command(
    machine: &Machine,
    state: &mut State,
    tool: &mut ToolState,
    spares: &mut Row<Option<Pool>>,
) -> Event
    requires stands { Stands machine.now state.old }
    requires enabled { is_action_enabled machine.now state.old state.old.now actions.Xl ≡ true }
    requires tool { KnowsMachine machine.now tool.old }
    requires spares { HasSpares machine.now state.old.next_command spares.old }
    ensures event { result ≡ event_of machine.now state.old state.old.now actions.Xl }
    ensures state { state.new ≡ after machine.now state.old state.old.now actions.Xl }
    ensures tool { KnowsMachine machine.now tool.new }
    ensures spares { HasSpares machine.now state.new.next_command spares.new }
{
    let Some(line) = machine
        .work
        .commands
        .as_slice()
        .get(state.next_command as usize)
    else {
        unreachable!();
    };
    let k = state.next_command + 1;
    match verdict(machine, state, line, tool) {
        Err(fault) => {
            state.next_command = k;
            Event::Xl {
                k,
                reply: Err(fault),
            }
        }
        Ok(plan) => {
            let reply = reply_of(&plan);
            accept(machine, plan, state, spares);
            Event::Xl {
                k,
                reply: Ok(reply),
            }
        }
    }
}
