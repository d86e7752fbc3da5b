//! The plain machine: a machine and the state that it stands in.

ghost use Rattle.std.specs.Prelude.{◌≡◌, IfOk};
ghost use Rattle.cpupool.specs.Tool.{tool_of};
ghost use Rattle.plain_opening.specs.OpeningPool.{spares_of};
ghost use Rattle.sched_model.specs.CheckedMachine.{IsChecked};
ghost use Rattle.sched_model.specs.Opening.{opening};

use crate::enabled::is_enabled;
use crate::first::first_by_guess;
use crate::floors::{Outlook, pass};
use crate::perform::perform;
use crate::scan::first_enabled;
use crate::settled::Settled;
use crate::soonest::next_turn;
use cpupool::ToolState;
use plain_opening::opening::open_state;
use plain_opening::spare::open_spares;
use sched_base::{Moment, NoMemory, ProcId};
use sched_model::action::Action;
use sched_model::event::Event;
use sched_model::machine::Machine;
use sched_model::row::Row;
use sched_model::state::{Pool, State};
use std::alloc::Global;
use std::marker::Model;

/// A machine, and the state that it stands in. Contracts see both.
///
/// It keeps the state as the definitions have it and scans it at each call. All memory is taken when it is opened, that of the
/// pools that commands make too: each of these is among the spares, at its command's place, until the command is accepted.
#[derive(Drop)]
pub struct Plain {
    machine: Machine,
    state: State,
    tool: ToolState,
    spares: Row<Option<Pool>>,
    settled: Settled,
    outlook: Option<Outlook>,
}

impl Model for Plain {
    ghost use Rattle.sched_model.specs.Standing.{Standing};

    ghost Value = { Standing };

    ghost use Rattle.cpupool.specs.Tool.{KnowsMachine};
    ghost use Rattle.sched_plain.specs.CommandList.{HasSpares};
    ghost use Rattle.sched_plain.specs.ReachedStates.{Stands};
    ghost use Rattle.sched_plain.specs.Outlooks.{IsSeenIf};
    ghost use Rattle.sched_plain.specs.SettledPools.{AreSettled};

    ghost view = { λ p. record { machine = p.machine; state = p.state } };

    ghost invariant = { λ p. Stands p.machine p.state × KnowsMachine p.machine p.tool
        × HasSpares p.machine p.state.next_command p.spares
        × AreSettled p.state.now p.state.pools p.settled
        × IsSeenIf p.machine p.state p.outlook };
}

/// The state of a machine at its opening, and what its tool knows then.
fn open_states(alloc: Global, machine: &Machine) -> Result<(State, ToolState), NoMemory>
    requires { IsChecked machine.now }
    ensures state { IfOk result (λ r. r.0 ≡ opening machine.now) }
    ensures tool { IfOk result (λ r. r.1 ≡ tool_of machine.now (opening machine.now)) }
{
    let state = open_state(alloc, machine)?;
    match ToolState::open(alloc, &machine.config, &machine.work) {
        Ok(tool) => Ok((state, tool)),
        Err(full) => {
            drop(state);
            Err(full)
        }
    }
}

/// All that stands beside the machine.
fn open_beside(
    alloc: Global,
    machine: &Machine,
) -> Result<(State, ToolState, Row<Option<Pool>>), NoMemory>
    requires { IsChecked machine.now }
    ensures state { IfOk result (λ r. r.0 ≡ opening machine.now) }
    ensures tool { IfOk result (λ r. r.1 ≡ tool_of machine.now (opening machine.now)) }
    ensures spares { IfOk result (λ r. r.2 ≡ spares_of machine.now) }
{
    let (state, tool) = open_states(alloc, machine)?;
    match open_spares(alloc, machine) {
        Ok(spares) => Ok((state, tool, spares)),
        Err(full) => {
            drop(state);
            drop(tool);
            Err(full)
        }
    }
}

impl Plain {
    ghost use Rattle.std.specs.Prelude.{◌≡◌, true, suc, None, Some, IfOk, option_map, slice_get};
    ghost use Rattle.sched_model.specs.declared.work.StallLine.{StallLine};
    ghost use Rattle.sched_base.specs.Numbers.{moment};
    ghost use Rattle.sched_model.specs.Opening.{opening};
    ghost use Rattle.sched_model.specs.CheckedMachine.{IsChecked};
    ghost use Rattle.sched_model.specs.Machine.{is_action_enabled, first_enabled_action, next_in_horizon, event_of, after};
    ghost use Rattle.sched_plain.specs.Soonest.{IsTurn};

    /// The machine at its opening. Its values have passed the checks of the domain file and of the work file.
    pub fn open(alloc: Global, machine: Machine) -> Result<Plain, NoMemory>
        requires { IsChecked machine }
        ensures { IfOk result (λ p. p ≡ record { machine = machine; state = opening machine }) }
    {
        match open_beside(alloc, &machine) {
            Ok((state, tool, spares)) => Ok(Plain {
                machine,
                state,
                tool,
                spares,
                settled: Settled::none(),
                outlook: None,
            }),
            Err(full) => {
                drop(machine);
                Err(full)
            }
        }
    }

    /// The moment that the state has come to.
    pub fn now(&self) -> Moment
        ensures { result ≡ moment self.now.state.now }
    {
        Moment(self.state.now)
    }

    /// Whether the action may come now.
    pub fn is_enabled(&self, action: Action) -> bool
        ensures { result ≡ is_action_enabled self.now.machine self.now.state self.now.state.now
            action }
    {
        is_enabled(&self.machine, &self.state, Moment(self.state.now), action)
    }

    /// The first action that may come now, or none exactly where none may.
    pub fn first_enabled(&self) -> Option<Action>
        ensures { result ≡ first_enabled_action self.now.machine self.now.state self.now.state.now }
    {
        first_enabled(&self.machine, &self.state, Moment(self.state.now))
    }

    /// The same, where this action may come now and is thought to be the first that may. What is found out is kept for later questions, so that one
    /// after an event judges only what that event touched.
    pub fn first_enabled_by_guess(&mut self, guess: Action) -> Option<Action>
        requires { is_action_enabled self.old.machine self.old.state self.old.state.now guess
            ≡ true }
        ensures first { result
            ≡ first_enabled_action self.old.machine self.old.state self.old.state.now }
        ensures unchanged { self.new ≡ self.old }
    {
        first_by_guess(&self.machine, &mut self.state, &mut self.outlook, guess)
    }

    /// The processor of the workload's next stall, or none where all have come.
    pub fn next_stall(&self) -> Option<ProcId>
        ensures { result ≡ option_map (λ (line : StallLine). line.cpu)
            (slice_get self.now.machine.work.stalls self.now.state.next_stall) }
    {
        let stalls = self.machine.work.stalls.as_slice();
        stalls
            .get(self.state.next_stall as usize)
            .map(|line| line.cpu)
    }

    /// The number of the workload's next command.
    pub fn next_number(&self) -> u64
        ensures { result ≡ suc self.now.state.next_command }
    {
        u64::from(self.state.next_command) + 1
    }

    /// Does the event of an action that may come now, and answers it with the fields that its line prints.
    pub fn perform(&mut self, action: Action) -> Event
        requires { is_action_enabled self.old.machine self.old.state self.old.state.now action
            ≡ true }
        ensures event { result ≡ event_of self.old.machine self.old.state self.old.state.now
            action }
        ensures state { self.new ≡ record self.old
            { state = after self.old.machine self.old.state self.old.state.now action } }
    {
        perform(
            &self.machine,
            &mut self.state,
            &mut self.tool,
            &mut self.spares,
            &mut self.settled,
            &mut self.outlook,
            action,
        )
    }

    /// The least moment from which on an action may come, where that is at most the horizon: a moment that has come exactly where something
    /// may come now, and else the next moment. `None` where nothing may come any more within the horizon.
    pub fn soonest(&self) -> Option<Moment>
        ensures { IsTurn self.now.machine self.now.state result }
    {
        next_turn(&self.machine, &self.state)
    }

    /// Goes on to the next moment, where nothing may come now.
    pub fn pass_to(&mut self, next: Moment)
        requires nothing { first_enabled_action self.old.machine self.old.state self.old.state.now
            ≡ None }
        requires next { next_in_horizon self.old.machine self.old.state ≡ Some next.0 }
        ensures { self.new ≡ record self.old { state = record self.old.state { now = next.0 } } }
    {
        self.state.now = next.0;
        self.settled.clear();
        pass(&mut self.outlook);
    }
}
