//! The engine: a machine that steps from one entry of its run to the next.

use crate::keeping::{busy_places, read_all, read_one};
use crate::opening::{open_pools, open_tool};
use cpupool::ToolState;
use machine_parts::places::read_firsts;
use machine_parts::{
    PoolSlot, Spares, Trail, perform_among, pool_of_event, pools_first, tool_rests, whole_first,
    whole_next,
};
use sched_base::{Moment, NoMemory};
use sched_model::action::Action;
use sched_model::config::Config;
use sched_model::event::{Entry, Event};
use sched_model::machine::Machine;
use sched_model::work::Work;
use std::alloc::Global;
use std::marker::Model;
use tool_actions::act_of_tool;

/// A machine, and the state that it stands in. Contracts see both.
///
/// It owns the places of the pools, what the tool knows, and the spare pools. A trail, of no bytes, tells contracts alone how far the run
/// has come. All moments are in nanoseconds.
#[derive(Drop)]
pub struct Engine {
    trail: Trail,
    moment: Moment,
    horizon: Moment,
    granularity: u8,
    slots: Vec<PoolSlot>,
    tool: ToolState,
    spares: Spares,
    firsts: Vec<Option<Action>>,
    nexts: Vec<Option<Moment>>,
    busy: usize,
    /// Only where nothing of the tool may come in this moment, whatever the pools do. Then the pools alone are asked.
    quiet: bool,
}

impl Model for Engine {
    ghost use Rattle.sched_model.specs.Standing.{Standing};

    ghost Value = { Standing };

    ghost use Rattle.std.specs.Prelude.{IsTrue};
    ghost use Rattle.machine_parts.specs.Rests.{ToolRests};
    ghost use Rattle.engine.specs.EngineState.{IsIdleFrom, IsRunning, standing_of};

    ghost view = { λ e. standing_of e.trail };

    ghost invariant = { λ e. IsRunning e.trail e.moment.0 e.horizon.0 e.granularity e.slots.items
        e.tool e.spares e.firsts.items e.nexts.items
        × IsIdleFrom e.busy e.firsts.items
        × (IsTrue e.quiet → ToolRests e.moment.0 e.tool) };
}

impl Engine {
    ghost use Rattle.std.specs.Prelude.{◌≡◌, true, false, None, Some, IfNone, IfOk, IfSome, IsTrue, option_map};
    ghost use Rattle.sched_model.specs.declared.action.Action.TheVariants as actions;
    ghost use Rattle.sched_model.specs.declared.machine.Machine.{Machine};
    ghost use Rattle.sched_base.specs.Numbers.{moment};
    ghost use Rattle.sched_model.specs.Opening.{opening};
    ghost use Rattle.sched_model.specs.CheckedMachine.{IsChecked};
    ghost use Rattle.composition_laws.specs.WholeFirst.{first_tool_action};
    ghost use Rattle.machine_parts.specs.Parts.{event_pool};
    ghost use Rattle.sched_model.specs.Machine.{is_action_enabled, first_enabled_action, next_in_horizon, event_of, after};

    /// The machine at its opening. Its values have passed the checks of the domain file and of the work file.
    pub fn open(alloc: Global, machine: Machine) -> Result<Engine, NoMemory>
        requires { IsChecked machine }
        ensures { IfOk result (λ e. e ≡ record { machine = machine; state = opening machine }) }
    {
        let Machine { config, work } = machine;
        let engine = Engine::opened(alloc, &config, work);
        drop(config);
        engine
    }

    /// Gives back the memory of the engine.
    pub fn close(self) {}

    /// The same, of a workload that the engine takes over.
    fn opened(alloc: Global, config: &Config, work: Work) -> Result<Engine, NoMemory>
        requires { IsChecked (record { config = config.now; work = work }) }
        ensures { let m : Machine = record { config = config.now; work = work } in IfOk result
            (λ e. e ≡ record { machine = m; state = opening m }) }
    {
        let (slots, firsts, nexts) = open_pools(alloc, config)?;
        let (trail, tool, spares) = open_tool(alloc, config, work)?;
        let busy = busy_places(firsts.as_slice());
        let quiet = tool_rests(&tool, Moment(0));
        Ok(Engine {
            trail,
            moment: Moment(0),
            horizon: config.horizon,
            granularity: config.granularity,
            slots,
            tool,
            spares,
            firsts,
            nexts,
            busy,
            quiet,
        })
    }

    /// The moment that the state has come to.
    pub fn now(&self) -> Moment
        ensures { result ≡ moment self.now.state.now }
    {
        self.moment
    }

    /// The first action that may come now, or none exactly where none may.
    pub fn first_enabled(&self) -> Option<Action>
        ensures { result ≡ first_enabled_action self.now.machine self.now.state self.now.state.now }
    {
        whole_first(
            self.slots.as_slice(),
            &self.tool,
            &self.firsts[..self.busy],
            &self.trail,
            self.moment,
        )
    }

    /// Whether nothing of the tool may come in this moment, whatever the pools do.
    pub(crate) fn is_quiet(&self) -> bool
        ensures { IsTrue result → first_tool_action self.now.machine self.now.state self.now.state.now ≡ None }
    {
        self.quiet
    }

    /// The first action that may come now and the place of its pool, where nothing of the tool may; `None` where nothing may come.
    pub(crate) fn first_of_pools(&self) -> Option<(u8, Action)>
        requires { first_tool_action self.now.machine self.now.state self.now.state.now ≡ None }
        ensures none { IfNone result (first_enabled_action self.now.machine self.now.state
            self.now.state.now ≡ None) }
        ensures first { IfSome result (λ found. first_enabled_action self.now.machine self.now.state
            self.now.state.now ≡ Some found.1) }
        ensures home { IfSome result (λ found. event_pool self.now.machine.config.granularity
            self.now.state found.1 ≡ Some found.0) }
    {
        pools_first(&self.firsts[..self.busy])
    }

    /// Does the event of the first action that may come now, and answers it with the fields that its line prints.
    pub fn perform(&mut self, action: Action) -> Event
        requires { first_enabled_action self.old.machine self.old.state self.old.state.now
            ≡ Some action }
        ensures event { result ≡ event_of self.old.machine self.old.state self.old.state.now
            action }
        ensures state { self.new ≡ record self.old
            { state = after self.old.machine self.old.state self.old.state.now action } }
    {
        match pool_of_event(&self.tool, self.granularity, action) {
            Some(i) => self.perform_in_pool(i.0, action),
            None => self.perform_by_tool(action),
        }
    }

    /// Does the event of an action that may come now, which is one of this pool.
    #[inline(always)]
    pub(crate) fn perform_in_pool(&mut self, place: u8, action: Action) -> Event
        requires enabled { is_action_enabled self.old.machine self.old.state self.old.state.now
            action ≡ true }
        requires home { event_pool self.old.machine.config.granularity self.old.state action
            ≡ Some place }
        ensures event { result ≡ event_of self.old.machine self.old.state self.old.state.now
            action }
        ensures state { self.new ≡ record self.old
            { state = after self.old.machine self.old.state self.old.state.now action } }
    {
        let mut event = Event::Finish;
        perform_among(
            self.slots.as_mut_slice(),
            &self.trail,
            place,
            action,
            self.moment,
            &mut event,
        );
        self.trail.add(&Entry {
            at: self.moment,
            event,
        });
        read_one(
            self.slots.as_slice(),
            place as usize,
            self.moment,
            self.firsts.as_mut_slice(),
            self.nexts.as_mut_slice(),
        );
        self.busy = self.busy.max(place as usize + 1);
        event
    }

    /// The same of an action of the tool; of a command where no stall may come.
    fn perform_by_tool(&mut self, action: Action) -> Event
        requires enabled { is_action_enabled self.old.machine self.old.state self.old.state.now
            action ≡ true }
        requires no_pool { event_pool self.old.machine.config.granularity self.old.state
            action ≡ None }
        requires first { action ≡ actions.Xl →
            is_action_enabled self.old.machine self.old.state self.old.state.now actions.Stall
            ≡ false }
        ensures event { result ≡ event_of self.old.machine self.old.state self.old.state.now
            action }
        ensures state { self.new ≡ record self.old
            { state = after self.old.machine self.old.state self.old.state.now action } }
    {
        let event = act_of_tool(
            self.slots.as_mut_slice(),
            &mut self.tool,
            &mut self.spares,
            &self.trail,
            self.granularity,
            action,
            self.moment,
        );
        self.trail.add(&Entry {
            at: self.moment,
            event,
        });
        read_all(
            self.slots.as_slice(),
            self.moment,
            self.firsts.as_mut_slice(),
            self.nexts.as_mut_slice(),
        );
        self.busy = busy_places(self.firsts.as_slice());
        self.quiet = tool_rests(&self.tool, self.moment);
        event
    }

    /// The least later moment at which something may happen, where it is at most the horizon. Nothing may come now.
    pub fn next_moment(&self) -> Option<Moment>
        requires { first_enabled_action self.now.machine self.now.state self.now.state.now ≡ None }
        ensures { result ≡ option_map moment (next_in_horizon self.now.machine self.now.state) }
    {
        whole_next(
            self.slots.as_slice(),
            &self.tool,
            self.nexts.as_slice(),
            &self.trail,
            self.moment,
            self.horizon,
        )
    }

    /// Goes on to the next moment, where nothing may come now.
    pub fn pass_to(&mut self, next: Moment)
        requires nothing { first_enabled_action self.old.machine self.old.state self.old.state.now
            ≡ None }
        requires next { next_in_horizon self.old.machine self.old.state ≡ Some next.0 }
        ensures { self.new ≡ record self.old { state = record self.old.state { now = next.0 } } }
    {
        self.trail.add(&Entry {
            at: self.moment,
            event: Event::End { next },
        });
        self.moment = next;
        read_firsts(self.slots.as_slice(), next, self.firsts.as_mut_slice());
        self.busy = busy_places(self.firsts.as_slice());
        self.quiet = tool_rests(&self.tool, next);
    }
}
