//! The next stall and the next command.

use crate::tool::ToolState;
use sched_base::Moment;
use sched_model::work::{CommandLine, StallLine};

/// What the tool may do besides moves: the stall or the command with this index.
#[derive(Clone, Copy)]
pub enum ToolEvent {
    Stall(u32),
    Command(u32),
}

impl ToolState {
    ghost use Rattle.std.specs.Prelude.{◌≡◌, ◌<◌, ℕ, Some, None, Err, suc, length, slice_get};
    ghost use Rattle.sched_model.specs.declared.machine.Machine.{Machine};
    ghost use Rattle.sched_model.specs.declared.state.State.{State};
    ghost use Rattle.sched_model.specs.declared.event.Refusal.{Refusal};
    ghost use Rattle.sched_model.specs.declared.work.CommandLine.{CommandLine as Line};
    ghost use Rattle.sched_model.specs.Machine.{line_verdict, after_command};
    ghost use Rattle.cpupool.specs.Tool.{tool_of};
    ghost use Rattle.cpupool.specs.Steps.{enabled_event, is_stall_due, is_command_due, next_tool_event};

    /// The line with the command of this index, from 0.
    pub fn command(&self, k: u32) -> &CommandLine
        requires { k < length self.now.commands }
        ensures { slice_get self.now.commands k ≡ Some result.now }
    {
        &self.commands.as_slice()[k as usize]
    }

    /// Whether the next stall may come at t.
    pub(crate) fn stall_comes(&self, t: Moment) -> bool
        ensures { result ≡ is_stall_due self.now t.0 }
    {
        match self.stalls.as_slice().get(self.next_stall as usize) {
            None => false,
            Some(line) => line.at.0 <= t.0,
        }
    }

    /// Whether the next command may come at t.
    pub(crate) fn command_comes(&self, t: Moment) -> bool
        ensures { result ≡ is_command_due self.now t.0 }
    {
        match self.commands.as_slice().get(self.next_command as usize) {
            None => false,
            Some(line) => line.at.0 <= t.0 && self.under_way.is_none(),
        }
    }

    /// The next stall, where it may come at t, or else the next command, where that may. No command may while something is
    /// on its way to another pool.
    #[tactic(auto, using(crate::proofs::WayLemmas::event_seen))]
    pub fn tool_enabled(&self, t: Moment) -> Option<ToolEvent>
        ensures { (m : Machine) → (s : State) → tool_of m s ≡ self.now → result
            ≡ enabled_event m s t.0 }
    {
        self.next_event(t)
    }

    /// The stall or the command that may come at t.
    fn next_event(&self, t: Moment) -> Option<ToolEvent>
        ensures { result ≡ next_tool_event self.now t.0 }
    {
        if self.stall_comes(t) {
            Some(ToolEvent::Stall(self.next_stall))
        } else if self.command_comes(t) {
            Some(ToolEvent::Command(self.next_command))
        } else {
            None
        }
    }

    /// Takes the next stall.
    pub fn take_stall(&mut self) -> StallLine
        requires { self.old.part.next_stall < length self.old.stalls }
        ensures line { slice_get self.old.stalls self.old.part.next_stall ≡ Some result }
        ensures next { self.new ≡ record self.old
            { part = record self.old.part { next_stall = suc self.old.part.next_stall } } }
        ensures state { (m : Machine) → (s : State) → tool_of m s ≡ self.old → self.new
            ≡ tool_of m (record s { next_stall = suc s.next_stall }) }
    {
        let line = self.stalls.as_slice()[self.next_stall as usize];
        self.next_stall += 1;
        line
    }

    /// The next command is refused: it is over, and nothing else changes.
    pub fn refuse(&mut self)
        requires left { self.old.part.next_command < length self.old.commands }
        requires idle { self.old.part.under_way ≡ None }
        ensures next { self.new ≡ record self.old
            { part = record self.old.part { next_command = suc self.old.part.next_command } } }
        ensures state { (m : Machine) → (s : State) → (t : ℕ) → (line : Line) → (refusal : Refusal)
            → tool_of m s ≡ self.old → line_verdict m s line ≡ Err refusal
            → self.new ≡ tool_of m (after_command m t line s) }
    {
        self.next_command += 1;
    }
}
