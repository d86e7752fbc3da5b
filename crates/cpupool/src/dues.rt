//! When the tool has something to do next.

ghost use Rattle.std.specs.Prelude.{◌≡◌, ◌^◌, ◌<◌};
ghost use Rattle.sched_model.specs.Places.{at_place};
ghost use Rattle.cpupool.specs.Dues.{sooner_of, moment_past, first_free_end};

use crate::outline::MoveUnderWay;
use crate::tool::ToolState;
use sched_base::{Moment, ResId};
use sched_model::facts::StallEnds;
use sched_model::places::item_at;

/// The sooner of the moments that are there.
fn sooner(a: Option<Moment>, b: Option<Moment>) -> Option<Moment>
    ensures { result ≡ sooner_of a b }
{
    match (a, b) {
        (None, b) => b,
        (Some(a), None) => Some(a),
        (Some(a), Some(b)) => Some(Moment(a.0.min(b.0))),
    }
}

/// The moment, or the next after t where that is later.
fn later_than(t: Moment, at: Option<Moment>) -> Option<Moment>
    requires { t.0 < 2 ^ 63 }
    ensures { result ≡ moment_past t.0 at }
{
    match at {
        None => None,
        Some(at) => Some(Moment(at.0.max(t.0 + 1))),
    }
}

/// The end of the stall of the first processor of the core r, where no pool has that.
fn first_end(free: &[Option<StallEnds>], r: ResId) -> Option<Moment>
    ensures { result ≡ first_free_end (at_place free.now r.0) }
{
    match item_at(free, r.0 as usize) {
        None => None,
        Some(ends) => match ends.as_slice() {
            [] => None,
            [end, ..] => Some(*end),
        },
    }
}

impl ToolState {
    ghost use Rattle.std.specs.Prelude.{◌≡◌, ◌^◌, ◌<◌};
    ghost use Rattle.sched_model.specs.declared.machine.Machine.{Machine};
    ghost use Rattle.sched_model.specs.declared.state.State.{State};
    ghost use Rattle.cpupool.specs.Tool.{tool_of};
    ghost use Rattle.journal_core.specs.ToolActions.{tool_may_act, IsLeastLater};
    ghost use Rattle.cpupool.specs.Dues.{is_anything_due, stall_moment, command_moment, joining_moment, soonest_moment, moment_past};

    /// The least moment after t at which a stall or a command may come, or a core of no pool may join one; `None` where
    /// none of them may at any later moment.
    pub fn next_due(&self, t: Moment) -> Option<Moment>
        requires { t.0 < 2 ^ 63 }
        ensures part { IsLeastLater t.0 (is_anything_due self.now) result }
        ensures state { (m : Machine) → (s : State) → tool_of m s ≡ self.now →
            IsLeastLater t.0 (tool_may_act m s) result }
    {
        self.soonest_after(t)
    }

    /// The soonest of the three moments, or the next after t where that is later.
    fn soonest_after(&self, t: Moment) -> Option<Moment>
        requires { t.0 < 2 ^ 63 }
        ensures { result ≡ moment_past t.0 (soonest_moment self.now) }
    {
        let others = sooner(self.command_at(), self.joining_at());
        later_than(t, sooner(self.stall_at(), others))
    }

    /// The moment of the next stall.
    fn stall_at(&self) -> Option<Moment>
        ensures { result ≡ stall_moment self.now }
    {
        match self.stalls.as_slice().get(self.next_stall as usize) {
            None => None,
            Some(line) => Some(line.at),
        }
    }

    /// The moment of the next command, while nothing is on its way.
    fn command_at(&self) -> Option<Moment>
        ensures { result ≡ command_moment self.now }
    {
        if self.under_way.is_some() {
            return None;
        }
        match self.commands.as_slice().get(self.next_command as usize) {
            None => None,
            Some(line) => Some(line.at),
        }
    }

    /// The moment at which the core of no pool that is to join one may do so.
    fn joining_at(&self) -> Option<Moment>
        ensures { result ≡ joining_moment self.now.part self.now.part.under_way }
    {
        match self.under_way {
            Some(MoveUnderWay::Core { r, to: Some(_) }) => first_end(self.free.as_slice(), r),
            _ => None,
        }
    }
}
