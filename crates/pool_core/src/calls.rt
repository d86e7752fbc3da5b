//! The events of a pool, each by a call of its own.

use crate::pool::PoolState;
use sched_base::{DomId, Moment, ProcId, ResId, UnitId, VcpuId};
use sched_model::action::Action;
use sched_model::event::Event;
use sched_ops::Policy;

impl<P: Policy> PoolState<P> {
    ghost use Rattle.sched_model.specs.declared.action.Action.TheVariants.{Arrive, Block, Decide, Leave, Refill, Repl, Save, Slice, Wake};
    ghost use Rattle.pool_core.specs.Seen.{HasHappened, MayHappen};

    /// A vCPU that sleeps, and whose wake moment has come at t, wakes. Its unit waits, where it is runnable now and was nowhere; where
    /// it is a core's own, its own processor runs the vCPU, if that idles.
    pub fn wake(&mut self, v: VcpuId, t: Moment) -> Event
        requires { MayHappen t.0 (Wake v) self.old }
        ensures { HasHappened t.0 (Wake v) self.old self.new result }
    {
        self.perform(Action::Wake(v), t)
    }

    /// A vCPU that a processor runs, and whose work is done at t, sleeps. Its core is to decide anew, where its unit is no longer
    /// runnable.
    pub fn block(&mut self, p: ProcId, t: Moment) -> Event
        requires { MayHappen t.0 (Block p) self.old }
        ensures { HasHappened t.0 (Block p) self.old self.new result }
    {
        self.perform(Action::Block(p), t)
    }

    /// A core whose due has come at t is to decide anew.
    pub fn slice(&mut self, r: ResId, t: Moment) -> Event
        requires { MayHappen t.0 (Slice r) self.old }
        ensures { HasHappened t.0 (Slice r) self.old self.new result }
    {
        self.perform(Action::Slice(r), t)
    }

    /// An RTDS unit whose deadline has come at t has its budget anew. A core that runs it asks again when that is used up, if not
    /// before.
    pub fn replenish(&mut self, u: UnitId, t: Moment) -> Event
        requires { MayHappen t.0 (Repl u) self.old }
        ensures { HasHappened t.0 (Repl u) self.old self.new result }
    {
        self.perform(Action::Repl(u), t)
    }

    /// The budget of a capped Credit2 domain, whose refill has come at t, is filled.
    pub fn refill(&mut self, d: DomId, t: Moment) -> Event
        requires { MayHappen t.0 (Refill d) self.old }
        ensures { HasHappened t.0 (Refill d) self.old self.new result }
    {
        self.perform(Action::Refill(d), t)
    }

    /// A processor of a core that is to decide anew waits for its siblings. A vCPU that it ran is stopped.
    pub fn arrive(&mut self, p: ProcId, t: Moment) -> Event
        requires { MayHappen t.0 (Arrive p) self.old }
        ensures { HasHappened t.0 (Arrive p) self.old self.new result }
    {
        self.perform(Action::Arrive(p), t)
    }

    /// A core, all of whose processors wait, decides: its scheduler chooses its unit, and its old one, where that is another, is to
    /// be saved.
    pub fn decide(&mut self, r: ResId, t: Moment) -> Event
        requires { MayHappen t.0 (Decide r) self.old }
        ensures { HasHappened t.0 (Decide r) self.old self.new result }
    {
        self.perform(Action::Decide(r), t)
    }

    /// A processor leaves its siblings after their core decided, and runs the vCPU of the core's unit at its place, where that is
    /// awake.
    pub fn leave(&mut self, p: ProcId, t: Moment) -> Event
        requires { MayHappen t.0 (Leave p) self.old }
        ensures { HasHappened t.0 (Leave p) self.old self.new result }
    {
        self.perform(Action::Leave(p), t)
    }

    /// A core, none of whose processors waits any more, puts away the unit that it saves, which waits again where it is runnable.
    pub fn save(&mut self, r: ResId, t: Moment) -> Event
        requires { MayHappen t.0 (Save r) self.old }
        ensures { HasHappened t.0 (Save r) self.old self.new result }
    {
        self.perform(Action::Save(r), t)
    }
}
