//! A scheduler, and beside it the timer that it has next.

use sched_base::{Cores, DomId, Moment, NoMemory, UnitId};
use sched_model::ask::Ask;
use sched_model::config::{DomParams, ParamChange, PoolParams};
use sched_model::event::Event;
use sched_model::facts::Stored;
use sched_model::state::Resource;
use sched_ops::{Choice, Places, Policy, Timer};
use std::alloc::Global;
use std::marker::Model;

/// A scheduler with its next timer at hand. Contracts see what they see of the scheduler.
///
/// Each call that changes the scheduler asks for its timer anew. Most events of a pool change the scheduler in nothing, and a timer whose
/// moment is still to come is then told without a question.
#[derive(Drop)]
pub struct Timed<P: Policy> {
    policy: P,
    /// The timer of the least moment.
    next: Option<(Moment, Timer)>,
}

impl<P: Policy> Model for Timed<P> {
    ghost use Rattle.std.specs.Prelude.{◌≡◌};
    ghost use Rattle.sched_ops.specs.Seen.{Seen};
    ghost use Rattle.sched_ops.specs.Timers.{next_scheduler_timer};

    ghost Value = { Seen };

    ghost view = { λ a. P.seen a.policy };

    ghost invariant = { λ a. a.next ≡ next_scheduler_timer 0 (P.seen a.policy).scheduler };
}

impl<P: Policy> Timed<P> {
    ghost use Rattle.std.specs.Prelude.{◌≡◌};

    /// The scheduler with its next timer.
    pub fn of(policy: P) -> Timed<P>
        ensures { result ≡ P.seen policy }
    {
        let next = policy.timer_due(Moment(0));
        Timed { policy, next }
    }
}

impl<P: Policy> Policy for Timed<P> {
    ghost seen = { λ s. s };

    fn reserve(&mut self, alloc: Global, places: Places, units: usize) -> Result<(), NoMemory> {
        let answer = self.policy.reserve(alloc, places, units);
        self.next = self.policy.timer_due(Moment(0));
        answer
    }

    fn restart(&mut self, params: &PoolParams) {
        self.policy.restart(params);
        self.next = self.policy.timer_due(Moment(0));
    }

    fn join(&mut self, d: DomId, units: u8, params: &DomParams, t: Moment) {
        self.policy.join(d, units, params, t);
        self.next = self.policy.timer_due(Moment(0));
    }

    fn part(&mut self, d: DomId) {
        self.policy.part(d);
        self.next = self.policy.timer_due(Moment(0));
    }

    fn enqueue(&mut self, u: UnitId) {
        self.policy.enqueue(u);
        self.next = self.policy.timer_due(Moment(0));
    }

    fn dequeue(&mut self, u: UnitId) {
        self.policy.dequeue(u);
        self.next = self.policy.timer_due(Moment(0));
    }

    fn choose(&mut self, ask: &Ask) -> Choice {
        let choice = self.policy.choose(ask);
        self.next = self.policy.timer_due(Moment(0));
        choice
    }

    fn wanted(&self, cores: &[Option<Resource>], t: Moment, home: Cores) -> Cores {
        self.policy.wanted(cores, t, home)
    }

    fn wanted_for(&self, u: UnitId, cores: &[Option<Resource>], t: Moment, home: Cores) -> Cores {
        self.policy.wanted_for(u, cores, t, home)
    }

    fn asks_moment(&self) -> bool {
        self.policy.asks_moment()
    }

    fn frees(&self, cur: Option<UnitId>, leaving: bool) -> bool {
        self.policy.frees(cur, leaving)
    }

    #[inline(always)]
    fn timer_due(&self, t: Moment) -> Option<(Moment, Timer)> {
        match self.next {
            None => None,
            Some((at, timer)) => if t.0 < at.0 {
                Some((at, timer))
            } else {
                self.policy.timer_due(t)
            },
        }
    }

    fn timer(&mut self, which: Timer, t: Moment) -> Event {
        let event = self.policy.timer(which, t);
        self.next = self.policy.timer_due(Moment(0));
        event
    }

    fn set_params(&mut self, change: &ParamChange, t: Moment) {
        self.policy.set_params(change, t);
        self.next = self.policy.timer_due(Moment(0));
    }

    fn stored(&self, u: UnitId) -> Stored {
        self.policy.stored(u)
    }

    fn rate(&self) -> u32 {
        self.policy.rate()
    }

    fn keeps(&self) {
        self.policy.keeps()
    }
}
