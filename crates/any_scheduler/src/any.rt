//! One of the four schedulers.

ghost use Rattle.any_scheduler.specs.AnyPolicy.{seen_of};

use arinc_frame::Arinc;
use credit2_core::Credit2;
use rtds_core::Rtds;
use sched_base::{Cores, DomId, Moment, NoMemory, UnitId};
use sched_model::ask::Ask;
use sched_model::config::{DomParams, ParamChange, PoolParams, SchedKind};
use sched_model::event::Event;
use sched_model::facts::Stored;
use sched_model::state::Resource;
use sched_null::Null;
use sched_ops::{Choice, Places, Policy, Timer};
use std::alloc::Global;

/// The scheduler of one pool. Contracts see what they see of the one that it is.
#[derive(Drop)]
pub enum AnyPolicy {
    Credit2(Credit2),
    Rtds(Rtds),
    Arinc(Arinc),
    Null(Null),
}

/// The call of the scheduler that it is.
macro_rules! call {
    ($any:expr, $policy:ident => $call:expr) => {
        match $any {
            AnyPolicy::Credit2($policy) => $call,
            AnyPolicy::Rtds($policy) => $call,
            AnyPolicy::Arinc($policy) => $call,
            AnyPolicy::Null($policy) => $call,
        }
    };
}

impl AnyPolicy {
    ghost use Rattle.std.specs.Prelude.{◌≡◌};
    ghost use Rattle.sched_model.specs.Policy.{records_kind};
    ghost use Rattle.sched_ops.specs.Seen.{bare_seen};

    /// The scheduler of this kind, with its default parameters. It has no domain and no place for one, and holds no memory yet.
    pub fn empty(kind: SchedKind) -> Self
        ensures seen { seen_of result ≡ bare_seen kind }
        ensures kind { records_kind (seen_of result).scheduler.records ≡ kind }
    {
        match kind {
            SchedKind::Credit2 => AnyPolicy::Credit2(Credit2::empty()),
            SchedKind::Rtds => AnyPolicy::Rtds(Rtds::empty()),
            SchedKind::Arinc653 => AnyPolicy::Arinc(Arinc::empty()),
            SchedKind::Null => AnyPolicy::Null(Null::empty()),
        }
    }
}

impl Policy for AnyPolicy {
    ghost seen = { seen_of };

    fn reserve(&mut self, alloc: Global, places: Places, units: usize) -> Result<(), NoMemory> {
        call!(self, policy => policy.reserve(alloc, places, units))
    }

    fn restart(&mut self, params: &PoolParams) {
        call!(self, policy => policy.restart(params))
    }

    fn join(&mut self, d: DomId, units: u8, params: &DomParams, t: Moment) {
        call!(self, policy => policy.join(d, units, params, t))
    }

    fn part(&mut self, d: DomId) {
        call!(self, policy => policy.part(d))
    }

    fn enqueue(&mut self, u: UnitId) {
        call!(self, policy => policy.enqueue(u))
    }

    fn dequeue(&mut self, u: UnitId) {
        call!(self, policy => policy.dequeue(u))
    }

    fn choose(&mut self, ask: &Ask) -> Choice {
        call!(self, policy => policy.choose(ask))
    }

    fn wanted(&self, cores: &[Option<Resource>], t: Moment, home: Cores) -> Cores {
        call!(self, policy => policy.wanted(cores, t, home))
    }

    fn wanted_for(&self, u: UnitId, cores: &[Option<Resource>], t: Moment, home: Cores) -> Cores {
        call!(self, policy => policy.wanted_for(u, cores, t, home))
    }

    fn asks_moment(&self) -> bool {
        call!(self, policy => policy.asks_moment())
    }

    fn frees(&self, cur: Option<UnitId>, leaving: bool) -> bool {
        call!(self, policy => policy.frees(cur, leaving))
    }

    fn timer_due(&self, t: Moment) -> Option<(Moment, Timer)> {
        call!(self, policy => policy.timer_due(t))
    }

    fn timer(&mut self, which: Timer, t: Moment) -> Event {
        call!(self, policy => policy.timer(which, t))
    }

    fn set_params(&mut self, change: &ParamChange, t: Moment) {
        call!(self, policy => policy.set_params(change, t))
    }

    fn stored(&self, u: UnitId) -> Stored {
        call!(self, policy => policy.stored(u))
    }

    fn rate(&self) -> u32 {
        call!(self, policy => policy.rate())
    }

    fn keeps(&self) {
        call!(self, policy => policy.keeps())
    }
}
