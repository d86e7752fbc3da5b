//! The look at the cores: which of them are to decide anew after an event, and when that is known without a look.

ghost use Rattle.std.specs.Prelude.{◌≡◌, ℕ, true, false};
ghost use Rattle.sched_model.specs.Places.{at_place, change_each};
ghost use Rattle.sched_model.specs.Pool.{cores_from, reconsidered_core};
ghost use Rattle.sched_model.specs.State.{has_core_bit};
ghost use Rattle.sched_laws.specs.EachPlace.{EachPlace};
ghost use Rattle.sched_ops.specs.Conditions.{IsNow};
ghost use Rattle.sched_ops.specs.WantedCores.{MayAsk, is_core_wanted};
ghost use Rattle.pool_core.specs.CoreLooks.{IsNoneWanted, is_still_settled, pending_where, scheduler_but};

use core_state::CoreState;
use due_heap::{lowest, without};
use sched_base::{Cores, Moment, ResId, UnitId};
use sched_ops::Policy;

/// The greatest moment given, and whether a look at the cores at that moment would change nothing.
#[derive(Clone, Copy)]
pub struct Mark {
    pub latest: Moment,
    pub settled: bool,
}

impl Mark {
    /// Nothing is known at t of the cores.
    pub fn unsettled(t: Moment) -> Mark
        ensures { result ≡ record { latest = t; settled = false } }
    {
        Mark {
            latest: t,
            settled: false,
        }
    }

    /// Whether a pool with this mark is settled at t too: at the same moment, or at any where its scheduler reads no moment.
    pub fn is_settled<P: Policy>(&self, policy: &P, t: Moment) -> bool
        ensures { result ≡ is_still_settled self.now t.0 (P.seen policy.now).scheduler.records }
    {
        self.settled && (self.latest.0 == t.0 || !policy.asks_moment())
    }
}

/// Each core of the set is to decide anew.
fn set_all_pending(cores: &mut CoreState, set: Cores)
    ensures { cores.new ≡ record cores.old
        { resources = change_each 0 (pending_where set.0) cores.old.resources } }
{
    let mut rest = set.0;
    while let Some(r) = lowest(rest) {
        cores.set_pending(ResId(r as u8));
        rest = without(rest, r);
    }
}

/// The cores that the scheduler wants. Where none was wanted but for the unit that came to wait, that one alone is compared, and nothing
/// where none came.
#[inline(always)]
fn wanted<P: Policy>(
    cores: &CoreState,
    policy: &P,
    settled: bool,
    came: Option<UnitId>,
    t: Moment,
) -> Cores
    requires now { IsNow (P.seen policy.now) t.0 }
    requires asks { EachPlace (MayAsk t.0 (P.seen policy.now).scheduler) cores.now.resources }
    requires settled { settled ≡ true → IsNoneWanted t.0
        (scheduler_but came (P.seen policy.now).scheduler) cores.now.resources }
    ensures { (r : ℕ) → has_core_bit result.0 r
        ≡ is_core_wanted t.0 (cores_from 0 cores.now.resources) (P.seen policy.now).scheduler r
        (at_place cores.now.resources r) }
{
    cores.keeps();
    if !settled {
        return policy.wanted(cores.cores(), t, cores.home());
    }
    match came {
        None => Cores(0),
        Some(u) => policy.wanted_for(u, cores.cores(), t, cores.home()),
    }
}

/// Each core is looked at: those that the scheduler wants are to decide anew. Where the pool was settled, it was so but for the unit that
/// came to wait, if one did.
#[inline(always)]
pub fn settle<P: Policy>(
    cores: &mut CoreState,
    policy: &P,
    settled: bool,
    came: Option<UnitId>,
    t: Moment,
)
    requires now { IsNow (P.seen policy.now) t.0 }
    requires asks { EachPlace (MayAsk t.0 (P.seen policy.now).scheduler) cores.old.resources }
    requires settled { settled ≡ true → IsNoneWanted t.0
        (scheduler_but came (P.seen policy.now).scheduler) cores.old.resources }
    ensures { cores.new ≡ record cores.old {
      resources = change_each 0 (reconsidered_core t.0 (cores_from 0 cores.old.resources)
          (P.seen policy.now).scheduler) cores.old.resources;
    } }
{
    let set = wanted(cores, policy, settled, came, t);
    set_all_pending(cores, set);
}
