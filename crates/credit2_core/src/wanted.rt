//! The cores for which one that waits is better, and what may free something for them.

ghost use Rattle.std.specs.Prelude.{◌≡◌, ◌≤◌, ◌<◌, ◌+◌, ◌-◌, ◌*◌, ℕ, Bool, Some, true, false, length};
ghost use Rattle.sched_model.specs.State.{has_core_bit};
ghost use Rattle.sched_model.specs.declared.state.Resource.{Resource as ResourceRecord};
ghost use Rattle.sched_model.specs.Places.{at_place};
ghost use Rattle.sched_model.specs.Policy.{has_better_waiting};
ghost use Rattle.sched_laws.specs.EachPlace.{EachPlace};
ghost use Rattle.settle_laws.specs.Frees.{may_free};
ghost use Rattle.sched_ops.specs.Conditions.{IsNow, IsOwnOf};
ghost use Rattle.sched_ops.specs.Seen.{scheduler_without_unit};
ghost use Rattle.sched_ops.specs.WantedCores.{MayAsk, is_core_wanted};
ghost use Rattle.credit2_core.specs.Credit2State.{IsSound, scheduler_in, seen_in};
ghost use Rattle.credit2_core.specs.Whole.{IsReadyIn, IsRival};

use crate::below::is_below;
use crate::choice::better_waits;
use crate::run_queue::Ready;
use crate::state::Credit2State;
use arrival_queue::has_domain;
use sched_base::{Cores, Moment, UnitId};
use sched_model::state::Resource;
use sched_model::units::is_there;
use sched_ops::wanted_where;
use scheduler_records::credit2_running::credit_of;

/// What each core's own unit is compared with at a moment, where none was pinned: the greatest weight, the moment before which a unit
/// started that has run for the rate limit, and the credit of the first unit of those that may run.
#[derive(Clone, Copy)]
pub struct Rival {
    pub most: u32,
    pub started: u64,
    pub credit: i64,
}

/// Whether a core with this unit of its own, since a moment, is to decide anew at t.
#[inline(always)]
fn makes_way(
    state: &Credit2State,
    rival: &Rival,
    cur: Option<UnitId>,
    since: Moment,
    t: Moment,
) -> bool
    requires sound { IsSound state.now }
    requires now { IsNow (seen_in state.now) t.0 }
    requires rival { IsRival state.now t.0 rival.now }
    requires since { since.0 ≤ t.0 }
    requires own { IsOwnOf (scheduler_in state.now) cur }
    ensures { (core home : ℕ) → core < 64 → result
        ≡ has_better_waiting cur since.0 t.0 core home (scheduler_in state.now) }
{
    match cur {
        None => true,
        Some(own) => {
            since.0 < rival.started && is_below(rival.most, &state.records, t, own, rival.credit)
        }
    }
}

/// The same of the core at a place. What most cores fail is asked first.
#[inline(always)]
fn is_wanted(state: &Credit2State, rival: &Rival, place: &Option<Resource>, t: Moment) -> bool
    requires sound { IsSound state.now }
    requires now { IsNow (seen_in state.now) t.0 }
    requires rival { IsRival state.now t.0 rival.now }
    requires asks { (c : ResourceRecord) → place.now ≡ Some c → MayAsk t.0
        (scheduler_in state.now) c }
    ensures { (r home : ℕ) → r < 64 → result
        ≡ is_core_wanted t.0 home (scheduler_in state.now) r place.now }
{
    match place {
        None => false,
        Some(c) => makes_way(state, rival, c.cur, c.since, t) && !c.leaving && !c.pending,
    }
}

/// The cores that are to decide anew at t, of those at these places. Each may take the first unit, so it alone is compared with what they
/// run.
fn wanted_by_first(
    state: &Credit2State,
    rival: &Rival,
    cores: &[Option<Resource>],
    t: Moment,
) -> Cores
    requires sound { IsSound state.now }
    requires now { IsNow (seen_in state.now) t.0 }
    requires rival { IsRival state.now t.0 rival.now }
    requires few { length cores.now ≤ 64 }
    requires asks { EachPlace (MayAsk t.0 (scheduler_in state.now)) cores.now }
    ensures { (home r : ℕ) → has_core_bit result.0 r
        ≡ is_core_wanted t.0 home (scheduler_in state.now) r (at_place cores.now r) }
{
    let mut set = 0;
    for r in (0..cores.len()).rev() {
        let wanted = is_wanted(state, rival, &cores[r], t);
        set = 2 * set + wanted as u64;
    }
    Cores(set)
}

/// The cores that are to decide anew at t, of those at these places. Where none was pinned, no core is asked by itself, and where no unit
/// waits of a domain that may run, there is none.
pub fn wanted(
    state: &Credit2State,
    ready: &Ready,
    cores: &[Option<Resource>],
    t: Moment,
    home: Cores,
) -> Cores
    requires sound { IsSound state.now }
    requires now { IsNow (seen_in state.now) t.0 }
    requires ready { IsReadyIn state.now ready.now }
    requires few { length cores.now ≤ 64 }
    requires asks { EachPlace (MayAsk t.0 (scheduler_in state.now)) cores.now }
    ensures { (r : ℕ) → has_core_bit result.0 r
        ≡ is_core_wanted t.0 home.0 (scheduler_in state.now) r (at_place cores.now r) }
{
    state.queue.law_order();
    if !state.unpinned {
        return wanted_where(cores, |core, cur, since| {
            better_waits(state, ready, cur, since, t, core, home)
        });
    }
    match ready.first {
        None => Cores(0),
        Some(first) => {
            let rival = Rival {
                most: ready.most,
                started: (t.0 + 1).saturating_sub(state.records.limit as u64 * 1000),
                credit: credit_of(&state.records, first),
            };
            wanted_by_first(state, &rival, cores, t)
        }
    }
}

/// The same, where without the unit there would be none. Where none was pinned, only the first unit of a domain that may run can make a
/// core decide anew.
pub fn wanted_for(
    state: &Credit2State,
    ready: &Ready,
    u: UnitId,
    cores: &[Option<Resource>],
    t: Moment,
    home: Cores,
) -> Cores
    requires sound { IsSound state.now }
    requires now { IsNow (seen_in state.now) t.0 }
    requires ready { IsReadyIn state.now ready.now }
    requires few { length cores.now ≤ 64 }
    requires asks { EachPlace (MayAsk t.0 (scheduler_in state.now)) cores.now }
    requires before { (r : ℕ)
        → is_core_wanted t.0 home.0 (scheduler_without_unit u (scheduler_in state.now)) r
        (at_place cores.now r) ≡ false }
    ensures { (r : ℕ) → has_core_bit result.0 r
        ≡ is_core_wanted t.0 home.0 (scheduler_in state.now) r (at_place cores.now r) }
{
    state.queue.law_order();
    if state.unpinned && !is_there(ready.first, u) {
        return Cores(0);
    }
    wanted(state, ready, cores, t, home)
}

/// Whether a decision of a core with this unit of its own may give its domain budget, which has none.
pub fn frees(state: &Credit2State, ready: &Ready, cur: Option<UnitId>) -> bool
    requires { IsReadyIn state.now ready.now }
    ensures { (leaving : Bool) → result ≡ may_free cur leaving (scheduler_in state.now).records }
{
    let _ = state;
    match cur {
        None => false,
        Some(u) => !has_domain(ready.domains, u.dom),
    }
}
