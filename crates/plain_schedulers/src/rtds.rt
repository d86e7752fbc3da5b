//! RTDS: the unit with the least level, and of those the least deadline, runs as long as its budget lasts.

ghost use Rattle.sched_model.specs.CheckedMachine.{most_span};
ghost use Rattle.std.specs.Prelude.{◌≡◌, ◌<◌, ◌≤◌, [], ◌∷◌, Some};
ghost use Rattle.sched_base.specs.declared.UnitId.{UnitId as UnitName};
ghost use Rattle.sched_model.specs.declared.state.Records.TheVariants.{RtdsPool};
ghost use Rattle.sched_model.specs.EligibleUnits.{may_have_core, eligible_units};
ghost use Rattle.sched_model.specs.Rtds.{first_of_units, unit_left_budget, rtds_choice, rtds_decision_for, rtds_decision};
ghost use Rattle.scheduler_records.specs.Fits.{RtdsFits};
ghost use Rattle.plain_schedulers.specs.Tells.{Tells};
ghost use Rattle.scheduler_records.specs.Parts.{scheduler_of};

use crate::decided::Decided;
use sched_base::{Moment, UnitId};
use sched_model::ask::Ask;
use sched_model::config::Pins;
use sched_model::row::Row;
use sched_model::state::RtdsUnits;
use scheduler_records::eligible::is_allowed;
use scheduler_records::rtds::{budget_left, burn_cur, own_candidate, set_running, unit_before};

/// Whether the unit has budget left.
pub fn passes(domains: &[Option<RtdsUnits>], u: UnitId) -> bool
    ensures { result ≡ may_have_core (RtdsPool domains.now)
        (scheduler_of [] [] (RtdsPool domains.now)) 0 0 0 u }
{
    budget_left(domains, u) > 0
}

/// The unit that runs before the other: the one that is the best so far, where there is one and it is not after the other.
fn better_of(domains: &[Option<RtdsUnits>], best: Option<UnitId>, u: UnitId) -> UnitId
    ensures { Some result ≡ first_of_units domains.now best (u ∷ []) }
{
    match best {
        None => u,
        Some(w) => { if unit_before(domains, u, w) { u } else { w } }
    }
}

/// The unit that runs before the others: the best so far, or an eligible one of the queue; among equals the earlier.
fn foremost(
    domains: &[Option<RtdsUnits>],
    queue: &[UnitId],
    affinity: &[Option<Pins>],
    ask: &Ask,
    own: Option<UnitId>,
) -> Option<UnitId>
    requires { ask.now.core.0 < 64 }
    ensures { result ≡ first_of_units domains.now own
        (eligible_units (scheduler_of queue.now affinity.now (RtdsPool domains.now)) ask.now.home.0
        ask.now.core.0 ask.now.at.0) }
{
    let mut best = own;
    for u in queue {
        if is_allowed(affinity, ask.home, ask.core, *u) && passes(domains, *u) {
            best = Some(better_of(domains, best, *u));
        }
    }
    best
}

/// The choice, after the core's own unit was charged.
fn choice(
    domains: &[Option<RtdsUnits>],
    queue: &[UnitId],
    affinity: &[Option<Pins>],
    ask: &Ask,
) -> Option<UnitId>
    requires { ask.now.core.0 < 64 }
    ensures { result ≡ rtds_choice ask.now
        (scheduler_of queue.now affinity.now (RtdsPool domains.now)) domains.now }
{
    if ask.leaving {
        return None;
    }
    let own = own_candidate(domains, affinity, ask);
    foremost(domains, queue, affinity, ask, own)
}

/// The chosen unit runs from now on, and the core's own no more.
fn run(chosen: Option<UnitId>, ask: &Ask, domains: &mut Row<Option<RtdsUnits>>) -> Decided
    requires early { ask.now.at.0 ≤ most_span }
    requires left { (u : UnitName) → unit_left_budget domains.old u ≤ 1000000000000 }
    ensures decided { Tells result (rtds_decision_for ask.now domains.old chosen) }
    ensures records { RtdsPool domains.new ≡ (rtds_decision_for ask.now domains.old
        chosen).records }
{
    let due = match chosen {
        None => None,
        Some(u) => Some(Moment(ask.at.0 + budget_left(domains.as_slice(), u))),
    };
    if let Some(u) = ask.cur {
        set_running(None, u, domains);
    }
    if let Some(u) = chosen {
        set_running(Some(ask.at.0), u, domains);
    }
    Decided {
        unit: chosen,
        due,
        reset: 0,
    }
}

/// RTDS decides: the core's own unit is charged first, and then the choice is made.
pub fn choose(
    domains: &mut Row<Option<RtdsUnits>>,
    queue: &[UnitId],
    affinity: &[Option<Pins>],
    ask: &Ask,
) -> Decided
    requires fits { RtdsFits ask.now.at.0 domains.old }
    requires early { ask.now.at.0 ≤ most_span }
    requires core { ask.now.core.0 < 64 }
    ensures decided { Tells result (rtds_decision ask.now
        (scheduler_of queue.now affinity.now (RtdsPool domains.old)) domains.old) }
    ensures records { RtdsPool domains.new
        ≡ (rtds_decision ask.now (scheduler_of queue.now affinity.now (RtdsPool domains.old))
        domains.old).records }
{
    burn_cur(ask.cur, ask.at, domains);
    let chosen = choice(domains.as_slice(), queue, affinity, ask);
    run(chosen, ask, domains)
}
