//! Credit2: the unit with the greatest credit runs. Moments and spans are in nanoseconds.

ghost use Rattle.sched_model.specs.CheckedMachine.{most_span};
ghost use Rattle.std.specs.Prelude.{◌≡◌, ◌<◌, ◌≤◌, Some, None};
ghost use Rattle.sched_model.specs.declared.state.Records.TheVariants.{Credit2Pool};
ghost use Rattle.sched_model.specs.Credit2.{has_domain_budget, has_more_credit, credit2_decision_for, credit2_decision};
ghost use Rattle.scheduler_records.specs.Fits.{Credit2Fits};
ghost use Rattle.plain_schedulers.specs.Tells.{Tells};
ghost use Rattle.scheduler_records.specs.Bounds.{PoolFits};
ghost use Rattle.scheduler_records.specs.Parts.{credit2_scheduler};

use crate::credit2_choice::{choice, slice_of};
use crate::decided::Decided;
use sched_base::{Moment, UnitId};
use sched_model::ask::Ask;
use sched_model::config::Pins;
use sched_model::state::Credit2Records;
use scheduler_records::credit2_running::{
    burn_cur, burned_credit_of, credit_of, reset, set_running, switch_off, take_at,
};
use scheduler_records::credit2_slice::{domain_has_budget, is_within_limit, resets_for};

/// Whether the cap lets the unit's domain run.
pub fn passes(records: &Credit2Records, u: UnitId) -> bool
    ensures { result ≡ has_domain_budget records.now u }
{
    domain_has_budget(records, u)
}

/// Whether a unit has more credit than the core's own has at t, and that has run for the rate limit since a moment.
pub fn is_better(records: &Credit2Records, cur: UnitId, since: Moment, t: Moment, u: UnitId) -> bool
    requires early { t.0 ≤ most_span }
    requires fits { Credit2Fits t.0 records.now }
    ensures { result ≡ has_more_credit records.now cur since.0 t.0 u }
{
    !is_within_limit(records, since, t) && burned_credit_of(records, t, cur) < credit_of(records, u)
}

/// The core idles: its own unit runs no more.
fn idle(
    records: &mut Credit2Records,
    queue: &[UnitId],
    affinity: &[Option<Pins>],
    ask: &Ask,
) -> Decided
    ensures decided { Tells result (credit2_decision_for ask.now
        (credit2_scheduler queue.now affinity.now records.old) records.old None) }
    ensures records { Credit2Pool records.new
        ≡ (credit2_decision_for ask.now (credit2_scheduler queue.now affinity.now records.old)
        records.old None).records }
{
    switch_off(ask.cur, records);
    Decided {
        unit: None,
        due: None,
        reset: 0,
    }
}

/// The core runs the unit: the resets that it calls for are made, and it takes its budget.
fn run_unit(
    records: &mut Credit2Records,
    queue: &[UnitId],
    affinity: &[Option<Pins>],
    ask: &Ask,
    u: UnitId,
) -> Decided
    requires core { ask.now.core.0 < 64 }
    requires early { ask.now.at.0 ≤ most_span }
    requires fits { PoolFits ask.now.at.0 records.old }
    requires limit { records.old.limit ≤ 500000 }
    ensures decided { Tells result (credit2_decision_for ask.now
        (credit2_scheduler queue.now affinity.now records.old) records.old (Some u)) }
    ensures records { Credit2Pool records.new
        ≡ (credit2_decision_for ask.now (credit2_scheduler queue.now affinity.now records.old)
        records.old (Some u)).records }
{
    let resets = resets_for(ask.at, u, records);
    reset(ask.at, resets, records);
    take_at(u, records);
    let long = slice_of(ask, queue, affinity, records, u);
    switch_off(ask.cur, records);
    set_running(Some(ask.at.0), u, records);
    Decided {
        unit: Some(u),
        due: Some(Moment(ask.at.0 + long)),
        reset: resets,
    }
}

/// The decision for a core: its own unit is charged first, and then the choice is made of it and the units that wait.
pub fn choose(
    records: &mut Credit2Records,
    queue: &[UnitId],
    affinity: &[Option<Pins>],
    ask: &Ask,
) -> Decided
    requires fits { Credit2Fits ask.now.at.0 records.old }
    requires early { ask.now.at.0 ≤ most_span }
    requires core { ask.now.core.0 < 64 }
    ensures decided { Tells result (credit2_decision ask.now
        (credit2_scheduler queue.now affinity.now records.old) records.old) }
    ensures records { Credit2Pool records.new
        ≡ (credit2_decision ask.now
        (credit2_scheduler queue.now affinity.now records.old) records.old).records }
{
    burn_cur(ask.cur, ask.at, records);
    match choice(ask, queue, affinity, records) {
        None => idle(records, queue, affinity, ask),
        Some(u) => run_unit(records, queue, affinity, ask, u),
    }
}
