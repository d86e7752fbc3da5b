//! Credit2: which unit a core is to run, and for how long. Moments and spans are in nanoseconds.

ghost use Rattle.std.specs.Prelude.{◌≡◌, ◌<◌, ◌≤◌, [], filter};
ghost use Rattle.sched_model.specs.Credit2.{richest_unit, credit2_candidate, credit2_choice, best_other_credit, chosen_slice};
ghost use Rattle.scheduler_records.specs.Bounds.{PoolParamsFit};
ghost use Rattle.scheduler_records.specs.Parts.{credit2_scheduler};
ghost use Rattle.plain_schedulers.specs.WaitingUnits.{HasCredit, is_contender, is_more_than};

use sched_base::UnitId;
use sched_model::ask::Ask;
use sched_model::config::Pins;
use sched_model::places::item_at;
use sched_model::state::Credit2Records;
use sched_model::units::is_there;
use scheduler_records::credit2_running::{credit_of, max_weight};
use scheduler_records::credit2_slice::{domain_has_budget, is_within_limit, slice_in};
use scheduler_records::eligible::is_allowed;

/// Whether the credit is more than that of the best so far, which is any where there is none.
pub fn is_more(best: Option<UnitId>, most: i64, credit: i64) -> bool
    ensures { result ≡ is_more_than best most credit }
{
    match best {
        None => true,
        Some(_) => most < credit,
    }
}

/// Whether the asking core may take the waiting unit, which is not the one to be passed over.
fn contends(
    affinity: &[Option<Pins>],
    ask: &Ask,
    records: &Credit2Records,
    over: Option<UnitId>,
    u: UnitId,
) -> bool
    requires { ask.now.core.0 < 64 }
    ensures { result ≡ is_contender affinity.now ask.now records.now over u }
{
    !is_there(over, u)
        && domain_has_budget(records, u)
        && is_allowed(affinity, ask.home, ask.core, u)
}

/// The unit of greatest credit: the best so far, which has this credit, or one of those that wait and contend; among equals the
/// earlier. Credits are compared first, since most units have no more.
fn greatest(
    records: &Credit2Records,
    best: Option<UnitId>,
    most: i64,
    waiting: &[UnitId],
    affinity: &[Option<Pins>],
    ask: &Ask,
    over: Option<UnitId>,
) -> Option<UnitId>
    requires core { ask.now.core.0 < 64 }
    requires most { HasCredit records.now best most }
    ensures { result ≡ richest_unit records.now best
        (filter (is_contender affinity.now ask.now records.now over) waiting.now) }
{
    let mut found = best;
    let mut credit = most;
    for u in waiting {
        let next = credit_of(records, *u);
        if is_more(found, credit, next) && contends(affinity, ask, records, over, *u) {
            found = Some(*u);
            credit = next;
        }
    }
    found
}

/// The core's own unit, where it may go on.
fn own_candidate(ask: &Ask, affinity: &[Option<Pins>], records: &Credit2Records) -> Option<UnitId>
    requires { ask.now.core.0 < 64 }
    ensures { result ≡ credit2_candidate ask.now (credit2_scheduler [] affinity.now records.now)
        records.now }
{
    let u = ask.cur?;
    if ask.runnable
        && is_allowed(affinity, ask.home, ask.core, u)
        && domain_has_budget(records, u)
    {
        Some(u)
    } else {
        None
    }
}

/// The choice, after the core's own unit was charged.
pub fn choice(
    ask: &Ask,
    queue: &[UnitId],
    affinity: &[Option<Pins>],
    records: &Credit2Records,
) -> Option<UnitId>
    requires { ask.now.core.0 < 64 }
    ensures { result ≡ credit2_choice ask.now (credit2_scheduler queue.now affinity.now records.now)
        records.now }
{
    if ask.leaving {
        return None;
    }
    let own = own_candidate(ask, affinity, records);
    if own.is_some() && is_within_limit(records, ask.since, ask.at) {
        return own;
    }
    let most = match own {
        None => 0,
        Some(u) => credit_of(records, u),
    };
    greatest(records, own, most, queue, affinity, ask, None)
}

/// The greatest credit of the others that contend, or 0.
fn best_other(
    ask: &Ask,
    queue: &[UnitId],
    affinity: &[Option<Pins>],
    records: &Credit2Records,
    u: UnitId,
) -> i64
    requires { ask.now.core.0 < 64 }
    ensures { result ≡ best_other_credit ask.now
        (credit2_scheduler queue.now affinity.now records.now) records.now u }
{
    match greatest(records, None, 0, queue, affinity, ask, Some(u)) {
        None => 0,
        Some(w) => credit_of(records, w),
    }
}

/// How long the chosen unit runs.
pub fn slice_of(
    ask: &Ask,
    queue: &[UnitId],
    affinity: &[Option<Pins>],
    records: &Credit2Records,
    u: UnitId,
) -> u64
    requires core { ask.now.core.0 < 64 }
    requires params { PoolParamsFit records.now }
    requires limit { records.now.limit ≤ 500000 }
    ensures exact { result ≡ chosen_slice ask.now
        (credit2_scheduler queue.now affinity.now records.now) records.now u }
    ensures few { result ≤ 500000000 }
{
    let other = best_other(ask, queue, affinity, records, u);
    let most = max_weight(records);
    match item_at(records.domains.as_slice(), u.dom.0 as usize) {
        None => 0,
        Some(d) => slice_in(d, u.n, other, most, records.limit as u64 * 1000),
    }
}
