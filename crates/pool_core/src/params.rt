//! Changes of parameters, and what a pool tells to those who judge commands and move cores. t is the moment.

ghost use Rattle.std.specs.Prelude.{◌≡◌, ◌≤◌, ◌<◌, ℕ, Some, true, map};
ghost use Rattle.sched_model.specs.Places.{change_each, numbers_from};
ghost use Rattle.sched_model.specs.Policy.{records_kind, pool_rate_limit};
ghost use Rattle.sched_model.specs.Pool.{changed_pool};
ghost use Rattle.sched_ops.specs.Conditions.{IsChange, IsNow, is_member};
ghost use Rattle.core_state.specs.Seen.{changed_core};
ghost use Rattle.pool_records.specs.Cores.{ends_of};
ghost use Rattle.pool_records.specs.Marks.{due_now_of, marked_cores, pending_each};
ghost use Rattle.sched_base.specs.Units.{unit_id};
ghost use Rattle.pool_core.specs.Params.{AreKnown, stored_in, stored_units};
ghost use Rattle.pool_core.specs.Seen.{pool_of};

use crate::domains::runs_one_of;
use core_state::CoreState;
use pool_records::leaving::stall_ends_of;
use sched_base::{DomId, Moment, ResId, UnitId};
use sched_model::config::ParamChange;
use sched_model::facts::{Facts, ResPart, StoredList};
use sched_model::short::Short;
use sched_model::state::Resource;
use sched_ops::Policy;
use unit_state::Guests;

/// The core is to decide anew, and is due now, where its own unit is one of the domain.
fn make_due(cores: &mut CoreState, d: DomId, t: Moment, r: ResId)
    ensures { cores.new ≡ changed_core r.0 (due_now_of d.0 t.0 r.0) cores.old }
{
    if runs_one_of(cores, d, r) {
        cores.set_pending_due(r, t);
    }
}

/// The cores whose own unit is one of the domain are to decide anew, and are due now.
fn make_cores_due(cores: &mut CoreState, d: DomId, t: Moment)
    ensures { cores.new ≡ record cores.old
        { resources = change_each 0 (due_now_of d.0 t.0) cores.old.resources } }
{
    for r in 0..cores.places() {
        make_due(cores, d, t, ResId(r));
    }
}

/// All cores are to decide anew.
fn mark_all(cores: &mut CoreState)
    ensures { cores.new ≡ record cores.old
        { resources = change_each 0 pending_each cores.old.resources } }
{
    for r in 0..cores.places() {
        cores.set_pending(ResId(r));
    }
}

/// The cores that the change makes decide anew: those that run a unit of a domain whose cap is set, and all for a new frame.
fn mark(cores: &mut CoreState, change: &ParamChange, t: Moment)
    ensures { cores.new ≡ record cores.old
        { resources = marked_cores change.now t.0 cores.old.resources } }
{
    match change {
        ParamChange::Dom {
            dom,
            cap: Some(_),
            ..
        } => make_cores_due(cores, *dom, t),
        ParamChange::Frame { .. } => mark_all(cores),
        _ => {}
    }
}

/// The parameters of the pool's scheduler, or of a domain or a unit of it, change at t. The cores that this concerns are to decide
/// anew.
pub fn set_params<P: Policy>(
    guests: &Guests,
    cores: &mut CoreState,
    policy: &mut P,
    change: &ParamChange,
    t: Moment,
)
    requires now { IsNow (P.seen policy.old) t.0 }
    requires change { IsChange (records_kind (P.seen policy.old).scheduler.records)
        (P.seen policy.old).scheduler change.now }
    ensures pool { pool_of guests.now cores.new (P.seen policy.new)
        ≡ changed_pool change.now t.0 (pool_of guests.now cores.old (P.seen policy.old)) }
    ensures cores { cores.new ≡ record cores.old { resources = cores.new.resources } }
    ensures spare { (P.seen policy.new).spare ≡ (P.seen policy.old).spare }
    ensures latest { (P.seen policy.new).latest ≡ t.0 }
{
    policy.set_params(change, t);
    mark(cores, change, t);
}

/// The set values of the units of the domain with the indices below count, in order.
fn stored_below<P: Policy>(policy: &P, d: DomId, count: u8) -> StoredList
    requires few { count ≤ 32 }
    requires members { (n : ℕ) → n < count → is_member (P.seen policy.now).scheduler (unit_id d.0 n)
        ≡ true }
    ensures { map Some result ≡ stored_units (P.seen policy.now).scheduler.records d.0
        (numbers_from 0 count) }
{
    let mut units = Short::new();
    for n in 0..count {
        units.push(policy.stored(UnitId { dom: d, n }));
    }
    units
}

/// The set values of the units of the domain, where one is named: none where it is not here.
fn stored_values<P: Policy>(guests: &Guests, policy: &P, d: Option<DomId>) -> StoredList
    requires known { AreKnown guests.now.granularity guests.now.domains
        (P.seen policy.now).scheduler d }
    ensures { map Some result ≡ stored_in guests.now.granularity guests.now.domains
        (P.seen policy.now).scheduler.records d }
{
    match d {
        None => Short::new(),
        Some(d) => {
            guests.keeps();
            stored_below(policy, d, guests.unit_count(d))
        }
    }
}

/// The rate limit in microseconds, 0 where the scheduler has none, and the set values of the units of the domain, where one is
/// named: in order, at most 32, and none where the domain is not here.
pub fn facts<P: Policy>(guests: &Guests, policy: &P, d: Option<DomId>) -> Facts
    requires known { AreKnown guests.now.granularity guests.now.domains
        (P.seen policy.now).scheduler d }
    ensures rate { result.rate ≡ pool_rate_limit (P.seen policy.now).scheduler.records }
    ensures units { map Some result.units ≡ stored_in guests.now.granularity guests.now.domains
        (P.seen policy.now).scheduler.records d }
{
    Facts {
        rate: policy.rate(),
        units: stored_values(guests, policy, d),
    }
}

/// The core with the number r, as it moves to another pool: the ends of the stalls of its processors.
pub fn part_of(r: ResId, core: &Resource) -> ResPart
    ensures number { result.r ≡ r }
    ensures ends { result.stall_ends ≡ ends_of core.now }
{
    ResPart {
        r,
        stall_ends: stall_ends_of(core),
    }
}
