//! The run queue: its keys, and its first unit that a core may take.

ghost use Rattle.std.specs.Prelude.{◌≡◌, ◌≤◌, ◌<◌, ◌+◌, neg_ℤ, length, true};
ghost use Rattle.std.specs.List.{AllByRecursion};
ghost use Rattle.sched_base.specs.declared.UnitId.{UnitId as Unit};
ghost use Rattle.queue_laws.specs.Arrivals.{arrivals};
ghost use Rattle.sched_model.specs.Credit2.{unit_credit};
ghost use Rattle.credit2_core.specs.Keys.{HasCredits, KeysWhere, is_passed};
ghost use Rattle.sched_ops.specs.Affinity.{is_member_among};
ghost use Rattle.sched_model.specs.EligibleUnits.{is_allowed_by};
ghost use Rattle.credit2_core.specs.Credit2State.{AreMasks, IsFree, IsLine, IsSameLine};
ghost use Rattle.arrival_queue.specs.Filters.{has_core_bit};
ghost use Rattle.credit2_core.specs.Choice.{best_of, richer_of, first_ready_unit, first_with_unit};
ghost use Rattle.credit2_core.specs.Domains.{AreRunnable};
ghost use Rattle.credit2_core.specs.Whole.{IsReadyIn, IsReadyBut, stays_first};

use crate::domains::{count_at, may_run, runnable_domains, with_domain};
use crate::state::Credit2State;
use arrival_queue::has_domain;
use runq::{Allowed, Runq};
use sched_base::{Cores, DomId, ResId, UnitId};
use sched_model::config::Pins;
use sched_model::state::Credit2Records;
use scheduler_records::credit2_running::{credit_of, max_weight};
use scheduler_records::eligible::is_allowed;

/// The key of a unit.
pub fn key_of(records: &Credit2Records, u: UnitId) -> i128
    ensures { result ≡ neg_ℤ (unit_credit records.now u) }
{
    -(credit_of(records, u) as i128)
}

/// The unit is put at its place by its credit, where it waits.
fn rekey(queue: &mut Runq, records: &Credit2Records, u: UnitId)
    requires indices { AllByRecursion (λ (w : Unit). w.n < 256) (arrivals queue.old.units) }
    requires keys { KeysWhere (is_passed u.dom.0 u.n) records.now queue.old.units }
    ensures keys { KeysWhere (is_passed u.dom.0 (u.n + 1)) records.now queue.new.units }
    ensures same { IsSameLine queue.old queue.new }
{
    queue.law_order();
    if queue.has(u) {
        queue.rekey(u, key_of(records, u));
    }
}

/// The domain's units that wait are put at their places.
fn rekey_domain(queue: &mut Runq, records: &Credit2Records, d: DomId, count: u8)
    requires indices { AllByRecursion (λ (w : Unit). w.n < 256) (arrivals queue.old.units) }
    requires keys { KeysWhere (is_passed d.0 0) records.now queue.old.units }
    ensures keys { KeysWhere (is_passed d.0 count) records.now queue.new.units }
    ensures same { IsSameLine queue.old queue.new }
{
    for n in 0..count {
        let u = UnitId { dom: d, n };
        rekey(queue, records, u);
    }
}

/// All units that wait are put at their places by their credits, which a reset has changed.
pub fn rekey_all(queue: &mut Runq, records: &Credit2Records, affinity: &[Option<Pins>])
    requires few { length affinity.now ≤ 64 }
    requires indices { AllByRecursion (λ (w : Unit). w.n < 256) (arrivals queue.old.units) }
    requires joined { AllByRecursion (λ u. is_member_among affinity.now u ≡ true)
        (arrivals queue.old.units) }
    ensures keys { HasCredits records.now queue.new.units }
    ensures same { IsSameLine queue.old queue.new }
{
    for d in 0..affinity.len() {
        let dom = d as u8;
        let count = count_at(affinity, DomId(dom));
        rekey_domain(queue, records, DomId(dom), count);
    }
}

/// The unit of greatest credit of those that wait and may take the core; among equals the earlier. The set is that of the domains
/// that may run.
fn best_waiting(state: &Credit2State, runnable: Allowed, core: ResId, home: Cores) -> Option<UnitId>
    requires set { AreRunnable state.now.records.domains runnable.0 }
    requires core { core.0 < 64 }
    requires line { IsLine state.now }
    requires masks { AreMasks state.now.affinity state.now.masks }
    ensures { result ≡ best_of (arrivals state.now.queue.units) state.now.affinity home.0 core.0
        state.now.records }
{
    state.queue.law_order();
    state.queue.first_on(&runnable, &state.masks, core, home)
}

/// What is kept from change to change, so that neither a decision nor a question makes it: the set of the domains that may run, the
/// first unit that waits of one of them, and the greatest weight of the pool.
#[derive(Clone, Copy)]
pub struct Ready {
    pub domains: Allowed,
    pub first: Option<UnitId>,
    pub most: u32,
}

/// The first unit that waits of a domain that may run. The set is that of these domains.
pub fn first_ready(state: &Credit2State, domains: Allowed) -> Option<UnitId>
    requires { AreRunnable state.now.records.domains domains.0 }
    ensures { result ≡ first_ready_unit state.now.records state.now.queue.units }
{
    state.queue.first_where(&domains)
}

/// All that is kept, made of the whole pool.
pub fn ready_in(state: &Credit2State) -> Ready
    requires { length state.now.records.domains ≤ 64 }
    ensures { IsReadyIn state.now result }
{
    let domains = Allowed(runnable_domains(state.records.domains.as_slice()));
    Ready {
        domains,
        first: first_ready(state, domains),
        most: max_weight(&state.records),
    }
}

/// Whether the kept unit stays the first, where the domain d may run now, or may not.
fn keeps_first(ready: Ready, d: DomId, may_run: bool) -> bool
    ensures { result ≡ stays_first ready d.0 may_run }
{
    if may_run {
        return has_domain(ready.domains, d);
    }
    match ready.first {
        None => true,
        Some(u) => u.dom.0 != d.0,
    }
}

/// What is kept, once the record of one domain was written. The unit that stands, as the first by the set that was kept, stays the first
/// unless the domain may run only now, or is the unit's own and may run no more; else the first is looked for.
pub fn follow(state: &Credit2State, ready: Ready, d: DomId, stands: bool) -> Ready
    requires few { length state.now.records.domains ≤ 64 }
    requires but { IsReadyBut d.0 stands state.now.records state.now.queue.units ready }
    ensures { IsReadyIn state.now result }
{
    let may = may_run(state.records.domains.as_slice(), d);
    let domains = Allowed(with_domain(ready.domains.0, d, may));
    if stands && keeps_first(ready, d, may) {
        return Ready {
            domains,
            first: ready.first,
            most: ready.most,
        };
    }
    Ready {
        domains,
        first: first_ready(state, domains),
        most: ready.most,
    }
}

/// The unit, or the one that waits where it has more credit.
pub fn richer(records: &Credit2Records, own: UnitId, waiting: Option<UnitId>) -> Option<UnitId>
    ensures { result ≡ richer_of records.now own waiting }
{
    match waiting {
        None => Some(own),
        Some(u) => {
            if credit_of(records, own) < credit_of(records, u) {
                Some(u)
            } else {
                Some(own)
            }
        }
    }
}

/// The first unit of a domain that may run, once the unit waits too, behind all others.
pub fn first_with(records: &Credit2Records, ready: Ready, u: UnitId) -> Option<UnitId>
    ensures { result ≡ first_with_unit records.now (has_core_bit ready.domains.0 u.dom.0)
        ready.first u }
{
    if !has_domain(ready.domains, u.dom) {
        return ready.first;
    }
    match ready.first {
        None => Some(u),
        Some(first) => richer(records, first, Some(u)),
    }
}

/// Whether a unit that has joined may be on the core. Where none was pinned, each may be on every core.
#[inline]
pub fn may_be_on(state: &Credit2State, u: UnitId, core: ResId, home: Cores) -> bool
    requires free { IsFree state.now.unpinned state.now.affinity }
    requires joined { is_member_among state.now.affinity u ≡ true }
    requires core { core.0 < 64 }
    ensures { result ≡ is_allowed_by state.now.affinity home.0 core.0 u }
{
    state.unpinned || is_allowed(state.affinity.as_slice(), home, core, u)
}

/// As `best_waiting`. Where the first unit of a domain that may run may take the core, no other one is looked for.
pub fn best_ready(state: &Credit2State, ready: &Ready, core: ResId, home: Cores) -> Option<UnitId>
    requires ready { IsReadyIn state.now ready.now }
    requires free { IsFree state.now.unpinned state.now.affinity }
    requires core { core.0 < 64 }
    requires line { IsLine state.now }
    requires masks { AreMasks state.now.affinity state.now.masks }
    ensures { result ≡ best_of (arrivals state.now.queue.units) state.now.affinity home.0 core.0
        state.now.records }
{
    state.queue.law_order();
    match ready.first {
        None => None,
        Some(u) => {
            if may_be_on(state, u, core, home) {
                Some(u)
            } else {
                best_waiting(state, ready.domains, core, home)
            }
        }
    }
}
