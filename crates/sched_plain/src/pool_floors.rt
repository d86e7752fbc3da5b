//! The earliest kind of the events of a core, and of a domain, that may come. Kinds are told by their places in the order of kinds, from 0 for
//! stalls to 12 for saves; 13 stands for none.

ghost use Rattle.std.specs.Prelude.{◌≡◌, ℕ, ◌+◌, ◌/◌, ◌<◌, ◌≤◌, false, true};
ghost use Rattle.sched_model.specs.declared.action.Action.TheVariants as action_of;
ghost use Rattle.sched_model.specs.Pool.{enabled_in};
ghost use Rattle.pool_records.specs.Fits.{DomainFits, PoolFits};
ghost use Rattle.sched_laws.specs.EachPlace.{AllPlaces};
ghost use Rattle.sched_plain.specs.PoolFloors.{IsCoreFloor, IsDomainFloor, IsFirstSibling, NoneMeets, NoneRenews, NoneWakes, meeting_at, unit_at, vcpu_at, vcpus_among};

use plain_pool::pool::is_enabled_in;
use sched_base::{DomId, Moment, ProcId, ResId, UnitId, VcpuId};
use sched_model::action::Action;
use sched_model::places::item_at;
use sched_model::state::{Domain, Pool, Records};

/// What a processor does: its vCPU blocks, it comes to the meeting of its core, or it leaves that.
#[derive(Clone, Copy)]
pub enum Meeting {
    Block,
    Arrive,
    Leave,
}

impl Meeting {
    /// The event of this kind at the processor.
    fn at(self, p: ProcId) -> Action
        ensures { result ≡ meeting_at self p.0 }
    {
        match self {
            Meeting::Block => Action::Block(p),
            Meeting::Arrive => Action::Arrive(p),
            Meeting::Leave => Action::Leave(p),
        }
    }
}

/// Whether one of count processors from the first one on may do this.
fn any_meets(granularity: u8, t: Moment, pool: &Pool, kind: Meeting, first: u8, count: u8) -> bool
    requires some { 0 < granularity }
    requires fits { PoolFits pool.now }
    requires few { first + count ≤ 256 }
    ensures { result ≡ false → NoneMeets granularity t.0 pool.now kind first count }
{
    if count == 0 {
        return false;
    }
    is_enabled_in(granularity, t, pool, kind.at(ProcId(first + (count - 1))))
        || any_meets(granularity, t, pool, kind, first, count - 1)
}

/// Whether one of the domain's first count vCPUs may wake.
fn any_wakes(granularity: u8, t: Moment, pool: &Pool, d: DomId, count: u8) -> bool
    requires some { 0 < granularity }
    requires fits { PoolFits pool.now }
    ensures { result ≡ false → NoneWakes granularity t.0 pool.now d count }
{
    if count == 0 {
        return false;
    }
    let n = count - 1;
    is_enabled_in(granularity, t, pool, Action::Wake(VcpuId { dom: d, n }))
        || any_wakes(granularity, t, pool, d, n)
}

/// Whether one of the domain's first count units may be replenished.
fn any_renews(granularity: u8, t: Moment, pool: &Pool, d: DomId, count: u8) -> bool
    requires some { 0 < granularity }
    requires fits { PoolFits pool.now }
    ensures { result ≡ false → NoneRenews granularity t.0 pool.now d count }
{
    if count == 0 {
        return false;
    }
    let n = count - 1;
    is_enabled_in(granularity, t, pool, Action::Repl(UnitId { dom: d, n }))
        || any_renews(granularity, t, pool, d, n)
}

/// The earliest kind of the core's events that may come.
pub fn core_floor(granularity: u8, t: Moment, pool: &Pool, r: ResId) -> u8
    requires some { 0 < granularity }
    requires few { granularity ≤ 4 }
    requires core { r.0 < 64 }
    requires fits { PoolFits pool.now }
    ensures { IsCoreFloor granularity t.0 pool.now r.0 result }
{
    let first = r.0 * granularity;
    if is_enabled_in(granularity, t, pool, Action::Moved(r)) {
        2
    } else if any_meets(granularity, t, pool, Meeting::Block, first, granularity) {
        5
    } else if is_enabled_in(granularity, t, pool, Action::Slice(r)) {
        6
    } else if any_meets(granularity, t, pool, Meeting::Arrive, first, granularity) {
        9
    } else if is_enabled_in(granularity, t, pool, Action::Decide(r)) {
        10
    } else if any_meets(granularity, t, pool, Meeting::Leave, first, granularity) {
        11
    } else if is_enabled_in(granularity, t, pool, Action::Save(r)) {
        12
    } else {
        13
    }
}

/// How many vCPUs the domain has.
fn vcpu_count(d: DomId, domains: &[Option<Domain>]) -> u8
    requires { AllPlaces DomainFits domains.now }
    ensures { result ≡ vcpus_among d.0 domains.now }
{
    match item_at(domains, d.0 as usize) {
        None => 0,
        Some(x) => x.vcpus.len() as u8,
    }
}

/// How many of the domain's units have deadlines.
fn deadline_count(pool: &Pool, d: DomId) -> u8
    ensures { (granularity t : ℕ) → (n : ℕ) → result ≤ n → enabled_in granularity t pool.now (action_of.Repl (unit_at d n)) ≡ false }
{
    match &pool.scheduler.records {
        Records::RtdsPool(domains) => match item_at(domains.as_slice(), d.0 as usize) {
            None => 0,
            Some(units) => units.len() as u8,
        },
        _ => 0,
    }
}

/// Whether one of the domain's vCPUs may wake.
fn any_vcpu_wakes(granularity: u8, t: Moment, pool: &Pool, d: DomId) -> bool
    requires some { 0 < granularity }
    requires fits { PoolFits pool.now }
    ensures { result ≡ false → (n : ℕ) → enabled_in granularity t.0 pool.now (action_of.Wake (vcpu_at d n)) ≡ false }
{
    any_wakes(
        granularity,
        t,
        pool,
        d,
        vcpu_count(d, pool.domains.as_slice()),
    )
}

/// Whether one of the domain's units may be replenished.
fn any_unit_renews(granularity: u8, t: Moment, pool: &Pool, d: DomId) -> bool
    requires some { 0 < granularity }
    requires fits { PoolFits pool.now }
    ensures { result ≡ false → (n : ℕ) → enabled_in granularity t.0 pool.now (action_of.Repl (unit_at d n)) ≡ false }
{
    any_renews(granularity, t, pool, d, deadline_count(pool, d))
}

/// The earliest kind of the domain's events that may come.
pub fn domain_floor(granularity: u8, t: Moment, pool: &Pool, d: DomId) -> u8
    requires some { 0 < granularity }
    requires fits { PoolFits pool.now }
    ensures { IsDomainFloor granularity t.0 pool.now d.0 result }
{
    if is_enabled_in(granularity, t, pool, Action::DomMoved(d)) {
        3
    } else if any_vcpu_wakes(granularity, t, pool, d) {
        4
    } else if any_unit_renews(granularity, t, pool, d) {
        7
    } else if is_enabled_in(granularity, t, pool, Action::Refill(d)) {
        8
    } else {
        13
    }
}

/// Whether no event of this kind may come at a processor of the same core, a vCPU or a unit of the same domain, that has a lesser number.
pub fn is_first_sibling(granularity: u8, t: Moment, pool: &Pool, action: Action) -> bool
    requires some { 0 < granularity }
    requires fits { PoolFits pool.now }
    ensures { result ≡ true → IsFirstSibling granularity t.0 pool.now action }
{
    match action {
        Action::Wake(v) => !any_wakes(granularity, t, pool, v.dom, v.n),
        Action::Repl(u) => !any_renews(granularity, t, pool, u.dom, u.n),
        Action::Block(p) => !any_before(granularity, t, pool, Meeting::Block, p),
        Action::Arrive(p) => !any_before(granularity, t, pool, Meeting::Arrive, p),
        Action::Leave(p) => !any_before(granularity, t, pool, Meeting::Leave, p),
        _ => true,
    }
}

/// Whether a processor of the same core with a lesser number may do this.
fn any_before(granularity: u8, t: Moment, pool: &Pool, kind: Meeting, p: ProcId) -> bool
    requires some { 0 < granularity }
    requires fits { PoolFits pool.now }
    ensures { result ≡ false → (q : ℕ) → q / granularity ≡ p.0 / granularity → q < p.0 →
        enabled_in granularity t.0 pool.now (meeting_at kind q) ≡ false }
{
    let place = p.0 % granularity;
    any_meets(granularity, t, pool, kind, p.0 - place, place)
}
