//! Tables by domain: which domains may run, the sets of cores by unit, and the moments of the refills.

ghost use Rattle.std.specs.Prelude.{◌≡◌, ◌≢◌, ◌<◌, ◌≤◌, ◌^◌, ◌&&◌, ℕ, length, nat_lt, slice_set};
ghost use Rattle.sched_base.specs.declared.UnitId.{UnitId as Unit};
ghost use Rattle.unit_places.specs.Masks.{mask_of};
ghost use Rattle.arrival_queue.specs.Filters.{has_core_bit};
ghost use Rattle.sched_model.specs.Places.{at_place};
ghost use Rattle.credit2_core.specs.Places.{refill_of};
ghost use Rattle.sched_ops.specs.Affinity.{joined_unit_count};
ghost use Rattle.credit2_core.specs.Domains.{may_run_at, may_run_bit, set_of, masked_cores};

use due_heap::{DueHeap, put_id};
use sched_base::{Cores, DomId, Moment, UnitId};
use sched_model::config::Pins;
use sched_model::places::item_at;
use sched_model::state::Credit2Domain;
use scheduler_records::credit2_slice::has_budget;
use unit_places::Masks;

/// 1 where the cap lets the domain run, and 0 where it does not or there is no domain.
fn bit_of(place: &Option<Credit2Domain>) -> u64
    ensures exact { result ≡ may_run_bit place.now }
    ensures bit { result ≤ 1 }
{
    match place {
        None => 0,
        Some(d) => has_budget(d) as u64,
    }
}

/// The set of the domains that may run, with bit d for the domain d.
pub fn runnable_domains(domains: &[Option<Credit2Domain>]) -> u64
    requires { length domains.now ≤ 64 }
    ensures exact { result ≡ set_of domains.now }
    ensures below { result < 2 ^ length domains.now }
{
    match domains {
        [] => 0,
        [place, rest @ ..] => bit_of(place) + 2 * runnable_domains(rest),
    }
}

/// Whether the cap lets the domain with this number run.
pub fn may_run(domains: &[Option<Credit2Domain>], d: DomId) -> bool
    ensures { result ≡ may_run_at (at_place domains.now d.0) }
{
    match item_at(domains, d.0 as usize) {
        None => false,
        Some(d) => has_budget(d),
    }
}

/// The set of domains with one domain, or without it. There is no domain from 64 on.
pub fn with_domain(set: u64, d: DomId, is_in: bool) -> u64
    ensures others { (i : ℕ) → i ≢ d.0 → has_core_bit result i ≡ has_core_bit set i }
    ensures there { has_core_bit result d.0 ≡ (is_in && nat_lt d.0 64) }
{
    if d.0 < 64 {
        put_id(set, d.0 as u16, is_in)
    } else {
        set
    }
}

/// Writes the sets of cores of a domain's units into the table.
pub fn set_masks(masks: &mut Masks, d: DomId, sets: &[Cores])
    requires domain { d.0 < 64 }
    requires few { length sets.now ≤ 32 }
    ensures { (u : Unit) → u.n < 256 → mask_of masks.new u
        ≡ masked_cores masks.old d.0 sets.now (length sets.now) u }
{
    for (n, cores) in sets.iter().enumerate() {
        let u = UnitId { dom: d, n: n as u8 };
        masks.set(u, *cores);
    }
}

/// The heap has the moment of the domain's refill, or none where it has no refill.
pub fn rearm(refills: &mut DueHeap, domains: &[Option<Credit2Domain>], d: DomId)
    requires { d.0 < length refills.old }
    ensures { refills.new ≡ slice_set refills.old d.0 (refill_of (at_place domains.now d.0)) }
{
    let refill = match item_at(domains, d.0 as usize) {
        None => None,
        Some(domain) => domain.refill,
    };
    match refill {
        None => refills.disarm(d.0 as u16),
        Some(at) => refills.arm(d.0 as u16, Moment(at)),
    }
}

/// How many units the domain has.
pub fn count_at(affinity: &[Option<Pins>], d: DomId) -> u8
    ensures exact { result ≡ joined_unit_count affinity.now d.0 }
    ensures few { result ≤ 32 }
{
    match item_at(affinity, d.0 as usize) {
        None => 0,
        Some(sets) => sets.len() as u8,
    }
}
