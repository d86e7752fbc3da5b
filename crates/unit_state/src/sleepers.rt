//! The heap of the vCPUs that sleep.

ghost use Rattle.std.specs.Prelude.{◌≡◌, ◌≢◌, ◌+◌, ◌*◌, ◌/◌, ◌%◌, ◌<◌, ℕ, length, slice_set};
ghost use Rattle.due_heap.specs.Dues.{armed_moment};
ghost use Rattle.unit_state.specs.Seen.{wake_among};
ghost use Rattle.unit_state.specs.Guests.{vcpu_id};

use due_heap::DueHeap;
use pool_records::vcpus::vcpu_of;
use sched_base::{DomId, Moment, VcpuId};
use sched_model::state::Domain;

/// How many ids the heap has: 32 for each of 64 domains.
pub const IDS: usize = 2048;

/// The id of a vCPU, in order of domain, then of index.
fn id_of(v: VcpuId) -> u16
    ensures { result ≡ v.dom.0 * 32 + v.n }
{
    v.dom.0 as u16 * 32 + v.n as u16
}

/// The vCPU with this id.
pub fn vcpu_with(id: u16) -> VcpuId
    requires { id < 2048 }
    ensures { result ≡ vcpu_id (id / 32) (id % 32) }
{
    VcpuId {
        dom: DomId((id / 32) as u8),
        n: (id % 32) as u8,
    }
}

/// The moment at which the vCPU wakes, where it is there and sleeps.
pub fn wake_moment(domains: &[Option<Domain>], v: VcpuId) -> Option<Moment>
    ensures { result ≡ wake_among domains.now v }
{
    match vcpu_of(domains, v) {
        Some(x) => x.asleep_until,
        None => None,
    }
}

/// Arms the id with the moment, or disarms it where there is none.
fn set_due(sleepers: &mut DueHeap, id: u16, at: Option<Moment>)
    requires { id < length sleepers.old }
    ensures { sleepers.new ≡ slice_set sleepers.old id at }
{
    match at {
        Some(moment) => sleepers.arm(id, moment),
        None => sleepers.disarm(id),
    }
}

/// Arms a vCPU with its wake moment, or disarms it where it is awake or not there.
pub fn rearm(sleepers: &mut DueHeap, domains: &[Option<Domain>], v: VcpuId)
    requires { v.dom.0 * 32 + v.n < length sleepers.old }
    ensures { sleepers.new ≡ slice_set sleepers.old (v.dom.0 * 32 + v.n)
        (wake_among domains.now v) }
{
    set_due(sleepers, id_of(v), wake_moment(domains, v));
}

/// The same of all vCPUs that a domain may have.
pub fn rearm_domain(sleepers: &mut DueHeap, domains: &[Option<Domain>], d: DomId)
    requires ids { length sleepers.old ≡ 2048 }
    requires place { d.0 < 64 }
    ensures ids { length sleepers.new ≡ 2048 }
    ensures own { (n : ℕ) → n < 32 → armed_moment sleepers.new (d.0 * 32 + n)
        ≡ wake_among domains.now (vcpu_id d.0 n) }
    ensures others { (e n : ℕ) → e ≢ d.0 → n < 32 → armed_moment sleepers.new (e * 32 + n)
        ≡ armed_moment sleepers.old (e * 32 + n) }
{
    for n in 0..32u8 {
        rearm(sleepers, domains, VcpuId { dom: d, n });
    }
}
