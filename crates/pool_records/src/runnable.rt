//! Which units may run at all.

ghost use Rattle.std.specs.Prelude.{◌≡◌, take, drop};
ghost use Rattle.std.specs.List.{list_any};
ghost use Rattle.sched_model.specs.State.{is_awake, unit_runnable, runnable_among};

use sched_base::UnitId;
use sched_model::places::item_at;
use sched_model::state::{Domain, Vcpu};

/// Whether one of the vCPUs from a place on, count at most, is awake.
fn any_awake(vcpus: &[Vcpu], from: usize, count: usize) -> bool
    ensures { result ≡ list_any is_awake (take count (drop from vcpus.now)) }
{
    vcpus
        .iter()
        .skip(from)
        .take(count)
        .any(|v| v.asleep_until.is_none())
}

/// Whether some vCPU of the unit with this index is awake, and its domain is neither paused nor moving. A unit has `granularity` vCPUs.
pub fn is_unit_runnable(granularity: u8, domain: &Domain, index: u8) -> bool
    ensures { result ≡ unit_runnable granularity domain.now index }
{
    !domain.paused
        && domain.moving.is_none()
        && any_awake(
            domain.vcpus.as_slice(),
            index as usize * granularity as usize,
            granularity as usize,
        )
}

/// The same of a unit of one of these domains.
pub fn is_runnable(granularity: u8, domains: &[Option<Domain>], u: UnitId) -> bool
    ensures { result ≡ runnable_among granularity domains.now u }
{
    match item_at(domains, u.dom.0 as usize) {
        None => false,
        Some(domain) => is_unit_runnable(granularity, domain, u.n),
    }
}
