//! The units of a domain.

ghost use Rattle.std.specs.Prelude.{◌≡◌, ◌<◌, ◌≤◌, length};
ghost use Rattle.sched_model.specs.Pool.{domain_unit_count, vcpu_unit};

use sched_base::{UnitId, VcpuId};
use sched_model::state::Domain;

/// How many units, each of `granularity` vCPUs, the domain has.
pub fn unit_count(granularity: u8, domain: &Domain) -> u8
    requires some { 0 < granularity }
    requires few { granularity ≤ 4 }
    requires vcpus { length domain.now.vcpus ≤ 32 }
    ensures count { result ≡ domain_unit_count granularity domain.now }
    ensures fits { result ≤ 32 }
{
    ((domain.vcpus.len() + granularity as usize - 1) / granularity as usize) as u8
}

/// The unit of a vCPU.
pub fn unit_of(granularity: u8, v: VcpuId) -> UnitId
    requires { 0 < granularity }
    ensures { result ≡ vcpu_unit granularity v }
{
    UnitId {
        dom: v.dom,
        n: v.n / granularity,
    }
}
