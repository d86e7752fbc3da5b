//! Sets of cores, with bit r for core r.

ghost use Rattle.std.specs.Prelude.{◌≡◌, ◌<◌, ◌≤◌, ◌^◌, map, bit_or, IfOk};
ghost use Rattle.std.specs.List.{list_any};
ghost use Rattle.sched_model.specs.State.{has_core_bit};
ghost use Rattle.toml.specs.View.{view};
ghost use Rattle.dom_file.specs.Heads.{IsHead};
ghost use Rattle.dom_file.specs.Cores.{core_of, cores_of, machine_core_set, is_core_taken};

use crate::draft::PoolDraft;
use crate::fault::DomCause;
use crate::head::Head;
use crate::values::number;
use toml::Value;

fn has_core(cores: u64, core: u64) -> bool
    requires { core < 64 }
    ensures { result ≡ has_core_bit cores core }
{
    (cores >> core) % 2 == 1
}

fn with_core(cores: u64, core: u64) -> u64
    requires { core < 64 }
    ensures { result ≡ bit_or cores (2 ^ core) }
{
    cores | (1 << core)
}

fn is_taken(pools: &[PoolDraft], core: u64) -> bool
    requires { core < 64 }
    ensures { result ≡ is_core_taken pools.now core }
{
    for pool in pools {
        if has_core(pool.cores, core) {
            return true;
        }
    }
    false
}

/// The core of a processor that the machine has, and none of these pools.
fn core(head: &Head, pools: &[PoolDraft], value: &Value) -> Result<u64, DomCause>
    requires { IsHead head.now }
    ensures value { result ≡ core_of head.now pools.now (view value.now) }
    ensures range { IfOk result (λ core. core < 64) }
{
    let processor = number(value, 0, head.processors as u64 - 1)?;
    let core = processor / head.granularity as u64;
    if is_taken(pools, core) {
        Err(DomCause::Twice)
    } else {
        Ok(core)
    }
}

/// The set of the cores of processors that the machine has, and none of these pools.
pub(crate) fn cores(head: &Head, pools: &[PoolDraft], values: &[Value]) -> Result<u64, DomCause>
    requires { IsHead head.now }
    ensures { result ≡ cores_of head.now pools.now (map view values.now) }
{
    let mut cores = 0;
    for value in values {
        cores = with_core(cores, core(head, pools, value)?);
    }
    Ok(cores)
}

/// The set of all cores of the machine.
pub(crate) fn all_cores(head: &Head) -> u64
    requires { IsHead head.now }
    ensures { result ≡ machine_core_set head.now }
{
    u64::MAX >> (64 - head.processors as u64 / head.granularity as u64)
}
