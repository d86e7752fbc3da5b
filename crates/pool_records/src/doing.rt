//! What the processors of a core do.

ghost use Rattle.std.specs.Prelude.{◌≡◌, ◌<◌, ◌/◌, ◌%◌, None, Some, true};
ghost use Rattle.sched_model.specs.declared.state.Doing.TheVariants as doing;
ghost use Rattle.sched_model.specs.declared.state.Resource.{Resource as ResourceRecord};
ghost use Rattle.sched_model.specs.Places.{change_at, change_item};
ghost use Rattle.sched_model.specs.Pool.{with_doing, change_processor, reopened_core, started_on};

use crate::vcpus::start_vcpu;
use sched_base::{Moment, ProcId, ResId, VcpuId};
use sched_model::row::Row;
use sched_model::state::{Doing, Pool, Resource};
use sibling_meet::{arrive, leave, set_doing};

/// The core's i-th processor does this. One that waits for its siblings from now on has arrived.
fn put_doing(core: &mut Resource, i: usize, doing: Doing)
    ensures { core.new
        ≡ record core.old { processors = change_item i (with_doing doing) core.old.processors } }
{
    match doing {
        Doing::Held => {
            arrive(core, i);
        }
        _ => set_doing(core, i, doing),
    }
}

/// The processor does this.
pub fn change_doing(granularity: u8, p: ProcId, doing: Doing, cores: &mut Row<Option<Resource>>)
    requires { 0 < granularity }
    ensures { cores.new ≡ change_at (p.0 / granularity) (λ (c : ResourceRecord).
        record c { processors = change_item (p.0 % granularity) (with_doing doing) c.processors })
        cores.old }
{
    if let Some(place) = cores.get_mut((p.0 / granularity) as usize)
        && let Some(c) = place
    {
        put_doing(c, (p.0 % granularity) as usize, doing);
    }
}

/// The processor leaves its siblings and does this: one change of its core.
fn leave_core(granularity: u8, p: ProcId, doing: Doing, cores: &mut Row<Option<Resource>>)
    requires { 0 < granularity }
    ensures { cores.new ≡ change_at (p.0 / granularity) (λ (c : ResourceRecord).
        reopened_core (record c { processors = change_item (p.0 % granularity) (with_doing doing) c.processors }))
        cores.old }
{
    if let Some(place) = cores.get_mut((p.0 / granularity) as usize)
        && let Some(c) = place
    {
        leave(c, (p.0 % granularity) as usize, doing);
    }
}

/// The processor leaves its siblings and does this; the last one that is held opens the core's stage.
pub fn leave_at(granularity: u8, p: ProcId, doing: Doing, cores: &mut Row<Option<Resource>>)
    requires { 0 < granularity }
    ensures { cores.new ≡ change_at (p.0 / granularity) reopened_core
        (change_at (p.0 / granularity) (λ (c : ResourceRecord).
        record c { processors = change_item (p.0 % granularity) (with_doing doing) c.processors })
        cores.old) }
{
    leave_core(granularity, p, doing, cores);
}

/// The core is to decide anew.
pub fn set_pending(r: ResId, cores: &mut Row<Option<Resource>>)
    ensures { cores.new ≡ change_at r.0 (λ (c : ResourceRecord). record c { pending = true })
        cores.old }
{
    if let Some(place) = cores.get_mut(r.0 as usize)
        && let Some(c) = place
    {
        c.pending = true;
    }
}

/// The processor takes the vCPU from t on, or idles.
pub fn take(granularity: u8, t: Moment, p: ProcId, taken: Option<VcpuId>, pool: &mut Pool)
    requires { 0 < granularity }
    ensures { pool.new ≡ elim taken [
      | None ↦ change_processor granularity p.0 (with_doing doing.Idle) pool.old
      | Some v ↦ started_on granularity t.0 p.0 v pool.old
    ] }
{
    match taken {
        None => change_doing(granularity, p, Doing::Idle, &mut pool.resources),
        Some(v) => {
            start_vcpu(&mut pool.domains, v, t);
            change_doing(granularity, p, Doing::Guest(v), &mut pool.resources);
        }
    }
}
