//! The memory for a pool.

ghost use Rattle.std.specs.Prelude.{◌≡◌, ◌≤◌, IfOk, replicate, None};
ghost use Rattle.sched_model.specs.declared.config.PoolParams.TheVariants as pool_params;
ghost use Rattle.sched_ops.specs.Seen.{Seen, vacant_scheduler};
ghost use Rattle.runq.specs.Queue.{empty_queue};
ghost use Rattle.credit2_core.specs.Credit2State.{IsSound, seen_in};
ghost use Rattle.credit2_core.specs.Room.{IsFresh};

use crate::state::Credit2State;
use due_heap::DueHeap;
use runq::Runq;
use sched_base::NoMemory;
use sched_model::row::{Row, empty_places};
use sched_model::state::Credit2Records;
use std::alloc::Global;
use unit_places::Masks;

/// The rate limit of a pool where none is given, in microseconds.
pub const DEFAULT_LIMIT: u32 = 1000;

/// The queue of a pool with room for so many units, its sets of cores, and the dues of the refills of so many domains, at most 64.
fn empty_lists(
    alloc: Global,
    domains: usize,
    units: usize,
) -> Result<(Runq, Masks, DueHeap), NoMemory>
    requires few { domains ≤ 64 }
    ensures queue { IfOk result (λ lists. lists.0 ≡ empty_queue units) }
    ensures refills { IfOk result (λ lists. lists.2 ≡ replicate domains None) }
{
    let masks = Masks::room(alloc)?;
    let queue = Runq::room(alloc, units)?;
    Ok((queue, masks, DueHeap::room(alloc, domains)?))
}

/// The memory for so many domains, at most 64, and so many units, at most 256. No domain has joined. The greatest moment given
/// is latest.
pub fn reserve(
    alloc: Global,
    domains: u8,
    units: usize,
    latest: u64,
) -> Result<Credit2State, NoMemory>
    requires domains { domains ≤ 64 }
    requires units { units ≤ 256 }
    ensures { IfOk result (IsFresh domains units latest) }
{
    let places = domains as usize;
    let records = empty_places(alloc, places)?;
    let affinity = empty_places(alloc, places)?;
    let (queue, masks, refills) = empty_lists(alloc, places, units)?;
    Ok(Credit2State {
        records: Credit2Records {
            limit: DEFAULT_LIMIT,
            last_reset: None,
            domains: records,
        },
        affinity,
        queue,
        masks,
        refills,
        spare: units,
        latest,
        unpinned: true,
    })
}
