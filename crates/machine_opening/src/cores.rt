//! The cores come in.

ghost use Rattle.std.specs.Prelude.{◌≡◌, ◌≤◌, ◌<◌, true, None, replicate, length, map, slice_set};
ghost use Rattle.sched_model.specs.Places.{at_place, numbers_from};
ghost use Rattle.pool_records.specs.OpeningCores.{opening_core};
ghost use Rattle.machine_opening.specs.OpeningPool.{IsStill, with_cores};

use pool_core::pool::PoolState;
use pool_records::opening::{has_core, no_stalls};
use sched_base::{Moment, ResId};
use sched_model::facts::ResPart;
use sched_ops::Policy;

/// The core r comes in, where it is in the set.
#[tactic(auto, using(crate::proofs::Attaching::core_came, crate::proofs::Attaching::no_core_came))]
fn attach<P: Policy>(cores: u64, granularity: u8, r: ResId, pool: &mut PoolState<P>)
    requires few { granularity ≤ 4 }
    requires core { r.0 < 64 }
    requires granularity { pool.old.granularity ≡ granularity }
    requires still { IsStill pool.old }
    requires place { r.0 < length pool.old.pool.resources }
    requires absent { at_place pool.old.pool.resources r.0 ≡ None }
    ensures { pool.new ≡ with_cores (slice_set pool.old.pool.resources r.0
        (opening_core granularity cores r.0)) pool.old }
{
    if has_core(cores, r) {
        let core = ResPart {
            r,
            stall_ends: no_stalls(granularity),
        };
        pool.attach(&core, Moment(0));
    }
}

/// The cores of the set come into a pool that has none, in order of their numbers.
pub fn attach_all<P: Policy>(cores: u64, granularity: u8, count: u8, pool: &mut PoolState<P>)
    requires few { granularity ≤ 4 }
    requires count { count ≤ 64 }
    requires granularity { pool.old.granularity ≡ granularity }
    requires used { pool.old.in_use ≡ true }
    requires early { pool.old.latest ≡ 0 }
    requires none { pool.old.pool.resources ≡ replicate count None }
    ensures { pool.new ≡ with_cores (map (opening_core granularity cores) (numbers_from 0 count))
        pool.old }
{
    for r in 0..count {
        attach(cores, granularity, ResId(r), pool);
    }
}
