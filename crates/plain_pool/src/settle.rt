//! The closure: which cores are to decide anew after an event. One scan of the waiting units serves all cores.

ghost use Rattle.sched_model.specs.CheckedMachine.{most_span};
ghost use Rattle.std.specs.Prelude.{◌≡◌, ◌<◌, ◌≤◌, length};
ghost use Rattle.sched_model.specs.Places.{change_each};
ghost use Rattle.sched_model.specs.Pool.{reconsidered_core, settled_pool};
ghost use Rattle.scheduler_records.specs.Fits.{RecordsFit};
ghost use Rattle.pool_records.specs.Fits.{PoolFits};
ghost use Rattle.plain_pool.specs.Looks.{Finds};

use crate::look::{BestWaiting, better_waits, look_of};
use pool_records::cores::home_cores;
use sched_base::{Cores, Moment, ResId};
use sched_model::row::Row;
use sched_model::state::{Pool, Resource, Scheduler};

/// The core is pending where it is not leaving and is to decide anew.
fn reconsider(
    scheduler: &Scheduler,
    look: &BestWaiting,
    home: Cores,
    core: ResId,
    t: Moment,
    at_core: &mut Resource,
)
    requires look { Finds look.now t.0 scheduler.now }
    requires records { RecordsFit t.0 scheduler.now.records }
    requires early { t.0 ≤ most_span }
    requires core { core.0 < 64 }
    ensures { at_core.new ≡ reconsidered_core t.0 home.0 scheduler.now core.0 at_core.old }
{
    if !at_core.leaving && !at_core.pending {
        at_core.pending = better_waits(look, at_core.cur, at_core.since, t, core, home, scheduler);
    }
}

/// Each core is looked at.
fn reconsider_all(
    scheduler: &Scheduler,
    look: &BestWaiting,
    home: Cores,
    t: Moment,
    cores: &mut Row<Option<Resource>>,
)
    requires look { Finds look.now t.0 scheduler.now }
    requires records { RecordsFit t.0 scheduler.now.records }
    requires early { t.0 ≤ most_span }
    requires few { length cores.old ≤ 64 }
    ensures { cores.new ≡ change_each 0 (reconsidered_core t.0 home.0 scheduler.now) cores.old }
{
    for r in 0..cores.len() {
        if let Some(c) = cores.item_mut(r) {
            reconsider(scheduler, look, home, ResId(r as u8), t, c);
        }
    }
}

/// Each core of the pool is looked at after an event.
pub fn settle(t: Moment, pool: &mut Pool)
    requires fits { PoolFits pool.old }
    requires records { RecordsFit t.0 pool.old.scheduler.records }
    requires early { t.0 ≤ most_span }
    ensures { pool.new ≡ settled_pool t.0 pool.old }
{
    let home = home_cores(pool.resources.as_slice());
    let look = look_of(&pool.scheduler, t);
    reconsider_all(&pool.scheduler, &look, Cores(home), t, &mut pool.resources);
}
