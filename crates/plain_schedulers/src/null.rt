//! The null scheduler: each core is given to one unit for good.

ghost use Rattle.std.specs.Prelude.{◌≡◌, ◌<◌, ◌≤◌, length};
ghost use Rattle.sched_model.specs.declared.state.Records.TheVariants.{NullPool};
ghost use Rattle.sched_model.specs.NullScheduler.{kept_for, placed_or_earliest, null_choice, null_decision};
ghost use Rattle.plain_schedulers.specs.Tells.{Tells};
ghost use Rattle.scheduler_records.specs.Parts.{scheduler_of};

use crate::decided::Decided;
use sched_base::{ResId, UnitId};
use sched_model::ask::Ask;
use sched_model::config::Pins;
use sched_model::places::set_place;
use sched_model::row::Row;
use scheduler_records::eligible::is_allowed;
use scheduler_records::null::{is_placed, passes, release_unit};

/// The first waiting unit that may have the core.
fn earliest(
    kept: &[Option<UnitId>],
    queue: &[UnitId],
    affinity: &[Option<Pins>],
    ask: &Ask,
) -> Option<UnitId>
    requires core { ask.now.core.0 < 64 }
    requires few { length kept.now ≤ 64 }
    ensures { result ≡ placed_or_earliest ask.now
        (scheduler_of queue.now affinity.now (NullPool kept.now)) kept.now }
{
    for u in queue {
        if is_allowed(affinity, ask.home, ask.core, *u)
            && passes(kept, affinity, ask.home, ask.core, *u)
        {
            return Some(*u);
        }
    }
    None
}

/// The core's own unit, where it was given the core and may go on, and else one that waits.
fn choice(
    kept: &[Option<UnitId>],
    queue: &[UnitId],
    affinity: &[Option<Pins>],
    ask: &Ask,
) -> Option<UnitId>
    requires core { ask.now.core.0 < 64 }
    requires few { length kept.now ≤ 64 }
    ensures { result ≡ null_choice ask.now (scheduler_of queue.now affinity.now (NullPool kept.now))
        kept.now }
{
    if let Some(u) = ask.cur
        && ask.runnable
        && is_placed(kept, affinity, ask.home, ask.core, u)
    {
        return Some(u);
    }
    earliest(kept, queue, affinity, ask)
}

/// The core is kept for the unit, and no other core is.
fn keep_for(core: ResId, u: UnitId, kept: &mut Row<Option<UnitId>>)
    ensures { kept.new ≡ kept_for core.0 u kept.old }
{
    release_unit(u, kept);
    set_place(kept, core.0, Some(u));
}

/// The null scheduler decides: the chosen unit keeps the core, and a core that is leaving keeps none.
pub fn choose(
    kept: &mut Row<Option<UnitId>>,
    queue: &[UnitId],
    affinity: &[Option<Pins>],
    ask: &Ask,
) -> Decided
    requires core { ask.now.core.0 < 64 }
    requires few { length kept.old ≤ 64 }
    ensures decided { Tells result (null_decision ask.now
        (scheduler_of queue.now affinity.now (NullPool kept.old)) kept.old) }
    ensures records { NullPool kept.new ≡
        (null_decision ask.now (scheduler_of queue.now affinity.now (NullPool kept.old))
        kept.old).records }
{
    let chosen = if ask.leaving {
        set_place(kept, ask.core.0, None);
        None
    } else {
        choice(kept.as_slice(), queue, affinity, ask)
    };
    if let Some(u) = chosen {
        keep_for(ask.core, u, kept);
    }
    Decided {
        unit: chosen,
        due: None,
        reset: 0,
    }
}
