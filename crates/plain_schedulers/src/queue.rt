//! The queue of a scheduler.

ghost use Rattle.std.specs.Prelude.{◌≡◌, ◌<◌, length};
ghost use Rattle.sched_model.specs.Policy.{scheduler_with_queued, scheduler_without_queued};
ghost use Rattle.sched_model.specs.Places.{has_listed_unit};

use sched_base::{DomId, UnitId};
use sched_model::short::Short;
use sched_model::state::Scheduler;
use sched_model::units::is_same;

/// The unit waits at the end of the queue.
pub fn enqueue(u: UnitId, scheduler: &mut Scheduler)
    requires { length scheduler.old.queue < 256 }
    ensures { scheduler.new ≡ scheduler_with_queued u scheduler.old }
{
    scheduler.queue.push(u);
}

/// The domain's units are taken out of the queue.
pub fn dequeue_domain(d: DomId, scheduler: &mut Scheduler)
    ensures { scheduler.new ≡ scheduler_without_queued d.0 scheduler.old }
{
    let mut kept = Short::new();
    for u in scheduler.queue.as_slice() {
        if u.dom.0 != d.0 {
            kept.push(*u);
        }
    }
    scheduler.queue = kept;
}

/// Whether the unit is among the units.
pub fn has_unit(units: &[UnitId], u: UnitId) -> bool
    ensures { result ≡ has_listed_unit units.now u }
{
    units.iter().any(|w| is_same(u, *w))
}
