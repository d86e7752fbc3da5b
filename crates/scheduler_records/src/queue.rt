//! The queue of waiting units.

ghost use Rattle.std.specs.Prelude.{◌≡◌};
ghost use Rattle.sched_model.specs.Places.{without_unit};

use sched_base::UnitId;
use sched_model::short::Short;
use sched_model::state::Queue;
use sched_model::units::is_same;

/// The unit is taken out of the queue.
pub fn drop_unit(queue: &mut Queue, u: UnitId)
    ensures { queue.new ≡ without_unit u queue.old }
{
    let mut kept = Short::new();
    for w in queue.as_slice() {
        if !is_same(u, *w) {
            kept.push(*w);
        }
    }
    *queue = kept;
}
