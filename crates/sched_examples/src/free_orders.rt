//! Runs in other orders.

ghost use Rattle.sched_model.specs.Runs.{IsWholeRun};
ghost use Rattle.sched_examples.specs.FreeOrders.{entries_pause_seen_by_save, entries_siblings_in_turn};
ghost use Rattle.sched_examples.specs.Commands.{machine_pause_and_unpause};
ghost use Rattle.sched_examples.specs.Siblings.{machine_siblings_meet};

/// Where the domain is unpaused while its unit is saved, the unit is queued once, by the save. This is another order of the run of `commands::pause_and_unpause`.
pub fn pause_seen_by_save()
    ensures { IsWholeRun machine_pause_and_unpause entries_pause_seen_by_save }
{}

/// The siblings of a core arrive and leave in either order. This is another order of the run of `siblings::siblings_meet`.
pub fn siblings_in_turn()
    ensures { IsWholeRun machine_siblings_meet entries_siblings_in_turn }
{}
