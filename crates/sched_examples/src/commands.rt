//! Commands.

ghost use Rattle.sched_examples.specs.Words.{RunsAs, IsSoundFor};
ghost use Rattle.sched_examples.specs.Commands.{machine_pause_and_unpause, entries_pause_and_unpause, machine_core_changes_pool, entries_core_changes_pool, machine_domain_migrates, entries_domain_migrates, machine_refusals, entries_refusals, machine_new_pool_is_listed, entries_new_pool_is_listed, machine_pools_full, entries_pools_full};

/// A domain that is paused and unpaused in one moment keeps its core, by a decision of that moment.
pub fn pause_and_unpause()
    ensures run { RunsAs machine_pause_and_unpause entries_pause_and_unpause }
    ensures sound { IsSoundFor 11 machine_pause_and_unpause }
{}

/// A core that is removed gives its unit back and is free before the next command, which adds it to another pool.
pub fn core_changes_pool()
    ensures run { RunsAs machine_core_changes_pool entries_core_changes_pool }
    ensures sound { IsSoundFor 28 machine_core_changes_pool }
{}

/// A domain that is moved leaves its core first, a unit of it that wakes meanwhile does not run, and the new pool has both.
pub fn domain_migrates()
    ensures run { RunsAs machine_domain_migrates entries_domain_migrates }
    ensures sound { IsSoundFor 28 machine_domain_migrates }
{}

/// Each command that cannot be done is refused with its cause, and the others are done.
pub fn refusals()
    ensures run { RunsAs machine_refusals entries_refusals }
    ensures sound { IsSoundFor 27 machine_refusals }
{}

/// A pool that is made has the lowest free number, no core and no domain.
pub fn new_pool_is_listed()
    ensures run { RunsAs machine_new_pool_is_listed entries_new_pool_is_listed }
    ensures sound { IsSoundFor 10 machine_new_pool_is_listed }
{}

/// A seventeenth pool is refused.
pub fn pools_full()
    ensures run { RunsAs machine_pools_full entries_pools_full }
    ensures sound { IsSoundFor 6 machine_pools_full }
{}
