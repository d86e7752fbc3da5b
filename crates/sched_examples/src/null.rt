//! Null pools.

ghost use Rattle.sched_examples.specs.Words.{RunsAs, IsSoundFor};
ghost use Rattle.sched_examples.specs.Null.{machine_core_is_kept, entries_core_is_kept, machine_no_weight, entries_no_weight, machine_core_is_freed, entries_core_is_freed, machine_core_is_kept_while_away, entries_core_is_kept_while_away, machine_cores_of_four, entries_cores_of_four};

/// A core stays kept for a unit that sleeps, and a third unit waits although the core idles.
pub fn core_is_kept()
    ensures run { RunsAs machine_core_is_kept entries_core_is_kept }
    ensures sound { IsSoundFor 19 machine_core_is_kept }
{}

/// A command of another scheduler is refused, and the run is as without it.
pub fn no_weight()
    ensures run { RunsAs machine_no_weight entries_no_weight }
    ensures sound { IsSoundFor 20 machine_no_weight }
{}

/// A core that was kept for a unit is given to the next once the unit has left the pool.
pub fn core_is_freed()
    ensures run { RunsAs machine_core_is_freed entries_core_is_freed }
    ensures sound { IsSoundFor 21 machine_core_is_freed }
{}

/// A core that leaves its pool while it idles, and comes back, is kept still for the unit that sleeps, and idles although another waits.
pub fn core_is_kept_while_away()
    ensures run { RunsAs machine_core_is_kept_while_away entries_core_is_kept_while_away }
    ensures sound { IsSoundFor 28 machine_core_is_kept_while_away }
{}

/// A core of four processors runs the vCPUs of one unit, idles where one sleeps or is not there, and stays kept while all of them sleep.
pub fn cores_of_four()
    ensures run { RunsAs machine_cores_of_four entries_cores_of_four }
    ensures sound { IsSoundFor 46 machine_cores_of_four }
{}
