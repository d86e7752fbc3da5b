//! The scripts of vCPUs.

ghost use Rattle.sched_examples.specs.Words.{RunsAs, IsSoundFor};
ghost use Rattle.sched_examples.specs.Scripts.{machine_longest_script, entries_longest_script};

/// A vCPU runs and sleeps by the spans of its script in order, here 64, the most there may be, and begins again with the first.
pub fn longest_script()
    ensures run { RunsAs machine_longest_script entries_longest_script }
    ensures sound { IsSoundFor 363 machine_longest_script }
{}
