//! Credit2 pools.

ghost use Rattle.sched_examples.specs.Words.{RunsAs, IsSoundFor};
ghost use Rattle.sched_examples.specs.Credit2.{machine_no_domains, entries_no_domains, machine_two_weights, entries_two_weights, machine_reset_after_a_stall, entries_reset_after_a_stall, machine_weight_in_mid_run, entries_weight_in_mid_run};

/// A core without work decides once and idles to the end.
pub fn no_domains()
    ensures run { RunsAs machine_no_domains entries_no_domains }
    ensures sound { IsSoundFor 5 machine_no_domains }
{}

/// The unit of twice the weight has twice the time, equal credits keep the unit that runs, and both get credit at a reset.
pub fn two_weights()
    ensures run { RunsAs machine_two_weights entries_two_weights }
    ensures sound { IsSoundFor 28 machine_two_weights }
{}

/// A unit that ran far beyond its credit in a stall gets several resets at once.
pub fn reset_after_a_stall()
    ensures run { RunsAs machine_reset_after_a_stall entries_reset_after_a_stall }
    ensures sound { IsSoundFor 12 machine_reset_after_a_stall }
{}

/// Weights that are set in mid-run charge from then on, and what was left of an earlier charge is cut to the new weight.
pub fn weight_in_mid_run()
    ensures run { RunsAs machine_weight_in_mid_run entries_weight_in_mid_run }
    ensures sound { IsSoundFor 25 machine_weight_in_mid_run }
{}
