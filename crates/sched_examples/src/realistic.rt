//! A machine as users have one.

ghost use Rattle.sched_examples.specs.Words.{BeginsWith, IsSoundFor};
ghost use Rattle.sched_examples.specs.Realistic.{machine_first_entries, entries_first_entries};

/// The first 500 entries of the ordered run of a machine with three pools and twelve domains.
pub fn first_entries()
    ensures run { BeginsWith machine_first_entries entries_first_entries }
    ensures sound { IsSoundFor 150 machine_first_entries }
{}
