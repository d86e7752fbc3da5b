//! The law of records.

ghost use Rattle.std.specs.Prelude.{List};
ghost use Rattle.sched_model.specs.declared.event.Entry.{Entry};
ghost use Rattle.sched_model.specs.declared.machine.Machine.{Machine};
ghost use Rattle.sched_model.specs.Runs.{IsRun};
ghost use Rattle.sched_model.specs.CheckedMachine.{IsChecked};
ghost use Rattle.sched_laws.specs.EachPlace.{EachPlace};
ghost use Rattle.sched_laws.specs.StateLaws.{state_after};
ghost use Rattle.state_ranges.specs.Records.{HasRecords};

/// In every state of a run the scheduler of each pool keeps records of each domain that the pool has: a Credit2 pool a record with all units
/// of the domain, an RTDS pool a record of each of its units. It keeps none of other domains. A domain has one unit at least.
pub fn law_records()
    ensures { (m : Machine) → IsChecked m → (entries : List Entry) → IsRun m entries →
        EachPlace (HasRecords m.config.granularity) (state_after m entries).pools }
{}
