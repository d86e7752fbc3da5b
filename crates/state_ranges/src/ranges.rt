//! The law of ranges.

ghost use Rattle.std.specs.Prelude.{List};
ghost use Rattle.sched_model.specs.declared.event.Entry.{Entry};
ghost use Rattle.sched_model.specs.declared.machine.Machine.{Machine};
ghost use Rattle.sched_model.specs.Runs.{IsRun};
ghost use Rattle.sched_model.specs.CheckedMachine.{IsChecked};
ghost use Rattle.sched_laws.specs.StateLaws.{state_after};
ghost use Rattle.state_ranges.specs.Ranges.{StateInRange};

/// In every state of a run each number is in its range: a moment that lies ahead does so by the longest span of a file at most, units,
/// domains and cores are those of the file, each list has a place for each of them, and the records of the schedulers are bounded by
/// the parameters of the file and the moment. Moments and spans are in nanoseconds.
pub fn law_in_range()
    ensures { (m : Machine) → IsChecked m → (entries : List Entry) → IsRun m entries →
        StateInRange m (state_after m entries) }
{}
