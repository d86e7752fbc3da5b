//! The law of parts.

ghost use Rattle.std.specs.Prelude.{List};
ghost use Rattle.sched_model.specs.declared.event.Entry.{Entry};
ghost use Rattle.sched_model.specs.declared.machine.Machine.{Machine};
ghost use Rattle.sched_model.specs.Runs.{IsRun};
ghost use Rattle.sched_model.specs.CheckedMachine.{IsChecked};
ghost use Rattle.journal_core.specs.Histories.{NamesStandOnce};

/// In every state of a run each core and each domain is listed by the part of its home, and by no other: a core by its pool, or by the
/// tool's part where no pool has it, and a domain by its pool.
pub fn law_names_stand_once()
    ensures { (m : Machine) → IsChecked m → (entries : List Entry) → IsRun m entries →
        NamesStandOnce m entries }
{}
