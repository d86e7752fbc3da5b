//! How many entries a stretch of a run has at most.

ghost use Rattle.std.specs.Prelude.{◌≤◌, List, length};
ghost use Rattle.sched_model.specs.declared.event.Entry.{Entry};
ghost use Rattle.sched_model.specs.declared.machine.Machine.{Machine};
ghost use Rattle.sched_model.specs.CheckedMachine.{IsChecked};
ghost use Rattle.moment_laws.specs.Stretches.{most_in_stretch};
ghost use Rattle.moment_laws.specs.Turns.{most_turns};
ghost use Rattle.moment_laws.specs.StretchEnds.{IsStretchOf};

/// A stretch of a run, whichever schedulers its pools have and however the run goes on, has as many entries at most as its cores
/// have turns: with g processors a core, R cores and U units `R (((2 g + 1) R + 1) (2 U + 3) + 3 g + 1)`. That is no more than
/// `2 (g + 1) R R (2 U + 5)`.
///
/// A stretch is a list of entries of one moment that follow one another: arrivals, leavings, saves, and decisions that reset no
/// credits and end no leg that began at an earlier moment.
pub fn law_stretch_ends()
    ensures turns { (m : Machine) → IsChecked m → (before stretch : List Entry) →
        IsStretchOf m before stretch → length stretch ≤ most_turns m }
    ensures entries { (m : Machine) → IsChecked m → (before stretch : List Entry) →
        IsStretchOf m before stretch → length stretch ≤ most_in_stretch m }
{}
