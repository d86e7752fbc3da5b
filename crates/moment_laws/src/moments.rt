//! How many entries a moment of a run has at most, and how many moments a run of so many entries gets through.

ghost use Rattle.std.specs.Prelude.{◌≤◌, ◌+◌, ◌*◌, ℕ, List, length};
ghost use Rattle.sched_model.specs.declared.event.Entry.{Entry};
ghost use Rattle.sched_model.specs.declared.machine.Machine.{Machine};
ghost use Rattle.sched_model.specs.CheckedMachine.{IsChecked};
ghost use Rattle.sched_model.specs.Runs.{IsRun};
ghost use Rattle.moment_laws.specs.Moments.{IsOfMoment, causes, lines, whole_moments, work_lines, most_causes, most_due, most_in_any_moment, most_in_moment, most_in_moments, most_turns_in_moment};

/// Entries of one moment that follow one another, so those of a whole moment too, are no more than the machine's numbers and the
/// number of causes among them give. A cause is a line of the workload, a move, a wake, a block, an end of a slice, a
/// replenishment or a refill. With c causes and R cores they are `2 (c + R + 1)` stretches at most, each of as many entries at most as
/// the cores have turns, and one entry between each two of them. So with g processors a core and U units they are
/// `4 (g + 1) (c + R + 1) (R R (2 U + 5) + 1)` at most. And with L lines of the workload among them c is at most
/// `2 L + 1 + V + U + D + R`, for V vCPUs and D domains.
pub fn law_moment_ends()
    ensures turns { (m : Machine) → IsChecked m → (t : ℕ) → (before moment : List Entry) →
        IsOfMoment m t before moment → length moment + 1 ≤ most_turns_in_moment m (causes moment) }
    ensures entries { (m : Machine) → IsChecked m → (t : ℕ) → (before moment : List Entry) →
        IsOfMoment m t before moment → length moment ≤ most_in_moment m (causes moment) }
    ensures causes { (m : Machine) → IsChecked m → (t : ℕ) → (before moment : List Entry) →
        IsOfMoment m t before moment → causes moment ≤ most_causes m (lines moment) }
{}

/// A run that was cut after N entries has got through whole moments by then. With B the most entries of any moment, which the
/// machine alone gives, N is at most B for each whole moment, and once more for the one that goes on: so the whole moments are at
/// least N / B - 1. Sharper is the bound by the causes that the run had, and these are bounded by the lines of the workload and the
/// whole moments.
pub fn law_moments_pass()
    ensures moments { (m : Machine) → IsChecked m → (entries : List Entry) → IsRun m entries →
        length entries ≤ (whole_moments entries + 1) * most_in_any_moment m }
    ensures by_causes { (m : Machine) → IsChecked m → (entries : List Entry) → IsRun m entries →
        length entries ≤ most_in_moments m (causes entries) (whole_moments entries + 1) }
    ensures causes { (m : Machine) → IsChecked m → (entries : List Entry) → IsRun m entries →
        causes entries ≤ 2 * work_lines m + (whole_moments entries + 1) * most_due m }
{}
