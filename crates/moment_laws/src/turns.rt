//! How many entries the cores of a machine still have before them in a stretch.

ghost use Rattle.std.specs.Prelude.{◌≡◌, ◌≤◌, ◌+◌, ◌++◌, ◌∷◌, [], true, List};
ghost use Rattle.sched_model.specs.declared.event.Entry.{Entry};
ghost use Rattle.sched_model.specs.declared.machine.Machine.{Machine};
ghost use Rattle.sched_model.specs.declared.state.State.{State};
ghost use Rattle.sched_model.specs.CheckedMachine.{IsChecked};
ghost use Rattle.sched_model.specs.Runs.{IsRun};
ghost use Rattle.sched_laws.specs.EachPlace.{EachPlace};
ghost use Rattle.sched_laws.specs.StateLaws.{state_after};
ghost use Rattle.moment_laws.specs.Stretches.{open_legs, is_in_stretch, most_in_stretch};
ghost use Rattle.moment_laws.specs.Turns.{IsBounded, most_turns, turns_left};
ghost use Rattle.moment_laws.specs.GoodDecisions.{DecidesWellNext};

/// Where the decisions of stretches are good ones, each entry of a stretch of a run takes one turn at least of those that are left
/// to the cores. Where no unit of a pool has more units before it than the machine has, `most_turns` turns are left at most, and these
/// are no more than `most_in_stretch`: with g processors a core, R cores and U units at most `2 (g + 1) R R (2 U + 5)`.
pub fn law_turns_left()
    ensures falls { (m : Machine) → IsChecked m → DecidesWellNext m → (before : List Entry) →
        (entry : Entry) → IsRun m (before ++ entry ∷ []) →
        is_in_stretch entry.at.0 (open_legs m before) entry.event ≡ true →
        turns_left m (state_after m (before ++ entry ∷ [])) + 1
        ≤ turns_left m (state_after m before) }
    ensures most { (m : Machine) (s : State) → EachPlace (IsBounded m) s.pools → turns_left m s
        ≤ most_turns m }
    ensures bound { (m : Machine) → most_turns m ≤ most_in_stretch m }
{}
