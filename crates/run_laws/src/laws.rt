//! How runs grow, the ordered run, the first action that may come, and the next moment.

ghost use Rattle.std.specs.Prelude.{◌≡◌, ◌+◌, ◌++◌, ◌∷◌, [], ◌↔◌, ◌≤◌, ◌<◌, ℕ, true, List, None, length, take};
ghost use Rattle.sched_model.specs.declared.action.Action.{Action};
ghost use Rattle.sched_model.specs.declared.event.Entry.{Entry};
ghost use Rattle.sched_model.specs.declared.machine.Machine.{Machine};
ghost use Rattle.sched_model.specs.declared.state.State.{State};
ghost use Rattle.sched_model.specs.Machine.{first_enabled_action, is_action_enabled, least_later_moment, ordered_run};
ghost use Rattle.sched_model.specs.Opening.{opening};
ghost use Rattle.sched_model.specs.Runs.{IsRun, IsWholeRun};
ghost use Rattle.run_laws.specs.RunLaws.{GoesOn, IsFirst, IsNextMoment, IsOrderedRun, IsOver};

/// A run goes on by an entry exactly where that entry may come next, and every beginning of a run is a run.
pub fn law_run_grows()
    ensures grows { (m : Machine) (entries : List Entry) (entry : Entry) →
        IsRun m (entries ++ entry ∷ []) ↔ GoesOn m entries entry }
    ensures beginnings { (m : Machine) (first rest : List Entry) → IsRun m (first ++ rest) →
        IsRun m first }
{}

/// The ordered run of every machine is a run, however many entries it is allowed. One that is over is a whole run, and so is one that needs fewer entries.
pub fn law_ordered_run()
    ensures run { (m : Machine) (most : ℕ) → IsRun m (ordered_run most m (opening m)) }
    ensures whole { (m : Machine) (most : ℕ) → IsOver m (ordered_run most m (opening m)) →
        IsWholeRun m (ordered_run most m (opening m)) }
    ensures fewer { (m : Machine) (most : ℕ) → length (ordered_run most m (opening m)) < most →
        IsWholeRun m (ordered_run most m (opening m)) }
{}

/// The runs in which each entry takes the first action that may come are the ordered run and its beginnings: the machine alone determines them.
/// Fewer entries allowed are a beginning, and more change nothing once the run is over.
pub fn law_ordered_run_is_the_only_one()
    ensures only { (m : Machine) (entries : List Entry) → IsOrderedRun m entries
        ↔ (entries ≡ ordered_run (length entries) m (opening m)) }
    ensures beginning { (m : Machine) (most more : ℕ) →
        take most (ordered_run (most + more) m (opening m)) ≡ ordered_run most m (opening m) }
    ensures over { (m : Machine) (most more : ℕ) → length (ordered_run most m (opening m)) < most →
        ordered_run (most + more) m (opening m) ≡ ordered_run most m (opening m) }
{}

/// The first action that may come is a candidate, and it may come; no candidate before it may. Where there is no first one, none may come.
pub fn law_first_enabled()
    ensures { (m : Machine) (s : State) (t : ℕ) → IsFirst m s t (first_enabled_action m s t) }
{}

/// What may come at a moment may come at every later one, while the state stands still.
pub fn law_enabled_stays()
    ensures { (m : Machine) (s : State) (t later : ℕ) (action : Action) → t ≤ later →
        is_action_enabled m s t action ≡ true → is_action_enabled m s later action ≡ true }
{}

/// Of every machine, state and moment at which nothing may come, the next moment is the least later one at which something may come;
/// where there is no next moment, nothing may come at any later one.
pub fn law_next_moment()
    ensures { (m : Machine) (s : State) (t : ℕ) → first_enabled_action m s t ≡ None →
        IsNextMoment m s t (least_later_moment m s t) }
{}
