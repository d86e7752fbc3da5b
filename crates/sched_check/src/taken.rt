//! What the entries are that a checker takes. The function does nothing, and its contract is the law.

ghost use Rattle.std.specs.Prelude.{◌≡◌, ◌↔◌, ◌++◌, ◌∷◌, [], Bool, true, false, List};
ghost use Rattle.sched_model.specs.declared.event.Entry.{Entry};
ghost use Rattle.sched_model.specs.declared.machine.Machine.{Machine};
ghost use Rattle.sched_model.specs.Runs.{IsRun, IsWholeRun, run_start};
ghost use Rattle.run_laws.specs.RunLaws.{IsOrderedRun, IsOver};
ghost use Rattle.sched_check.specs.Checking.{AreTaken, TakesOneMore};

/// The lists of entries that are taken one after another are the runs of the machine, and where the first action that may come is asked
/// for, the ordered ones; where a Finish was taken, they are whole. An entry more is taken exactly where it may come next.
pub fn law_taken_entries()
    ensures runs { (m : Machine) (entries : List Entry) → AreTaken m false (run_start m) entries
        ↔ IsRun m entries }
    ensures ordered { (m : Machine) (entries : List Entry) → AreTaken m true (run_start m) entries
        ↔ IsOrderedRun m entries }
    ensures whole { (m : Machine) (ordered : Bool) (entries : List Entry) →
        AreTaken m ordered (run_start m) entries → IsOver m entries → IsWholeRun m entries }
    ensures one_more { (m : Machine) (ordered : Bool) (entries : List Entry) (entry : Entry) →
        AreTaken m ordered (run_start m) (entries ++ entry ∷ [])
        ↔ TakesOneMore m ordered entries entry }
{}
