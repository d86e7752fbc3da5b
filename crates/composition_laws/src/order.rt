//! The first action by the order of actions, the candidates, and the homes of the events of pools.

ghost use Rattle.std.specs.Prelude.{◌≡◌, ◌↔◌, [], ◌∷◌, ◌++◌, true, false, None, ℕ, Bool, List, Option, Some, Contains, find};
ghost use Rattle.sched_model.specs.declared.action.Action.{Action};
ghost use Rattle.sched_model.specs.declared.config.Config.{Config};
ghost use Rattle.sched_model.specs.declared.event.Entry.{Entry};
ghost use Rattle.sched_model.specs.declared.event.Event.TheVariants.{Finish};
ghost use Rattle.sched_model.specs.declared.machine.Machine.{Machine};
ghost use Rattle.sched_model.specs.Actions.{candidates};
ghost use Rattle.sched_model.specs.CheckedMachine.{IsChecked};
ghost use Rattle.sched_model.specs.Machine.{after, is_action_enabled};
ghost use Rattle.sched_model.specs.Runs.{action_entry, IsNext, IsRun, event_action};
ghost use Rattle.sched_laws.specs.StateLaws.{state_after};
ghost use Rattle.run_laws.specs.RunLaws.{IsOver};
ghost use Rattle.journal_core.specs.Histories.{reached_by, state_at};
ghost use Rattle.composition_laws.specs.EntryLaws.{IsAtRest, LeadsAsBefore, LeadsTo};
ghost use Rattle.composition_laws.specs.OrderLaws.{ComesAtHome, ComesInPool, IsFirstOf};

/// Of all candidates, the first in their list that passes a test is the one that comes after none that passes it.
pub fn law_first_by_order()
    ensures { (config : Config) → (test : Action → Bool) → (found : Option Action) →
        IsFirstOf test (candidates config) found ↔ (find test (candidates config) ≡ found) }
{}

/// In every state of a run a pool lets an action come exactly where it is the home of the action's subject and the action may come in the machine.
pub fn law_home()
    ensures { (m : Machine) → IsChecked m → (entries : List Entry) → IsRun m entries → (i t : ℕ) →
        (action : Action) → ComesInPool m (state_after m entries) t i action
        ↔ ComesAtHome m (state_after m entries) t i action }
{}

/// In every state of a run an action that may come, at whatever moment, is one of the candidates.
pub fn law_candidates()
    ensures { (m : Machine) → IsChecked m → (entries : List Entry) → IsRun m entries → (t : ℕ) →
        (action : Action) → is_action_enabled m (state_after m entries) t action ≡ true →
        Contains (candidates m.config) action }
{}

/// A run is over exactly where its last entry is a Finish, and then nothing may come, now or within the horizon.
pub fn law_over()
    ensures finish { (m : Machine) → (before : List Entry) → (last : Entry) →
        IsRun m (before ++ last ∷ []) → IsOver m (before ++ last ∷ []) ↔ (last.event ≡ Finish) }
    ensures rest { (m : Machine) → (entries : List Entry) → IsRun m entries → IsOver m entries →
        IsAtRest m (state_after m entries) }
{}

/// The entry of an action that may come now may come next, and leads to the parts and homes of the state after the action.
/// An entry without an action leaves all parts and homes.
pub fn law_entries()
    ensures next { (m : Machine) → (h : List Entry) → (action : Action) → (reached_by m h).over
        ≡ false → is_action_enabled m (state_at m h) (state_at m h).now action ≡ true →
        IsNext m (reached_by m h) (action_entry m (state_at m h) action) }
    ensures leads { (m : Machine) → (h : List Entry) → (entry : Entry) → (action : Action) →
        event_action entry.event ≡ Some action →
        LeadsTo m (h ++ entry ∷ []) (after m (state_at m h) (state_at m h).now action) }
    ensures quiet { (m : Machine) → (h : List Entry) → (entry : Entry) → event_action entry.event
        ≡ None → LeadsAsBefore m (h ++ entry ∷ []) h }
{}
