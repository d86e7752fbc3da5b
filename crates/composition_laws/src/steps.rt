//! What an event of one pool changes.

ghost use Rattle.std.specs.Prelude.{◌≡◌, ℕ, Some};
ghost use Rattle.sched_model.specs.declared.action.Action.{Action};
ghost use Rattle.sched_model.specs.declared.machine.Machine.{Machine};
ghost use Rattle.sched_model.specs.declared.state.State.{State};
ghost use Rattle.sched_model.specs.Actions.{IsOfPool, home_pool_of_action};
ghost use Rattle.composition_laws.specs.PoolSteps.{ChangesPool};

/// Of every state, reached or not: an event of a processor, core, unit, vCPU or domain that is no move between pools changes the
/// part of its subject's home and no other. The tool's part, the homes of all names and the moment stay.
pub fn law_pool_steps()
    ensures { (m : Machine) → (s : State) → (t : ℕ) → (action : Action) → (i : ℕ) →
        IsOfPool action → home_pool_of_action m.config.granularity s action ≡ Some i →
        ChangesPool m s t action i }
{}
