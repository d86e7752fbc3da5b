//! Laws of runs: what holds in every state that the entries of a run lead to.

ghost use Rattle.sched_base.specs.Numbers.{processor};
ghost use Rattle.std.specs.Prelude.{◌≡◌, ◌/◌, ℕ, List, [], ◌∷◌, ◌++◌, Some, None};
ghost use Rattle.std.specs.List.{All};
ghost use Rattle.sched_model.specs.declared.event.Entry.{Entry};
ghost use Rattle.sched_model.specs.declared.machine.Machine.{Machine};
ghost use Rattle.sched_model.specs.declared.action.Action.TheVariants.{Arrive};
ghost use Rattle.sched_model.specs.Runs.{IsRun, event_action};
ghost use Rattle.sched_laws.specs.NullLaws.{GivenUnitsGoNowhereElse, GivenUnitsRun, NoUnitHasTwoCores, StayEndsWithCause};
ghost use Rattle.sched_laws.specs.RunLaws.{IsNoDecideOf, NobodyWaits, StillWaits};
ghost use Rattle.sched_model.specs.CheckedMachine.{IsChecked};
ghost use Rattle.sched_laws.specs.StateLaws.{state_after, PoolsKeepTheirOwn, SiblingsRunOneUnit, UnitsHaveOnePlace};

/// The units that wait in a pool, or are on its cores, are of domains whose home is the pool. A free core has no home.
pub fn law_pools()
    ensures { (m : Machine) → IsChecked m → (entries : List Entry) → IsRun m entries →
        PoolsKeepTheirOwn (state_after m entries) }
{}

/// A processor that runs a vCPU has its core run that vCPU's unit, and stands at the vCPU's place in it: so siblings run one unit.
pub fn law_siblings()
    ensures { (m : Machine) → IsChecked m → (entries : List Entry) → IsRun m entries →
        SiblingsRunOneUnit m.config.granularity (state_after m entries) }
{}

/// A unit stands at one place at most, and at one where it is runnable; those that wait are runnable; a core whose own unit is not is to decide anew.
pub fn law_one_place()
    ensures { (m : Machine) → IsChecked m → (entries : List Entry) → IsRun m entries →
        UnitsHaveOnePlace m.config.granularity (state_after m entries) }
{}

/// A processor that has arrived waits until its core decides: it is held, the stage is open, and it can neither block nor arrive nor leave.
pub fn law_still_waits()
    ensures { (m : Machine) → IsChecked m →
        (before : List Entry) (arrive : Entry) (later : List Entry) (p : ℕ) →
        IsRun m (before ++ arrive ∷ later) → event_action arrive.event
        ≡ Some (Arrive (processor p)) → All (IsNoDecideOf (p / m.config.granularity)) later →
        StillWaits m p (state_after m (before ++ arrive ∷ later)) }
{}

/// Before each End and Finish nobody waits for a core without need.
pub fn law_waiting()
    ensures { (m : Machine) → IsChecked m → (before : List Entry) (last : Entry) →
        IsRun m (before ++ last ∷ []) → event_action last.event ≡ None →
        NobodyWaits (state_after m before) }
{}

/// A null pool gives no unit two cores. A core of it loses its unit only where it is leaving, or the unit is not runnable or not allowed there.
/// A unit that was given a core goes on no other.
/// Before each End and Finish a runnable unit that was given a core has it, unless the core is leaving or a processor of it is stalled.
pub fn law_null_kept()
    ensures one_core { (m : Machine) → IsChecked m → (entries : List Entry) → IsRun m entries →
        NoUnitHasTwoCores (state_after m entries) }
    ensures cause { (m : Machine) → IsChecked m → (entries : List Entry) (next : Entry) →
        IsRun m (entries ++ next ∷ []) →
        StayEndsWithCause m.config.granularity (state_after m entries) next }
    ensures own_core { (m : Machine) → IsChecked m → (entries : List Entry) (next : Entry) →
        IsRun m (entries ++ next ∷ []) → GivenUnitsGoNowhereElse (state_after m entries) next }
    ensures running { (m : Machine) → IsChecked m → (before : List Entry) (last : Entry) →
        IsRun m (before ++ last ∷ []) → event_action last.event ≡ None →
        GivenUnitsRun m.config.granularity (state_after m before) }
{}
