//! A machine to which nothing happens from outside keeps its configuration.

ghost use Rattle.std.specs.Prelude.{◌≡◌, ◌^◌, ℕ, List, Some, true, slice_get};
ghost use Rattle.sched_base.specs.declared.UnitId.{UnitId};
ghost use Rattle.sched_model.specs.declared.config.PoolConfig.{PoolConfig};
ghost use Rattle.sched_model.specs.declared.config.DomConfig.{DomConfig};
ghost use Rattle.sched_model.specs.declared.event.Entry.{Entry};
ghost use Rattle.sched_model.specs.declared.machine.Machine.{Machine};
ghost use Rattle.sched_model.specs.declared.state.Pool.{Pool};
ghost use Rattle.sched_model.specs.declared.state.Resource.{Resource};
ghost use Rattle.sched_model.specs.CheckedMachine.{IsChecked};
ghost use Rattle.sched_model.specs.Places.{at_place};
ghost use Rattle.sched_model.specs.Runs.{IsRun};
ghost use Rattle.sched_model.specs.State.{may_unit_run};
ghost use Rattle.sched_laws.specs.StateLaws.{state_after};
ghost use Rattle.undisturbed_laws.specs.Undisturbed.{HasHome, IsAsConfigured, IsUndisturbed, NeverSleeps, StandsAt};

/// Where no processor stalls and no command comes, every state of every run is as configured: no processor is stalled, no core leaves, no domain moves or is
/// paused, each domain is in its home pool, and each pool has its cores, its scheduler, its parameters, and records of exactly its domains with all their
/// units. A unit that has a vCPU with an empty script is runnable in every state. A pool that is configured with one core has exactly that core.
pub fn law_undisturbed()
    ensures states { (m : Machine) → IsChecked m → IsUndisturbed m → (entries : List Entry) → IsRun m entries →
        IsAsConfigured m (state_after m entries) }
    ensures runnable { (m : Machine) → IsChecked m → IsUndisturbed m → (entries : List Entry) → IsRun m entries →
        (i : ℕ) (pool : Pool) → at_place (state_after m entries).pools i ≡ Some pool →
        (u : UnitId) → NeverSleeps m u → (config : DomConfig) → HasHome m i u.dom.0 config →
        may_unit_run m.config.granularity pool u ≡ true }
    ensures one_core { (m : Machine) → IsChecked m → IsUndisturbed m → (entries : List Entry) → IsRun m entries →
        (i r : ℕ) (pool : Pool) (config : PoolConfig) → at_place (state_after m entries).pools i ≡ Some pool →
        slice_get m.config.pools i ≡ Some config → config.cores ≡ 2 ^ r →
        StandsAt pool.resources r (λ c. (q : ℕ) (d : Resource) → at_place pool.resources q ≡ Some d → q ≡ r) }
{}
