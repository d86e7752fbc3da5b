//! What one pool keeps.

ghost use Rattle.std.specs.Prelude.{◌≡◌, ◌≤◌, ◌<◌, ℕ, true, List, [], Some, None, length, replicate, slice_get};
ghost use Rattle.sched_base.specs.Numbers.{moment, core, domain};
ghost use Rattle.sched_base.specs.declared.Moment.{Moment};
ghost use Rattle.sched_model.specs.declared.action.Action.{Action};
ghost use Rattle.sched_model.specs.declared.action.Action.TheVariants.{Moved, DomMoved};
ghost use Rattle.sched_model.specs.declared.config.DomParams.{DomParams};
ghost use Rattle.sched_model.specs.declared.config.ParamChange.{ParamChange};
ghost use Rattle.sched_model.specs.declared.config.PoolParams.{PoolParams};
ghost use Rattle.sched_model.specs.declared.state.Domain.{Domain};
ghost use Rattle.sched_model.specs.declared.state.Vcpu.{Vcpu};
ghost use Rattle.sched_model.specs.declared.state.Pool.{Pool};
ghost use Rattle.sched_model.specs.Places.{at_place, put_at, clear_at};
ghost use Rattle.sched_model.specs.Opening.{joined_core};
ghost use Rattle.sched_model.specs.Policy.{empty_records};
ghost use Rattle.sched_model.specs.Pool.{enabled_in, after_in, settled_pool, change_processor, pool_with_leaving, pool_with_moving, paused_pool, unpaused_pool, changed_pool, pool_with_domain, pool_without_domain, domain_unit_count};
ghost use Rattle.state_ranges.specs.Counts.{Matches};
ghost use Rattle.settle_laws.specs.Ready.{AreCut, AreReadyBy};
ghost use Rattle.policy_laws.specs.Holds.{Holds};

/// What holds of a pool holds after each step inside of it, after a core or a domain has come or gone, and of every pool that
/// has none yet.
pub fn law_pool_kept()
    ensures later { (g s t : ℕ) → (pool : Pool) → s ≤ t → Holds g s pool → Holds g t pool }
    ensures settles { (g t : ℕ) → (pool : Pool) → Holds g t pool → Holds g t (settled_pool t pool) }
    ensures acts { (g t : ℕ) → (pool : Pool) → (action : Action) → enabled_in g t pool action
        ≡ true → Holds g t pool → Holds g t (after_in g t pool action) }
    ensures stalls { (g t p end : ℕ) → (pool : Pool) → Holds g t pool →
        Holds g t (change_processor g p (λ q. record q { stall_end = moment end }) pool) }
    ensures leaves { (g t r : ℕ) → (pool : Pool) → Holds g t pool
        → Holds g t (pool_with_leaving r pool) }
    ensures moves { (g t d i : ℕ) → (pool : Pool) → Holds g t pool →
        Holds g t (pool_with_moving d i pool) }
    ensures pauses { (g t d : ℕ) → (pool : Pool) → Holds g t pool → Holds g t (paused_pool d pool) }
    ensures unpauses { (g t d : ℕ) → (pool : Pool) → Holds g t pool
        → Holds g t (unpaused_pool g d pool) }
    ensures changes { (g t : ℕ) → (change : ParamChange) → (pool : Pool) → Holds g t pool →
        Holds g t (changed_pool change t pool) }
    ensures core_comes { (g t r : ℕ) → (ends : List Moment) → (pool : Pool) →
        at_place pool.resources r ≡ None → Holds g t pool →
        Holds g t (record pool { resources = put_at r (joined_core ends) pool.resources }) }
    ensures core_goes { (g t r : ℕ) → (pool : Pool) → enabled_in g t pool (Moved (core r)) ≡ true →
        Holds g t pool → Holds g t (record pool { resources = clear_at r pool.resources }) }
    ensures domain_comes { (g t d : ℕ) → (domain : Domain) → (params : DomParams) → (pool : Pool) →
        domain.moving ≡ None → ((n : ℕ) → (x : Vcpu) → slice_get domain.vcpus n ≡ Some x → x.started
        ≡ None) → at_place pool.domains d ≡ None → d < length pool.domains → 1
        ≤ domain_unit_count g domain → Matches pool.scheduler.records params → Holds g t pool →
        Holds g t (pool_with_domain g t d domain params pool) }
    ensures domain_goes { (g t d : ℕ) → (pool : Pool) → enabled_in g t pool (DomMoved (domain d))
        ≡ true → Holds g t pool → Holds g t (pool_without_domain d pool) }
    ensures opened { (g t domains cores places : ℕ) → (params : PoolParams) → 0 < g →
        Holds g t (record {
          scheduler = record {
            queue = [];
            affinity = replicate domains None;
            records = empty_records params domains cores;
          };
          domains = replicate domains None;
          resources = replicate places None;
        }) }
{}

/// A pool of which this holds keeps of its units what the laws of settling ask of a Credit2 pool, where what is left of each charge is below
/// the weight of the unit's domain: those that wait have records and are not on, and those that cores have as their own have records.
pub fn law_units_ready()
    ensures { (g t : ℕ) → (pool : Pool) → Holds g t pool → AreCut pool.scheduler.records →
        AreReadyBy pool.scheduler.records pool }
{}
