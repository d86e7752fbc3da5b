//! The moments of a pool's cores, and those of the pool.

ghost use Rattle.sched_base.specs.Numbers.{core, processor};
ghost use Rattle.std.specs.Prelude.{◌≡◌, ℕ, List, Option};
ghost use Rattle.sched_base.specs.declared.Moment.{Moment as MomentRecord};
ghost use Rattle.sched_model.specs.declared.action.Action.TheVariants.{Moved, Block, Slice, Arrive, Decide, Leave, Save};
ghost use Rattle.sched_model.specs.declared.state.Pool.{Pool as PoolRecord};
ghost use Rattle.sched_model.specs.Places.{at_place};
ghost use Rattle.pool_laws.specs.ReadyMoments.{lowest_stall_end, ready_in, work_end};
ghost use Rattle.core_state.specs.Ends.{lowest_among, ready_among};
ghost use Rattle.core_state.specs.Seen.{seen_in};

/// The moments from which on the events of the cores may come are those of a pool that has these cores, and of a block where the work
/// in hand is that of the vCPU which the processor runs. It does nothing.
pub fn law_of_pool()
    ensures moves { (g r : ℕ) → (works : List (Option MomentRecord)) → (pool : PoolRecord) →
        ready_among (seen_in g works pool) (Moved (core r)) ≡ ready_in g pool (Moved (core r)) }
    ensures slices { (g r : ℕ) → (works : List (Option MomentRecord)) → (pool : PoolRecord) →
        ready_among (seen_in g works pool) (Slice (core r)) ≡ ready_in g pool (Slice (core r)) }
    ensures decides { (g r : ℕ) → (works : List (Option MomentRecord)) → (pool : PoolRecord) →
        ready_among (seen_in g works pool) (Decide (core r)) ≡ ready_in g pool (Decide (core r)) }
    ensures saves { (g r : ℕ) → (works : List (Option MomentRecord)) → (pool : PoolRecord) →
        ready_among (seen_in g works pool) (Save (core r)) ≡ ready_in g pool (Save (core r)) }
    ensures arrives { (g p : ℕ) → (works : List (Option MomentRecord)) → (pool : PoolRecord) →
        ready_among (seen_in g works pool) (Arrive (processor p))
        ≡ ready_in g pool (Arrive (processor p)) }
    ensures leaves { (g p : ℕ) → (works : List (Option MomentRecord)) → (pool : PoolRecord) →
        ready_among (seen_in g works pool) (Leave (processor p))
        ≡ ready_in g pool (Leave (processor p)) }
    ensures blocks { (g p : ℕ) → (works : List (Option MomentRecord)) → (pool : PoolRecord) →
        at_place works p ≡ work_end g pool p →
        ready_among (seen_in g works pool) (Block (processor p))
        ≡ ready_in g pool (Block (processor p)) }
    ensures lowest { (pool : PoolRecord) → lowest_among pool.resources ≡ lowest_stall_end pool }
{}
