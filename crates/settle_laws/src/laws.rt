//! Which cores of a pool a look makes pending.

ghost use Rattle.std.specs.Prelude.{◌≡◌, ◌||◌, ◌^◌, ℕ, Option, Some, None, false, true};
ghost use Rattle.sched_base.specs.Numbers.{core, processor};
ghost use Rattle.sched_base.specs.Units.{unit_id};
ghost use Rattle.sched_base.specs.declared.UnitId.{UnitId};
ghost use Rattle.sched_base.specs.declared.VcpuId.{VcpuId};
ghost use Rattle.sched_model.specs.declared.action.Action.TheVariants.{Arrive, Block, Decide, Leave, Save, Slice, Wake};
ghost use Rattle.sched_model.specs.declared.ask.Ask.{Ask};
ghost use Rattle.sched_model.specs.declared.state.ArincRecords.{ArincRecords};
ghost use Rattle.sched_model.specs.declared.state.Records.TheVariants.{ArincPool};
ghost use Rattle.sched_model.specs.declared.state.Pool.{Pool};
ghost use Rattle.sched_model.specs.declared.state.Resource.{Resource};
ghost use Rattle.sched_model.specs.declared.state.Scheduler.{Scheduler};
ghost use Rattle.sched_model.specs.EligibleUnits.{is_unit_allowed, is_unit_eligible};
ghost use Rattle.sched_model.specs.Places.{at_place, has_listed_unit};
ghost use Rattle.sched_model.specs.Policy.{has_better_waiting, scheduler_with_queued};
ghost use Rattle.sched_model.specs.Pool.{after_in, core_ask, pool_core_set, queue_unit, saved_at, settled_pool, vcpu_unit};
ghost use Rattle.sched_model.specs.State.{may_unit_run};
ghost use Rattle.sched_laws.specs.EachPlace.{EachAt};
ghost use Rattle.sched_laws.specs.PoolFacts.{IsKnownPool};
ghost use Rattle.pool_laws.specs.CoreLooks.{IsSettled};
ghost use Rattle.settle_laws.specs.Exceptions.{answer_after, answer_before, asks, capped, framed, given};
ghost use Rattle.settle_laws.specs.Frees.{frees, may_free};
ghost use Rattle.settle_laws.specs.Kept.{KeptOnce};
ghost use Rattle.settle_laws.specs.Ready.{AreReadyBy};
ghost use Rattle.settle_laws.specs.Wanted.{NoneWanted, goes_before, reads_moment, settled_for, waits_for, is_queued_by};

/// A pool is settled exactly where none of its cores is wanted.
pub fn law_wanted()
    ensures none { (t : ℕ) → (pool : Pool) → IsSettled t pool → NoneWanted t pool }
    ensures settled { (t : ℕ) → (pool : Pool) → NoneWanted t pool → IsSettled t pool }
{}

/// The look of RTDS and of the null scheduler reads no moment: what a core is answered is the same at every moment, and a pool of
/// these that is settled at one moment is settled at every other.
pub fn law_moment()
    ensures answers { (cur : Option UnitId) → (since since2 t t2 core home : ℕ) →
        (scheduler : Scheduler) → reads_moment scheduler.records ≡ false →
        has_better_waiting cur since t core home scheduler
        ≡ has_better_waiting cur since2 t2 core home scheduler }
    ensures looks { (t t2 : ℕ) → (pool : Pool) → reads_moment pool.scheduler.records ≡ false →
        settled_pool t pool ≡ settled_pool t2 pool }
    ensures stays { (t t2 : ℕ) → (pool : Pool) → reads_moment pool.scheduler.records ≡ false →
        IsSettled t pool → IsSettled t2 pool }
{}

/// An event that changes neither the scheduler nor what a core asks it leaves a settled pool settled: a processor that arrives or leaves,
/// a vCPU that blocks, a core whose due comes, and a wake or a save after which no unit joins the queue.
pub fn law_spared()
    ensures arrives { (g t : ℕ) → (pool : Pool) → IsSettled t pool → (p : ℕ)
        → IsSettled t (after_in g t pool (Arrive (processor p))) }
    ensures leaves { (g t : ℕ) → (pool : Pool) → IsSettled t pool → (p : ℕ)
        → IsSettled t (after_in g t pool (Leave (processor p))) }
    ensures blocks { (g t : ℕ) → (pool : Pool) → IsSettled t pool → (p : ℕ)
        → IsSettled t (after_in g t pool (Block (processor p))) }
    ensures slices { (g t : ℕ) → (pool : Pool) → IsSettled t pool → (r : ℕ)
        → IsSettled t (after_in g t pool (Slice (core r))) }
    ensures wakes { (g t : ℕ) → (pool : Pool) → IsSettled t pool → (v : VcpuId)
        → is_queued_by g v pool ≡ false → IsSettled t (after_in g t pool (Wake v)) }
    ensures saves { (g t : ℕ) → (pool : Pool) → IsSettled t pool → (r : ℕ) →
        may_unit_run g pool (saved_at pool r) ≡ false → IsSettled t (after_in g t pool (Save (core r))) }
{}

/// Where a unit comes to wait behind the others, a core's answer is the one before or what the unit alone asks for. So in a pool that
/// was settled only that unit is to be compared, after a wake and a save too. Where a unit waits that may have every core and before
/// which the one that comes does not go, nothing is to be compared.
pub fn law_comes()
    ensures answers { (cur : Option UnitId) → (since t core home : ℕ) → (u : UnitId) →
        (scheduler : Scheduler) → has_better_waiting cur since t core home (scheduler_with_queued u scheduler)
        ≡ (has_better_waiting cur since t core home scheduler
        || waits_for cur since t core home scheduler u) }
    ensures alone { (t : ℕ) → (u : UnitId) → (pool : Pool) → IsSettled t pool →
        settled_pool t (queue_unit u pool) ≡ settled_for t u (queue_unit u pool) }
    ensures wakes { (g t : ℕ) → (pool : Pool) → IsSettled t pool → (v : VcpuId) →
        is_queued_by g v pool ≡ true → settled_pool t (after_in g t pool (Wake v))
        ≡ settled_for t (vcpu_unit g v) (after_in g t pool (Wake v)) }
    ensures saves { (g t : ℕ) → (pool : Pool) → IsSettled t pool → (r : ℕ) → (c : Resource) →
        (u : UnitId) → at_place pool.resources r ≡ Some c → c.saving ≡ Some u →
        may_unit_run g pool u ≡ true → settled_pool t (after_in g t pool (Save (core r)))
        ≡ settled_for t u (after_in g t pool (Save (core r))) }
    ensures behind { (t : ℕ) → (u w : UnitId) → (pool : Pool) → IsSettled t pool →
        has_listed_unit pool.scheduler.queue w ≡ true → goes_before pool.scheduler.records u w ≡ false →
        EachAt (λ r c. is_unit_eligible pool.scheduler (pool_core_set pool) r t w ≡ true) pool.resources →
        IsSettled t (queue_unit u pool) }
{}

/// A decision of a core in a settled pool leaves it settled, the core itself with the others, but for the decisions that free
/// something.
pub fn law_decides()
    ensures { (g t r : ℕ) → (c : Resource) → (pool : Pool) → at_place pool.resources r ≡ Some c →
        IsKnownPool g pool → AreReadyBy pool.scheduler.records pool →
        KeptOnce pool.scheduler.records → frees (core_ask g t pool r c) pool.scheduler ≡ false →
        IsSettled t pool → IsSettled t (after_in g t pool (Decide (core r))) }
{}

/// Where the records tell before a decision that it may free nothing, it frees nothing.
pub fn law_frees()
    ensures { (ask : Ask) → (scheduler : Scheduler) →
        may_free ask.cur ask.leaving scheduler.records ≡ false → frees ask scheduler ≡ false }
{}

/// None of the three exceptions can be left out. Credit2 and null: a core that idles was not wanted, and is wanted once the other one has decided.
/// ARINC 653: the core itself is wanted again right after its decision.
pub fn law_exceptions()
    ensures credit2_before { answer_before capped None 1 ≡ false }
    ensures credit2_after { answer_after (asks (Some (unit_id 0 0)) false false) capped None 1
        ≡ true }
    ensures arinc_after { answer_after (asks (Some (unit_id 0 0)) true false) framed
        (Some (unit_id 0 0)) 0 ≡ true }
    ensures null_before { answer_before given None 1 ≡ false }
    ensures null_after { answer_after (asks None false true) given None 1 ≡ true }
{}

/// Every unit may have the only core of a pool. So no decision of an ARINC 653 pool of one core frees anything.
pub fn law_one_core()
    ensures allowed { (r : ℕ) → (u : UnitId) → (scheduler : Scheduler) →
        is_unit_allowed scheduler (2 ^ r) r u ≡ true }
    ensures arinc { (ask : Ask) → (scheduler : Scheduler) → (records : ArincRecords) →
        scheduler.records ≡ ArincPool records → ask.home.0 ≡ 2 ^ ask.core.0 → frees ask scheduler
        ≡ false }
{}
