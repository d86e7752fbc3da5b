//! Which units the records of a scheduler have on a core.

ghost use Rattle.std.specs.Prelude.{◌≡◌, ◌≢◌, ◌<◌, ℕ, true};
ghost use Rattle.sched_base.specs.declared.UnitId.{UnitId};
ghost use Rattle.sched_model.specs.declared.ask.Ask.{Ask};
ghost use Rattle.sched_model.specs.declared.config.DomParams.{DomParams};
ghost use Rattle.sched_model.specs.declared.config.ParamChange.{ParamChange};
ghost use Rattle.sched_model.specs.declared.state.Records.{Records};
ghost use Rattle.sched_model.specs.declared.state.Scheduler.{Scheduler};
ghost use Rattle.sched_model.specs.Policy.{decision_of, records_after_replenish, records_after_refill, changed_records, joined_records, parted_records};
ghost use Rattle.state_ranges.specs.Records.{IsRecorded};
ghost use Rattle.sched_ops.specs.Conditions.{is_on};
ghost use Rattle.policy_laws.specs.RunningUnits.{keeps_records, has_record, is_on_after};

/// Of all records, reached or not: a decision puts the chosen unit on, where the records have it, and takes the core's own unit off,
/// unless that is the chosen one. Every other unit stays on or off at a decision, and every unit at a replenishment, a refill and a
/// change of parameters. A domain that joins or parts has no unit on that was not on before, and leaves the units of other domains as
/// they are. Which scheduler keeps records never changes, and one that does has a record of each unit that it is to keep one of.
pub fn law_running()
    // A decision.
    ensures decides { (ask : Ask) → (scheduler : Scheduler) → (w : UnitId) →
        is_on (decision_of ask scheduler).records w
        ≡ is_on_after ask (decision_of ask scheduler) scheduler.records w }
    ensures decides_records { (ask : Ask) → (scheduler : Scheduler) → (w : UnitId) →
        has_record (decision_of ask scheduler).records w ≡ has_record scheduler.records w }
    // What leaves each unit on or off.
    ensures replenishes { (records : Records) → (t : ℕ) → (u w : UnitId) →
        is_on (records_after_replenish records t u) w ≡ is_on records w }
    ensures refills { (records : Records) → (t d : ℕ) → (w : UnitId)
        → is_on (records_after_refill records t d) w ≡ is_on records w }
    ensures changes { (records : Records) → (change : ParamChange) → (t : ℕ) → (w : UnitId) →
        is_on (changed_records records change t) w ≡ is_on records w }
    // A domain that joins: the units of the others, and its own.
    ensures joins { (records : Records) → (params : DomParams) → (d count t : ℕ) → (w : UnitId) →
        w.dom.0 ≢ d → is_on (joined_records records params d count t) w ≡ is_on records w }
    ensures joins_off { (records : Records) → (params : DomParams) → (d count t : ℕ) →
        (w : UnitId) → w.dom.0 ≡ d → is_on (joined_records records params d count t) w ≡ true →
        is_on records w ≡ true }
    // A domain that parts: the units of the others, and its own.
    ensures parts { (records : Records) → (d : ℕ) → (w : UnitId) → w.dom.0 ≢ d →
        is_on (parted_records records d) w ≡ is_on records w }
    ensures parts_off { (records : Records) → (d : ℕ) → (w : UnitId) → w.dom.0 ≡ d →
        is_on (parted_records records d) w ≡ true → is_on records w ≡ true }
    // Where a domain is recorded with so many units, each of them has a record, if the scheduler keeps any.
    ensures recorded { (records : Records) → (u : UnitId) → (count : ℕ) →
        IsRecorded records u.dom.0 count → u.n < count → has_record records u
        ≡ keeps_records records }
    // No change of the records changes whether the scheduler keeps any of units.
    ensures decides_kind { (ask : Ask) → (scheduler : Scheduler) →
        keeps_records (decision_of ask scheduler).records ≡ keeps_records scheduler.records }
    ensures replenishes_kind { (records : Records) → (t : ℕ) → (u : UnitId) →
        keeps_records (records_after_replenish records t u) ≡ keeps_records records }
    ensures refills_kind { (records : Records) → (t d : ℕ)
        → keeps_records (records_after_refill records t d) ≡ keeps_records records }
    ensures changes_kind { (records : Records) → (change : ParamChange) → (t : ℕ) →
        keeps_records (changed_records records change t) ≡ keeps_records records }
    ensures joins_kind { (records : Records) → (params : DomParams) → (d count t : ℕ) →
        keeps_records (joined_records records params d count t) ≡ keeps_records records }
    ensures parts_kind { (records : Records) → (d : ℕ) → keeps_records (parted_records records d)
        ≡ keeps_records records }
{}
