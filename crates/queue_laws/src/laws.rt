//! The order of arrival, and the unit that a scan of it would choose.

ghost use Rattle.std.specs.Prelude.{◌≡◌, ◌+◌, ◌++◌, ◌∷◌, ◌<◌, [], ℕ, true, Bool, List, None, Some, filter, map};
ghost use Rattle.sched_base.specs.declared.UnitId.{UnitId};
ghost use Rattle.sched_model.specs.Places.{without_unit};
ghost use Rattle.arrival_queue.specs.declared.key.Key.{Key};
ghost use Rattle.arrival_queue.specs.Queues.{Queued, queued_unit, list_with, list_without, rank_in, closed_up, has_unit};
ghost use Rattle.arrival_queue.specs.Order.{IsInOrder};
ghost use Rattle.arrival_queue.specs.Filters.{first_that};
ghost use Rattle.queue_laws.specs.Arrivals.{arrivals, HasRanks, RanksBelow, HasUnits, HasIndices, HasKeys, least_by, own_or};

/// The first of a sorted queue that passes a test is the unit that a scan in order of arrival would choose: that of the least key
/// among those that pass, and among equals the earliest. A scan that begins with a core's own unit chooses that one, where no unit
/// that waits has a lesser key.
pub fn law_first_is_least()
    ensures first { (key : UnitId → Key) → (passes : UnitId → Bool) → (es : List Queued) →
        IsInOrder es → HasKeys key es → first_that passes es
        ≡ least_by key None (filter passes (arrivals es)) }
    ensures own { (key : UnitId → Key) → (u : UnitId) → (units : List UnitId) →
        least_by key (Some u) units ≡ Some (own_or key u (least_by key None units)) }
{}

/// What the calls of a sorted queue, beside which others wait, make of the order of arrival: a unit that is put at its place
/// arrives last, one that is removed is gone from it, and one that is moved to another place keeps its arrival.
pub fn law_arrivals()
    ensures placed { (u : UnitId) → (key : Key) → (r : ℕ) → (es others : List Queued) →
        RanksBelow r (es ++ others) → arrivals (list_with (queued_unit u key r) es ++ others)
        ≡ arrivals (es ++ others) ++ u ∷ [] }
    ensures removed { (u : UnitId) → (es : List Queued) → HasRanks es → HasUnits es → u.n < 256 →
        HasIndices es → has_unit u es ≡ true →
        arrivals (map (closed_up (rank_in u es)) (list_without u es))
        ≡ without_unit u (arrivals es) }
    ensures moved { (u : UnitId) → (key : Key) → (es others : List Queued) →
        HasRanks (es ++ others) → HasUnits (es ++ others) → u.n < 256 → HasIndices (es ++ others) →
        has_unit u (es ++ others) ≡ true →
        arrivals (list_with (queued_unit u key (rank_in u (es ++ others))) (list_without u es)
        ++ list_without u others) ≡ arrivals (es ++ others) }
{}
