//! From when on events may come, and which cores a closure looks at.

ghost use Rattle.std.specs.Prelude.{◌≡◌, ℕ};
ghost use Rattle.sched_base.specs.Numbers.{has_moment_come};
ghost use Rattle.sched_model.specs.declared.action.Action.{Action};
ghost use Rattle.sched_model.specs.declared.state.Resource.{Resource};
ghost use Rattle.sched_model.specs.declared.state.Pool.{Pool};
ghost use Rattle.sched_model.specs.Pool.{enabled_in, settled_pool, change_core};
ghost use Rattle.pool_laws.specs.ReadyMoments.{ready_in};
ghost use Rattle.pool_laws.specs.CoreLooks.{IsSettled, settled_core};

/// An event of a pool may come at a moment exactly where that is not before its own: so a heap of these moments by subject tells
/// the first event of a kind.
pub fn law_ready()
    ensures { (g t : ℕ) → (pool : Pool) → (action : Action) → enabled_in g t pool action
        ≡ has_moment_come t (ready_in g pool action) }
{}

/// After the cores of a pool are looked at, looking again changes nothing. And where one core of such a pool changes alone, at the
/// same moment, looking at that core is enough.
pub fn law_settled()
    ensures again { (t : ℕ) → (pool : Pool) → IsSettled t (settled_pool t pool) }
    ensures alone { (t r : ℕ) → (f : Resource → Resource) → (pool : Pool) → IsSettled t pool →
        settled_pool t (change_core r f pool) ≡ settled_core t r f pool }
{}
