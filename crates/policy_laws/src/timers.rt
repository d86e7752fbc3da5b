//! What comes next among the timers of a scheduler.

ghost use Rattle.std.specs.Prelude.{◌≡◌, ◌≤◌, ◌⊎◌, ℕ, Some, None};
ghost use Rattle.sched_base.specs.declared.Moment.{Moment};
ghost use Rattle.sched_model.specs.declared.state.Scheduler.{Scheduler};
ghost use Rattle.sched_base.specs.Numbers.{has_moment_come};
ghost use Rattle.sched_ops.specs.declared.timer.Timer.{Timer};
ghost use Rattle.sched_ops.specs.Timers.{Armed, next_scheduler_timer, is_due};
ghost use Rattle.policy_laws.specs.TimerOrder.{armed_at, IsNotAfter};

/// Of all schedulers, reached or not: the timer at t is one that is armed, and is told with its moment. It is the first by domain and
/// unit of those whose moment has come, and where no moment has come it has the least. There is none only where no timer is armed.
/// Which one of several that have the least is left open. A timer is due exactly where it is armed and its moment has come.
pub fn law_timers()
    // No timer.
    ensures none { (t : ℕ) → (scheduler : Scheduler) → next_scheduler_timer t scheduler ≡ None →
        (timer : Timer) → armed_at scheduler timer ≡ None }
    // It is armed at its moment.
    ensures armed { (t : ℕ) → (scheduler : Scheduler) → (x : Armed)
        → next_scheduler_timer t scheduler ≡ Some x → armed_at scheduler x.1 ≡ Some x.0 }
    // Where the moment of some timer has come: the timer's has come too, and it is the first of those.
    ensures first { (t : ℕ) → (scheduler : Scheduler) → (x : Armed)
        → next_scheduler_timer t scheduler
        ≡ Some x → (other : Timer) → (at : Moment) → armed_at scheduler other ≡ Some at → at.0 ≤ t →
        (x.0.0 ≤ t) × IsNotAfter x.1 other }
    // Where its moment has not come, no timer has an earlier one.
    ensures least { (t : ℕ) → (scheduler : Scheduler) → (x : Armed)
        → next_scheduler_timer t scheduler
        ≡ Some x → (other : Timer) → (at : Moment) → armed_at scheduler other ≡ Some at →
        (x.0.0 ≤ t) ⊎ (x.0.0 ≤ at.0) }
    // The test of a single timer.
    ensures is_due { (t : ℕ) → (scheduler : Scheduler) → (timer : Timer) → is_due t scheduler timer
        ≡ has_moment_come t (armed_at scheduler timer) }
{}
