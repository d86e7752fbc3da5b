//! Worked examples of timers, computed from the definitions. Each function does nothing, and its contract is the example.

ghost use Rattle.std.specs.Prelude.{◌≡◌, [], ◌∷◌, true, false, Some, None};
ghost use Rattle.sched_base.specs.Numbers.{moment, span};
ghost use Rattle.sched_model.specs.declared.event.Event.TheVariants as event;
ghost use Rattle.sched_ops.specs.declared.timer.Timer.TheVariants.{Repl};
ghost use Rattle.sched_ops.specs.Timers.{timers, first_due_timer, soonest_timer, next_scheduler_timer, is_due, timer_event, after_timer};
ghost use Rattle.sched_base.specs.Units.{unit_id};
ghost use Rattle.sched_examples.specs.Timers.{replenishment, rtds_unit, fresh_unit, away, running_unit, spent_unit, scheduler_of, four_units};

/// Each unit that waits or is on has a timer at its deadline, in order of domain and unit. One that is away has none, although its deadline has passed.
pub fn units_that_wait_or_are_on()
    ensures armed { timers four_units ≡ replenishment 30000000 0 0 ∷ replenishment 20000000 2 0
        ∷ replenishment 20000000 2 1 ∷ [] }
    ensures away { is_due 20000000 four_units (Repl (unit_id 0 1)) ≡ false }
    ensures on { is_due 20000000 four_units (Repl (unit_id 2 0)) ≡ true }
    ensures waiting { is_due 20000000 four_units (Repl (unit_id 2 1)) ≡ true }
{}

/// Of the timers whose moments have come, the first is the one of the first unit, though the moments of others are earlier.
pub fn first_by_domain_and_unit()
    ensures first { first_due_timer 30000000 (timers four_units)
        ≡ Some (replenishment 30000000 0 0) }
    ensures answer { next_scheduler_timer 30000000 four_units ≡ Some (replenishment 30000000 0 0) }
    ensures without_it { first_due_timer 29999999 (timers four_units)
        ≡ Some (replenishment 20000000 2 0) }
{}

/// A timer comes at its moment, neither before nor after it.
pub fn at_its_moment()
    ensures before { first_due_timer 19999999 (timers four_units) ≡ None }
    ensures at { first_due_timer 20000000 (timers four_units) ≡ Some (replenishment 20000000 2 0) }
    ensures not_due { is_due 19999999 four_units (Repl (unit_id 2 0)) ≡ false }
    ensures due { is_due 20000000 four_units (Repl (unit_id 2 0)) ≡ true }
{}

/// Where none has come, the soonest is the one of the least moment, and the earlier one among equals.
pub fn soonest_where_none_has_come()
    ensures least { soonest_timer None (timers four_units) ≡ Some (replenishment 20000000 2 0) }
    ensures answer { next_scheduler_timer 19999999 four_units ≡ Some (replenishment 20000000 2 0) }
    ensures none { soonest_timer None [] ≡ None }
{}

/// A replenishment gives the spent unit its whole budget and the next deadline, and its event prints the new term. The unit still waits.
pub fn spent_unit_is_replenished()
    ensures after { after_timer 20000000 four_units (Repl (unit_id 2 1))
        ≡ scheduler_of fresh_unit away running_unit (rtds_unit 30000000 4000000 None) }
    ensures printed { timer_event 20000000 four_units (Repl (unit_id 2 1))
        ≡ event.Repl (unit_id 2 1) (moment 20000000) (moment 30000000) (span 4000000) false }
{}

/// A unit that is on is charged up to the moment, and then gets its whole budget; one and a half periods late, it is in the term that goes on then.
pub fn running_unit_is_replenished()
    ensures after { after_timer 20000000 four_units (Repl (unit_id 2 0))
        ≡ scheduler_of fresh_unit away (rtds_unit 30000000 4000000 (Some 20000000)) spent_unit }
    ensures late { after_timer 35000000 four_units (Repl (unit_id 2 0))
        ≡ scheduler_of fresh_unit away (rtds_unit 40000000 4000000 (Some 35000000)) spent_unit }
{}
