//! RTDS pools.

ghost use Rattle.sched_examples.specs.Words.{RunsAs, IsSoundFor};
ghost use Rattle.sched_examples.specs.Rtds.{machine_budgets_and_deadlines, entries_budgets_and_deadlines, machine_stall_past_the_due, entries_stall_past_the_due, machine_late_replenishment, entries_late_replenishment, machine_extra_time, entries_extra_time, machine_new_budget, entries_new_budget, machine_new_budget_while_running, entries_new_budget_while_running, machine_urgent_wake, entries_urgent_wake};

/// The unit with the earlier deadline runs first, each for its budget, and a replenishment comes at each deadline.
pub fn budgets_and_deadlines()
    ensures run { RunsAs machine_budgets_and_deadlines entries_budgets_and_deadlines }
    ensures sound { IsSoundFor 34 machine_budgets_and_deadlines }
{}

/// A unit that a stall lets run beyond its budget is replaced as soon as the processor is back, and the decision says how late it is.
pub fn stall_past_the_due()
    ensures run { RunsAs machine_stall_past_the_due entries_stall_past_the_due }
    ensures sound { IsSoundFor 13 machine_stall_past_the_due }
{}

/// A replenishment that comes two and a half periods late gives one budget, in the term in which it comes.
pub fn late_replenishment()
    ensures run { RunsAs machine_late_replenishment entries_late_replenishment }
    ensures sound { IsSoundFor 18 machine_late_replenishment }
{}

/// A unit with extra time goes on at a lower level once its budget is used up, and equal deadlines keep the unit that runs.
pub fn extra_time()
    ensures run { RunsAs machine_extra_time entries_extra_time }
    ensures sound { IsSoundFor 31 machine_extra_time }
{}

/// A new budget takes force at the next replenishment, and the running budget stays as it is.
pub fn new_budget()
    ensures run { RunsAs machine_new_budget entries_new_budget }
    ensures sound { IsSoundFor 18 machine_new_budget }
{}

/// The replenishment of a unit that runs cuts the rest of its run to the new budget.
pub fn new_budget_while_running()
    ensures run { RunsAs machine_new_budget_while_running entries_new_budget_while_running }
    ensures sound { IsSoundFor 26 machine_new_budget_while_running }
{}

/// A unit that wakes with an earlier deadline takes the core; one that wakes without budget waits for its replenishment.
pub fn urgent_wake()
    ensures run { RunsAs machine_urgent_wake entries_urgent_wake }
    ensures sound { IsSoundFor 26 machine_urgent_wake }
{}
