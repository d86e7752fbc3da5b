//! Reports of the runs of the other examples.

ghost use Rattle.sched_examples.specs.Rtds.{machine_budgets_and_deadlines, entries_budgets_and_deadlines, machine_stall_past_the_due, entries_stall_past_the_due};
ghost use Rattle.sched_examples.specs.Credit2.{machine_reset_after_a_stall, entries_reset_after_a_stall};
ghost use Rattle.sched_examples.specs.Arinc.{machine_frames_by_command, entries_frames_by_command};
ghost use Rattle.sched_examples.specs.Siblings.{machine_siblings_meet, entries_siblings_meet};
ghost use Rattle.sched_examples.specs.Reports.{ReportsAs, Reads, report_budgets_and_deadlines, lines_budgets_and_deadlines, report_stall_past_the_due, report_reset_after_a_stall, report_frames_by_command, report_siblings_meet};

/// A unit has several stays, and the core idles between them. The run is that of `rtds::budgets_and_deadlines`.
pub fn several_stays()
    ensures report { ReportsAs machine_budgets_and_deadlines entries_budgets_and_deadlines
        report_budgets_and_deadlines }
    ensures text { Reads report_budgets_and_deadlines lines_budgets_and_deadlines }
{}

/// A late decision counts for the unit that it finds, and not for the one that it chooses. The run is that of `rtds::stall_past_the_due`.
pub fn late_unit_leaves()
    ensures { ReportsAs machine_stall_past_the_due entries_stall_past_the_due
        report_stall_past_the_due }
{}

/// A unit that is kept by a late decision has one stay, and the lateness counts. The run is that of `credit2::reset_after_a_stall`.
pub fn late_unit_is_kept()
    ensures { ReportsAs machine_reset_after_a_stall entries_reset_after_a_stall
        report_reset_after_a_stall }
{}

/// A core of no pool idles from the beginning. The run is that of `arinc::frames_by_command`.
pub fn free_core()
    ensures { ReportsAs machine_frames_by_command entries_frames_by_command
        report_frames_by_command }
{}

/// A domain of three vCPUs has two units of up to two, and a stay that begins at the end has no time. The run is that of `siblings::siblings_meet`.
pub fn units_of_two()
    ensures { ReportsAs machine_siblings_meet entries_siblings_meet report_siblings_meet }
{}
