//! What holds of verdicts.

ghost use Rattle.sched_check.specs.VerdictLaws.{NoIsNoRun, OneVerdict};

/// Where the verdict is no, the bytes are not the text of a whole run, or not of an ordered one where that was asked.
pub fn no_is_no_run()
    ensures { NoIsNoRun }
{}

/// One verdict alone holds of the bytes of a schedule.
pub fn one_verdict()
    ensures { OneVerdict }
{}
