//! The bytes of a schedule are judged line by line.

ghost use Rattle.std.specs.Prelude.{◌≡◌, ◌+◌, ◌<◌, ◌≤◌, length, MatchOption, IfOk, IfErr};
ghost use Rattle.sched_model.specs.CheckedMachine.{IsChecked};
ghost use Rattle.sched_model.specs.Runs.{run_start};
ghost use Rattle.sched_check.specs.declared.verdict.Verdict.TheVariants as verdict;
ghost use Rattle.sched_check.specs.Lines.{HasNone, IsParted};
ghost use Rattle.sched_check.specs.ScheduleVerdict.{HoldsAt, IsTakenLine, IsVerdict};

use crate::checker::Checker;
use crate::verdict::{Cause, Verdict};
use memchr::memchr;
use sched_base::NoMemory;
use sched_model::machine::Machine;
use sched_print::read_entry;
use std::alloc::Global;

/// The first line without its newline and the bytes behind it, or none where there is no newline.
fn part(bytes: &[u8]) -> Option<(&[u8], &[u8])>
    ensures { MatchOption result (HasNone bytes.now)
        (λ parts. IsParted bytes.now parts.0.now parts.1.now) }
{
    match memchr(b'\n', bytes) {
        None => None,
        Some(end) => Some((&bytes[..end], &bytes[end + 1..])),
    }
}

/// Takes the entry of the first line of the bytes that are left, where it may come next, and answers the bytes behind the line. Else the cause
/// holds of them.
fn take_line<'a>(checker: &mut Checker, rest: &'a [u8]) -> Result<&'a [u8], Cause>
    requires { 0 < length rest.now }
    ensures taken { IfOk result (λ more. IsTakenLine checker.old checker.new rest.now more.now) }
    ensures refused { IfErr result (HoldsAt checker.old.machine checker.old.ordered
        checker.old.reached rest.now) }
{
    let Some((line, more)) = part(rest) else {
        return Err(Cause::Cut);
    };
    let entry = match read_entry(line) {
        Ok(entry) => entry,
        Err(found) => return Err(Cause::NotEntry { place: found.place }),
    };
    match checker.step(&entry) {
        Ok(()) => Ok(more),
        Err(why) => Err(Cause::NotStep(why)),
    }
}

/// The verdict where the cause holds of the line behind these many.
fn no_behind(passed: u32, cause: Cause) -> Verdict
    requires { passed < 4294967295 }
    ensures { result ≡ verdict.No (passed + 1) cause }
{
    let line = passed + 1;
    Verdict::No { line, cause }
}

/// Judges all lines, from the opening on.
fn judge_lines(checker: &mut Checker, schedule: &[u8]) -> Verdict
    requires begun { checker.old.reached ≡ run_start checker.old.machine }
    requires bound { length schedule.now ≤ 536870912 }
    ensures { IsVerdict checker.old.machine checker.old.ordered schedule.now result }
{
    let mut passed = 0;
    let mut rest = schedule;
    while !rest.is_empty() {
        match take_line(checker, rest) {
            Ok(more) => rest = more,
            Err(cause) => return no_behind(passed, cause),
        }
        passed += 1;
    }
    if checker.finished() {
        Verdict::Yes { entries: passed }
    } else {
        no_behind(passed, Cause::Unfinished)
    }
}

/// Judges the bytes of a schedule: whether they are the text of a whole run of the machine, where it is asked the ordered one. If they are not,
/// the first line that does not go on with a run of the lines before it is named, and why it does not.
///
/// The machine's values have passed the checks of the domain file and of the work file. Memory is taken for the machine alone, whatever the
/// length of the schedule, of at most 512 MiB; want of it is the one answer beside the verdict.
pub fn judge(
    alloc: Global,
    machine: Machine,
    ordered: bool,
    schedule: &[u8],
) -> Result<Verdict, NoMemory>
    requires checked { IsChecked machine }
    requires bound { length schedule.now ≤ 536870912 }
    ensures verdict { IfOk result (IsVerdict machine ordered schedule.now) }
{
    let mut checker = Checker::open(alloc, machine, ordered)?;
    let verdict = judge_lines(&mut checker, schedule);
    checker.close();
    Ok(verdict)
}
