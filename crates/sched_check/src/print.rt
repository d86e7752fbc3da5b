//! What is printed of a verdict.

ghost use Rattle.std.specs.Prelude.{◌≡◌, ◌+◌, ◌≤◌, ◌++◌, length};
ghost use Rattle.sched_check.specs.VerdictText.{step_words, cause_words, first_line, entry_behind_first};

use crate::refusal::NotStep;
use crate::verdict::{Cause, Verdict};
use sched_model::event::Entry;
use sched_print::LineBuf;

/// Puts why an entry is not taken.
fn put_step(why: NotStep, line: &mut LineBuf)
    requires { length line.old + 32 ≤ 192 }
    ensures bytes { line.new ≡ line.old ++ step_words why }
    ensures length { length line.new ≤ length line.old + 32 }
{
    match why {
        NotStep::AfterFinish => line.put(b" AfterFinish"),
        NotStep::Moment { now } => line.put_field(b" Moment ", now.0),
        NotStep::NotEnabled => line.put(b" NotEnabled"),
        NotStep::NotFirst { .. } => line.put(b" NotFirst"),
        NotStep::Differs { .. } => line.put(b" Differs"),
        NotStep::NotQuiet { .. } => line.put(b" NotQuiet"),
        NotStep::EndAt { next } => line.put_field(b" End ", next.0),
        NotStep::FinishDue => line.put(b" Finish"),
    }
}

/// Puts why a line is not the next one of a run.
fn put_cause(cause: Cause, line: &mut LineBuf)
    requires { length line.old + 32 ≤ 192 }
    ensures bytes { line.new ≡ line.old ++ cause_words cause }
    ensures length { length line.new ≤ length line.old + 32 }
{
    match cause {
        Cause::Cut => line.put(b" Cut"),
        Cause::NotEntry { place } => line.put_field(b" NotEntry ", u64::from(place)),
        Cause::NotStep(why) => put_step(why, line),
        Cause::Unfinished => line.put(b" Unfinished"),
    }
}

impl Verdict {
    /// Puts the first line: `yes` and the count of the entries, or `no`, the number of the line and the cause. It has at most 64 bytes.
    pub fn put_line(&self, line: &mut LineBuf)
        requires { length line.old + 64 ≤ 192 }
        ensures bytes { line.new ≡ line.old ++ first_line self.now }
        ensures length { length line.new ≤ length line.old + 64 }
    {
        match *self {
            Verdict::Yes { entries } => line.put_field(b"yes ", u64::from(entries)),
            Verdict::No {
                line: number,
                cause,
            } => {
                line.put_field(b"no ", u64::from(number));
                put_cause(cause, line);
            }
        }
        line.put(b"\n");
    }

    /// The entry whose line is printed behind the first one: the one that is to come instead, where the cause names it.
    pub fn further(&self) -> Option<Entry>
        ensures { result ≡ entry_behind_first self.now }
    {
        match *self {
            Verdict::No {
                cause: Cause::NotStep(NotStep::NotQuiet { first }),
                ..
            } => Some(first),
            Verdict::No {
                cause: Cause::NotStep(NotStep::NotFirst { first }),
                ..
            } => Some(first),
            Verdict::No {
                cause: Cause::NotStep(NotStep::Differs { due }),
                ..
            } => Some(due),
            _ => None,
        }
    }
}
