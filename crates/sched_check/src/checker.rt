//! The checker: a plain machine that follows a schedule, and refuses each entry that may not come next.

ghost use Rattle.std.specs.Prelude.{◌≡◌, ◌↔◌, false, IsOk, OnOk};
ghost use Rattle.sched_model.specs.Runs.{after_entry, after_quiet};
ghost use Rattle.sched_check.specs.Checking.{IsQuietDue, IsTaken};
ghost use Rattle.sched_check.specs.ReachedState.{state_after};
ghost use Rattle.sched_check.specs.EntryVerdicts.{is_run_end, moment_verdict, quiet_verdict};
ghost use Rattle.sched_model.specs.Machine.{first_enabled_action, next_in_horizon};

use crate::entries::{action_of, end_of, judge_action, judge_quiet};
use crate::refusal::NotStep;
use sched_base::{Moment, NoMemory};
use sched_model::event::{Entry, Event};
use sched_model::machine::Machine;
use sched_plain::plain::Plain;
use std::alloc::Global;
use std::marker::Model;

/// Takes an End, which names a next moment, or a Finish, which names none, where it is due.
fn take_quiet(plain: &mut Plain, named: Option<u64>) -> Result<(), NotStep>
    ensures verdict { result ≡ quiet_verdict plain.old.machine plain.old.state named
        (first_enabled_action plain.old.machine plain.old.state plain.old.state.now)
        (next_in_horizon plain.old.machine plain.old.state) }
    ensures taken { IsOk result ↔ IsQuietDue plain.old.machine plain.old.state named }
    ensures ok { OnOk result (plain.new ≡ record plain.old
        { state = (after_quiet named (record { state = plain.old.state; over = false })).state }) }
{
    match judge_quiet(plain, named) {
        Err(refusal) => Err(refusal),
        Ok(()) => {
            if let Some(next) = named {
                plain.pass_to(Moment(next));
            }
            Ok(())
        }
    }
}

/// Takes the entry, where it may come next. The run is not over.
fn take(plain: &mut Plain, ordered: bool, e: Entry) -> Result<(), NotStep>
    ensures verdict { result ≡ moment_verdict ordered plain.old.machine plain.old.state e }
    ensures taken { IsOk result ↔ IsTaken plain.old.machine ordered
        (record { state = plain.old.state; over = false }) e }
    ensures ok { OnOk result (plain.new ≡ record plain.old
        { state = state_after plain.old.machine plain.old.state e }) }
{
    let now = plain.now();
    if e.at.0 != now.0 {
        return Err(NotStep::Moment { now });
    }
    match action_of(e.event) {
        Some(action) => judge_action(plain, ordered, e.event, action),
        None => take_quiet(plain, end_of(e.event)),
    }
}

/// Whether it is the end of the run.
fn is_finish(e: Event) -> bool
    ensures { result ≡ is_run_end e }
{
    match e {
        Event::Finish => true,
        _ => false,
    }
}

/// A checker of the schedules of one machine. Contracts see the machine, whether the first action that may come is asked for, and where
/// the entries that were taken lead to.
#[derive(Drop)]
pub struct Checker {
    plain: Plain,
    ordered: bool,
    finished: bool,
}

impl Model for Checker {
    ghost use Rattle.sched_check.specs.Checking.{Checking};

    ghost Value = { Checking };

    ghost view = { λ c. record {
      machine = c.plain.machine;
      ordered = c.ordered;
      reached = record { state = c.plain.state; over = c.finished };
    } };
}

impl Checker {
    ghost use Rattle.std.specs.Prelude.{◌≡◌, ◌↔◌, IfOk, IsOk, OnOk};
    ghost use Rattle.sched_model.specs.CheckedMachine.{IsChecked};
    ghost use Rattle.sched_model.specs.Runs.{after_entry, run_start};
    ghost use Rattle.sched_check.specs.Checking.{IsTaken};
    ghost use Rattle.sched_check.specs.EntryVerdicts.{verdict_of};

    /// A checker at the opening of the machine, whose values have passed the checks of the domain file and of the work file. Where
    /// `ordered` says so, each action has to be the first that may come.
    pub fn open(alloc: Global, machine: Machine, ordered: bool) -> Result<Checker, NoMemory>
        requires { IsChecked machine }
        ensures { IfOk result (λ c. c ≡ record {
          machine = machine;
          ordered = ordered;
          reached = run_start machine;
        }) }
    {
        Ok(Checker {
            plain: Plain::open(alloc, machine)?,
            ordered,
            finished: false,
        })
    }

    /// Gives back the memory of the checker.
    pub fn close(self) {}

    /// Takes the entry, where it may come next; else says why it may not, and is of no more use: what is due in its place may have been done. It takes no
    /// memory.
    pub fn step(&mut self, e: &Entry) -> Result<(), NotStep>
        ensures verdict { result ≡ verdict_of self.old.machine self.old.ordered self.old.reached
            e.now }
        ensures taken { IsOk result ↔ IsTaken self.old.machine self.old.ordered self.old.reached
            e.now }
        ensures goes_on { OnOk result (self.new
            ≡ record self.old { reached = after_entry self.old.machine self.old.reached e.now }) }
    {
        if self.finished {
            return Err(NotStep::AfterFinish);
        }
        match take(&mut self.plain, self.ordered, *e) {
            Err(refusal) => Err(refusal),
            Ok(()) => {
                self.finished = is_finish(e.event);
                Ok(())
            }
        }
    }

    /// Whether the Finish was taken: the entries that were taken are a whole run then.
    pub fn finished(&self) -> bool
        ensures { result ≡ self.now.reached.over }
    {
        self.finished
    }
}
