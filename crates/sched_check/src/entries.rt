//! What is answered to an entry, by the plain machine. An action that is answered is done: so it is known what its line prints.

ghost use Rattle.std.specs.Prelude.{◌≡◌, ◌↔◌, true, Some, Ok, Err, IsOk, OnOk, if◌then◌else◌};
ghost use Rattle.sched_model.specs.Machine.{after, event_of, first_enabled_action, is_action_enabled, next_in_horizon};
ghost use Rattle.sched_model.specs.Runs.{action_entry, event_action, named_next_moment};
ghost use Rattle.sched_check.specs.declared.refusal.NotStep.TheVariants as no;
ghost use Rattle.sched_check.specs.Same.{same_event};
ghost use Rattle.sched_check.specs.Checking.{HasTurn, IsDue, IsQuietDue};
ghost use Rattle.sched_check.specs.EntryVerdicts.{action_verdict, due_verdict, first_refusal, is_named, event_number, quiet_verdict, turn_refusal};

use crate::refusal::NotStep;
use crate::same::{is_same_action, is_same_event};
use sched_base::Moment;
use sched_model::action::Action;
use sched_model::event::{Entry, Event};
use sched_plain::plain::Plain;

/// The action whose event it is, where it is one of an action: its kind and its subject.
pub fn action_of(e: Event) -> Option<Action>
    ensures { result ≡ event_action e }
{
    match e {
        Event::Stall { .. } => Some(Action::Stall),
        Event::Xl { .. } => Some(Action::Xl),
        Event::Moved { r, .. } => Some(Action::Moved(r)),
        Event::DomMoved { d, .. } => Some(Action::DomMoved(d)),
        Event::Wake { v } => Some(Action::Wake(v)),
        Event::Block { p, .. } => Some(Action::Block(p)),
        Event::Slice { r } => Some(Action::Slice(r)),
        Event::Repl { u, .. } => Some(Action::Repl(u)),
        Event::Refill { d, .. } => Some(Action::Refill(d)),
        Event::Arrive { p } => Some(Action::Arrive(p)),
        Event::Decide { r, .. } => Some(Action::Decide(r)),
        Event::Leave { p, .. } => Some(Action::Leave(p)),
        Event::Save { r, .. } => Some(Action::Save(r)),
        Event::End { .. } => None,
        Event::Finish => None,
    }
}

/// The next moment that an End names.
pub fn end_of(e: Event) -> Option<u64>
    ensures { result ≡ named_next_moment e }
{
    match e {
        Event::End { next } => Some(next.0),
        _ => None,
    }
}

/// The entry of an action that may come now, which is done.
fn perform(plain: &mut Plain, action: Action) -> Entry
    requires { is_action_enabled plain.old.machine plain.old.state plain.old.state.now action
        ≡ true }
    ensures entry { result ≡ action_entry plain.old.machine plain.old.state action }
    ensures state { plain.new ≡ record plain.old
        { state = after plain.old.machine plain.old.state plain.old.state.now action } }
{
    let at = plain.now();
    let event = plain.perform(action);
    Entry { at, event }
}

/// The number that tells a stall or a command from those that are not next: the processor of a stall, the number of a command. The others
/// are told by their action, which names their subject.
fn number_of(e: Event) -> u32
    ensures { result ≡ event_number e }
{
    match e {
        Event::Stall { p, .. } => u32::from(p.0),
        Event::Xl { k, .. } => k,
        _ => 0,
    }
}

/// The same number of the entry of an action, where that comes now.
fn due_number(plain: &Plain, action: Action) -> u64
    ensures { result ≡ event_number (event_of plain.now.machine plain.now.state
        plain.now.state.now action) }
{
    match action {
        Action::Stall => match plain.next_stall() {
            None => 0,
            Some(p) => u64::from(p.0),
        },
        Action::Xl => plain.next_number(),
        _ => 0,
    }
}

/// Judges the printed fields of an event, where this entry is due.
fn judge_fields(e: Event, due: Entry) -> Result<(), NotStep>
    ensures verdict { result ≡ (if same_event e due.event then Ok tt else Err (no.Differs due)) }
    ensures same { IsOk result ↔ (e ≡ due.event) }
{
    if is_same_event(e, due.event) {
        Ok(())
    } else {
        Err(NotStep::Differs { due })
    }
}

/// Judges whether the action, which may come, is the first that may.
fn judge_first(plain: &mut Plain, action: Action) -> Result<(), NotStep>
    requires { is_action_enabled plain.old.machine plain.old.state plain.old.state.now action
        ≡ true }
    ensures verdict { result ≡ first_refusal plain.old.machine plain.old.state action
        (first_enabled_action plain.old.machine plain.old.state plain.old.state.now) }
    ensures first { IsOk result ↔ (first_enabled_action plain.old.machine plain.old.state
        plain.old.state.now ≡ Some action) }
    ensures unchanged { OnOk result (plain.new ≡ plain.old) }
{
    match plain.first_enabled_by_guess(action) {
        None => Err(NotStep::NotEnabled),
        Some(first) => {
            if is_same_action(first, action) {
                Ok(())
            } else {
                Err(NotStep::NotFirst {
                    first: perform(plain, first),
                })
            }
        }
    }
}

/// Judges whether it is the turn of the action, which may come.
fn judge_turn(plain: &mut Plain, ordered: bool, action: Action) -> Result<(), NotStep>
    requires { is_action_enabled plain.old.machine plain.old.state plain.old.state.now action
        ≡ true }
    ensures verdict { result ≡ turn_refusal ordered plain.old.machine plain.old.state action }
    ensures first { IsOk result ↔ (ordered ≡ true
        → first_enabled_action plain.old.machine plain.old.state
        plain.old.state.now ≡ Some action) }
    ensures unchanged { OnOk result (plain.new ≡ plain.old) }
{
    if ordered {
        judge_first(plain, action)
    } else {
        Ok(())
    }
}

/// Judges the event of an action, which may come and has its number.
fn judge_due(plain: &mut Plain, ordered: bool, e: Event, action: Action) -> Result<(), NotStep>
    requires { is_action_enabled plain.old.machine plain.old.state plain.old.state.now action
        ≡ true }
    ensures verdict { result ≡ due_verdict ordered plain.old.machine plain.old.state e action }
    ensures taken { IsOk result ↔ HasTurn ordered plain.old.machine plain.old.state e action }
    ensures ok { OnOk result (plain.new ≡ record plain.old
        { state = after plain.old.machine plain.old.state plain.old.state.now action }) }
{
    match judge_turn(plain, ordered, action) {
        Err(refusal) => Err(refusal),
        Ok(()) => {
            let due = perform(plain, action);
            judge_fields(e, due)
        }
    }
}

/// Judges the event of an action, and does it where it is due.
pub fn judge_action(
    plain: &mut Plain,
    ordered: bool,
    e: Event,
    action: Action,
) -> Result<(), NotStep>
    ensures verdict { result ≡ action_verdict ordered plain.old.machine plain.old.state e action }
    ensures taken { IsOk result ↔ IsDue ordered plain.old.machine plain.old.state e action }
    ensures ok { OnOk result (plain.new ≡ record plain.old
        { state = after plain.old.machine plain.old.state plain.old.state.now action }) }
{
    if !plain.is_enabled(action) {
        return Err(NotStep::NotEnabled);
    }
    if u64::from(number_of(e)) == due_number(plain, action) {
        judge_due(plain, ordered, e, action)
    } else {
        Err(NotStep::NotEnabled)
    }
}

/// Judges an End, which names a next moment, or a Finish, which names none.
pub fn judge_quiet(plain: &mut Plain, named: Option<u64>) -> Result<(), NotStep>
    ensures verdict { result ≡ quiet_verdict plain.old.machine plain.old.state named
        (first_enabled_action plain.old.machine plain.old.state plain.old.state.now)
        (next_in_horizon plain.old.machine plain.old.state) }
    ensures taken { IsOk result ↔ IsQuietDue plain.old.machine plain.old.state named }
    ensures unchanged { OnOk result (plain.new ≡ plain.old) }
{
    let now = plain.now();
    if let Some(next) = plain.soonest()
        && now.0 < next.0
    {
        return judge_end(named, next);
    }
    if let Some(first) = plain.first_enabled() {
        return Err(NotStep::NotQuiet {
            first: perform(plain, first),
        });
    }
    match named {
        Some(_) => Err(NotStep::FinishDue),
        None => Ok(()),
    }
}

/// Judges the moment that is named, if one is, where this one is due.
fn judge_end(named: Option<u64>, next: Moment) -> Result<(), NotStep>
    ensures verdict { result ≡ (if is_named named next.0 then Ok tt else Err (no.EndAt next)) }
    ensures same { IsOk result ↔ (named ≡ Some next.0) }
{
    match named {
        Some(there) if there == next.0 => Ok(()),
        _ => Err(NotStep::EndAt { next }),
    }
}
