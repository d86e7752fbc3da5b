//! ARINC 653: the unit of the present window runs.

ghost use Rattle.sched_model.specs.CheckedMachine.{most_span};
ghost use Rattle.std.specs.Prelude.{◌≡◌, ◌<◌, ◌≤◌, []};
ghost use Rattle.std.specs.Option.{ForSome};
ghost use Rattle.sched_model.specs.declared.state.Records.TheVariants.{ArincPool};
ghost use Rattle.sched_model.specs.EligibleUnits.{may_have_core};
ghost use Rattle.sched_model.specs.Policy.{window_choice, decision_by};
ghost use Rattle.scheduler_records.specs.Fits.{IsFrame};
ghost use Rattle.plain_schedulers.specs.Tells.{Tells};
ghost use Rattle.scheduler_records.specs.Parts.{scheduler_of};

use crate::decided::Decided;
use crate::queue::has_unit;
use sched_base::{Moment, UnitId};
use sched_model::ask::Ask;
use sched_model::config::Pins;
use sched_model::state::ArincRecords;
use sched_model::units::is_there;
use scheduler_records::arinc::present_window;
use scheduler_records::eligible::is_allowed;

/// Whether the present window is the unit's.
pub fn passes(records: &ArincRecords, t: Moment, u: UnitId) -> bool
    requires frame { ForSome records.now.frame IsFrame }
    requires early { t.0 ≤ most_span }
    ensures { result ≡ may_have_core (ArincPool records.now)
        (scheduler_of [] [] (ArincPool records.now)) 0 0 t.0 u }
{
    match present_window(records, t) {
        None => false,
        Some(window) => is_there(window.unit, u),
    }
}

/// The window's unit, where it goes on or waits.
fn choice_of_window(
    records: &ArincRecords,
    queue: &[UnitId],
    affinity: &[Option<Pins>],
    ask: &Ask,
    unit: Option<UnitId>,
) -> Option<UnitId>
    requires frame { ForSome records.now.frame IsFrame }
    requires early { ask.now.at.0 ≤ most_span }
    requires core { ask.now.core.0 < 64 }
    ensures { result ≡ window_choice ask.now
        (scheduler_of queue.now affinity.now (ArincPool records.now)) unit }
{
    let u = unit?;
    if is_there(ask.cur, u) && ask.runnable {
        return Some(u);
    }
    if has_unit(queue, u)
        && is_allowed(affinity, ask.home, ask.core, u)
        && passes(records, ask.at, u)
    {
        return Some(u);
    }
    None
}

/// The decision of an ARINC 653 pool for a core: the window's choice, up to the window's end.
pub fn choose(
    records: &ArincRecords,
    queue: &[UnitId],
    affinity: &[Option<Pins>],
    ask: &Ask,
) -> Decided
    requires frame { ForSome records.now.frame IsFrame }
    requires early { ask.now.at.0 ≤ most_span }
    requires core { ask.now.core.0 < 64 }
    ensures { Tells result (decision_by (ArincPool records.now) ask.now
        (scheduler_of queue.now affinity.now (ArincPool records.now))) }
{
    let window = if ask.leaving {
        None
    } else {
        present_window(records, ask.at)
    };
    match window {
        None => Decided {
            unit: None,
            due: None,
            reset: 0,
        },
        Some(window) => Decided {
            unit: choice_of_window(records, queue, affinity, ask, window.unit),
            due: Some(Moment(window.until)),
            reset: 0,
        },
    }
}
