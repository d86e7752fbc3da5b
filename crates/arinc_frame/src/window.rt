//! The window of a frame at a moment, kept from one question to the next.

ghost use Rattle.sched_model.specs.CheckedMachine.{most_span};
ghost use Rattle.std.specs.Prelude.{◌≡◌, ◌≤◌, option_map};
ghost use Rattle.std.specs.Option.{ForSome};
ghost use Rattle.sched_model.specs.Arinc.{current_window};
ghost use Rattle.sched_laws.specs.RecordRanges.{IsFrame};
ghost use Rattle.scheduler_records.specs.Frames.{window_of};
ghost use Rattle.arinc_frame.specs.Frames.{IsPresent};

use sched_base::Moment;
use sched_model::state::ArincRecords;
use scheduler_records::arinc::{Window, present_window};

/// A window, and the moment at which it was found, in nanoseconds.
#[derive(Clone, Copy)]
pub struct Present {
    pub from: u64,
    pub window: Window,
}

/// The present window, where there is a frame: the one that was found last, up to its end.
pub fn window_now(records: &ArincRecords, present: Option<Present>, t: Moment) -> Option<Window>
    requires frame { ForSome records.now.frame IsFrame }
    requires present { ForSome present (IsPresent records.now) }
    requires early { t.0 ≤ most_span }
    ensures { option_map window_of result ≡ current_window records.now t.0 }
{
    if let Some(last) = present
        && last.from <= t.0
        && t.0 < last.window.until
    {
        return Some(last.window);
    }
    present_window(records, t)
}

/// The window of the moment t, to be kept.
pub fn found_at(records: &ArincRecords, present: Option<Present>, t: Moment) -> Option<Present>
    requires frame { ForSome records.now.frame IsFrame }
    requires present { ForSome present (IsPresent records.now) }
    requires installed { records.now.installed ≤ t.0 }
    requires early { t.0 ≤ most_span }
    ensures { ForSome result (IsPresent records.now) }
{
    match window_now(records, present, t) {
        None => None,
        Some(window) => Some(Present { from: t.0, window }),
    }
}
