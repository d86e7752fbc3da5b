//! ARINC 653: the window of a frame at a moment, and the unit that it is for.

ghost use Rattle.sched_model.specs.CheckedMachine.{most_span};
ghost use Rattle.std.specs.Prelude.{◌≡◌, ◌+◌, ◌<◌, ◌≤◌, ◌^◌, sum_by, option_map};
ghost use Rattle.std.specs.Option.{ForSome};
ghost use Rattle.sched_model.specs.Arinc.{window_among, frame_window, current_window};
ghost use Rattle.scheduler_records.specs.Fits.{IsFrame};
ghost use Rattle.scheduler_records.specs.Frames.{window_of};

use sched_base::{Moment, UnitId};
use sched_model::config::{Frame, FrameEntry};
use sched_model::state::ArincRecords;

/// A window: the unit that it is for, none in the rest of a frame, and the moment of its end.
#[derive(Clone, Copy)]
pub struct Window {
    pub unit: Option<UnitId>,
    pub until: u64,
}

/// The window at a place of the frame: the entries that are left begin at the moment start, the place is behind it by ahead,
/// and the frame ends at the moment last.
fn window_from(start: u64, ahead: u64, last: u64, entries: &[FrameEntry]) -> Window
    requires { start + sum_by (λ e. e.run.0) entries.now < 2 ^ 64 }
    ensures { window_of result ≡ window_among start ahead last entries.now }
{
    match entries {
        [] => Window {
            unit: None,
            until: last,
        },
        [e, rest @ ..] => {
            let until = start + e.run.0;
            if ahead < e.run.0 {
                let unit = UnitId {
                    dom: e.dom,
                    n: e.unit,
                };
                Window {
                    unit: Some(unit),
                    until,
                }
            } else {
                window_from(until, ahead - e.run.0, last, rest)
            }
        }
    }
}

/// The window at t of a frame that was installed at a moment.
fn window_at(installed: u64, frame: &Frame, t: Moment) -> Window
    requires frame { IsFrame frame.now }
    requires early { t.0 ≤ most_span }
    ensures { window_of result ≡ frame_window installed frame.now t.0 }
{
    let major = frame.major.0;
    let ahead = t.0.saturating_sub(installed) % major;
    window_from(
        t.0 - ahead,
        ahead,
        t.0 - ahead + major,
        frame.entries.as_slice(),
    )
}

/// The present window, where there is a frame.
pub fn present_window(records: &ArincRecords, t: Moment) -> Option<Window>
    requires frame { ForSome records.now.frame IsFrame }
    requires early { t.0 ≤ most_span }
    ensures { option_map window_of result ≡ current_window records.now t.0 }
{
    match &records.frame {
        None => None,
        Some(frame) => Some(window_at(records.installed, frame, t)),
    }
}
