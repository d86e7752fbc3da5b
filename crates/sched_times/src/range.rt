//! A range of moments, and how much of it is over.

ghost use Rattle.std.specs.Prelude.{◌≡◌};
ghost use Rattle.sched_times.specs.Times as times;

use sched_base::Moment;
use sched_model::event::{Entry, Event};

/// The moments from one to another. The latter does not belong to it.
#[derive(Clone, Copy)]
pub struct Range {
    pub from: Moment,
    pub until: Moment,
}

impl Range {
    /// All moments.
    pub const WHOLE: Range = Range {
        from: Moment(0),
        until: Moment(u64::MAX),
    };

    /// How much of the range is over at the moment, in nanoseconds.
    pub fn over_at(&self, t: Moment) -> u64
        ensures { result ≡ times.over_at self.now t.0 }
    {
        t.0.min(self.until.0).saturating_sub(self.from.0)
    }
}

/// Up to which moment the entry tells: the line `finish` tells up to the horizon.
pub fn told_by(horizon: Moment, e: &Entry) -> Moment
    ensures { result.0 ≡ times.told_by horizon.0 e.now }
{
    match e.event {
        Event::Finish => horizon,
        _ => e.at,
    }
}
