//! The entries that a report looks at: decisions and replenishments.

ghost use Rattle.std.specs.Prelude.{◌≡◌, IfSome};
ghost use Rattle.sched_report.specs.Stays as stays;
ghost use Rattle.sched_report.specs.Tallies.{IsShort};

use sched_base::{Moment, ResId, Span, UnitId};
use sched_model::event::{Entry, Event};

/// What a decision chooses: the unit that is on the core from this moment on, or none.
#[derive(Clone, Copy)]
pub struct CoreChoice {
    pub core: ResId,
    pub at: Moment,
    pub unit: Option<UnitId>,
    /// How late the decision was.
    pub late: Span,
}

/// The choice with these values.
fn make_choice(core: ResId, at: Moment, unit: Option<UnitId>, late: Span) -> CoreChoice
    ensures values { result ≡ record { core = core; at = at; unit = unit; late = late } }
    ensures short { IsShort result }
{
    CoreChoice {
        core,
        at,
        unit,
        late,
    }
}

/// What the entry chooses, where it is a decision.
pub fn choice_in(e: &Entry) -> Option<CoreChoice>
    ensures choice { result ≡ stays.entry_choice e.now }
    ensures short { IfSome result IsShort }
{
    match e.event {
        Event::Decide { r, unit, late, .. } => Some(make_choice(r, e.at, unit, late)),
        _ => None,
    }
}

/// The unit that the entry replenishes, where it is a replenishment.
pub fn renewed_by(e: &Entry) -> Option<UnitId>
    ensures { result ≡ stays.replenished_by e.now.event }
{
    match e.event {
        Event::Repl { u, .. } => Some(u),
        _ => None,
    }
}
