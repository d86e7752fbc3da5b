//! Changes of one core in place: its due, its stage, and the unit that it saves. t is the moment.

ghost use Rattle.std.specs.Prelude.{◌≡◌, ◌+◌, min};
ghost use Rattle.sched_base.specs.Numbers.{moment};
ghost use Rattle.sched_model.specs.Places.{change_at};
ghost use Rattle.sched_model.specs.Pool.{due_within, saved_core, saving_among};

use sched_base::{Moment, ResId, UnitId};
use sched_model::row::Row;
use sched_model::state::Resource;

/// The due, or the moment at which the budget is used up, if that is earlier.
fn sooner(t: Moment, budget: u64, due: Moment) -> Moment
    ensures { result ≡ moment (min (t.0 + budget) due.0) }
{
    Moment(t.0.saturating_add(budget).min(due.0))
}

/// The core asks again after the budget at the latest, where it is to ask again at all.
fn bring_due(t: Moment, budget: u64, core: &mut Resource)
    ensures { core.new ≡ due_within t.0 budget core.old }
{
    if let Some(due) = core.due {
        core.due = Some(sooner(t, budget, due));
    }
}

/// The same of the core at this place.
pub fn bring_due_at(r: usize, t: Moment, budget: u64, cores: &mut Row<Option<Resource>>)
    ensures { cores.new ≡ change_at r (due_within t.0 budget) cores.old }
{
    if let Some(place) = cores.get_mut(r)
        && let Some(c) = place
    {
        bring_due(t, budget, c);
    }
}

/// The unit that the core is saving is taken out.
pub fn take_saved(r: ResId, cores: &mut Row<Option<Resource>>) -> Option<UnitId>
    ensures unit { result ≡ saving_among cores.old r.0 }
    ensures cores { cores.new ≡ change_at r.0 saved_core cores.old }
{
    if let Some(place) = cores.get_mut(r.0 as usize)
        && let Some(c) = place
    {
        let unit = c.saving;
        c.saving = None;
        unit
    } else {
        None
    }
}
