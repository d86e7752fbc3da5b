//! Changes of one core among those of a pool.

ghost use Rattle.std.specs.Prelude.{◌≡◌, ◌+◌, ◌^◌, ◌<◌};
ghost use Rattle.sched_model.specs.Places.{change_at};
ghost use Rattle.core_state.specs.Seen.{chosen_core, pending_by, cleared_works};

use sched_base::{Moment, ResId, UnitId};
use sched_model::places::take_item;
use sched_model::row::Row;
use sched_model::state::Resource;
use sched_model::units::is_same_choice;
use sibling_meet::decided;

/// The core is to decide anew, at this moment at the latest.
pub fn set_pending_by(r: ResId, due: Moment, cores: &mut Row<Option<Resource>>)
    ensures { cores.new ≡ change_at r.0 (pending_by due) cores.old }
{
    if let Some(place) = cores.get_mut(r.0 as usize)
        && let Some(c) = place
    {
        c.pending = true;
        c.due = Some(due);
    }
}

/// The core takes what was decided.
fn choose(t: Moment, unit: Option<UnitId>, due: Option<Moment>, core: &mut Resource)
    ensures { core.new ≡ chosen_core t.0 unit due core.old }
{
    if !is_same_choice(unit, core.cur) {
        core.saving = core.cur;
        core.cur = unit;
        core.since = t;
    }
    core.due = due;
    core.pending = false;
    decided(core);
}

/// The core at this place takes what was decided.
pub fn choose_at(
    r: ResId,
    t: Moment,
    unit: Option<UnitId>,
    due: Option<Moment>,
    cores: &mut Row<Option<Resource>>,
)
    ensures { cores.new ≡ change_at r.0 (chosen_core t.0 unit due) cores.old }
{
    if let Some(place) = cores.get_mut(r.0 as usize)
        && let Some(c) = place
    {
        choose(t, unit, due, c);
    }
}

/// So many processors from p on have no work whose end is known.
pub fn clear_works(p: u16, count: u8, works: &mut Row<Option<Moment>>)
    requires { p + count < 2 ^ 16 }
    ensures { works.new ≡ cleared_works p count works.old }
{
    for i in 0..count {
        take_item(works, (p + i as u16) as usize);
    }
}
