//! The walk over a pool's cores, for a look at them.

ghost use Rattle.std.specs.Prelude.{◌≡◌, ◌≤◌, ℕ, length, true};
ghost use Rattle.sched_base.specs.Numbers.{core};
ghost use Rattle.sched_model.specs.State.{has_core_bit};
ghost use Rattle.sched_model.specs.Places.{at_place};
ghost use Rattle.sched_model.specs.declared.state.Resource.{Resource as ResourceRecord};
ghost use Rattle.sched_ops.specs.WantedCores.{is_asked, IsAnswer};

use sched_base::{Cores, Moment, ResId, UnitId};
use sched_model::state::Resource;

/// Whether the core at the place is asked and the answer is yes.
#[inline(always)]
fn is_wanted<F: Fn(ResId, Option<UnitId>, Moment) -> bool>(
    place: &Option<Resource>,
    r: ResId,
    asks: &F,
) -> bool
    requires asks { (c : ResourceRecord) → place.now ≡ Some c → is_asked c ≡ true →
        F.pre asks.now r c.cur c.since }
    ensures { IsAnswer (F.post asks.now) r.0 place.now result }
{
    match place {
        None => false,
        Some(c) => !c.leaving && !c.pending && asks(r, c.cur, c.since),
    }
}

/// The set of the cores at these places for which the answer is yes. Each that is neither leaving nor to decide already is asked once: by
/// its number, its own unit, and the moment since which it has that. No other core is asked.
#[inline(always)]
pub fn wanted_where<F: Fn(ResId, Option<UnitId>, Moment) -> bool>(
    cores: &[Option<Resource>],
    asks: F,
) -> Cores
    requires few { length cores.now ≤ 64 }
    requires asks { (r : ℕ) (c : ResourceRecord) → at_place cores.now r ≡ Some c → is_asked c
        ≡ true → F.pre asks (core r) c.cur c.since }
    ensures { (r : ℕ) → IsAnswer (F.post asks) r (at_place cores.now r) (has_core_bit result.0 r) }
{
    let mut set = 0;
    for r in (0..cores.len()).rev() {
        let wanted = is_wanted(&cores[r], ResId(r as u8), &asks);
        set = 2 * set + wanted as u64;
    }
    Cores(set)
}
