//! The sets of cores that the units of a domain are pinned to.

ghost use Rattle.std.specs.Prelude.{◌≡◌};
ghost use Rattle.sched_model.specs.Places.{change_at};
ghost use Rattle.sched_model.specs.Policy.{pinned_cores};

use sched_base::{Cores, DomId};
use sched_model::config::Pins;
use sched_model::row::Row;
use sched_model::short::copies;

/// The set of cores of one of the units, or of all of them.
#[tactic(auto, using(sched_model::proofs::PlaceLemmas::past_the_end))]
fn pin_units(unit: Option<u8>, cores: Cores, units: &mut Pins)
    ensures { units.new ≡ pinned_cores unit cores units.old }
{
    match unit {
        None => *units = copies(cores, units.len() as u8),
        Some(n) => {
            if let Some(set) = units.get_mut(n as usize) {
                *set = cores;
            }
        }
    }
}

/// The set of cores of one of the domain's units, or of all of them.
pub fn pin(d: DomId, unit: Option<u8>, cores: Cores, affinity: &mut Row<Option<Pins>>)
    ensures { affinity.new ≡ change_at d.0 (pinned_cores unit cores) affinity.old }
{
    if let Some(place) = affinity.get_mut(d.0 as usize)
        && let Some(units) = place
    {
        pin_units(unit, cores, units);
    }
}
