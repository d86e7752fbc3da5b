//! The table of the units' sets of cores.

ghost use Rattle.std.specs.Prelude.{◌≡◌, ◌<◌, ◌&&◌, ◌==◌, nat_lt, if◌then◌else◌};
ghost use Rattle.std.specs.Option.{ForSome};
ghost use Rattle.sched_base.specs.declared.UnitId.{UnitId as UnitName};
ghost use Rattle.unit_places.specs.Masks.{mask_of};
ghost use Rattle.rtds_core.specs.Masks.{is_named};

use sched_base::{Cores, DomId, UnitId};
use unit_places::Masks;

/// All 32 units that the domain may have get this set.
fn mask_all(dom: DomId, cores: Cores, masks: &mut Masks)
    requires { dom.0 < 64 }
    ensures { (u : UnitName) → u.n < 256 → mask_of masks.new u
        ≡ (if is_named dom.0 None u then cores else mask_of masks.old u) }
{
    for n in 0..32u8 {
        masks.set(UnitId { dom, n }, cores);
    }
}

/// One unit of the domain gets this set, or each that it may have.
pub fn set_masks(dom: DomId, unit: Option<u8>, cores: Cores, masks: &mut Masks)
    requires domain { dom.0 < 64 }
    requires unit { ForSome unit (λ n. n < 32) }
    ensures { (u : UnitName) → u.n < 256 → mask_of masks.new u
        ≡ (if is_named dom.0 unit u then cores else mask_of masks.old u) }
{
    match unit {
        None => mask_all(dom, cores, masks),
        Some(n) => masks.set(UnitId { dom, n }, cores),
    }
}
