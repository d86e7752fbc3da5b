//! The cores on which each schedule unit may run.

ghost use Rattle.std.specs.Prelude.{◌≡◌};
ghost use Rattle.sched_base.specs.CoreSets.{has_core_bit, is_core_allowed};

use crate::{Cores, ResId};

/// Whether a core is in a set of cores.
pub fn has_core(cores: Cores, core: ResId) -> bool
    ensures { result ≡ has_core_bit cores.0 core.0 }
{
    core.0 < 64 && cores.0 / (1u64 << core.0) % 2 == 1
}

/// Whether a unit with that set of cores may run on a core of a pool: its set has the core, or no core of the pool.
pub fn is_allowed(cores: Cores, core: ResId, home: Cores) -> bool
    ensures { result ≡ is_core_allowed cores.0 core.0 home.0 }
{
    has_core(cores, core) || cores.0 & home.0 == 0
}
