//! The parameters of a pool where none are given.

ghost use Rattle.std.specs.Prelude.{◌≡◌};
ghost use Rattle.sched_model.specs.Policy.{standard_pool_params};

use sched_model::config::{PoolParams, SchedKind};

/// The parameters of a pool where none are given.
pub fn default_pool_params(kind: SchedKind) -> PoolParams
    ensures { result ≡ standard_pool_params kind }
{
    match kind {
        SchedKind::Credit2 => PoolParams::Credit2 { limit: 1000 },
        SchedKind::Rtds => PoolParams::Rtds,
        SchedKind::Arinc653 => PoolParams::Arinc653 { frame: None },
        SchedKind::Null => PoolParams::Null,
    }
}
