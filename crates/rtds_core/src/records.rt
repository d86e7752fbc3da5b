//! The records of a domain that joins.

ghost use Rattle.sched_model.specs.CheckedMachine.{most_span};
ghost use Rattle.std.specs.Prelude.{◌≡◌, ◌≤◌};
ghost use Rattle.sched_model.specs.declared.state.Records.TheVariants.{RtdsPool};
ghost use Rattle.sched_model.specs.Policy.{joined_records};
ghost use Rattle.sched_ops.specs.Conditions.{AreDomParams};
ghost use Rattle.sched_model.specs.declared.config.SchedKind.{SchedKind};

use sched_base::{DomId, Moment};
use sched_model::config::DomParams;
use sched_model::places::set_place;
use sched_model::row::Row;
use sched_model::state::RtdsUnits;
use scheduler_records::rtds::fresh_units;

/// The records of a domain that joins at t, with so many units.
pub fn join_records(
    d: DomId,
    units: u8,
    params: &DomParams,
    t: Moment,
    domains: &mut Row<Option<RtdsUnits>>,
)
    requires few { units ≤ 32 }
    requires params { AreDomParams SchedKind.Rtds params.now }
    requires early { t.0 ≤ most_span }
    ensures { RtdsPool domains.new ≡ joined_records (RtdsPool domains.old) params.now d.0 units
        t.0 }
{
    if let DomParams::Rtds {
        period,
        budget,
        extra,
    } = *params
    {
        let fresh = fresh_units(period, budget, extra, units, t);
        set_place(domains, d.0, Some(fresh));
    }
}
