//! The lines of a report, from what it keeps.

ghost use Rattle.std.specs.Prelude.{◌≡◌, ◌+◌, ◌*◌, ◌^◌, ◌≤◌, length};
ghost use Rattle.sched_report.specs.Tallies.{UnitsWithin, CoreWithin, unit_line_by, core_line_by};

use crate::line::{CoreLine, UnitLine};
use crate::tally::{CoreTally, UnitTally, open_time, open_times_of, tally_of};
use sched_base::{Moment, ResId, UnitId};

/// What the unit did up to the last moment.
pub fn unit_line(units: &[UnitTally], cores: &[CoreTally], last: Moment, unit: UnitId) -> UnitLine
    requires places { length units.now ≡ 2048 }
    requires within { UnitsWithin 4294967295 4294967295 4294967295 units.now }
    requires cores { length cores.now ≤ 64 }
    ensures { result ≡ unit_line_by units.now cores.now last.0 unit }
{
    let tally = tally_of(units, unit);
    UnitLine {
        unit,
        run: tally.run + open_times_of(cores, unit, last),
        picks: tally.picks,
        repl: tally.repl,
        late: tally.late,
    }
}

/// What the core with this number did up to the last moment.
pub fn core_line(tally: &CoreTally, last: Moment, core: ResId) -> CoreLine
    requires { CoreWithin 4294967295 tally.now }
    ensures { result ≡ core_line_by tally.now last.0 core.0 }
{
    let run = tally.run + u128::from(open_time(tally, last));
    CoreLine {
        core,
        run,
        idle: u128::from(last.0).saturating_sub(run),
        decides: tally.decides,
    }
}
