//! What a report keeps of each core and of each unit, and how a choice changes it.

ghost use Rattle.std.specs.Prelude.{◌≡◌, ◌+◌, ◌*◌, ◌^◌, ◌<◌, ◌≤◌, IfSome, length, sum_by, true, Some, None};
ghost use Rattle.sched_model.specs.Places.{same_unit};
ghost use Rattle.sched_report.specs.Stays.{entry_choice, replenished_by};
ghost use Rattle.sched_report.specs.Tallies.{UnitsWithin, CoresWithin, IsShort};
ghost use Rattle.sched_report.specs.Tallies as tallies;

use crate::choice::{CoreChoice, choice_in, renewed_by};
use sched_base::{Moment, UnitId};
use sched_model::event::Entry;
use sched_model::units::{is_same, is_same_choice};
use unit_places::place_of;

/// What a unit did up to now, but for a stay that goes on. Times are in nanoseconds.
#[derive(Clone, Copy)]
pub struct UnitTally {
    pub run: u128,
    pub picks: u32,
    pub repl: u32,
    pub late: u128,
}

/// The unit that is on a core and since when, and what the core did up to now, but for the stay that goes on.
#[derive(Clone, Copy)]
pub struct CoreTally {
    pub cur: Option<UnitId>,
    pub since: Moment,
    pub run: u128,
    pub decides: u32,
}

impl UnitTally {
    /// Nothing done.
    pub const NOTHING: UnitTally = UnitTally {
        run: 0,
        picks: 0,
        repl: 0,
        late: 0,
    };
}

impl CoreTally {
    /// A core that has not decided.
    pub const UNDECIDED: CoreTally = CoreTally {
        cur: None,
        since: Moment(0),
        run: 0,
        decides: 0,
    };
}

/// How long the stay was that the choice ends, 0 where it ends none.
fn ended(core: &CoreTally, choice: &CoreChoice) -> u64
    ensures { result ≡ tallies.ended_span core.now choice.now }
{
    if core.cur.is_none() || is_same_choice(core.cur, choice.unit) {
        0
    } else {
        choice.at.0.saturating_sub(core.since.0)
    }
}

fn core_after(core: &CoreTally, choice: &CoreChoice) -> CoreTally
    requires run { core.now.run + 2 ^ 64 ≤ 2 ^ 128 }
    requires decides { core.now.decides + 1 < 2 ^ 32 }
    ensures { result ≡ tallies.core_tally_after core.now choice.now }
{
    let run = core.run + u128::from(ended(core, choice));
    let decides = core.decides + 1;
    if is_same_choice(core.cur, choice.unit) {
        CoreTally {
            run,
            decides,
            ..*core
        }
    } else {
        CoreTally {
            cur: choice.unit,
            since: choice.at,
            run,
            decides,
        }
    }
}

/// Tells the unit that the choice finds on the core how much time ended, and how late the choice was.
fn count_found(units: &mut [UnitTally], core: &CoreTally, choice: &CoreChoice)
    requires places { length units.old ≡ 2048 }
    requires within { UnitsWithin 4294967294 4294967294 4294967294 units.old }
    ensures { units.new ≡ tallies.after_found core.now choice.now units.old }
{
    if let Some(u) = core.cur {
        if let Some(i) = place_of(u) {
            let unit = &mut units[i];
            unit.run += u128::from(ended(core, choice));
            unit.late += u128::from(choice.late.0);
        }
    }
}

/// Tells the unit whose stay begins with the choice that one begins.
fn count_picked(units: &mut [UnitTally], core: &CoreTally, choice: &CoreChoice)
    requires places { length units.old ≡ 2048 }
    requires within { UnitsWithin 4294967295 4294967294 4294967294 units.old }
    ensures { units.new ≡ tallies.after_picked core.now choice.now units.old }
{
    if !is_same_choice(core.cur, choice.unit)
        && let Some(u) = choice.unit
        && let Some(i) = place_of(u)
    {
        units[i].picks += 1;
    }
}

/// Tells the units what a choice of the core means for them.
fn count_units(units: &mut [UnitTally], core: &CoreTally, choice: &CoreChoice)
    requires places { length units.old ≡ 2048 }
    requires within { UnitsWithin 4294967294 4294967294 4294967294 units.old }
    requires short { IsShort choice.now }
    ensures { units.new ≡ tallies.units_after core.now choice.now units.old }
{
    count_found(units, core, choice);
    count_picked(units, core, choice);
}

/// Counts a choice of a core. A core that is not there changes nothing.
fn count_choice(cores: &mut [CoreTally], units: &mut [UnitTally], choice: &CoreChoice)
    requires places { length units.old ≡ 2048 }
    requires units { UnitsWithin 4294967294 4294967294 4294967294 units.old }
    requires cores { CoresWithin 4294967294 cores.old }
    requires short { IsShort choice.now }
    ensures cores { cores.new ≡ tallies.cores_with (Some choice.now) cores.old }
    ensures units { units.new ≡ tallies.units_with (Some choice.now) cores.old units.old }
{
    let r = choice.core.0 as usize;
    if r < cores.len() {
        let core = cores[r];
        count_units(units, &core, choice);
        cores[r] = core_after(&core, choice);
    }
}

/// Counts a replenishment of the unit.
fn count_renewed(units: &mut [UnitTally], u: UnitId)
    requires places { length units.old ≡ 2048 }
    requires within { UnitsWithin 4294967295 4294967295 4294967294 units.old }
    ensures { units.new ≡ tallies.units_renewed (Some u) units.old }
{
    if let Some(i) = place_of(u) {
        units[i].repl += 1;
    }
}

/// Counts an entry: a choice of a core, or a replenishment of a unit. Every other entry leaves all as it is.
pub fn count_entry(cores: &mut [CoreTally], units: &mut [UnitTally], e: &Entry)
    requires places { length units.old ≡ 2048 }
    requires units { UnitsWithin 4294967294 4294967294 4294967294 units.old }
    requires cores { CoresWithin 4294967294 cores.old }
    ensures cores { cores.new ≡ tallies.cores_with (entry_choice e.now) cores.old }
    ensures units { units.new ≡ tallies.units_renewed (replenished_by e.now.event)
        (tallies.units_with (entry_choice e.now) cores.old units.old) }
    ensures short { IfSome (entry_choice e.now) IsShort }
{
    if let Some(c) = choice_in(e) {
        count_choice(cores, units, &c);
    }
    if let Some(u) = renewed_by(e) {
        count_renewed(units, u);
    }
}

/// The time of the core's stay that goes on, up to the last moment.
pub fn open_time(core: &CoreTally, last: Moment) -> u64
    ensures { result ≡ tallies.open_stay_time (λ u. true) last.0 core.now }
{
    match core.cur {
        None => 0,
        Some(_) => last.0.saturating_sub(core.since.0),
    }
}

/// The time of the core's stay that goes on, up to the last moment, where it is one of the unit.
fn open_time_of(core: &CoreTally, u: UnitId, last: Moment) -> u64
    ensures { result ≡ tallies.open_stay_time (λ w. same_unit w u) last.0 core.now }
{
    match core.cur {
        Some(w) if is_same(w, u) => last.0.saturating_sub(core.since.0),
        _ => 0,
    }
}

/// The time of the unit's stays that go on, up to the last moment.
pub fn open_times_of(cores: &[CoreTally], u: UnitId, last: Moment) -> u128
    requires { length cores.now ≤ 64 }
    ensures time { result ≡ sum_by (tallies.open_stay_time (λ w. same_unit w u) last.0) cores.now }
    ensures small { result ≤ 64 * 2 ^ 64 }
{
    let mut time = 0;
    for core in cores {
        time += u128::from(open_time_of(core, u, last));
    }
    time
}

/// The tally of the unit.
pub fn tally_of(units: &[UnitTally], u: UnitId) -> UnitTally
    requires { length units.now ≡ 2048 }
    ensures { result ≡ tallies.tally_at units.now (tallies.unit_place_number u) }
{
    match place_of(u) {
        Some(i) => units[i],
        None => UnitTally::NOTHING,
    }
}
