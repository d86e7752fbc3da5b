//! What a null scheduler that has its memory answers, and keeps.

ghost use Rattle.std.specs.Prelude.{◌≡◌, ◌==◌, ◌≤◌, ◌<◌, ◌&&◌, ℕ, [], true, false, Some, None, IfNone, IfSome, if◌then◌else◌, length};
ghost use Rattle.sched_model.specs.Places.{at_place, has_listed_unit};
ghost use Rattle.sched_model.specs.declared.state.Records.TheVariants.{NullPool};
ghost use Rattle.sched_model.specs.State.{has_core_bit};
ghost use Rattle.sched_model.specs.EligibleUnits.{is_allowed_by, is_unit_placed, is_core_given, has_given_core, eligible_units};
ghost use Rattle.sched_model.specs.Policy.{has_better_waiting};
ghost use Rattle.sched_model.specs.NullScheduler.{earliest_unit, null_choice, null_decision};
ghost use Rattle.scheduler_records.specs.Parts.{scheduler_of};
ghost use Rattle.sched_ops.specs.Seen.{Tells, scheduler_without_unit};
ghost use Rattle.sched_ops.specs.WantedCores.{IsAnswer, is_core_wanted};
ghost use Rattle.unit_places.specs.Places.{has_unit_place};
ghost use Rattle.pool_units.specs.Units.{without_chosen};
ghost use Rattle.sched_null.specs.Coming.{is_idle, is_open_to};

use crate::kept::Kept;
use pool_units::PoolUnits;
use sched_base::{Cores, Moment, ResId, UnitId, has_core};
use sched_model::ask::Ask;
use sched_model::config::Pins;
use sched_model::places::item_at;
use sched_model::state::Resource;
use sched_model::units::is_there;
use sched_ops::{Choice, wanted_where};
use scheduler_records::eligible::is_allowed;
use scheduler_records::null::passes;

/// The units of the pool, and those for which its cores are kept.
#[derive(Drop)]
pub struct NullParts {
    pub units: PoolUnits,
    pub kept: Kept,
}

/// Whether the unit may have a core that is kept for it: the core is one of the pool's, and is allowed.
fn may_have(units: &PoolUnits, home: Cores, core: ResId, u: UnitId) -> bool
    requires { core.0 < 64 }
    ensures { result ≡ (has_core_bit home.0 core.0
        && is_allowed_by units.now.affinity home.0 core.0 u) }
{
    has_core(home, core) && units.is_allowed(home, core, u)
}

/// Whether the core is given to the unit: it is kept for it, is one of the pool's, and is allowed.
fn is_placed(units: &PoolUnits, kept: &Kept, home: Cores, core: ResId, u: UnitId) -> bool
    requires { core.0 < 64 }
    ensures { result ≡ is_unit_placed (scheduler_of units.now.queue units.now.affinity
        (NullPool kept.now)) kept.now home.0 core.0 u }
{
    is_there(kept.at(core), u) && may_have(units, home, core, u)
}

/// Whether the core is given to some unit.
fn is_given(units: &PoolUnits, kept: &Kept, home: Cores, core: ResId) -> bool
    requires { core.0 < 64 }
    ensures { result ≡ is_core_given (scheduler_of units.now.queue units.now.affinity
        (NullPool kept.now)) kept.now home.0 core.0 }
{
    match kept.at(core) {
        None => false,
        Some(w) => may_have(units, home, core, w),
    }
}

/// The core that is given to a unit that has a place in tables: the one that is kept for it, where the unit may have that.
fn given_core(units: &PoolUnits, kept: &Kept, home: Cores, u: UnitId) -> Option<ResId>
    requires { has_unit_place u ≡ true }
    ensures none { IfNone result (has_given_core (scheduler_of units.now.queue units.now.affinity
        (NullPool kept.now)) kept.now home.0 u ≡ false) }
    ensures given { IfSome result (λ core. is_unit_placed (scheduler_of units.now.queue
        units.now.affinity (NullPool kept.now)) kept.now home.0 core.0 u ≡ true) }
    ensures few { IfSome result (λ core. core.0 < 64) }
{
    kept.keeps();
    let core = kept.core_of(u)?;
    if may_have(units, home, core, u) {
        Some(core)
    } else {
        None
    }
}

/// The first waiting unit that may have the core, by a look at each of them.
fn first_waiting(
    waiting: &[UnitId],
    affinity: &[Option<Pins>],
    kept: &[Option<UnitId>],
    home: Cores,
    core: ResId,
) -> Option<UnitId>
    requires core { core.0 < 64 }
    requires few { length kept.now ≤ 64 }
    ensures { result ≡ earliest_unit (eligible_units
        (scheduler_of waiting.now affinity.now (NullPool kept.now)) home.0 core.0 0) }
{
    for u in waiting {
        if is_allowed(affinity, home, core, *u) && passes(kept, affinity, home, core, *u) {
            return Some(*u);
        }
    }
    None
}

fn if_waits(units: &PoolUnits, u: UnitId) -> Option<UnitId>
    ensures { result ≡ (if has_listed_unit units.now.queue u then Some u else None) }
{
    if units.waits(u) { Some(u) } else { None }
}

/// The first waiting unit that may have the core: the one that it is given to, where it is given to any.
fn first_eligible(units: &PoolUnits, kept: &Kept, home: Cores, core: ResId) -> Option<UnitId>
    requires { core.0 < 64 }
    ensures { result ≡ earliest_unit (eligible_units
        (scheduler_of units.now.queue units.now.affinity (NullPool kept.now)) home.0 core.0 0) }
{
    if let Some(w) = kept.at(core)
        && may_have(units, home, core, w)
    {
        return if_waits(units, w);
    }
    first_waiting(
        units.waiting(),
        units.affinity(),
        kept.as_slice(),
        home,
        core,
    )
}

/// Whether a core with this unit of its own is to decide anew: one waits for it while it has none, or its own is not allowed on it. No
/// unit is better than a core's own. Where none waits at all, none is looked for.
pub(crate) fn is_wanted(
    units: &PoolUnits,
    kept: &Kept,
    waits: bool,
    cur: Option<UnitId>,
    core: ResId,
    home: Cores,
) -> bool
    requires core { core.0 < 64 }
    requires waits { waits ≡ false → units.now.queue ≡ [] }
    ensures { (since t : ℕ) → result ≡ has_better_waiting cur since t core.0 home.0
        (scheduler_of units.now.queue units.now.affinity (NullPool kept.now)) }
{
    match cur {
        None => waits && first_eligible(units, kept, home, core).is_some(),
        Some(own) => !units.is_allowed(home, core, own),
    }
}

/// Whether the core at the place is asked, and idles.
fn idles(cores: &[Option<Resource>], core: ResId) -> bool
    ensures { result ≡ is_idle (at_place cores.now core.0) }
{
    match item_at(cores, core.0 as usize) {
        None => false,
        Some(c) => !c.leaving && !c.pending && c.cur.is_none(),
    }
}

/// The one core, where it is asked and idles. No other place is looked at.
fn if_idle(cores: &[Option<Resource>], core: ResId) -> Cores
    requires { core.0 < 64 }
    ensures { (r : ℕ) → has_core_bit result.0 r
        ≡ (r == core.0 && is_idle (at_place cores.now r)) }
{
    if idles(cores, core) {
        Cores(1 << core.0)
    } else {
        Cores(0)
    }
}

/// Whether a core with this unit of its own is open to a unit that is given none.
fn is_open(
    units: &PoolUnits,
    kept: &Kept,
    cur: Option<UnitId>,
    core: ResId,
    home: Cores,
    u: UnitId,
) -> bool
    requires { core.0 < 64 }
    ensures { result ≡ is_open_to (scheduler_of units.now.queue units.now.affinity
        (NullPool kept.now)) kept.now home.0 core.0 u cur }
{
    match cur {
        None => units.is_allowed(home, core, u) && !is_given(units, kept, home, core),
        Some(_) => false,
    }
}

/// The cores, of those at these places, that are open to a unit that is given none.
fn open_cores(
    units: &PoolUnits,
    kept: &Kept,
    cores: &[Option<Resource>],
    home: Cores,
    u: UnitId,
) -> Cores
    requires { length cores.now ≤ 64 }
    ensures { (r : ℕ) → IsAnswer (λ core cur since answer. answer
        ≡ is_open_to (scheduler_of units.now.queue units.now.affinity (NullPool kept.now)) kept.now
        home.0 core.0 u cur) r (at_place cores.now r) (has_core_bit result.0 r) }
{
    wanted_where(cores, |core, cur, _since| {
        is_open(units, kept, cur, core, home, u)
    })
}

/// The core's own unit, where it was given the core and may go on, and else one that waits.
fn choice(units: &PoolUnits, kept: &Kept, ask: &Ask) -> Option<UnitId>
    requires { ask.now.core.0 < 64 }
    ensures { result ≡ null_choice ask.now
        (scheduler_of units.now.queue units.now.affinity (NullPool kept.now)) kept.now }
{
    let home = ask.home;
    let core = ask.core;
    if let Some(u) = ask.cur
        && ask.runnable
        && is_placed(units, kept, home, core, u)
    {
        return Some(u);
    }
    first_eligible(units, kept, home, core)
}

/// The decision for a core: the chosen unit keeps it, and a core that is leaving keeps none.
fn decide(units: &PoolUnits, kept: &mut Kept, ask: &Ask) -> Choice
    requires { ask.now.core.0 < 64 }
    ensures decided { Tells result (null_decision ask.now
        (scheduler_of units.now.queue units.now.affinity (NullPool kept.old)) kept.old) }
    ensures records { NullPool kept.new ≡
        (null_decision ask.now (scheduler_of units.now.queue units.now.affinity (NullPool kept.old))
        kept.old).records }
{
    let core = ask.core;
    let unit = if ask.leaving {
        kept.leave(core);
        None
    } else {
        choice(units, kept, ask)
    };
    if let Some(u) = unit {
        kept.keep(core, u);
    }
    Choice {
        unit,
        due: None,
        reset: 0,
    }
}

/// The decision for a core. The unit that is chosen waits no more.
pub(crate) fn choose(parts: &mut NullParts, ask: &Ask) -> Choice
    requires { ask.now.core.0 < 64 }
    ensures decided { Tells result (null_decision ask.now
        (scheduler_of parts.old.units.queue parts.old.units.affinity (NullPool parts.old.kept))
        parts.old.kept) }
    ensures records { NullPool parts.new.kept ≡ (null_decision ask.now
        (scheduler_of parts.old.units.queue parts.old.units.affinity (NullPool parts.old.kept))
        parts.old.kept).records }
    ensures taken { parts.new.units ≡ without_chosen result.unit parts.old.units }
{
    let choice = decide(&parts.units, &mut parts.kept, ask);
    if let Some(u) = choice.unit {
        parts.units.dequeue(u);
    }
    choice
}

/// The cores that are to decide anew at t, of those at these places, where none of them would be without this unit: its own core, if that
/// idles; or where it is given none, those that idle and are given to none.
pub(crate) fn wanted_for(
    units: &PoolUnits,
    kept: &Kept,
    u: UnitId,
    cores: &[Option<Resource>],
    t: Moment,
    home: Cores,
) -> Cores
    requires few { length cores.now ≤ 64 }
    requires before { (r : ℕ) → is_core_wanted t.0 home.0 (scheduler_without_unit u
        (scheduler_of units.now.queue units.now.affinity (NullPool kept.now))) r
        (at_place cores.now r) ≡ false }
    ensures { (r : ℕ) → has_core_bit result.0 r ≡ is_core_wanted t.0 home.0
        (scheduler_of units.now.queue units.now.affinity (NullPool kept.now)) r
        (at_place cores.now r) }
{
    units.keeps();
    kept.keeps();
    if !units.waits(u) {
        return Cores(0);
    }
    match given_core(units, kept, home, u) {
        Some(core) => if_idle(cores, core),
        None => open_cores(units, kept, cores, home, u),
    }
}
