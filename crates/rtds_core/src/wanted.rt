//! The cores for which a unit waits that goes before their own.

ghost use Rattle.std.specs.Prelude.{◌≡◌, ◌≤◌, ◌<◌, ℕ, true, length, is_some};
ghost use Rattle.sched_base.specs.CoreSets.{has_core_bit, is_core_allowed};
ghost use Rattle.sched_model.specs.Places.{at_place};
ghost use Rattle.arrival_queue.specs.Order.{IsInOrder};
ghost use Rattle.sched_ops.specs.WantedCores.{IsAnswer};
ghost use Rattle.rtds_core.specs.Best.{AreQueued, is_waiting_first};
ghost use Rattle.rtds_core.specs.WantedCores.{IsAhead, StandsBehind, decides_anew, first_for, is_outrun, is_own_barred};

use crate::best::goes_first;
use rtds_queue::RtdsQueues;
use sched_base::{Cores, ResId, UnitId, has_core, is_allowed};
use sched_model::state::{Resource, RtdsUnits};
use sched_model::units::is_same;
use sched_ops::wanted_where;
use scheduler_records::rtds::unit_before;
use unit_places::Masks;

/// A unit that waits with budget left, and the cores on which it may be.
#[derive(Clone, Copy)]
pub struct Ahead {
    pub unit: UnitId,
    pub cores: Cores,
}

/// The cores of a pool on which a unit with this set may be: those of its set, or all where it has none of the pool's.
pub fn open_cores(set: Cores, home: Cores) -> Cores
    ensures { (r : ℕ) → r < 64 → has_core_bit result.0 r ≡ is_core_allowed set.0 r home.0 }
{
    if set.0 & home.0 == 0 {
        Cores(u64::MAX)
    } else {
        set
    }
}

/// Whether the core's own unit, where it has one, is not allowed on it.
fn is_barred(masks: &Masks, cur: Option<UnitId>, core: ResId, home: Cores) -> bool
    ensures { result ≡ is_own_barred masks.now cur core home }
{
    match cur {
        None => false,
        Some(own) => !is_allowed(masks.get(own), core, home),
    }
}

/// Whether a unit waits for the core.
fn one_waits(queues: &RtdsQueues, masks: &Masks, first: Ahead, core: ResId, home: Cores) -> bool
    requires core { core.0 < 64 }
    requires ahead { IsAhead queues.now masks.now home first }
    ensures { result ≡ is_some (first_for queues.now masks.now core home) }
{
    has_core(first.cores, core) || queues.first_on(masks, core, home).is_some()
}

/// Whether the first that waits and may have the core goes before its own unit. The queue is searched only where the first of all does,
/// and is not allowed on the core.
fn one_goes_first(
    domains: &[Option<RtdsUnits>],
    queues: &RtdsQueues,
    masks: &Masks,
    first: Ahead,
    own: UnitId,
    core: ResId,
    home: Cores,
) -> bool
    requires core { core.0 < 64 }
    requires queues { AreQueued domains.now queues.now }
    requires order { IsInOrder queues.now.eligible }
    requires ahead { IsAhead queues.now masks.now home first }
    ensures { result ≡ is_waiting_first domains.now (first_for queues.now masks.now core home) own }
{
    if !unit_before(domains, first.unit, own) {
        return false;
    }
    has_core(first.cores, core) || goes_first(domains, queues.first_on(masks, core, home), own)
}

/// Whether a core with this unit of its own is to decide anew.
fn is_better_off(
    domains: &[Option<RtdsUnits>],
    queues: &RtdsQueues,
    masks: &Masks,
    first: Ahead,
    cur: Option<UnitId>,
    core: ResId,
    home: Cores,
) -> bool
    requires core { core.0 < 64 }
    requires queues { AreQueued domains.now queues.now }
    requires order { IsInOrder queues.now.eligible }
    requires ahead { IsAhead queues.now masks.now home first }
    ensures { result ≡ decides_anew domains.now queues.now masks.now cur core home }
{
    match cur {
        None => one_waits(queues, masks, first, core, home),
        Some(own) => {
            !is_allowed(masks.get(own), core, home)
                || one_goes_first(domains, queues, masks, first, own, core, home)
        }
    }
}

/// The cores that are to decide anew, of those at these places. The first that waits is found once. Where none does, these are the cores whose
/// own units are not allowed on them.
pub fn wanted(
    domains: &[Option<RtdsUnits>],
    queues: &RtdsQueues,
    masks: &Masks,
    cores: &[Option<Resource>],
    home: Cores,
) -> Cores
    requires few { length cores.now ≤ 64 }
    requires queues { AreQueued domains.now queues.now }
    requires order { IsInOrder queues.now.eligible }
    ensures { (r : ℕ) → IsAnswer (λ core cur since answer. answer
        ≡ decides_anew domains.now queues.now masks.now cur core home) r (at_place cores.now r)
        (has_core_bit result.0 r) }
{
    match queues.first() {
        None => wanted_where(cores, |core, cur, _since| {
            is_barred(masks, cur, core, home)
        }),
        Some(unit) => {
            let first = Ahead {
                unit,
                cores: open_cores(masks.get(unit), home),
            };
            wanted_where(cores, |core, cur, _since| {
                is_better_off(domains, queues, masks, first, cur, core, home)
            })
        }
    }
}

/// Whether a unit with this set may be on each core of a pool.
fn is_open_to_all(set: Cores, home: Cores) -> bool
    ensures { result ≡ true → (r : ℕ) → r < 64 → is_core_allowed set.0 r home.0 ≡ true }
{
    if set.0 & home.0 == 0 {
        return true;
    }
    set.0 == u64::MAX
}

/// Whether another unit stands first and may be on each core of the pool, so that no core decides anew for this one.
pub fn stands_behind(queues: &RtdsQueues, masks: &Masks, u: UnitId, home: Cores) -> bool
    ensures { result ≡ true → StandsBehind queues.now masks.now home u }
{
    match queues.first() {
        None => false,
        Some(first) => {
            if is_same(u, first) {
                return false;
            }
            is_open_to_all(masks.get(first), home)
        }
    }
}

/// Whether the unit outruns what the core has: it may be on the core, and that has none, or one that it goes before.
fn outruns(domains: &[Option<RtdsUnits>], coming: Ahead, cur: Option<UnitId>, core: ResId) -> bool
    requires { core.0 < 64 }
    ensures { result ≡ is_outrun domains.now coming cur core }
{
    match cur {
        None => has_core(coming.cores, core),
        Some(own) => has_core(coming.cores, core) && unit_before(domains, coming.unit, own),
    }
}

/// The cores, of those at these places, that are outrun by this one unit. No other is looked at.
pub fn outrun_by(domains: &[Option<RtdsUnits>], coming: Ahead, cores: &[Option<Resource>]) -> Cores
    requires { length cores.now ≤ 64 }
    ensures { (r : ℕ) → IsAnswer (λ core cur since answer. answer
        ≡ is_outrun domains.now coming cur core) r (at_place cores.now r)
        (has_core_bit result.0 r) }
{
    wanted_where(cores, |core, cur, _since| {
        outruns(domains, coming, cur, core)
    })
}
