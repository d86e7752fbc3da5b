//! What is kept of each pool, so that only a pool that changed is asked again.

ghost use Rattle.std.specs.Prelude.{◌≡◌, ◌≢◌, ◌<◌, ℕ, None, length, IfOk};
ghost use Rattle.sched_model.specs.Places.{at_place};
ghost use Rattle.machine_parts.specs.Parts.{IsFirstOfPlace, IsNextOfPlace};
ghost use Rattle.engine.specs.EngineState.{AreKept, IsIdleFrom};

use machine_parts::PoolSlot;
use machine_parts::places::{first_of, next_of, read_firsts, read_nexts};
use sched_base::{Moment, NoMemory};
use sched_model::action::Action;
use std::alloc::Global;

/// So many places without anything.
pub(crate) fn none_times<T: Clone>(alloc: Global, times: usize) -> Result<Vec<Option<T>>, NoMemory>
    ensures { IfOk result (λ all. length all.items ≡ times) }
{
    Ok(vec![in alloc; None; times]?)
}

/// How many places there are up to the last one of which an event may come now.
pub(crate) fn busy_places(firsts: &[Option<Action>]) -> usize
    ensures { IsIdleFrom result firsts.now }
{
    let mut busy = firsts.len();
    while busy > 0 {
        let before = busy - 1;
        if let Some(_action) = firsts[before] {
            return busy;
        }
        busy = before;
    }
    0
}

/// What is kept of all pools, asked at t.
pub(crate) fn read_all(
    slots: &[PoolSlot],
    t: Moment,
    firsts: &mut [Option<Action>],
    nexts: &mut [Option<Moment>],
)
    requires firsts { length firsts.old ≡ length slots.now }
    requires nexts { length nexts.old ≡ length slots.now }
    ensures { AreKept t.0 slots.now firsts.new nexts.new }
{
    read_firsts(slots, t, firsts);
    read_nexts(slots, firsts, nexts);
}

/// What is kept of this pool, which alone has changed, asked at t.
pub(crate) fn read_one(
    slots: &[PoolSlot],
    place: usize,
    t: Moment,
    firsts: &mut [Option<Action>],
    nexts: &mut [Option<Moment>],
)
    requires place { place < length slots.now }
    requires firsts { length firsts.old ≡ length slots.now }
    requires nexts { length nexts.old ≡ length slots.now }
    ensures first { IsFirstOfPlace t.0 (at_place slots.now place) (at_place firsts.new place) }
    ensures next { at_place firsts.new place ≡ None →
        IsNextOfPlace (at_place slots.now place) (at_place nexts.new place) }
    ensures firsts { length firsts.new ≡ length firsts.old }
    ensures nexts { length nexts.new ≡ length nexts.old }
    ensures other_firsts { (k : ℕ) → k ≢ place → at_place firsts.new k ≡ at_place firsts.old k }
    ensures other_nexts { (k : ℕ) → k ≢ place → at_place nexts.new k ≡ at_place nexts.old k }
{
    let first = first_of(&slots[place], t);
    firsts[place] = first;
    if first.is_none() {
        nexts[place] = next_of(&slots[place], first);
    }
}
