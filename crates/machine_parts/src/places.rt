//! What the pool of each place tells: the first event of it that may come, and when the next one may.

ghost use Rattle.std.specs.Prelude.{◌≡◌, ℕ, None, length};
ghost use Rattle.sched_model.specs.Places.{at_place};
ghost use Rattle.machine_parts.specs.Parts.{AreFirsts, IsFirstOfPlace, IsNextOfPlace};

use crate::slot::PoolSlot;
use sched_base::Moment;
use sched_model::action::Action;

/// The first event of the pool that may come at t.
pub fn first_of(slot: &PoolSlot, t: Moment) -> Option<Action>
    ensures { IsFirstOfPlace t.0 slot.now result }
{
    slot.first_enabled(t)
}

/// The least moment at which an event of the pool may come, where `first` says that none may now.
pub fn next_of(slot: &PoolSlot, first: Option<Action>) -> Option<Moment>
    ensures { first ≡ None → IsNextOfPlace slot.now result }
{
    match first {
        Some(_) => None,
        None => slot.next_moment(),
    }
}

/// The first event of each pool that may come at t.
pub fn read_firsts(slots: &[PoolSlot], t: Moment, firsts: &mut [Option<Action>])
    requires count { length firsts.old ≡ length slots.now }
    ensures count { length firsts.new ≡ length slots.now }
    ensures firsts { AreFirsts t.0 slots.now firsts.new }
{
    for i in 0..slots.len() {
        firsts[i] = first_of(&slots[i], t);
    }
}

/// The next moment of each pool of which no event may come now.
pub fn read_nexts(slots: &[PoolSlot], firsts: &[Option<Action>], nexts: &mut [Option<Moment>])
    requires firsts { length firsts.now ≡ length slots.now }
    requires nexts { length nexts.old ≡ length slots.now }
    ensures count { length nexts.new ≡ length slots.now }
    ensures nexts { (k : ℕ) → at_place firsts.now k ≡ None →
        IsNextOfPlace (at_place slots.now k) (at_place nexts.new k) }
{
    for i in 0..slots.len() {
        nexts[i] = next_of(&slots[i], firsts[i]);
    }
}
