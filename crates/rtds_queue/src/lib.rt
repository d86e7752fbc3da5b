//! The queues of RTDS: the eligible units in order of level, deadline and arrival, and the spent ones in order of arrival.
//!
//! They are the two lists of one ring. A spent unit that is replenished is found without a walk. The counted calls add
//! their steps on the ring to a counter of the caller's. The others do the same and count nothing.
#![tactic(auto)]

ghost use Rattle.std.specs.Prelude.{◌≡◌, ◌+◌, ◌<◌, ◌≤◌, true, false, length, map, IfOk};
ghost use Rattle.std.specs.Bool.{OnTrue, OnFalse};
ghost use Rattle.unit_places.specs.Places.{has_unit_place};
ghost use Rattle.arrival_queue.specs.Filters.{first_of, first_that, may_run};
ghost use Rattle.rtds_queue.specs.Lists.{holds, key_of, lists_after_arrival, after_remove, after_renew};

use arrival_queue::{ArrivalQueue, Key};
use sched_base::{Cores, Moment, NoMemory, ResId, Steps, UnitId};
use std::alloc::Global;
use std::marker::{Brand, Model};
use std::sync::ledger::{Blank, Ledger};
use unit_places::Masks;
use unit_ring::Ring;

/// What the eligible units are sorted by: the level, then the deadline in nanoseconds.
#[derive(Clone, Copy)]
pub struct RtdsKey {
    pub level: u32,
    pub deadline: Moment,
}

/// The queues. Contracts see the eligible units in order, the spent ones in order, and how many more there is room for.
#[derive(Drop)]
pub struct RtdsQueues {
    queue: ArrivalQueue,
}

impl Model for RtdsQueues {
    ghost use Rattle.rtds_queue.specs.Lists.{Lists};

    ghost Value = { Lists };

    ghost view = { λ a. record {
      eligible = a.queue.sorted;
      spent = a.queue.others;
      spare = a.queue.spare;
    } };
}

/// The key by level, then by deadline.
fn sort_key(key: RtdsKey) -> Key
    ensures { result ≡ key_of key }
{
    Key {
        first: key.level as i128,
        second: key.deadline.0,
    }
}

impl RtdsQueues {
    ghost use Rattle.std.specs.Prelude.{◌≡◌, ◌+◌, ◌<◌, ◌≤◌, true, false, length, map, IfOk};
    ghost use Rattle.std.specs.Prelude.{◌++◌};
    ghost use Rattle.std.specs.Bool.{OnTrue, OnFalse};
    ghost use Rattle.unit_places.specs.Places.{has_unit_place};
    ghost use Rattle.arrival_queue.specs.Order.{IsInOrder, IsInArrival, EachRankOnce, EachUnitOnce};
    ghost use Rattle.arrival_queue.specs.Filters.{first_of, first_that, may_run};
    ghost use Rattle.rtds_queue.specs.Lists.{holds, lists_after_arrival, after_remove, after_renew, empty_lists};

    /// Queues with room for so many units.
    pub fn room(alloc: Global, units: usize) -> Result<RtdsQueues, NoMemory>
        ensures { IfOk result (λ queues. queues ≡ empty_lists units) }
    {
        let queue = ArrivalQueue::room(alloc, units)?;
        Ok(RtdsQueues { queue })
    }

    /// A unit that is in neither list, and has a place in tables, arrives, among the spent ones or at its place among the eligible.
    pub fn put(&mut self, u: UnitId, key: RtdsKey, spent: bool)
        requires place { has_unit_place u ≡ true }
        requires absent { holds self.old u ≡ false }
        requires room { 0 < self.old.spare }
        ensures { self.new ≡ lists_after_arrival self.old u key spent }
    {
        put_from::<Brand>(self, u, key, spent, Blank::new(1))
    }

    /// Whether a unit is in one of the lists.
    pub fn has(&self, u: UnitId) -> bool
        ensures { result ≡ holds self.now u }
    {
        self.queue.has(u)
    }

    /// Takes a unit of either list away. False where it is in neither, and then nothing changes.
    pub fn remove(&mut self, u: UnitId) -> bool
        ensures answer { result ≡ holds self.old u }
        ensures gone { OnTrue result (self.new ≡ after_remove self.old u) }
        ensures none { OnFalse result (self.new ≡ self.old) }
    {
        remove_from::<Brand>(self, u, Blank::new(1))
    }

    /// As `remove`, in at most one step.
    pub fn remove_counted<L: Ledger>(&mut self, u: UnitId, steps: &mut Steps<L>) -> bool
        ensures answer { result ≡ holds self.old u }
        ensures gone { OnTrue result (self.new ≡ after_remove self.old u) }
        ensures none { OnFalse result (self.new ≡ self.old) }
        ensures cost { steps.new ≤ steps.old + 1 }
    {
        self.queue.remove_counted(u, steps)
    }

    /// The first eligible unit, or `None` where there is none.
    pub fn first(&self) -> Option<UnitId>
        ensures { result ≡ first_of self.now.eligible }
    {
        first_from::<Brand>(self, Blank::new(1))
    }

    /// The first eligible unit whose cores have the core or none of the pool's.
    pub fn first_on(&self, masks: &Masks, core: ResId, home: Cores) -> Option<UnitId>
        ensures { result ≡ first_that (λ u. may_run masks.now core home u) self.now.eligible }
    {
        first_on_from::<Brand>(self, masks, core, home, Blank::new(1))
    }

    /// Moves a unit of either list to its place among the eligible. Its arrival stays, and counts among equal keys.
    pub fn renew(&mut self, u: UnitId, key: RtdsKey)
        requires { holds self.old u ≡ true }
        ensures { self.new ≡ after_renew self.old u key }
    {
        renew_from::<Brand>(self, u, key, Blank::new(1))
    }

    /// As `renew`, in at most e + 3 steps, e the number of eligible units before.
    pub fn renew_counted<L: Ledger>(&mut self, u: UnitId, key: RtdsKey, steps: &mut Steps<L>)
        requires { holds self.old u ≡ true }
        ensures after { self.new ≡ after_renew self.old u key }
        ensures cost { steps.new ≤ steps.old + length self.old.eligible + 3 }
    {
        self.queue.move_counted(u, sort_key(key), steps);
    }

    /// The eligible units are in order of level, deadline and arrival, and the spent ones in order of arrival. No unit is
    /// there twice, and the numbers below the count of all units are their ranks.
    pub fn law_order(&self)
        ensures order { IsInOrder self.now.eligible }
        ensures arrival { IsInArrival self.now.spent }
        ensures ranks { EachRankOnce (self.now.eligible ++ self.now.spent) }
        ensures units { EachUnitOnce (self.now.eligible ++ self.now.spent) }
    {
        self.queue.law_order();
    }

    /// The ring, whose list 0 has exactly the eligible units and whose list 1 exactly the spent ones, in their orders.
    pub fn ring(&self) -> &Ring
        ensures eligible { map (λ x. x.unit) result.now.first
            ≡ map (λ e. e.unit) self.now.eligible }
        ensures spent { map (λ x. x.unit) result.now.second ≡ map (λ e. e.unit) self.now.spent }
    {
        self.queue.ring()
    }
}

/// As `put`, with a counter of its own.
fn put_from<L: Ledger>(queues: &mut RtdsQueues, u: UnitId, key: RtdsKey, spent: bool, blank: Blank)
    requires place { has_unit_place u ≡ true }
    requires absent { holds queues.old u ≡ false }
    requires room { 0 < queues.old.spare }
    requires name { blank.name ≡ L.name }
    requires parts { blank.parts ≡ L.parts }
    requires one { blank.parts ≡ 1 }
    ensures { queues.new ≡ lists_after_arrival queues.old u key spent }
{
    let mut steps = Steps::<L>::new(blank);
    if spent {
        queues.queue.append_counted(u, sort_key(key), &mut steps);
    } else {
        queues.queue.insert_counted(u, sort_key(key), &mut steps);
    }
}

/// As `remove`, with a counter of its own.
fn remove_from<L: Ledger>(queues: &mut RtdsQueues, u: UnitId, blank: Blank) -> bool
    requires name { blank.name ≡ L.name }
    requires parts { blank.parts ≡ L.parts }
    requires one { blank.parts ≡ 1 }
    ensures answer { result ≡ holds queues.old u }
    ensures gone { OnTrue result (queues.new ≡ after_remove queues.old u) }
    ensures none { OnFalse result (queues.new ≡ queues.old) }
{
    let mut steps = Steps::<L>::new(blank);
    queues.remove_counted(u, &mut steps)
}

/// As `first`, with a counter of its own.
fn first_from<L: Ledger>(queues: &RtdsQueues, blank: Blank) -> Option<UnitId>
    requires name { blank.name ≡ L.name }
    requires parts { blank.parts ≡ L.parts }
    requires one { blank.parts ≡ 1 }
    ensures { result ≡ first_of queues.now.eligible }
{
    let mut steps = Steps::<L>::new(blank);
    queues.queue.first_counted(&mut steps)
}

/// As `first_on`, with a counter of its own.
fn first_on_from<L: Ledger>(
    queues: &RtdsQueues,
    masks: &Masks,
    core: ResId,
    home: Cores,
    blank: Blank,
) -> Option<UnitId>
    requires name { blank.name ≡ L.name }
    requires parts { blank.parts ≡ L.parts }
    requires one { blank.parts ≡ 1 }
    ensures { result ≡ first_that (λ u. may_run masks.now core home u) queues.now.eligible }
{
    let mut steps = Steps::<L>::new(blank);
    queues
        .queue
        .first_on_counted(None, masks, core, home, &mut steps)
}

/// As `renew`, with a counter of its own.
fn renew_from<L: Ledger>(queues: &mut RtdsQueues, u: UnitId, key: RtdsKey, blank: Blank)
    requires here { holds queues.old u ≡ true }
    requires name { blank.name ≡ L.name }
    requires parts { blank.parts ≡ L.parts }
    requires one { blank.parts ≡ 1 }
    ensures { queues.new ≡ after_renew queues.old u key }
{
    let mut steps = Steps::<L>::new(blank);
    queues.renew_counted(u, key, &mut steps);
}
