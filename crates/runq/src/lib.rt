//! The run queue: units in order of a key, then of arrival, on list 0 of a ring.
//!
//! The counted calls add their steps on the ring to a counter of the caller's. The others do the same and count nothing.
#![tactic(auto)]

ghost use Rattle.std.specs.Prelude.{◌≡◌, ◌+◌, ◌<◌, ◌≤◌, ◌&&◌, [], true, false, length, map, IfOk, Some};
ghost use Rattle.std.specs.Bool.{OnTrue, OnFalse};
ghost use Rattle.unit_places.specs.Places.{has_unit_place};
ghost use Rattle.arrival_queue.specs.Queues.{has_unit, list_without};
ghost use Rattle.arrival_queue.specs.Filters.{first_of, first_that, has_core_bit, may_run};
ghost use Rattle.runq.specs.Queue.{after_insert, after_remove, after_rekey, single_key};

pub use arrival_queue::Allowed;
use arrival_queue::{ArrivalQueue, Key};
use sched_base::{Cores, NoMemory, ResId, Steps, UnitId};
use std::alloc::Global;
use std::marker::{Brand, Model};
use std::sync::ledger::{Blank, Ledger};
use unit_places::Masks;
use unit_ring::Ring;

/// The run queue. Contracts see its units in order, and how many more there is room for.
#[derive(Drop)]
pub struct Runq {
    queue: ArrivalQueue,
}

impl Model for Runq {
    ghost use Rattle.std.specs.Prelude.{◌≡◌, []};
    ghost use Rattle.runq.specs.Queue.{Queue};

    ghost Value = { Queue };

    ghost view = { λ a. record { units = a.queue.sorted; spare = a.queue.spare } };

    ghost invariant = { λ a. a.queue.others ≡ [] };
}

/// A key of one number.
fn plain(key: i128) -> Key
    ensures { result ≡ single_key key }
{
    Key {
        first: key,
        second: 0,
    }
}

impl Runq {
    ghost use Rattle.std.specs.Prelude.{◌≡◌, ◌+◌, ◌<◌, ◌≤◌, ◌&&◌, [], true, false, length, map, IfOk, Some};
    ghost use Rattle.std.specs.Bool.{OnTrue, OnFalse};
    ghost use Rattle.unit_places.specs.Places.{has_unit_place};
    ghost use Rattle.arrival_queue.specs.Order.{IsInOrder, EachRankOnce, EachUnitOnce};
    ghost use Rattle.arrival_queue.specs.Queues.{has_unit, list_without};
    ghost use Rattle.arrival_queue.specs.Filters.{first_of, first_that, has_core_bit, may_run};
    ghost use Rattle.runq.specs.Queue.{after_insert, after_remove, after_rekey, empty_queue};

    /// A queue with room for so many units.
    pub fn room(alloc: Global, units: usize) -> Result<Runq, NoMemory>
        ensures { IfOk result (λ queue. queue ≡ empty_queue units) }
    {
        let queue = ArrivalQueue::room(alloc, units)?;
        Ok(Runq { queue })
    }

    /// A unit that is not in the queue, and has a place in tables, arrives. Among equal keys it goes behind those that arrived earlier.
    pub fn insert(&mut self, u: UnitId, key: i128)
        requires place { has_unit_place u ≡ true }
        requires absent { has_unit u self.old.units ≡ false }
        requires room { 0 < self.old.spare }
        ensures { self.new ≡ after_insert self.old u key }
    {
        insert_from::<Brand>(self, u, key, Blank::new(1))
    }

    /// As `insert`, in at most n + 2 steps, n the length before.
    pub fn insert_counted<L: Ledger>(&mut self, u: UnitId, key: i128, steps: &mut Steps<L>)
        requires place { has_unit_place u ≡ true }
        requires absent { has_unit u self.old.units ≡ false }
        requires room { 0 < self.old.spare }
        ensures after { self.new ≡ after_insert self.old u key }
        ensures cost { steps.new ≤ steps.old + length self.old.units + 2 }
    {
        self.queue.insert_counted(u, plain(key), steps);
    }

    /// Takes a unit away. False where it is not in the queue, and then nothing changes.
    pub fn remove(&mut self, u: UnitId) -> bool
        ensures answer { result ≡ has_unit u self.old.units }
        ensures gone { OnTrue result (self.new ≡ after_remove self.old u) }
        ensures none { OnFalse result (self.new ≡ self.old) }
    {
        remove_from::<Brand>(self, u, Blank::new(1))
    }

    /// As `remove`, in at most one step.
    pub fn remove_counted<L: Ledger>(&mut self, u: UnitId, steps: &mut Steps<L>) -> bool
        ensures answer { result ≡ has_unit u self.old.units }
        ensures gone { OnTrue result (self.new ≡ after_remove self.old u) }
        ensures none { OnFalse result (self.new ≡ self.old) }
        ensures cost { steps.new ≤ steps.old + 1 }
    {
        self.queue.remove_counted(u, steps)
    }

    /// Whether a unit is in the queue.
    pub fn has(&self, u: UnitId) -> bool
        ensures { result ≡ has_unit u self.now.units }
    {
        self.queue.has(u)
    }

    /// Puts a unit of the queue at its place by another key. Its arrival stays, and counts among equal keys.
    pub fn rekey(&mut self, u: UnitId, key: i128)
        requires { has_unit u self.old.units ≡ true }
        ensures { self.new ≡ after_rekey self.old u key }
    {
        rekey_from::<Brand>(self, u, key, Blank::new(1))
    }

    /// As `rekey`, in at most n + 2 steps, n the length.
    pub fn rekey_counted<L: Ledger>(&mut self, u: UnitId, key: i128, steps: &mut Steps<L>)
        requires { has_unit u self.old.units ≡ true }
        ensures after { self.new ≡ after_rekey self.old u key }
        ensures cost { steps.new ≤ steps.old + length self.old.units + 2 }
    {
        self.queue.move_counted(u, plain(key), steps);
    }

    /// The first unit, or `None` where there is none.
    pub fn first(&self) -> Option<UnitId>
        ensures { result ≡ first_of self.now.units }
    {
        first_from::<Brand>(self, Blank::new(1))
    }

    /// As `first`, in at most one step.
    pub fn first_counted<L: Ledger>(&self, steps: &mut Steps<L>) -> Option<UnitId>
        ensures first { result ≡ first_of self.now.units }
        ensures cost { steps.new ≤ steps.old + 1 }
    {
        self.queue.first_counted(steps)
    }

    /// The first unit whose domain is in the set.
    pub fn first_where(&self, allowed: &Allowed) -> Option<UnitId>
        ensures { result ≡ first_that (λ u. has_core_bit allowed.now.0 u.dom.0) self.now.units }
    {
        first_where_from::<Brand>(self, *allowed, Blank::new(1))
    }

    /// The first unit whose domain is in the set, but for the unit that is it, behind which it is looked for.
    pub fn first_behind(&self, u: UnitId, allowed: &Allowed) -> Option<UnitId>
        requires { first_that (λ w. has_core_bit allowed.now.0 w.dom.0) self.now.units ≡ Some u }
        ensures { result ≡ first_that (λ w. has_core_bit allowed.now.0 w.dom.0)
            (list_without u self.now.units) }
    {
        first_behind_from::<Brand>(self, u, *allowed, Blank::new(1))
    }

    /// The first unit whose domain is in the set, and whose cores have the core or none of the pool's.
    pub fn first_on(
        &self,
        allowed: &Allowed,
        masks: &Masks,
        core: ResId,
        home: Cores,
    ) -> Option<UnitId>
        ensures { result ≡ first_that (λ u. has_core_bit allowed.now.0 u.dom.0
            && may_run masks.now core home u) self.now.units }
    {
        first_on_from::<Brand>(self, *allowed, masks, core, home, Blank::new(1))
    }

    /// The units are in order of key, then of arrival. No unit is there twice, and the numbers below the count of the
    /// units are their ranks.
    pub fn law_order(&self)
        ensures order { IsInOrder self.now.units }
        ensures ranks { EachRankOnce self.now.units }
        ensures units { EachUnitOnce self.now.units }
    {
        self.queue.law_order();
    }

    /// The ring, whose list 0 has exactly these units in this order.
    pub fn ring(&self) -> &Ring
        ensures units { map (λ x. x.unit) result.now.first ≡ map (λ e. e.unit) self.now.units }
        ensures none { map (λ x. x.unit) result.now.second ≡ [] }
    {
        self.queue.ring()
    }
}

/// As `insert`, with a counter of its own.
fn insert_from<L: Ledger>(queue: &mut Runq, u: UnitId, key: i128, blank: Blank)
    requires place { has_unit_place u ≡ true }
    requires absent { has_unit u queue.old.units ≡ false }
    requires room { 0 < queue.old.spare }
    requires name { blank.name ≡ L.name }
    requires parts { blank.parts ≡ L.parts }
    requires one { blank.parts ≡ 1 }
    ensures { queue.new ≡ after_insert queue.old u key }
{
    let mut steps = Steps::<L>::new(blank);
    queue.insert_counted(u, key, &mut steps);
}

/// As `remove`, with a counter of its own.
fn remove_from<L: Ledger>(queue: &mut Runq, u: UnitId, blank: Blank) -> bool
    requires name { blank.name ≡ L.name }
    requires parts { blank.parts ≡ L.parts }
    requires one { blank.parts ≡ 1 }
    ensures answer { result ≡ has_unit u queue.old.units }
    ensures gone { OnTrue result (queue.new ≡ after_remove queue.old u) }
    ensures none { OnFalse result (queue.new ≡ queue.old) }
{
    let mut steps = Steps::<L>::new(blank);
    queue.remove_counted(u, &mut steps)
}

/// As `rekey`, with a counter of its own.
fn rekey_from<L: Ledger>(queue: &mut Runq, u: UnitId, key: i128, blank: Blank)
    requires here { has_unit u queue.old.units ≡ true }
    requires name { blank.name ≡ L.name }
    requires parts { blank.parts ≡ L.parts }
    requires one { blank.parts ≡ 1 }
    ensures { queue.new ≡ after_rekey queue.old u key }
{
    let mut steps = Steps::<L>::new(blank);
    queue.rekey_counted(u, key, &mut steps);
}

/// As `first`, with a counter of its own.
fn first_from<L: Ledger>(queue: &Runq, blank: Blank) -> Option<UnitId>
    requires name { blank.name ≡ L.name }
    requires parts { blank.parts ≡ L.parts }
    requires one { blank.parts ≡ 1 }
    ensures { result ≡ first_of queue.now.units }
{
    let mut steps = Steps::<L>::new(blank);
    queue.first_counted(&mut steps)
}

/// As `first_where`, with a counter of its own.
fn first_where_from<L: Ledger>(queue: &Runq, allowed: Allowed, blank: Blank) -> Option<UnitId>
    requires name { blank.name ≡ L.name }
    requires parts { blank.parts ≡ L.parts }
    requires one { blank.parts ≡ 1 }
    ensures { result ≡ first_that (λ u. has_core_bit allowed.0 u.dom.0) queue.now.units }
{
    let mut steps = Steps::<L>::new(blank);
    queue.queue.first_where_counted(allowed, &mut steps)
}

/// As `first_behind`, with a counter of its own.
fn first_behind_from<L: Ledger>(
    queue: &Runq,
    u: UnitId,
    allowed: Allowed,
    blank: Blank,
) -> Option<UnitId>
    requires first { first_that (λ w. has_core_bit allowed.0 w.dom.0) queue.now.units ≡ Some u }
    requires name { blank.name ≡ L.name }
    requires parts { blank.parts ≡ L.parts }
    requires one { blank.parts ≡ 1 }
    ensures { result ≡ first_that (λ w. has_core_bit allowed.0 w.dom.0)
        (list_without u queue.now.units) }
{
    let mut steps = Steps::<L>::new(blank);
    queue.queue.first_behind_counted(u, allowed, &mut steps)
}

/// As `first_on`, with a counter of its own.
fn first_on_from<L: Ledger>(
    queue: &Runq,
    allowed: Allowed,
    masks: &Masks,
    core: ResId,
    home: Cores,
    blank: Blank,
) -> Option<UnitId>
    requires name { blank.name ≡ L.name }
    requires parts { blank.parts ≡ L.parts }
    requires one { blank.parts ≡ 1 }
    ensures { result ≡ first_that (λ u. has_core_bit allowed.0 u.dom.0
        && may_run masks.now core home u) queue.now.units }
{
    let mut steps = Steps::<L>::new(blank);
    queue
        .queue
        .first_on_counted(Some(allowed), masks, core, home, &mut steps)
}
