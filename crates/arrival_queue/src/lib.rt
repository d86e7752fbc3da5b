//! Units in order of a key, then of arrival; and beside them others, in order of arrival alone.
//!
//! They stand on the two lists of one ring. A table of the units' places finds a unit's node without a walk, and each node has its key and
//! the number of its arrival. The numbers rise, and where they reach their end they are given anew in the same order.
#![tactic(auto)]

ghost use Rattle.std.specs.Prelude.{◌≡◌};

pub mod key;
mod tables;
pub mod walks;

pub use key::{Key, is_less};
use sched_base::{Cores, NoMemory, ResId, Steps, UnitId};
use std::alloc::Global;
use std::marker::Model;
use std::sync::ledger::Ledger;
use tables::{Tables, arrival_of, arrive, enter, find, make_tables, put, take};
use unit_places::Masks;
use unit_ring::Ring;
pub use walks::{Allowed, has_domain};

/// The queue. Contracts see its two lists, each unit with its key and how many of the units here arrived earlier, and
/// how many more units there is room for.
#[derive(Drop)]
pub struct ArrivalQueue {
    tables: Tables,
}

impl Model for ArrivalQueue {
    ghost use Rattle.arrival_queue.specs.Queues.{Queues};

    ghost Value = { Queues };

    ghost use Rattle.arrival_queue.specs.WholeTables.{seen_queues, IsWhole};

    ghost view = { λ a. seen_queues a.tables };

    ghost invariant = { λ a. IsWhole a.tables };
}

impl ArrivalQueue {
    ghost use Rattle.std.specs.Prelude.{◌≡◌, ◌+◌, ◌<◌, ◌≤◌, ◌&&◌, true, false, length, map, IfOk, Some};
    ghost use Rattle.arrival_queue.specs.Queues.{holds, after_insert, after_append, after_remove, after_move, list_without, empty_queues};
    ghost use Rattle.arrival_queue.specs.Order.{IsOrdered};
    ghost use Rattle.std.specs.Bool.{OnTrue, OnFalse};
    ghost use Rattle.unit_places.specs.Places.{has_unit_place};
    ghost use Rattle.arrival_queue.specs.Filters.{first_of, first_that, has_core_bit, in_domains, may_run};

    /// A queue with room for so many units.
    pub fn room(alloc: Global, units: usize) -> Result<ArrivalQueue, NoMemory>
        ensures { IfOk result (λ queue. queue ≡ empty_queues units) }
    {
        let tables = make_tables(alloc, units)?;
        Ok(ArrivalQueue { tables })
    }

    /// A unit that is not here, and has a place in tables, arrives, and is put at its place.
    pub fn insert_counted<L: Ledger>(&mut self, u: UnitId, key: Key, steps: &mut Steps<L>)
        requires place { has_unit_place u ≡ true }
        requires absent { holds self.old u ≡ false }
        requires room { 0 < self.old.spare }
        ensures after { self.new ≡ after_insert self.old u key }
        ensures cost { steps.new ≤ steps.old + length self.old.sorted + 2 }
    {
        let arrival = arrive(&mut self.tables);
        put(&mut self.tables, u, key, arrival, steps);
    }

    /// A unit that is not here, and has a place in tables, arrives, and is put at the end of the others.
    pub fn append_counted<L: Ledger>(&mut self, u: UnitId, key: Key, steps: &mut Steps<L>)
        requires place { has_unit_place u ≡ true }
        requires absent { holds self.old u ≡ false }
        requires room { 0 < self.old.spare }
        ensures after { self.new ≡ after_append self.old u key }
        ensures cost { steps.new ≡ steps.old + 1 }
    {
        let arrival = arrive(&mut self.tables);
        let n = self.tables.ring.push_back(1, u, steps);
        enter(&mut self.tables, n, u, key, arrival);
    }

    /// Takes a unit of either list away. False where it is in neither, and then nothing changes.
    pub fn remove_counted<L: Ledger>(&mut self, u: UnitId, steps: &mut Steps<L>) -> bool
        ensures answer { result ≡ holds self.old u }
        ensures gone { OnTrue result (self.new ≡ after_remove self.old u) }
        ensures none { OnFalse result (self.new ≡ self.old) }
        ensures cost { steps.new ≤ steps.old + 1 }
    {
        match find(&self.tables, u) {
            Some(n) => {
                take(&mut self.tables, n, u, steps);
                true
            }
            None => false,
        }
    }

    /// Puts a unit of either list at its place by another key. Its arrival stays.
    pub fn move_counted<L: Ledger>(&mut self, u: UnitId, key: Key, steps: &mut Steps<L>)
        requires { holds self.old u ≡ true }
        ensures after { self.new ≡ after_move self.old u key }
        ensures cost { steps.new ≤ steps.old + length (list_without u self.old.sorted) + 3 }
    {
        match find(&self.tables, u) {
            Some(n) => {
                let arrival = arrival_of(&self.tables, n);
                take(&mut self.tables, n, u, steps);
                put(&mut self.tables, u, key, arrival, steps);
            }
            None => {}
        }
    }

    /// Whether a unit is in one of the lists.
    pub fn has(&self, u: UnitId) -> bool
        ensures { result ≡ holds self.now u }
    {
        find(&self.tables, u).is_some()
    }

    /// The first of the units in order of their keys.
    pub fn first_counted<L: Ledger>(&self, steps: &mut Steps<L>) -> Option<UnitId>
        ensures first { result ≡ first_of self.now.sorted }
        ensures cost { steps.new ≡ steps.old + 1 }
    {
        match self.tables.ring.first(0, steps) {
            Some(n) => Some(self.tables.ring.unit(n)),
            None => None,
        }
    }

    /// The first of them whose domain is in the set, in at most n + 1 steps, n their number.
    pub fn first_where_counted<L: Ledger>(
        &self,
        allowed: Allowed,
        steps: &mut Steps<L>,
    ) -> Option<UnitId>
        ensures first { result ≡ first_that (λ u. has_core_bit allowed.0 u.dom.0) self.now.sorted }
        ensures cost { steps.new ≤ steps.old + length self.now.sorted + 1 }
    {
        walks::first_where(&self.tables.ring, allowed, steps)
    }

    /// The first of them whose domain is in the set, but for the unit that is it. It is looked for behind that one, in at most n + 1 steps,
    /// n their number.
    pub fn first_behind_counted<L: Ledger>(
        &self,
        u: UnitId,
        allowed: Allowed,
        steps: &mut Steps<L>,
    ) -> Option<UnitId>
        requires { first_that (λ w. has_core_bit allowed.0 w.dom.0) self.now.sorted ≡ Some u }
        ensures first { result ≡ first_that (λ w. has_core_bit allowed.0 w.dom.0)
            (list_without u self.now.sorted) }
        ensures cost { steps.new ≤ steps.old + length self.now.sorted + 1 }
    {
        match find(&self.tables, u) {
            None => None,
            Some(n) => {
                let from = self.tables.ring.next(n, steps);
                walks::first_from(&self.tables.ring, from, allowed, steps)
            }
        }
    }

    /// The first of them whose domain is in the set, where there is one, and whose cores let it run on a core of a pool.
    /// At most n + 1 steps, n their number.
    pub fn first_on_counted<L: Ledger>(
        &self,
        domains: Option<Allowed>,
        masks: &Masks,
        core: ResId,
        home: Cores,
        steps: &mut Steps<L>,
    ) -> Option<UnitId>
        ensures first { result ≡ first_that (λ u. in_domains domains u
            && may_run masks.now core home u) self.now.sorted }
        ensures cost { steps.new ≤ steps.old + length self.now.sorted + 1 }
    {
        walks::first_on(&self.tables.ring, domains, masks, core, home, steps)
    }

    /// The units are in order of key, then of arrival, and the others in order of arrival. No unit is there twice, and
    /// the numbers below the count of all units are their ranks.
    pub fn law_order(&self)
        ensures { IsOrdered self.now }
    {
        let _ = &self.tables;
    }

    /// The ring on which the units stand.
    pub fn ring(&self) -> &Ring
        ensures sorted { map (λ x. x.unit) result.now.first ≡ map (λ e. e.unit) self.now.sorted }
        ensures others { map (λ x. x.unit) result.now.second ≡ map (λ e. e.unit) self.now.others }
        ensures spare { result.now.spare ≡ self.now.spare }
    {
        &self.tables.ring
    }
}
