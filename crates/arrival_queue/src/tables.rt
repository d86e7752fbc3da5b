//! The ring of a queue with its tables, by place of unit and by number of node.

ghost use Rattle.std.specs.Prelude.{◌≡◌, ℕ, ◌+◌, ◌<◌, ◌≤◌, false, true, length, map, slice_set, slice_index_or, Some, None, IfOk};
ghost use Rattle.std.specs.Option.{ForSome};
ghost use Rattle.unit_places.specs.Places.{number_of, has_unit_place, unit_index};
ghost use Rattle.unit_ring.specs.Lists.{item, no_unit, has_node, is_live, lists_without as ring_without, after_give, empty_lists, room_of};
ghost use Rattle.arrival_queue.specs.Tables.{all_items, arrival_at, count_below, comes_before, first_node, has_number, node_of, PassesOn, put_ring, ring_with, Tabled};
ghost use Rattle.arrival_queue.specs.WholeTables.{IsTables, seen_queues};

use crate::key::{Key, is_less};
use sched_base::{NoMemory, Steps, UnitId};
use std::alloc::Global;
use std::mem::swap;
use std::sync::ledger::Ledger;
use unit_places::{PLACES, has_place, index_of};
use unit_ring::{Node, Ring};

/// The ring, for each place of a unit its node, and for each number of a node its key and the number of its arrival.
#[derive(Drop)]
pub struct Tables {
    pub ring: Ring,
    pub nodes: Vec<Option<Node>>,
    pub keys: Vec<Key>,
    pub arrivals: Vec<u64>,
    pub fresh: Vec<u64>,
    pub next: u64,
}

/// No node, so many times.
fn none_times(alloc: Global, times: usize) -> Result<Vec<Option<Node>>, NoMemory>
    ensures length { IfOk result (λ nodes. length nodes.items ≡ times) }
    ensures none { IfOk result (λ nodes. (k : ℕ) → slice_index_or nodes.items k None ≡ None) }
{
    Ok(vec![in alloc; None; times]?)
}

/// The tables of an empty ring of so many nodes.
pub fn make_tables(alloc: Global, units: usize) -> Result<Tables, NoMemory>
    ensures tables { IfOk result (λ tables. IsTables tables) }
    ensures ring { IfOk result (λ tables. tables.ring ≡ empty_lists units) }
{
    let all = units.checked_add(4).ok_or(NoMemory)?;
    Ok(Tables {
        ring: Ring::room(alloc, units)?,
        nodes: none_times(alloc, PLACES)?,
        keys: vec![in alloc; Key {
            first: 0,
            second: 0
        }; all]?,
        arrivals: vec![in alloc; 0; all]?,
        fresh: vec![in alloc; 0; all]?,
        next: 0,
    })
}

/// How many of the numbers are less than one.
fn below_of(numbers: &[u64], a: u64) -> u64
    ensures value { result ≡ count_below numbers.now a }
    ensures most { result ≤ length numbers.now }
{
    numbers.iter().filter(|b| **b < a).count() as u64
}

/// Numbers that have the order of others, and are as small as can be.
fn number_anew(numbers: &[u64], fresh: &mut [u64])
    requires { length fresh.old ≡ length numbers.now }
    ensures { fresh.new ≡ map (count_below numbers.now) numbers.now }
{
    for i in 0..numbers.len() {
        fresh[i] = below_of(numbers, numbers[i]);
    }
}

/// Whether a key and an arrival go before those of a node.
fn comes_before_node(tables: &Tables, key: Key, arrival: u64, node: Node) -> bool
    requires keys { node.0 < length tables.now.keys.items }
    requires arrivals { node.0 < length tables.now.arrivals.items }
    ensures { result ≡ comes_before tables.now.keys.items tables.now.arrivals.items key arrival
        (item node.0 no_unit) }
{
    let other = tables.keys[node.0 as usize];
    is_less(key, other) || (!is_less(other, key) && arrival < tables.arrivals[node.0 as usize])
}

/// The same of a list on the heap.
fn number_all(numbers: &Vec<u64>, fresh: &mut Vec<u64>)
    requires { length fresh.old.items ≡ length numbers.now.items }
    ensures { fresh.new.items ≡ map (count_below numbers.now.items) numbers.now.items }
{
    number_anew(numbers.as_slice(), fresh.as_mut_slice());
}

/// The first node before which a key and an arrival go. The list is in order, so that the walk goes from its end.
pub fn place_of<L: Ledger>(
    tables: &Tables,
    key: Key,
    arrival: u64,
    steps: &mut Steps<L>,
) -> Option<Node>
    requires tables { IsTables tables.now }
    requires order { PassesOn (comes_before tables.now.keys.items tables.now.arrivals.items key
        arrival) tables.now.ring.first }
    ensures place { result ≡ first_node (comes_before tables.now.keys.items
        tables.now.arrivals.items key arrival) tables.now.ring.first }
    ensures cost { steps.new ≤ steps.old + length tables.now.ring.first + 1 }
{
    let mut place = None;
    let mut at = tables.ring.last(0, steps);
    while let Some(n) = at {
        if !comes_before_node(tables, key, arrival, n) {
            return place;
        }
        place = Some(n);
        at = tables.ring.prev(n, steps);
    }
    place
}

/// Writes what the tables say of a node that has come into the ring.
pub fn enter(tables: &mut Tables, node: Node, u: UnitId, key: Key, arrival: u64)
    requires keys { node.0 < length tables.old.keys.items }
    requires arrivals { node.0 < length tables.old.arrivals.items }
    requires places { length tables.old.nodes.items ≡ 2048 }
    requires place { has_unit_place u ≡ true }
    ensures ring { tables.new.ring ≡ tables.old.ring }
    ensures nodes { tables.new.nodes.items ≡ slice_set tables.old.nodes.items (unit_index u)
        (Some node) }
    ensures keys { tables.new.keys.items ≡ slice_set tables.old.keys.items node.0 key }
    ensures arrivals { tables.new.arrivals.items
        ≡ slice_set tables.old.arrivals.items node.0 arrival }
    ensures fresh { tables.new.fresh.items ≡ tables.old.fresh.items }
    ensures next { tables.new.next ≡ tables.old.next }
{
    tables.keys[node.0 as usize] = key;
    tables.arrivals[node.0 as usize] = arrival;
    tables.nodes[index_of(u)] = Some(node);
}

/// Puts a unit before a node of list 0, or at its end.
fn put_at<L: Ledger>(ring: &mut Ring, at: Option<Node>, u: UnitId, steps: &mut Steps<L>) -> Node
    requires live { ForSome at (λ n. is_live ring.old n.0 ≡ true) }
    requires room { 0 < ring.old.spare }
    ensures ring { ring.new ≡ ring_with at (item result.0 u) ring.old }
    ensures fresh { is_live ring.old result.0 ≡ false }
    ensures number { result.0 < room_of ring.old + 4 }
    ensures step { steps.new ≡ steps.old + 1 }
{
    match at {
        Some(n) => ring.insert_before(n, u, steps),
        None => ring.push_back(0, u, steps),
    }
}

/// Puts a unit that is not here at its place in list 0.
pub fn put<L: Ledger>(
    tables: &mut Tables,
    u: UnitId,
    key: Key,
    arrival: u64,
    steps: &mut Steps<L>,
) -> Node
    requires tables { IsTables tables.old }
    requires place { has_unit_place u ≡ true }
    requires absent { has_number (number_of u) (all_items tables.old.ring) ≡ false }
    requires room { 0 < tables.old.ring.spare }
    requires arrived { arrival < tables.old.next }
    requires order { PassesOn (comes_before tables.old.keys.items tables.old.arrivals.items key
        arrival) tables.old.ring.first }
    ensures tables { IsTables tables.new }
    ensures fresh { has_node result.0 (all_items tables.old.ring) ≡ false }
    ensures number { result.0 < length tables.old.arrivals.items }
    ensures ring { tables.new.ring ≡ put_ring
        (comes_before tables.old.keys.items tables.old.arrivals.items key arrival) (item result.0 u)
        tables.old.ring }
    ensures keys { tables.new.keys.items ≡ slice_set tables.old.keys.items result.0 key }
    ensures arrivals { tables.new.arrivals.items
        ≡ slice_set tables.old.arrivals.items result.0 arrival }
    ensures next { tables.new.next ≡ tables.old.next }
    ensures cost { steps.new ≤ steps.old + length tables.old.ring.first + 2 }
{
    let at = place_of(tables, key, arrival, steps);
    let n = put_at(&mut tables.ring, at, u, steps);
    enter(tables, n, u, key, arrival);
    n
}

/// The node of a unit of either list.
pub fn find(tables: &Tables, u: UnitId) -> Option<Node>
    requires { IsTables tables.now }
    ensures { result ≡ node_of (number_of u) (all_items tables.now.ring) }
{
    if has_place(u) {
        tables.nodes[index_of(u)]
    } else {
        None
    }
}

/// The number of the arrival of a node's unit.
pub fn arrival_of(tables: &Tables, node: Node) -> u64
    requires { node.0 < length tables.now.arrivals.items }
    ensures { result ≡ arrival_at tables.now.arrivals.items node.0 }
{
    tables.arrivals[node.0 as usize]
}

/// Takes a unit of either list away. What the tables say of its number of arrival stays readable.
pub fn take<L: Ledger>(tables: &mut Tables, node: Node, u: UnitId, steps: &mut Steps<L>)
    requires tables { IsTables tables.old }
    requires here { node_of (number_of u) (all_items tables.old.ring) ≡ Some node }
    ensures tables { IsTables tables.new }
    ensures gone { has_number (number_of u) (all_items tables.new.ring) ≡ false }
    ensures ring { tables.new.ring ≡ after_give (ring_without tables.old.ring node.0) }
    ensures keys { tables.new.keys.items ≡ tables.old.keys.items }
    ensures arrivals { tables.new.arrivals.items ≡ tables.old.arrivals.items }
    ensures next { tables.new.next ≡ tables.old.next }
    ensures cost { steps.new ≡ steps.old + 1 }
{
    tables.ring.unlink(node, steps);
    tables.nodes[index_of(u)] = None;
}

/// Numbers the arrivals anew in the same order, as small as can be.
fn renumber(tables: &mut Tables)
    requires tables { IsTables tables.old }
    ensures tables { IsTables tables.new }
    ensures ring { tables.new.ring ≡ tables.old.ring }
    ensures seen { seen_queues tables.new ≡ seen_queues tables.old }
    ensures room_left { tables.new.next < 18446744073709551615 }
{
    let count = tables.arrivals.len() as u64;
    number_all(&tables.arrivals, &mut tables.fresh);
    swap(&mut tables.arrivals, &mut tables.fresh);
    tables.next = count + 1;
}

/// Makes sure that there is a number for the next arrival.
fn make_ready(tables: &mut Tables)
    requires tables { IsTables tables.old }
    ensures tables { IsTables tables.new }
    ensures ring { tables.new.ring ≡ tables.old.ring }
    ensures seen { seen_queues tables.new ≡ seen_queues tables.old }
    ensures room_left { tables.new.next < 18446744073709551615 }
{
    if tables.next == u64::MAX {
        renumber(tables);
    }
}

/// The number of an arrival after all others.
pub fn arrive(tables: &mut Tables) -> u64
    requires tables { IsTables tables.old }
    ensures tables { IsTables tables.new }
    ensures ring { tables.new.ring ≡ tables.old.ring }
    ensures seen { seen_queues tables.new ≡ seen_queues tables.old }
    ensures next { tables.new.next ≡ result + 1 }
    ensures last { Tabled (length tables.new.arrivals.items) result tables.new.arrivals.items
        (all_items tables.new.ring) }
{
    make_ready(tables);
    let arrival = tables.next;
    tables.next += 1;
    arrival
}
