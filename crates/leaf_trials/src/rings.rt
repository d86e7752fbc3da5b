//! Two lists on one ring of nodes.

ghost use Rattle.std.specs.Prelude.{◌≡◌, ◌<◌};
ghost use Rattle.std.specs.Bool.{OnTrue};
ghost use Rattle.unit_ring.specs.Lists.{empty_lists, after_take, after_append, item};
ghost use Rattle.leaf_trials.specs.Nodes.{three_items, one_moved, one_gone};

use sched_base::{DomId, Steps, UnitId};
use std::marker::Brand;
use std::sync::ledger::{Blank, Ledger};
use std::test::Fail;
use unit_ring::{Node, Ring};

const A: UnitId = UnitId {
    dom: DomId(1),
    n: 0,
};

const B: UnitId = UnitId {
    dom: DomId(2),
    n: 0,
};

const C: UnitId = UnitId {
    dom: DomId(3),
    n: 0,
};

/// Whether the node has that number: 0 where there is none. The numbers of nodes begin at 4.
fn is(node: Option<Node>, number: u32) -> bool {
    match node {
        Some(node) => node.0 == number,
        None => number == 0,
    }
}

/// Puts a unit at the end of list 0. It answers whether the node has that number.
fn comes<L: Ledger>(ring: &mut Ring, u: UnitId, number: u32, steps: &mut Steps<L>) -> bool
    requires { 0 < ring.old.spare }
    ensures { OnTrue result (ring.new ≡ after_take (after_append ring.old 0 (item number u))) }
{
    ring.push_back(0, u, steps).0 == number
}

/// Links three nodes on an empty ring of four. It answers whether they are the first ones.
fn three_come<L: Ledger>(ring: &mut Ring, steps: &mut Steps<L>) -> bool
    requires { ring.old ≡ empty_lists 4 }
    ensures { OnTrue result (ring.new ≡ three_items) }
{
    if !comes(ring, A, 4, steps) {
        return false;
    }
    if !comes(ring, B, 5, steps) {
        return false;
    }
    if ring.insert_before(Node(5), C, steps).0 != 6 {
        return false;
    }
    true
}

/// Whether the right node is first in list 0, and after each.
fn three_stand<L: Ledger>(ring: &Ring, steps: &mut Steps<L>) -> bool
    requires { ring.now ≡ three_items }
{
    let first = is(ring.first(0, steps), 4);
    let second = is(ring.next(Node(4), steps), 6);
    let third = is(ring.next(Node(6), steps), 5);
    let none = is(ring.next(Node(5), steps), 0);
    first & second & third & none
}

/// Moves a node to list 1. It answers whether the right one is first in each list, and none after it.
fn one_moves<L: Ledger>(ring: &mut Ring, steps: &mut Steps<L>) -> bool
    requires { ring.old ≡ three_items }
    ensures { ring.new ≡ one_moved }
{
    ring.shift(Node(4), 1, steps);
    let first = is(ring.first(0, steps), 6);
    let moved = is(ring.first(1, steps), 4);
    let none = is(ring.next(Node(4), steps), 0);
    first & moved & none
}

/// Unlinks a node: whether it and the moved one have their units.
fn one_goes<L: Ledger>(ring: &mut Ring, steps: &mut Steps<L>) -> bool
    requires { ring.old ≡ one_moved }
    ensures { ring.new ≡ one_gone }
{
    let moved = ring.unit(Node(4));
    let gone = ring.unlink(Node(6), steps);
    moved == A && gone == C
}

/// Whether one node is left on list 0, and the right ones are after it once two more stand there.
fn two_come<L: Ledger>(ring: &mut Ring, steps: &mut Steps<L>) -> bool
    requires { ring.old ≡ one_gone }
{
    let first = is(ring.first(0, steps), 5);
    let none = is(ring.next(Node(5), steps), 0);
    if !comes(ring, A, 7, steps) {
        return false;
    }
    if !comes(ring, C, 6, steps) {
        return false;
    }
    let second = is(ring.next(Node(5), steps), 7);
    let third = is(ring.next(Node(7), steps), 6);
    first & none & second & third
}

/// Links, moves and unlinks nodes on an empty ring of four, and holds each list against what it must be.
fn counted<L: Ledger>(ring: &mut Ring, blank: Blank) -> [bool; 4]
    requires empty { ring.old ≡ empty_lists 4 }
    requires name { blank.name ≡ L.name }
    requires parts { blank.parts ≡ L.parts }
    requires one { blank.parts ≡ 1 }
{
    let steps = &mut Steps::<L>::new(blank);
    if !three_come(ring, steps) {
        return [false; 4];
    }
    [
        three_stand(ring, steps),
        one_moves(ring, steps),
        one_goes(ring, steps),
        two_come(ring, steps),
    ]
}

#[test]
fn two_lists_of_four_nodes(rt: HostRuntime) -> Result<(), Fail> {
    let mut ring = Ring::room(rt.alloc(), 4)?;
    let right = counted::<Brand>(&mut ring, Blank::new(1));
    drop(ring);
    assert_eq!(rt; right, [true; 4]);
    Ok(())
}
