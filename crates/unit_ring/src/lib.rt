//! Two lists of schedule units on one ring of nodes. A node goes from one place to another in one step.
//!
//! The nodes lie in one block, which `room` takes and the ring gives back at its end, and each has pointers to the one
//! after it and the one before it. All of them stand in one chain, the free ones too: from fence 0 go the nodes of list
//! 0, from fence 1 those of list 1, and from fence 2 the free ones up to fence 3.
#![tactic(auto)]

ghost use Rattle.std.specs.Prelude.{◌≡◌};
ghost use Rattle.unit_ring.specs.Chains.{as_node};

mod links;
mod nodes;

use links::Nodes;
use sched_base::{NoMemory, Steps, UnitId};
use std::alloc::Global;
use std::marker::Model;
use std::sync::ledger::Ledger;

/// How many fences there are; the nodes have the numbers after theirs.
const FENCES: u32 = 4;

/// The most nodes that their numbers allow.
const NODES_MOST: usize = 0xffff_fff0;

/// The fence before the free nodes, and the one after them.
const FREE: u32 = 2;

const FREE_END: u32 = 3;

/// A node of a ring, by its number.
#[derive(Clone, Copy)]
pub struct Node(pub u32);

/// The ring. Contracts see its two lists, of nodes with their units, and the number of free nodes.
#[derive(Drop)]
pub struct Ring {
    nodes: Nodes,
}

impl Model for Ring {
    ghost use Rattle.unit_ring.specs.Lists.{Lists};
    ghost use Rattle.unit_ring.specs.Chains.{lists_of, IsRing};

    ghost Value = { Lists };

    ghost view = { λ a. lists_of a.nodes.after a.nodes.units };

    ghost invariant = { λ a. IsRing a.nodes.after a.nodes.before a.nodes.units };
}

/// The node of a number of the chain, where it is no fence.
fn node_at(number: u32) -> Option<Node>
    ensures { result ≡ as_node number }
{
    if number < FENCES {
        None
    } else {
        Some(Node(number))
    }
}

impl Ring {
    ghost use Rattle.std.specs.Prelude.{◌≡◌, ◌+◌, ◌<◌, ◌≤◌, true, false, IfOk};
    ghost use Rattle.unit_ring.specs.Lists.{item, is_live, unit_of, first_in, next_of, last_in, prev_of, list_of, lists_without as lists_without, put_before as lists_with, after_append, after_take, after_give, empty_lists, room_of};

    /// A ring with so many nodes, all of them free.
    pub fn room(alloc: Global, nodes: usize) -> Result<Ring, NoMemory>
        ensures { IfOk result (λ ring. ring ≡ empty_lists nodes) }
    {
        if nodes > NODES_MOST {
            return Err(NoMemory);
        }
        let all = nodes + FENCES as usize;
        let nodes = Nodes::room(alloc, all)?;
        Ok(Ring { nodes })
    }

    /// Puts a unit at the end of a list, on a free node. A list is 0 or 1.
    pub fn push_back<L: Ledger>(&mut self, list: u8, u: UnitId, steps: &mut Steps<L>) -> Node
        requires list { list ≤ 1 }
        requires room { 0 < self.old.spare }
        ensures after { self.new ≡ after_take (after_append self.old list (item result.0 u)) }
        ensures fresh { is_live self.old result.0 ≡ false }
        ensures number { result.0 < room_of self.old + 4 }
        ensures step { steps.new ≡ steps.old + 1 }
    {
        steps.tick();
        let n = self.nodes.next(FREE);
        self.nodes.shift(n, list as u32 + 1);
        self.nodes.set_unit(n, u);
        Node(n)
    }

    /// Puts a unit before a live node, on a free node.
    pub fn insert_before<L: Ledger>(&mut self, at: Node, u: UnitId, steps: &mut Steps<L>) -> Node
        requires live { is_live self.old at.0 ≡ true }
        requires room { 0 < self.old.spare }
        ensures after { self.new ≡ after_take (lists_with self.old at.0 (item result.0 u)) }
        ensures fresh { is_live self.old result.0 ≡ false }
        ensures number { result.0 < room_of self.old + 4 }
        ensures step { steps.new ≡ steps.old + 1 }
    {
        steps.tick();
        let n = self.nodes.next(FREE);
        self.nodes.shift(n, at.0);
        self.nodes.set_unit(n, u);
        Node(n)
    }

    /// Takes a live node out of its list, and answers its unit. The node is free then.
    pub fn unlink<L: Ledger>(&mut self, n: Node, steps: &mut Steps<L>) -> UnitId
        requires live { is_live self.old n.0 ≡ true }
        ensures after { self.new ≡ after_give (lists_without self.old n.0) }
        ensures unit { result ≡ unit_of self.old n.0 }
        ensures step { steps.new ≡ steps.old + 1 }
    {
        steps.tick();
        self.nodes.shift(n.0, FREE_END);
        self.nodes.unit(n.0)
    }

    /// Moves a live node with its unit to the end of a list.
    pub fn shift<L: Ledger>(&mut self, n: Node, list: u8, steps: &mut Steps<L>)
        requires live { is_live self.old n.0 ≡ true }
        requires list { list ≤ 1 }
        ensures after { self.new ≡ after_append (lists_without self.old n.0) list
            (item n.0 (unit_of self.old n.0)) }
        ensures step { steps.new ≡ steps.old + 1 }
    {
        steps.tick();
        self.nodes.shift(n.0, list as u32 + 1);
    }

    /// The first node of a list, or `None` where it is empty.
    pub fn first<L: Ledger>(&self, list: u8, steps: &mut Steps<L>) -> Option<Node>
        requires list { list ≤ 1 }
        ensures node { result ≡ first_in (list_of self.now list) }
        ensures step { steps.new ≡ steps.old + 1 }
    {
        steps.tick();
        node_at(self.nodes.next(list as u32))
    }

    /// The node after a live one in its list, or `None` where it is the last.
    pub fn next<L: Ledger>(&self, n: Node, steps: &mut Steps<L>) -> Option<Node>
        requires live { is_live self.now n.0 ≡ true }
        ensures node { result ≡ next_of self.now n.0 }
        ensures step { steps.new ≡ steps.old + 1 }
    {
        steps.tick();
        node_at(self.nodes.next(n.0))
    }

    /// The last node of a list, or `None` where it is empty.
    pub fn last<L: Ledger>(&self, list: u8, steps: &mut Steps<L>) -> Option<Node>
        requires list { list ≤ 1 }
        ensures node { result ≡ last_in (list_of self.now list) }
        ensures step { steps.new ≡ steps.old + 1 }
    {
        steps.tick();
        node_at(self.nodes.prev(list as u32 + 1))
    }

    /// The node before a live one in its list, or `None` where it is the first.
    pub fn prev<L: Ledger>(&self, node: Node, steps: &mut Steps<L>) -> Option<Node>
        requires live { is_live self.now node.0 ≡ true }
        ensures node { result ≡ prev_of self.now node.0 }
        ensures step { steps.new ≡ steps.old + 1 }
    {
        steps.tick();
        node_at(self.nodes.prev(node.0))
    }

    /// The unit of a live node.
    pub fn unit(&self, n: Node) -> UnitId
        requires live { is_live self.now n.0 ≡ true }
        ensures { result ≡ unit_of self.now n.0 }
    {
        self.nodes.unit(n.0)
    }
}
