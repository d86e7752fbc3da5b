//! The links of a chain of numbers: for each number the one after it and the one before it. They lie with the nodes in
//! one block, which is taken once and given back at the end.

ghost use Rattle.std.specs.Prelude.{ℕ, ◌≡◌, ◌≢◌, ◌-◌, ◌<◌, ◌≤◌, [], ◌∷◌, length, slice_set, IfOk};
ghost use Rattle.core.specs.Mem.Slots.{slots_items, slots_len, IsFull, SamePlaces};
ghost use Rattle.unit_ring.specs.Chains.{link, unit_at, after_without, before_without, after_with, before_with, IsChain, chain, fenced_numbers, nodes_up_to, numbers_without, put_before};
ghost use Rattle.sched_base.specs.Lists.{Has};
ghost use Rattle.unit_ring.specs.Nodes.{empty_node, first_node, numbered_node};

use crate::nodes;
use crate::nodes::{Address, NodeRecord, based};
use core::slots::{Lease, Slots, release, reserve};
use sched_base::{DomId, NoMemory, UnitId};
use std::alloc::Global;
use std::marker::Model;
use std::ptr;

/// What stands for the unit of a number that has none.
const NO_UNIT: UnitId = UnitId {
    dom: DomId(0),
    n: 0,
};

/// A node before it has a number.
fn blank_node() -> NodeRecord
    ensures { result ≡ empty_node }
{
    NodeRecord {
        after: Address {
            ptr: ptr::null_mut(),
        },
        before: Address {
            ptr: ptr::null_mut(),
        },
        unit: NO_UNIT,
        number: 0,
    }
}

/// Fills a row with nodes that lead to the first, each with its number.
fn fill(row: &mut Slots<NodeRecord>, base: Address)
    requires few { slots_len row.old < 4294967296 }
    ensures places { SamePlaces row.old row.new }
    ensures full { IsFull row.new }
    ensures nodes { (k : ℕ) → k < slots_len row.new → numbered_node (slots_items row.new) k
        ≡ first_node base k }
{
    for k in 0..row.len() {
        row.put(
            k,
            NodeRecord {
                after: base,
                before: base,
                unit: NO_UNIT,
                number: k as u32,
            },
        );
    }
}

/// The nodes: the block in which they lie, where it begins, and the right to give it back.
pub struct Nodes {
    row: Slots<NodeRecord>,
    base: Address,
    lease: Lease<NodeRecord, Global>,
    alloc: Global,
}

impl Model for Nodes {
    ghost use Rattle.std.specs.Prelude.{◌≡◌};
    ghost use Rattle.unit_ring.specs.Nodes.{Links};

    ghost Value = { Links };

    ghost use Rattle.core.specs.Mem.Slots.{slots_items, slots_ptr, slots_len, lease_ptr, lease_len, lease_heap};
    ghost use Rattle.unit_ring.specs.Nodes.{IsRow, links_of};

    ghost view = { λ a. links_of a.base (slots_items a.row) };

    ghost invariant = { λ a. IsRow a.row a.base × (lease_ptr a.lease ≡ slots_ptr a.row)
        × (lease_len a.lease ≡ slots_len a.row) × (lease_heap a.lease ≡ a.alloc) };
}

// A mark for the type checker: `proofs/Crossing.antt` has the proof.
unsafe impl Send for Nodes {}

impl Drop for Nodes {
    fn drop(self) {
        let Nodes {
            row,
            base: _,
            lease,
            alloc,
        } = self;
        release(&alloc, row, lease);
    }
}

impl Nodes {
    /// So many nodes in a block of their own, which all lead to the first.
    fn fresh(alloc: Global, all: usize) -> Result<Nodes, NoMemory>
        requires few { all < 4294967296 }
        ensures size { IfOk result (λ nodes. length nodes.after ≡ all) }
        ensures same { IfOk result (λ nodes. length nodes.before ≡ all) }
        ensures places { IfOk result (λ nodes. length nodes.units ≡ all) }
        ensures start { IfOk result (λ nodes. (k : ℕ) → k < all → link nodes.before k ≡ 0) }
    {
        let like = vec![in alloc; blank_node(); all]?;
        let (row, lease) = unsafe { reserve(&alloc, like.as_slice())? };
        let (mut row, base) = based(row);
        fill(&mut row, base);
        Ok(Nodes {
            row,
            base,
            lease,
            alloc,
        })
    }

    /// So many nodes in a block of their own, linked along the fences and all other numbers.
    pub fn room(alloc: Global, all: usize) -> Result<Nodes, NoMemory>
        requires some { 4 ≤ all }
        requires few { all < 4294967296 }
        ensures whole { IfOk result (λ nodes.
            IsChain nodes.after nodes.before (fenced_numbers [] [] (nodes_up_to (all - 4)))) }
        ensures size { IfOk result (λ nodes. length nodes.after ≡ all) }
        ensures places { IfOk result (λ nodes. length nodes.units ≡ all) }
    {
        let mut nodes = Nodes::fresh(alloc, all)?;
        nodes.link_all(all as u32);
        Ok(nodes)
    }

    /// The number after one.
    pub fn next(&self, node: u32) -> u32
        requires below { node < length self.now.after }
        requires next { link self.now.after node < length self.now.after }
        ensures { result ≡ link self.now.after node }
    {
        nodes::number(&self.row, self.row.get(node as usize).after)
    }

    /// The number before one.
    pub fn prev(&self, node: u32) -> u32
        requires below { node < length self.now.after }
        requires last { link self.now.before node < length self.now.after }
        ensures { result ≡ link self.now.before node }
    {
        nodes::number(&self.row, self.row.get(node as usize).before)
    }

    /// Takes a number out of its place.
    pub fn unlink(&mut self, number: u32)
        requires below { number < length self.old.after }
        requires next { link self.old.after number < length self.old.after }
        requires last { link self.old.before number < length self.old.after }
        ensures after { self.new.after ≡ after_without self.old.after self.old.before number }
        ensures before { self.new.before ≡ before_without self.old.after self.old.before number }
        ensures units { self.new.units ≡ self.old.units }
    {
        nodes::unlink(&mut self.row, self.base, number);
    }

    /// Puts a number that has no place before another.
    pub fn insert_before(&mut self, at: u32, number: u32)
        requires below { number < length self.old.after }
        requires at { at < length self.old.after }
        requires last { link self.old.before at < length self.old.after }
        ensures after { self.new.after ≡ after_with self.old.after self.old.before at number }
        ensures before { self.new.before ≡ before_with self.old.after self.old.before at number }
        ensures units { self.new.units ≡ self.old.units }
    {
        nodes::insert_before(&mut self.row, self.base, at, number);
    }

    /// Moves a number of the chain before another.
    pub fn shift(&mut self, number: u32, at: u32)
        requires whole { IsChain self.old.after self.old.before (chain self.old.after) }
        requires number { Has number (chain self.old.after) }
        requires inner { number ≢ 3 }
        requires place { Has at (chain self.old.after) }
        requires apart { at ≢ number }
        ensures whole { IsChain self.new.after self.new.before (chain self.new.after) }
        ensures moved { chain self.new.after
            ≡ put_before at number (numbers_without number (chain self.old.after)) }
        ensures size { length self.new.after ≡ length self.old.after }
        ensures units { self.new.units ≡ self.old.units }
    {
        self.unlink(number);
        self.insert_before(at, number);
    }

    /// Links along the fences alone.
    fn link_fences(&mut self)
        requires some { 4 ≤ length self.old.after }
        requires lengths { length self.old.before ≡ length self.old.after }
        requires start { link self.old.before 3 ≡ 0 }
        ensures whole { IsChain self.new.after self.new.before (1 ∷ 2 ∷ 3 ∷ []) }
        ensures size { length self.new.after ≡ length self.old.after }
        ensures units { self.new.units ≡ self.old.units }
    {
        self.insert_before(3, 1);
        self.insert_before(3, 2);
    }

    /// Links along the fences and all other numbers, which come before the last fence.
    fn link_all(&mut self, all: u32)
        requires all { all ≡ length self.old.after }
        requires some { 4 ≤ length self.old.after }
        requires lengths { length self.old.before ≡ length self.old.after }
        requires start { link self.old.before 3 ≡ 0 }
        ensures whole { IsChain self.new.after self.new.before
            (fenced_numbers [] [] (nodes_up_to (length self.old.after - 4))) }
        ensures size { length self.new.after ≡ length self.old.after }
        ensures units { self.new.units ≡ self.old.units }
    {
        self.link_fences();
        for n in 4..all {
            self.insert_before(3, n);
        }
    }

    /// Writes the unit of a number.
    pub fn set_unit(&mut self, number: u32, u: UnitId)
        requires { number < length self.old.units }
        ensures after { self.new.after ≡ self.old.after }
        ensures before { self.new.before ≡ self.old.before }
        ensures units { self.new.units ≡ slice_set self.old.units number u }
    {
        let node = *self.row.get(number as usize);
        self.row.put(
            number as usize,
            NodeRecord {
                after: node.after,
                before: node.before,
                unit: u,
                number: node.number,
            },
        );
    }

    /// The unit of a number.
    pub fn unit(&self, number: u32) -> UnitId
        requires { number < length self.now.units }
        ensures { result ≡ unit_at self.now.units number }
    {
        self.row.get(number as usize).unit
    }
}
