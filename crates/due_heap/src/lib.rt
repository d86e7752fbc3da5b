//! Moments by id: each of a fixed number of ids may be due at a moment, and the first of them is at hand.
//!
//! `DueSet` is for at most 64 ids. `DueHeap` is for more, and is a tree of winners: the leaves are the ids in turn, and at each other node stands the first of the ids under it.
//! So the root has the first of all, and a change of one id is carried up one path, in steps by the logarithm of the room.
//! A node holds no more than the id, whose moment stands in a list of its own: 18 bytes an id.
#![tactic(auto)]

ghost use Rattle.std.specs.Prelude.{ℕ, ◌≡◌, ◌+◌, ◌*◌, ◌/◌, ◌^◌, ◌<◌, ◌≤◌, length, true, false, if◌then◌else◌};
ghost use Rattle.due_heap.specs.Dues.{IsPowerOfTwo, NoneBefore};
ghost use Rattle.due_heap.specs.Winners.{IsTree, IsTreeBut};
ghost use Rattle.due_heap.specs.Winners as tree;

mod bits;
mod order;
mod set;

pub use bits::{lowest, put_id, without};
use order::{due_of, is_due, sooner};
use sched_base::{Moment, NoMemory};
pub use set::DueSet;
use std::alloc::Global;
use std::marker::Model;

/// The heap. Contracts see it as the list of its ids' moments, with none where an id is not armed.
#[derive(Drop)]
pub struct DueHeap {
    moments: Vec<Option<Moment>>,
    /// The winner at each node that is no leaf, from 1 on; the entry at 0 stands for no node.
    winners: Vec<u16>,
    /// No id is due before this moment.
    soon: u64,
}

impl Model for DueHeap {
    ghost use Rattle.std.specs.Prelude.{List, Option};
    ghost use Rattle.sched_base.specs.declared.Moment.{Moment};

    ghost Value = { List (Option Moment) };

    ghost use Rattle.due_heap.specs.Dues.{NoneBefore};
    ghost use Rattle.due_heap.specs.Winners.{IsTree};

    ghost view = { λ a. a.moments.items };

    ghost invariant = { λ a. IsTree a.moments.items a.winners.items
        × NoneBefore a.soon a.moments.items };
}

/// The winner at a node, which is a leaf's own id.
fn winner(winners: &[u16], node: usize) -> u16
    requires fits { node < length winners.now + 2 ^ 16 }
    ensures { result ≡ tree.node_winner winners.now node }
{
    if node < winners.len() {
        winners[node]
    } else {
        (node - winners.len()) as u16
    }
}

/// The sooner one of the winners at the two nodes below.
fn play(moments: &[Option<Moment>], winners: &[u16], node: usize) -> u16
    requires few { length winners.now ≤ 2 ^ 16 }
    requires inner { node < length winners.now }
    ensures { result ≡ tree.sooner_id moments.now (tree.node_winner winners.now (2 * node))
        (tree.node_winner winners.now (2 * node + 1)) }
{
    sooner(
        moments,
        winner(winners, 2 * node),
        winner(winners, 2 * node + 1),
    )
}

/// Writes the winner at each node, from the last to the root.
fn play_all(moments: &[Option<Moment>], winners: &mut [u16])
    requires few { length moments.now ≤ 2 ^ 16 }
    requires size { length winners.old ≡ length moments.now }
    ensures { IsTree moments.now winners.new }
{
    let mut k = winners.len();
    while k > 1 {
        k -= 1;
        winners[k] = play(moments, winners, k);
    }
}

/// The sooner one of the winner at a node and the winner at the node beside it, which is under the same node.
fn play_beside(moments: &[Option<Moment>], winners: &[u16], node: usize, first: u16) -> u16
    requires few { length winners.now ≤ 2 ^ 16 }
    requires under { 2 ≤ node }
    requires inside { node < 2 * length winners.now }
    requires first { first ≡ tree.node_winner winners.now node }
    ensures { result ≡ tree.sooner_id moments.now (tree.node_winner winners.now (2 * (node / 2)))
        (tree.node_winner winners.now (2 * (node / 2) + 1)) }
{
    sooner(moments, first, winner(winners, 4 * (node / 2) + 1 - node))
}

/// Carries the changed moment of an id from its leaf up to the root.
fn settle(moments: &[Option<Moment>], winners: &mut [u16], id: u16)
    requires id { id < length moments.now }
    requires but { IsTreeBut id moments.now winners.old }
    ensures { IsTree moments.now winners.new }
{
    let mut first = id;
    let mut k = winners.len() + id as usize;
    while k > 1 {
        first = play_beside(moments, winners, k, first);
        k /= 2;
        // Where the changed id wins, the nodes above that hold it are played again with its new moment.
        if winners[k] == first && first != id {
            return;
        }
        winners[k] = first;
    }
}

/// The one of the two nodes below that comes first from the left and whose winner's moment has come at t, where one is.
fn below(moments: &[Option<Moment>], winners: &[u16], node: usize, t: Moment) -> usize
    requires few { length winners.now ≤ 2 ^ 16 }
    requires inner { node < length winners.now }
    ensures { result ≡ (if tree.is_armed_due moments.now t.0
        (tree.node_winner winners.now (2 * node)) then 2 * node else 2 * node + 1) }
{
    if is_due(moments, winner(winners, 2 * node), t) {
        2 * node
    } else {
        2 * node + 1
    }
}

/// Goes from the root down to the first leaf, from the left, of an id whose moment has come at t, and gives the id.
#[inline(never)]
fn leftmost(moments: &[Option<Moment>], winners: &[u16], t: Moment) -> u16
    requires tree { IsTree moments.now winners.now }
    requires power { IsPowerOfTwo (length moments.now) }
    requires root { tree.is_armed_due moments.now t.0 (tree.node_winner winners.now 1) ≡ true }
    ensures come { tree.is_armed_due moments.now t.0 result ≡ true }
    ensures first { (id : ℕ) → id < result → tree.is_armed_due moments.now t.0 id ≡ false }
{
    let mut k = 1;
    while k < winners.len() {
        k = below(moments, winners, k, t);
    }
    (k - winners.len()) as u16
}

/// The least moment of the ids, and the greatest number where none is armed.
#[inline]
fn soonest(moments: &[Option<Moment>], winners: &[u16]) -> u64
    requires { IsTree moments.now winners.now }
    ensures { NoneBefore result moments.now }
{
    match due_of(moments, winner(winners, 1)) {
        None => u64::MAX,
        Some(at) => at.0,
    }
}

impl DueHeap {
    ghost use Rattle.std.specs.Prelude.{ℕ, ◌≡◌, ◌<◌, ◌≤◌, Some, None, IfOk, IfSome, IfNone, length, replicate, slice_set};
    ghost use Rattle.due_heap.specs.Dues.{IsArmed, GoesFirst, HasCome, IsPowerOfTwo};

    /// A heap for the ids below n, at most 65,536, none of them armed.
    pub fn room(alloc: Global, n: usize) -> Result<DueHeap, NoMemory>
        requires few { n ≤ 65536 }
        ensures { IfOk result (λ heap. heap ≡ replicate n None) }
    {
        let moments = vec![in alloc; None; n]?;
        let mut winners = vec![in alloc; 0; n]?;
        play_all(moments.as_slice(), winners.as_mut_slice());
        let soon = soonest(moments.as_slice(), winners.as_slice());
        Ok(DueHeap {
            moments,
            winners,
            soon,
        })
    }

    /// Gives an id below the room its moment, or none.
    fn set_due(&mut self, id: u16, due: Option<Moment>)
        requires { id < length self.old }
        ensures { self.new ≡ slice_set self.old id due }
    {
        if self.moments[id as usize] == due {
            return;
        }
        self.moments[id as usize] = due;
        settle(self.moments.as_slice(), self.winners.as_mut_slice(), id);
        self.soon = soonest(self.moments.as_slice(), self.winners.as_slice());
    }

    /// Makes an id below the room due at a moment, in place of the moment that it had.
    pub fn arm(&mut self, id: u16, at: Moment)
        requires { id < length self.old }
        ensures { self.new ≡ slice_set self.old id (Some at) }
    {
        self.set_due(id, Some(at));
    }

    /// Makes an id due at no moment. An id that is not armed, or not below the room, changes nothing.
    pub fn disarm(&mut self, id: u16)
        ensures { self.new ≡ slice_set self.old id None }
    {
        if (id as usize) < self.moments.len() {
            self.set_due(id, None);
        }
    }

    /// The least of the ids whose moment has come at t, in steps by the logarithm of the room. `None` where none has come. The room is
    /// a power of two.
    #[inline]
    pub fn first_due(&self, t: Moment) -> Option<u16>
        requires power { IsPowerOfTwo (length self.now) }
        ensures none { IfNone result ((id : ℕ) (at : Moment) → IsArmed self.now id at →
            t.0 < at.0) }
        ensures come { IfSome result (λ id. HasCome self.now t.0 id) }
        ensures first { IfSome result (λ id. (other : ℕ) → HasCome self.now t.0 other → id
            ≤ other) }
    {
        if t.0 < self.soon {
            return None;
        }
        let root = winner(self.winners.as_slice(), 1);
        if !is_due(self.moments.as_slice(), root, t) {
            return None;
        }
        Some(leftmost(self.moments.as_slice(), self.winners.as_slice(), t))
    }

    /// The first of the armed ids with its moment: the least by moment, then by id. `None` where none is armed.
    pub fn least(&self) -> Option<(Moment, u16)>
        ensures none { IfNone result ((id : ℕ) (at : Moment) → ¬ IsArmed self.now id at) }
        ensures armed { IfSome result (λ due. IsArmed self.now due.1 due.0) }
        ensures first { IfSome result (λ due. (id : ℕ) (at : Moment) → IsArmed self.now id at →
            GoesFirst due.0 due.1 at id) }
    {
        let root = winner(self.winners.as_slice(), 1);
        match due_of(self.moments.as_slice(), root) {
            Some(at) => Some((at, root)),
            None => None,
        }
    }
}
