//! The nodes of a ring in raw memory, with pointers from each to the one after it and the one before it.

ghost use Rattle.std.specs.Prelude.{◌≡◌, ℕ, ◌*◌, ◌<◌};
ghost use Rattle.core.specs.Mem.Slots.{slots_items, slots_ptr, slots_len, slots_filled, IsFull, SamePlaces};
ghost use denote.RawPtr.{InBlock, ◌+ₚ◌};
ghost use Rattle.unit_ring.specs.Nodes.{numbered_node, place, with_after, with_before};

use core::slots::Slots;
use sched_base::UnitId;

/// Where a node lies. It owns nothing.
#[derive(Clone, Copy)]
pub struct Address {
    pub ptr: *mut NodeRecord,
}

// An address owns nothing.
unsafe impl Send for Address {}

unsafe impl Sync for Address {}

/// A node: the nodes after and before it, its unit and its number.
#[derive(Clone, Copy)]
pub struct NodeRecord {
    pub after: Address,
    pub before: Address,
    pub unit: UnitId,
    pub number: u32,
}

/// A row of nodes, with the place of the first.
pub fn based(row: Slots<NodeRecord>) -> (Slots<NodeRecord>, Address)
    ensures base { result.1.ptr ≡ slots_ptr row }
    ensures block { InBlock result.1.ptr }
    ensures places { SamePlaces row result.0 }
    ensures items { slots_items result.0 ≡ slots_items row }
    ensures filled { slots_filled result.0 ≡ slots_filled row }
{
    unsafe {
        let (ptr, len) = row.into_raw_parts();
        (Slots::from_raw_parts(ptr, len), Address { ptr })
    }
}

/// The number of the node that lies there.
pub fn number(nodes: &Slots<NodeRecord>, at: Address) -> u32
    ghost to: { ℕ }
    requires full { IsFull nodes.now }
    requires place { at.ptr ≡ slots_ptr nodes.now +ₚ to * 24 }
    requires target { to < slots_len nodes.now }
    ensures { result ≡ (numbered_node (slots_items nodes.now) to).number }
{
    unsafe {
        let node = at.ptr;
        (*node).number
    }
}

/// Takes a node out of its place.
pub fn unlink(nodes: &mut Slots<NodeRecord>, base: Address, number: u32)
    ghost beside: { ℕ × ℕ }
    requires base { slots_ptr nodes.old ≡ base.ptr }
    requires full { IsFull nodes.old }
    requires below { number < slots_len nodes.old }
    requires before { (numbered_node (slots_items nodes.old) number).before ≡ place base beside.0 }
    requires after { (numbered_node (slots_items nodes.old) number).after ≡ place base beside.1 }
    requires last { beside.0 < slots_len nodes.old }
    requires next { beside.1 < slots_len nodes.old }
    ensures items { slots_items nodes.new
        ≡ with_before (with_after (slots_items nodes.old) beside.0 (place base beside.1)) beside.1
        (place base beside.0) }
    ensures places { SamePlaces nodes.old nodes.new }
    ensures full { IsFull nodes.new }
{
    unsafe {
        let node = base.ptr.add(number as usize);
        let after = (*node).after;
        let before = (*node).before;
        (*before.ptr).after = after;
        (*after.ptr).before = before;
    }
}

/// Puts a node that has no place before another.
pub fn insert_before(nodes: &mut Slots<NodeRecord>, base: Address, at: u32, number: u32)
    ghost last: { ℕ }
    requires base { slots_ptr nodes.old ≡ base.ptr }
    requires full { IsFull nodes.old }
    requires below { number < slots_len nodes.old }
    requires at { at < slots_len nodes.old }
    requires before { (numbered_node (slots_items nodes.old) at).before ≡ place base last }
    requires last { last < slots_len nodes.old }
    ensures items { slots_items nodes.new
        ≡ with_before (with_before (with_after
        (with_after (slots_items nodes.old) last (place base number)) number (place base at)) number
        (place base last)) at (place base number) }
    ensures places { SamePlaces nodes.old nodes.new }
    ensures full { IsFull nodes.new }
{
    unsafe {
        let node = base.ptr.add(number as usize);
        let next = base.ptr.add(at as usize);
        let last = (*next).before;
        (*last.ptr).after = Address { ptr: node };
        (*node).after = Address { ptr: next };
        (*node).before = last;
        (*next).before = Address { ptr: node };
    }
}
