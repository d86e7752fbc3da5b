//! All values at once, while all their locks are held.

ghost use Rattle.std.specs.Prelude.{◌≡◌, ◌+◌, ◌<◌, None, []};
ghost use Rattle.lock_moves.specs.SeatSight.{HoldsBelow, find_lock};
ghost use Rattle.hall.specs.SeatKnowledge.{KnowsAll, KnowsPool, KnowsStill, KnowsTool};
ghost use Rattle.hall.specs.Steps.{KeepsSight};
ghost use Rattle.journal_core.specs.Parts.{tool_lock};
ghost use Rattle.lock_moves.specs.Words.{book_lock};

use crate::value::{PartState, ToolKept};
use arrayvec::ArrayVec;
use lock_moves::{Held, LockId, LockSeat, LockSet, TOOL};
use machine_parts::PoolSlot;
use sched_model::machine::MOST_POOLS;
use std::boxed::Box;
use std::sync::Wait;

/// The places of the 16 pools, in the order of their numbers, and what the tool keeps.
#[derive(Drop)]
pub struct AllParts {
    pub slots: ArrayVec<PoolSlot, 16>,
    pub tool: Box<ToolKept>,
}

/// Takes the lock of this pool, 0 to 15, after those of the pools before it, and waits until it is free.
fn take_pool<R: Wait>(rt: &R, set: &LockSet<PartState>, seat: &mut LockSeat, place: u8) -> PoolSlot
    requires set { seat.old.table ≡ set.now.table }
    requires number { place < tool_lock }
    requires below { HoldsBelow place seat.old.view }
    ensures keeps { KeepsSight seat.old seat.new }
    ensures below { HoldsBelow (place + 1) seat.new.view }
    ensures still { KnowsStill place seat.old.view seat.new.view }
    ensures knows { KnowsPool place result seat.new.view }
{
    let held = set.lock(rt, seat, LockId(place));
    let PartState::Pool(slot) = held.into_value() else {
        unreachable!()
    };
    slot
}

/// Takes the tool's lock after those of all pools, and waits until it is free.
fn take_tool<R: Wait>(rt: &R, set: &LockSet<PartState>, seat: &mut LockSeat) -> Box<ToolKept>
    requires set { seat.old.table ≡ set.now.table }
    requires below { HoldsBelow tool_lock seat.old.view }
    ensures keeps { KeepsSight seat.old seat.new }
    ensures below { HoldsBelow book_lock seat.new.view }
    ensures still { KnowsStill tool_lock seat.old.view seat.new.view }
    ensures knows { KnowsTool result.value.tool result.value.spares seat.new.view }
{
    let held = set.lock(rt, seat, TOOL);
    let PartState::Tool(tool) = held.into_value() else {
        unreachable!()
    };
    tool
}

/// Puts the place of this pool, 0 to 15, back under its lock, which is the last that is held.
fn put_pool(set: &LockSet<PartState>, seat: &mut LockSeat, place: u8, slot: PoolSlot)
    requires set { seat.old.table ≡ set.now.table }
    requires number { place < tool_lock }
    requires below { HoldsBelow (place + 1) seat.old.view }
    requires knows { KnowsPool place slot seat.old.view }
    ensures keeps { KeepsSight seat.old seat.new }
    ensures below { HoldsBelow place seat.new.view }
    ensures still { KnowsStill place seat.old.view seat.new.view }
{
    set.unlock(seat, Held::new(LockId(place), PartState::Pool(slot)));
}

/// Puts what the tool keeps back under its lock, which is the last that is held.
fn put_tool(set: &LockSet<PartState>, seat: &mut LockSeat, tool: Box<ToolKept>)
    requires set { seat.old.table ≡ set.now.table }
    requires below { HoldsBelow book_lock seat.old.view }
    requires knows { KnowsTool tool.value.tool tool.value.spares seat.old.view }
    ensures keeps { KeepsSight seat.old seat.new }
    ensures below { HoldsBelow tool_lock seat.new.view }
    ensures still { KnowsStill tool_lock seat.old.view seat.new.view }
{
    set.unlock(seat, Held::new(TOOL, PartState::Tool(tool)));
}

/// Takes all locks but the book's, in their order, and waits until each is free.
pub(crate) fn take_all<R: Wait>(rt: &R, set: &LockSet<PartState>, seat: &mut LockSeat) -> AllParts
    requires set { seat.old.table ≡ set.now.table }
    requires nothing { seat.old.view.held ≡ [] }
    ensures keeps { KeepsSight seat.old seat.new }
    ensures knows { KnowsAll result seat.new.view }
    ensures book { find_lock book_lock seat.new.view.held ≡ None }
{
    let mut slots = ArrayVec::new();
    for i in 0..MOST_POOLS {
        slots.push(take_pool(rt, set, seat, i));
    }
    let tool = take_tool(rt, set, seat);
    AllParts { slots, tool }
}

/// Puts all values back under their locks, the last one first.
pub(crate) fn put_all(set: &LockSet<PartState>, seat: &mut LockSeat, all: AllParts)
    requires set { seat.old.table ≡ set.now.table }
    requires knows { KnowsAll all seat.old.view }
    requires book { find_lock book_lock seat.old.view.held ≡ None }
    ensures keeps { KeepsSight seat.old seat.new }
    ensures nothing { seat.new.view.held ≡ [] }
{
    let AllParts { slots, tool } = all;
    put_tool(set, seat, tool);
    let mut slots = slots;
    while let Some(slot) = slots.pop() {
        put_pool(set, seat, slots.len() as u8, slot);
    }
}
