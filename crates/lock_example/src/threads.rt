//! Two seats that work side by side, each in a thread of its own.

ghost use Rattle.std.specs.Prelude.{◌≡◌, ◌≤◌, ◌<◌, ◌⊎◌, [], true, IfOk, IfErr, OnOk, take, length, vec_capacity};
ghost use Rattle.std.specs.List.{All};
ghost use Rattle.journal_core.specs.Parts.{lists};
ghost use Rattle.lock_moves.specs.Words.{name_number};
ghost use Rattle.lock_example.specs.Example.{part_after, two_entries};
ghost use Rattle.lock_example.specs.Holders.{Stands, StopsAt};
ghost use Rattle.lock_example.specs.Visits.{CanVisit, IsBack};

use crate::adding::add_core;
use crate::counter::Counter;
use crate::visits::visit;
use lock_moves::{Held, HeldBook, LockSeat, LockSet, NameId};
use std::sync::Wait;
use std::thread;
use std::thread::{Threads, join, join_mut};

/// Lets two seats visit the lock of a name side by side. The answers are what each saw: a lock's number and a count, whose part lists the name.
pub fn visit_both<R: Threads + Wait + Sync>(
    rt: &R,
    set: &LockSet<Counter>,
    a: &mut LockSeat,
    b: &mut LockSeat,
    name: NameId,
) -> ((u8, u8), (u8, u8))
    requires first { CanVisit set.now name a.old }
    requires second { CanVisit set.now name b.old }
    ensures first { IsBack a.old a.new }
    ensures second { IsBack b.old b.new }
    ensures first_lists { lists (part_after result.0.0 result.0.1) (name_number name) ≡ true }
    ensures second_lists { lists (part_after result.1.0 result.1.1) (name_number name) ≡ true }
{
    join_mut(
        rt,
        &mut ||
            requires { CanVisit set.now name a.now }
            ensures back { IsBack a.entry.now a.exit.now }
            ensures lists { lists (part_after result.0 result.1) (name_number name) ≡ true }
        { visit(rt, set, a, name) },
        &mut ||
            requires { CanVisit set.now name b.now }
            ensures back { IsBack b.entry.now b.exit.now }
            ensures lists { lists (part_after result.0 result.1) (name_number name) ≡ true }
        { visit(rt, set, b, name) },
    )
}

// One seat visits the lock of the name.
fn turn<R: Wait>(rt: &R, set: &LockSet<Counter>, seat: &mut LockSeat, name: NameId)
    requires { CanVisit set.now name seat.old }
    ensures { CanVisit set.now name seat.new }
{
    visit(rt, set, seat, name);
}

/// Lets all seats visit the lock of a name side by side.
pub fn visit_all<R: Threads + Wait + Sync>(
    rt: &R,
    set: &LockSet<Counter>,
    seats: &mut [LockSeat],
    name: NameId,
)
    requires some { 0 < length seats.old }
    requires all { All (CanVisit set.now name) seats.old }
    ensures all { All (CanVisit set.now name) seats.new }
{
    let count = seats.len();
    thread::for_each_mut(
        rt,
        seats,
        count,
        &|_i, seat|
            requires { CanVisit set.now name seat.now }
            ensures { CanVisit set.entry.now name seat.exit.now }
        { turn(rt, set, seat, name) },
    );
}

// Adds the core, and gives the seat back beside the answer.
fn added<R: Wait>(
    rt: &R,
    set: &LockSet<Counter>,
    seat: LockSeat,
    room: Vec<Held<Counter>>,
) -> (LockSeat, Result<u64, HeldBook>)
    requires stands { Stands set.now [] seat.view.shares seat }
    requires nothing { seat.view.held ≡ [] }
    requires empty { room.items ≡ [] }
    requires room { 16 ≤ vec_capacity room }
    ensures home { IfOk result.1 (λ lock. lock ≡ 0) }
    ensures stands { OnOk result.1 (Stands set.now two_entries seat.view.shares result.0) }
    ensures nothing { OnOk result.1 (result.0.view.held ≡ []) }
    ensures refused { IfErr result.1 (λ b. StopsAt set.now [] seat.view.shares b result.0
        ⊎ StopsAt set.now (take 1 two_entries) seat.view.shares b result.0) }
{
    let mut seat = seat;
    let answer = add_core(rt, set, &mut seat, room);
    (seat, answer)
}

// Visits the lock of the name, and gives the seat back beside the answer.
fn visited<R: Wait>(
    rt: &R,
    set: &LockSet<Counter>,
    seat: LockSeat,
    name: NameId,
) -> (LockSeat, (u8, u8))
    requires can { CanVisit set.now name seat }
    ensures back { IsBack seat result.0 }
    ensures lists { lists (part_after result.1.0 result.1.1) (name_number name) ≡ true }
{
    let mut seat = seat;
    let seen = visit(rt, set, &mut seat, name);
    (seat, seen)
}

/// Lets one seat add the core while another visits the lock of a name. Both seats come back, each beside its answer.
pub fn add_beside_visit<R: Threads + Wait + Sync>(
    rt: &R,
    set: &LockSet<Counter>,
    adder: LockSeat,
    room: Vec<Held<Counter>>,
    visitor: LockSeat,
    name: NameId,
) -> ((LockSeat, Result<u64, HeldBook>), (LockSeat, (u8, u8)))
    requires stands { Stands set.now [] adder.view.shares adder }
    requires nothing { adder.view.held ≡ [] }
    requires empty { room.items ≡ [] }
    requires room { 16 ≤ vec_capacity room }
    requires visitor { CanVisit set.now name visitor }
    ensures home { IfOk result.0.1 (λ lock. lock ≡ 0) }
    ensures stands { OnOk result.0.1 (Stands set.now two_entries adder.view.shares result.0.0) }
    ensures nothing { OnOk result.0.1 (result.0.0.view.held ≡ []) }
    ensures refused { IfErr result.0.1 (λ b. StopsAt set.now [] adder.view.shares b result.0.0
        ⊎ StopsAt set.now (take 1 two_entries) adder.view.shares b result.0.0) }
    ensures back { IsBack visitor result.1.0 }
    ensures lists { lists (part_after result.1.1.0 result.1.1.1) (name_number name) ≡ true }
{
    join(
        rt,
        move || added(rt, set, adder, room),
        move || visited(rt, set, visitor, name),
    )
}
