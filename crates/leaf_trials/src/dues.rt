//! The heap of moments by id.

ghost use Rattle.std.specs.Prelude.{◌≡◌, ◌<◌, ◌≤◌, length, IfOk};

use due_heap::DueHeap;
use sched_base::{Moment, NoMemory};
use std::alloc::Global;
use std::test::Fail;

/// A heap of so many ids, of which none is armed.
fn room(alloc: Global, ids: usize) -> Result<DueHeap, NoMemory>
    requires { ids ≤ 5 }
    ensures { IfOk result (λ heap. length heap ≡ ids) }
{
    let heap = DueHeap::room(alloc, ids)?;
    Ok(heap)
}

/// Whether that id with that moment is first.
fn is_first(heap: &DueHeap, at: u64, id: u16) -> bool {
    match heap.least() {
        Some(first) => first.0.0 == at && first.1 == id,
        None => false,
    }
}

/// Arms an id. The room stays.
fn arm(heap: &mut DueHeap, id: u16, at: u64)
    requires { id < length heap.old }
    ensures { length heap.new ≡ length heap.old }
{
    heap.arm(id, Moment(at));
}

/// Whether the right one of five ids is first, as they are armed.
fn arms_five(heap: &mut DueHeap) -> [bool; 4]
    requires { length heap.old ≡ 5 }
{
    arm(heap, 3, 70);
    let alone = is_first(heap, 70, 3);
    arm(heap, 1, 70);
    let equal = is_first(heap, 70, 1);
    arm(heap, 4, 10);
    arm(heap, 0, u64::MAX);
    let sooner = is_first(heap, 10, 4);
    arm(heap, 4, 90);
    [alone, equal, sooner, is_first(heap, 70, 1)]
}

/// Whether the right one of these is first, as they are disarmed, up to the last.
fn disarms_five(heap: &mut DueHeap) -> [bool; 3] {
    heap.disarm(1);
    heap.disarm(2);
    heap.disarm(9);
    let left = is_first(heap, 70, 3);
    heap.disarm(3);
    let last = is_first(heap, 90, 4);
    heap.disarm(4);
    heap.disarm(0);
    [left, last, heap.least().is_none()]
}

#[test]
fn first_by_moment_then_by_id(rt: HostRuntime) -> Result<(), Fail> {
    let mut heap = room(rt.alloc(), 5)?;
    let none = heap.least().is_none();
    let armed = arms_five(&mut heap);
    let disarmed = disarms_five(&mut heap);
    drop(heap);
    assert!(rt; none);
    assert_eq!(rt; armed, [true; 4]);
    assert_eq!(rt; disarmed, [true; 3]);
    Ok(())
}

/// Whether that id is the least of four whose moment has come: 99 where none has.
fn least_come(heap: &DueHeap, t: u64, id: u16) -> bool
    requires { length heap.now ≡ 4 }
{
    match heap.first_due(Moment(t)) {
        Some(found) => found == id,
        None => id == 99,
    }
}

/// Whether the right id is the least that has come: of none, and of three.
fn least_of_three(heap: &mut DueHeap) -> [bool; 5]
    requires { length heap.old ≡ 4 }
    ensures { length heap.new ≡ 4 }
{
    let none = least_come(heap, 50, 99);
    arm(heap, 3, 10);
    arm(heap, 1, 30);
    arm(heap, 2, 20);
    [
        none,
        least_come(heap, 9, 99),
        least_come(heap, 10, 3),
        least_come(heap, 25, 2),
        least_come(heap, 30, 1),
    ]
}

/// Whether it is the right one of two of these.
fn least_of_two(heap: &mut DueHeap) -> bool
    requires { length heap.old ≡ 4 }
{
    heap.disarm(1);
    least_come(heap, 30, 2)
}

#[test]
fn the_least_id_that_has_come(rt: HostRuntime) -> Result<(), Fail> {
    let mut heap = room(rt.alloc(), 4)?;
    let three = least_of_three(&mut heap);
    let two = least_of_two(&mut heap);
    drop(heap);
    assert_eq!(rt; three, [true; 5]);
    assert!(rt; two);
    Ok(())
}

/// Whether one id is first, armed, and none, disarmed.
fn arms_one(heap: &mut DueHeap) -> [bool; 2]
    requires { length heap.old ≡ 1 }
{
    arm(heap, 0, 5);
    let armed = is_first(heap, 5, 0);
    heap.disarm(0);
    [armed, heap.least().is_none()]
}

#[test]
fn small_rooms(rt: HostRuntime) -> Result<(), Fail> {
    let mut none = room(rt.alloc(), 0)?;
    none.disarm(0);
    let none_is_first = none.least().is_none();
    drop(none);
    let mut one = room(rt.alloc(), 1)?;
    let first = arms_one(&mut one);
    drop(one);
    assert!(rt; none_is_first);
    assert_eq!(rt; first, [true; 2]);
    Ok(())
}
