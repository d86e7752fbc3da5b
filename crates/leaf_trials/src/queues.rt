//! The queues of Credit2 and of RTDS.

ghost use Rattle.std.specs.Prelude.{◌≡◌, ◌+◌, ◌<◌, ◌≤◌, true};
ghost use Rattle.unit_places.specs.Places.{has_unit_place};
ghost use Rattle.runq.specs.Queue.{empty_queue};
ghost use Rattle.rtds_queue.specs.Lists.{empty_lists};

use rtds_queue::{RtdsKey, RtdsQueues};
use runq::{Allowed, Runq};
use sched_base::{Cores, DomId, Moment, ResId, UnitId};
use std::test::Fail;
use unit_places::Masks;

const A: UnitId = UnitId {
    dom: DomId(1),
    n: 0,
};

const B: UnitId = UnitId {
    dom: DomId(2),
    n: 0,
};

const C: UnitId = UnitId {
    dom: DomId(3),
    n: 0,
};

/// A unit that no queue has.
const FOREIGN: UnitId = UnitId {
    dom: DomId(9),
    n: 0,
};

/// The domain of a unit, and 99 where there is none.
fn domain(unit: Option<UnitId>) -> u8 {
    match unit {
        Some(u) => u.dom.0,
        None => 99,
    }
}

fn key(level: u32, deadline: u64) -> RtdsKey {
    RtdsKey {
        level,
        deadline: Moment(deadline),
    }
}

/// Takes the first unit away, again and again, and answers whether these are the domains in order: 99 where there is none.
fn drained(queue: &mut Runq, order: [u8; 4]) -> bool {
    let mut right = true;
    for i in 0..4 {
        let first = queue.first();
        right = right && domain(first) == order[i];
        if let Some(u) = first {
            let _ = queue.remove(u);
        }
    }
    right
}

/// Whether the right unit is first on core 0, for these domains and cores of the pool, where unit 1 alone waits and may not have that core; and of all.
fn firsts_beside_core_0(queue: &mut Runq, masks: &mut Masks) -> [bool; 5]
    requires { queue.old ≡ empty_queue 1 }
{
    queue.insert(A, 7);
    masks.set(A, Cores(2));
    [
        domain(queue.first_on(&Allowed(2), masks, ResId(0), Cores(3))) == 99,
        domain(queue.first_on(&Allowed(2), masks, ResId(0), Cores(1))) == 1,
        domain(queue.first_on(&Allowed(4), masks, ResId(0), Cores(1))) == 99,
        domain(queue.first_where(&Allowed(2))) == 1,
        domain(queue.first_where(&Allowed(1))) == 99,
    ]
}

#[test]
fn a_unit_is_passed_over_for_its_cores(rt: HostRuntime) -> Result<(), Fail> {
    let mut queue = Runq::room(rt.alloc(), 1)?;
    let mut masks = Masks::room(rt.alloc())?;
    let firsts = firsts_beside_core_0(&mut queue, &mut masks);
    assert_eq!(rt; firsts, [true; 5]);
    Ok(())
}

/// Lets a unit come that the queue has not. It answers whether it had none.
fn comes(queue: &mut Runq, u: UnitId, key: i128) -> bool
    requires place { has_unit_place u ≡ true }
    requires room { 0 < queue.old.spare }
    ensures { queue.old.spare ≤ queue.new.spare + 1 }
{
    let absent = !queue.has(u);
    if absent {
        queue.insert(u, key);
    }
    absent
}

/// Gives a unit that the queue has another key. It answers whether it had it.
fn moves(queue: &mut Runq, u: UnitId, key: i128) -> bool {
    let there = queue.has(u);
    if there {
        queue.rekey(u, key);
    }
    there
}

/// Lets three units come.
fn three_come(queue: &mut Runq) -> [bool; 3]
    requires { queue.old ≡ empty_queue 4 }
{
    [comes(queue, A, 5), comes(queue, B, -5), comes(queue, C, 5)]
}

#[test]
fn equal_keys_keep_the_order_of_arrival(rt: HostRuntime) -> Result<(), Fail> {
    let mut queue = Runq::room(rt.alloc(), 4)?;
    let come = three_come(&mut queue);
    // Two of them get the key of the last.
    let least = domain(queue.first()) == 2;
    let second = moves(&mut queue, B, 5);
    let oldest = domain(queue.first()) == 1;
    let first = moves(&mut queue, A, 6);
    let foreign = queue.remove(FOREIGN);
    let order = drained(&mut queue, [2, 3, 1, 99]);
    drop(queue);
    assert_eq!(rt; come, [true; 3]);
    assert_eq!(rt; [least, second, oldest, first, !foreign, order], [true; 6]);
    Ok(())
}

/// Takes the first eligible unit away, again and again, and answers whether these are the domains in order: 99 where there is none.
fn drained_of_eligible(queues: &mut RtdsQueues, order: [u8; 4]) -> bool {
    let mut right = true;
    for i in 0..4 {
        let first = queues.first();
        right = right && domain(first) == order[i];
        if let Some(u) = first {
            let _ = queues.remove(u);
        }
    }
    right
}

/// Puts a unit that neither list has. It answers whether they had it not.
fn puts(queues: &mut RtdsQueues, u: UnitId, key: RtdsKey, spent: bool) -> bool
    requires place { has_unit_place u ≡ true }
    requires room { 0 < queues.old.spare }
    ensures { queues.old.spare ≤ queues.new.spare + 1 }
{
    let absent = !queues.has(u);
    if absent {
        queues.put(u, key, spent);
    }
    absent
}

/// Renews a unit that one of the lists has. It answers whether one had it.
fn renews(queues: &mut RtdsQueues, u: UnitId, key: RtdsKey) -> bool {
    let there = queues.has(u);
    if there {
        queues.renew(u, key);
    }
    there
}

/// Puts three units, of which one is spent.
fn puts_three(queues: &mut RtdsQueues) -> [bool; 3]
    requires { queues.old ≡ empty_lists 4 }
{
    [
        puts(queues, A, key(0, 20), true),
        puts(queues, B, key(0, 30), false),
        puts(queues, C, key(0, 40), false),
    ]
}

#[test]
fn renewed_units_keep_their_arrival(rt: HostRuntime) -> Result<(), Fail> {
    let mut queues = RtdsQueues::room(rt.alloc(), 4)?;
    let put = puts_three(&mut queues);
    let eligible = domain(queues.first()) == 2;
    let first = renews(&mut queues, A, key(0, 30));
    let oldest = domain(queues.first()) == 1;
    let second = renews(&mut queues, B, key(0, 50));
    let order = drained_of_eligible(&mut queues, [1, 3, 2, 99]);
    drop(queues);
    assert_eq!(rt; put, [true; 3]);
    assert_eq!(rt; [eligible, first, oldest, second, order], [true; 5]);
    Ok(())
}

/// Puts two units, of which the first one by its level may not have core 0.
fn puts_two(queues: &mut RtdsQueues, masks: &mut Masks) -> [bool; 2]
    requires { queues.old ≡ empty_lists 2 }
{
    masks.set(B, Cores(2));
    [
        puts(queues, A, key(1, 10), false),
        puts(queues, B, key(0, 90), false),
    ]
}

#[test]
fn level_before_deadline(rt: HostRuntime) -> Result<(), Fail> {
    let mut masks = Masks::room(rt.alloc())?;
    let mut queues = RtdsQueues::room(rt.alloc(), 2)?;
    let put = puts_two(&mut queues, &mut masks);
    let firsts = [
        domain(queues.first()) == 2,
        domain(queues.first_on(&masks, ResId(0), Cores(3))) == 1,
        domain(queues.first_on(&masks, ResId(0), Cores(1))) == 2,
    ];
    drop(masks);
    let foreign = queues.remove(FOREIGN);
    let order = drained_of_eligible(&mut queues, [2, 1, 99, 99]);
    drop(queues);
    assert_eq!(rt; put, [true; 2]);
    assert_eq!(rt; firsts, [true; 3]);
    assert_eq!(rt; [!foreign, order], [true; 2]);
    Ok(())
}
