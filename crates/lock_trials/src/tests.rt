//! Two seats at the locks of the example.

use lock_example::{
    add_beside_visit, add_core, command_done, core_moved, do_command, opened, visit, visit_all,
    visit_both,
};
use lock_moves::{LockId, NameId, WordId};
use sched_base::ResId;
use std::test::Fail;

#[test]
fn a_taken_lock_is_refused(rt: HostRuntime) -> Result<(), Fail> {
    let (set, mut a) = opened(rt.alloc())?;
    let mut b = set.split(&mut a);
    let held = set.try_lock(&mut a, LockId(16));
    assert!(rt; held.is_some());
    assert!(rt; set.try_lock(&mut b, LockId(16)).is_none());
    assert_eq!(rt; set.read_word(&mut b, WordId::Lock(LockId(16))), 1);
    assert_eq!(rt; set.read_word(&mut b, WordId::Lock(LockId(0))), 0);
    assert_eq!(rt;
        set.read_word(&mut b, WordId::Name(NameId::Res(ResId(1)))),
        16
    );
    assert_eq!(rt; set.read_word(&mut b, WordId::Now), 0);
    assert_eq!(rt; set.read_stage(&mut b, ResId(1)), 0);
    Ok(())
}

#[test]
fn two_seats_take_turns(rt: HostRuntime) -> Result<(), Fail> {
    let room = Vec::with_capacity(rt.alloc(), 17)?;
    let (set, mut a) = opened(rt.alloc())?;
    let mut b = set.split(&mut a);
    assert_eq!(rt; visit(&rt, &set, &mut a, NameId::Res(ResId(1))), (16, 0));
    assert_eq!(rt; visit(&rt, &set, &mut b, NameId::Res(ResId(1))), (16, 0));
    assert_eq!(rt; visit(&rt, &set, &mut a, NameId::Res(ResId(0))), (0, 0));
    set.join(&mut a, b);
    let (values, book) = set.dissolve(a, room);
    assert_eq!(rt; (book.len(), book.limit()), (0, 2));
    assert_eq!(rt; values.len(), 17);
    for (k, value) in values.iter().enumerate() {
        assert_eq!(rt; value.lock as usize, k);
    }
    Ok(())
}

#[test]
fn the_run_of_the_example_call_by_call(rt: HostRuntime) -> Result<(), Fail> {
    let room = Vec::with_capacity(rt.alloc(), 16)?;
    let (set, mut a) = opened(rt.alloc())?;
    let mut b = set.split(&mut a);
    let core = NameId::Res(ResId(1));
    let Some(held) = set.try_lock(&mut a, LockId(0)) else {
        return Err("lock 0 is free".into());
    };
    assert!(rt; set.try_lock(&mut b, LockId(0)).is_none());
    set.unlock(&mut a, held);
    let Some(held) = set.try_lock(&mut b, LockId(0)) else {
        return Err("lock 0 is free again".into());
    };
    set.unlock(&mut b, held);
    assert_eq!(rt; set.read_word(&mut b, WordId::Name(core)), 16);
    let Ok(home) = add_core(&rt, &set, &mut a, room) else {
        return Err("the book is empty".into());
    };
    assert_eq!(rt; home, 0);
    assert_eq!(rt; set.read_word(&mut b, WordId::Name(core)), 0);
    assert_eq!(rt; visit(&rt, &set, &mut b, core), (0, 2));
    set.join(&mut a, b);
    let book = set.close(a);
    assert!(rt; (book.len(), book.get(0), book.get(1)) == (2, command_done(), core_moved()));
    Ok(())
}

#[test]
fn two_threads_visit_a_lock(rt: HostRuntime) -> Result<(), Fail> {
    let (set, mut a) = opened(rt.alloc())?;
    let mut b = set.split(&mut a);
    let seen = visit_both(&rt, &set, &mut a, &mut b, NameId::Res(ResId(0)));
    assert_eq!(rt; seen, ((0, 0), (0, 0)));
    set.join(&mut a, b);
    assert_eq!(rt; set.close(a).len(), 0);
    Ok(())
}

#[test]
fn two_threads_share_the_locks_to_their_end(rt: HostRuntime) -> Result<(), Fail> {
    let room = Vec::with_capacity(rt.alloc(), 16)?;
    let (set, mut a) = opened(rt.alloc())?;
    let b = set.split(&mut a);
    let ((mut a, home), (b, seen)) = add_beside_visit(&rt, &set, a, room, b, NameId::Res(ResId(1)));
    let Ok(home) = home else {
        return Err("the book is empty".into());
    };
    assert_eq!(rt; home, 0);
    assert!(rt; seen == (16, 0) || seen == (0, 2));
    set.join(&mut a, b);
    let book = set.close(a);
    assert!(rt; (book.len(), book.get(0), book.get(1)) == (2, command_done(), core_moved()));
    Ok(())
}

#[test]
fn the_command_is_done_beside_a_held_lock(rt: HostRuntime) -> Result<(), Fail> {
    let (set, mut a) = opened(rt.alloc())?;
    let mut b = set.split(&mut a);
    let Some(held) = set.try_lock(&mut b, LockId(0)) else {
        return Err("lock 0 is free".into());
    };
    let Ok(()) = do_command(&rt, &set, &mut a) else {
        return Err("the book is empty".into());
    };
    set.unlock(&mut b, held);
    set.join(&mut a, b);
    let book = set.close(a);
    assert!(rt; (book.len(), book.get(0)) == (1, command_done()));
    Ok(())
}

#[test]
fn four_threads_visit_a_lock(rt: HostRuntime) -> Result<(), Fail> {
    let (set, mut a) = opened(rt.alloc())?;
    let b = set.split(&mut a);
    let c = set.split(&mut a);
    let d = set.split(&mut a);
    let e = set.split(&mut a);
    let core = NameId::Res(ResId(1));
    visit_all(&rt, &set, &mut [b, c, d, e], core);
    // Each has put the lock back, and the seat that is left finds it free.
    assert_eq!(rt; visit(&rt, &set, &mut a, core), (16, 0));
    Ok(())
}
