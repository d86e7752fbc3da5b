//! The run of the example: under all locks, the command is done, and the core moves.

ghost use Rattle.std.specs.Prelude.{◌≡◌, ◌+◌, ◌<◌, ◌≤◌, ◌⊎◌, [], IsFalse, IfOk, IfErr, OnOk, MatchBool, length, take, vec_capacity};
ghost use mathlib.Core.List.{IsPrefix};
ghost use Rattle.lock_moves.specs.SeatSight.{HoldsBelow, KnowsBelow};
ghost use Rattle.lock_example.specs.Example.{adding_machine, has_moved, is_added, two_entries};
ghost use Rattle.lock_example.specs.Holders.{AreFrom, Stands, Differs, StopsAt};

use crate::counter::Counter;
use lock_moves::{Held, HeldBook, LockId, LockSeat, LockSet, NameId, WordId};
use sched_base::{Moment, PoolId, ResId};
use sched_model::event::{Entry, Event, Reply};
use std::sync::Wait;

/// The first entry of the run: the command is done.
pub fn command_done() -> Entry
    ensures { result ≡ is_added }
{
    Entry {
        at: Moment(0),
        event: Event::Xl {
            k: 1,
            reply: Ok(Reply::Done),
        },
    }
}

/// The second entry of the run: core 1 has joined pool 0.
pub fn core_moved() -> Entry
    ensures { result ≡ has_moved }
{
    Entry {
        at: Moment(0),
        event: Event::Moved {
            r: ResId(1),
            to: Some(PoolId(0)),
        },
    }
}

// Takes the next lock.
fn take_next<R: Wait>(
    rt: &R,
    set: &LockSet<Counter>,
    seat: &mut LockSeat,
    lock: u8,
) -> Held<Counter>
    requires number { lock < 17 }
    requires stands { Stands set.now [] seat.old.view.shares seat.old }
    requires below { HoldsBelow lock seat.old.view }
    ensures lock { result.lock ≡ lock }
    ensures stands { Stands set.now [] seat.old.view.shares seat.new }
    ensures below { HoldsBelow (lock + 1) seat.new.view }
{
    set.lock(rt, seat, LockId(lock))
}

// Puts back the last lock, with its part after the run.
fn put_last(set: &LockSet<Counter>, seat: &mut LockSeat, held: Held<Counter>)
    requires number { held.lock < 17 }
    requires stands { Stands set.now two_entries seat.old.view.shares seat.old }
    requires below { KnowsBelow adding_machine (held.lock + 1) two_entries seat.old.view }
    ensures stands { Stands set.now two_entries seat.old.view.shares seat.new }
    ensures below { KnowsBelow adding_machine held.lock two_entries seat.new.view }
{
    let mut held = held;
    let lock = held.lock().0;
    *held.get_mut() = Counter::new(lock, 2);
    set.unlock(seat, held);
}

// Adds the first entry, where the history is empty and has room.
pub(crate) fn write_first(book: &mut HeldBook) -> bool
    requires input { book.old.input ≡ adding_machine }
    ensures input { book.new.input ≡ book.old.input }
    ensures limit { book.new.limit ≡ book.old.limit }
    ensures written { MatchBool result ((book.old.history ≡ [])
        × (book.new.history ≡ take 1 two_entries)) (book.new ≡ book.old) }
    ensures refused { IsFalse result → Differs [] book.old }
{
    if book.get().len() != 0 || !book.get().room_left() {
        return false;
    }
    book.get_mut().commit(command_done());
    true
}

// Adds the second entry, where the history has the first alone, and has room.
fn write_second(book: &mut HeldBook) -> bool
    requires input { book.old.input ≡ adding_machine }
    requires begins { IsPrefix (take 1 two_entries) book.old.history }
    ensures input { book.new.input ≡ book.old.input }
    ensures limit { book.new.limit ≡ book.old.limit }
    ensures written { MatchBool result ((book.old.history ≡ take 1 two_entries)
        × (book.new.history ≡ two_entries)) (book.new ≡ book.old) }
    ensures refused { IsFalse result → Differs (take 1 two_entries) book.old }
{
    if book.get().len() != 1 || !book.get().room_left() {
        return false;
    }
    book.get_mut().commit(core_moved());
    true
}

// Takes the book and adds the first entry, where the history is empty and has room. Otherwise the answer is the book, which stays taken.
fn add_first<R: Wait>(rt: &R, set: &LockSet<Counter>, seat: &mut LockSeat) -> Result<(), HeldBook>
    requires stands { Stands set.now [] seat.old.view.shares seat.old }
    requires below { HoldsBelow 17 seat.old.view }
    ensures stands { OnOk result (Stands set.now (take 1 two_entries) seat.old.view.shares
        seat.new) }
    ensures below { OnOk result (KnowsBelow adding_machine 17 (take 1 two_entries) seat.new.view) }
    ensures refused { IfErr result (λ b. StopsAt set.now [] seat.old.view.shares b seat.new) }
{
    let mut book = set.take_book(rt, seat);
    if !write_first(&mut book) {
        return Err(book);
    }
    set.commit(seat, book);
    Ok(())
}

// Takes the book, moves core 1 from the tool's part to that of the pool, and adds the second entry, where the history has the first alone
// and has room. Otherwise the answer is the book, which stays taken.
fn add_second<R: Wait>(
    rt: &R,
    set: &LockSet<Counter>,
    seat: &mut LockSeat,
    tool: &mut Held<Counter>,
    pool: &mut Held<Counter>,
) -> Result<(), HeldBook>
    requires tool { tool.old.lock ≡ 16 }
    requires pool { pool.old.lock ≡ 0 }
    requires stands { Stands set.now (take 1 two_entries) seat.old.view.shares seat.old }
    requires below { KnowsBelow adding_machine 17 (take 1 two_entries) seat.old.view }
    ensures tool { tool.new ≡ tool.old }
    ensures pool { pool.new ≡ pool.old }
    ensures stands { OnOk result (Stands set.now two_entries seat.old.view.shares seat.new) }
    ensures below { OnOk result (KnowsBelow adding_machine 17 two_entries seat.new.view) }
    ensures refused { IfErr result (λ b. StopsAt set.now (take 1 two_entries) seat.old.view.shares b
        seat.new) }
{
    let mut book = set.take_book(rt, seat);
    if !write_second(&mut book) {
        return Err(book);
    }
    set.move_name(seat, NameId::Res(ResId(1)), tool, pool);
    set.commit(seat, book);
    Ok(())
}

// The lock of core 1 after the run, by its word.
fn new_home(set: &LockSet<Counter>, seat: &mut LockSeat) -> u64
    requires stands { Stands set.now two_entries seat.old.view.shares seat.old }
    requires below { KnowsBelow adding_machine 17 two_entries seat.old.view }
    ensures pool { result ≡ 0 }
    ensures same { seat.new ≡ seat.old }
{
    set.read_word(seat, WordId::Name(NameId::Res(ResId(1))))
}

// Takes the locks after the first, in order.
fn take_rest<R: Wait>(
    rt: &R,
    set: &LockSet<Counter>,
    seat: &mut LockSeat,
    held: &mut Vec<Held<Counter>>,
)
    requires stands { Stands set.now [] seat.old.view.shares seat.old }
    requires below { HoldsBelow 1 seat.old.view }
    requires empty { held.old.items ≡ [] }
    requires room { 16 ≤ vec_capacity held.old }
    ensures stands { Stands set.now [] seat.old.view.shares seat.new }
    ensures below { HoldsBelow 17 seat.new.view }
    ensures all { length held.new.items ≡ 16 }
    ensures order { AreFrom 1 held.new.items }
{
    for lock in 1..17u8 {
        held.push_reserved(take_next(rt, set, seat, lock));
    }
}

// Puts back the locks after the first, the last one first.
fn put_rest(set: &LockSet<Counter>, seat: &mut LockSeat, held: Vec<Held<Counter>>)
    requires stands { Stands set.now two_entries seat.old.view.shares seat.old }
    requires few { length held.items ≤ 16 }
    requires order { AreFrom 1 held.items }
    requires below { KnowsBelow adding_machine (1 + length held.items) two_entries seat.old.view }
    ensures stands { Stands set.now two_entries seat.old.view.shares seat.new }
    ensures below { KnowsBelow adding_machine 1 two_entries seat.new.view }
{
    let mut held = held;
    while let Some(last) = held.pop() {
        put_last(set, seat, last);
    }
}

/// Takes all locks in order, does the two entries of the run, reads the word of core 1, and puts all locks back. The answer is what the word was.
/// `room` is empty, with room for 16 values. Where the book had other entries, or no room for a further one, the answer is the book,
/// and what was taken stays taken.
pub fn add_core<R: Wait>(
    rt: &R,
    set: &LockSet<Counter>,
    seat: &mut LockSeat,
    room: Vec<Held<Counter>>,
) -> Result<u64, HeldBook>
    requires stands { Stands set.now [] seat.old.view.shares seat.old }
    requires nothing { seat.old.view.held ≡ [] }
    requires empty { room.items ≡ [] }
    requires room { 16 ≤ vec_capacity room }
    ensures home { IfOk result (λ lock. lock ≡ 0) }
    ensures stands { OnOk result (Stands set.now two_entries seat.old.view.shares seat.new) }
    ensures nothing { OnOk result (seat.new.view.held ≡ []) }
    ensures refused { IfErr result (λ b. StopsAt set.now [] seat.old.view.shares b seat.new
        ⊎ StopsAt set.now (take 1 two_entries) seat.old.view.shares b seat.new) }
{
    let mut held = room;
    let mut pool = take_next(rt, set, seat, 0);
    take_rest(rt, set, seat, &mut held);
    if let Err(book) = add_first(rt, set, seat) {
        return Err(book);
    }
    let Some(mut tool) = held.pop() else {
        unreachable!()
    };
    if let Err(book) = add_second(rt, set, seat, &mut tool, &mut pool) {
        return Err(book);
    }
    let home = new_home(set, seat);
    put_last(set, seat, tool);
    put_rest(set, seat, held);
    put_last(set, seat, pool);
    Ok(home)
}
