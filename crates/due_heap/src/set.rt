//! The moments of at most 64 ids, kept so that what has come is at hand.
//!
//! Two words tell of each id whether its moment had come at the moment last told, or is after that. So a change of one id is a few
//! operations on words, and the least of the ids that have come is the lowest bit of a word. Beside them stands a bound: no id that is
//! later goes before it. Before the bound's moment nothing more comes, so that moments are told without a look at any id.

ghost use Rattle.std.specs.Prelude.{ℕ, ◌≡◌, ◌<◌, ◌≤◌, ◌^◌, ◌&&◌, not, true, false, if◌then◌else◌, length, IsTrue, IfNone, IfSome};
ghost use Rattle.due_heap.specs.Dues.{IsArmed, GoesFirst};
ghost use Rattle.due_heap.specs.Winners.{is_armed_due};
ghost use Rattle.due_heap.specs.Words.{AreWords, IsFirstAmong, IsFirstCome, Sifts, TakesDue, first_with_id, has_core_bit};

use crate::bits::{difference, lowest, put_id, union, without};
use crate::order::{due_of, goes_before, is_due};
use sched_base::{Moment, NoMemory};
use std::alloc::Global;
use std::marker::Model;

/// What the words tell of the ids.
#[derive(Drop)]
pub struct Words {
    /// The moment last told.
    told: Moment,
    /// The armed ids whose moment is not after the one told.
    come: u64,
    /// The armed ids whose moment is after the one told.
    later: u64,
    /// No id that is later goes before one that has this moment and the number `next`.
    soon: Moment,
    next: u16,
}

/// The moments of the ids. Contracts see them as a list in the order of the ids, with none where an id is not armed.
#[derive(Drop)]
pub struct DueSet {
    moments: Vec<Option<Moment>>,
    words: Words,
}

impl Model for DueSet {
    ghost use Rattle.std.specs.Prelude.{List, Option};
    ghost use Rattle.sched_base.specs.declared.Moment.{Moment};

    ghost Value = { List (Option Moment) };

    ghost use Rattle.due_heap.specs.Words.{AreWords};

    ghost view = { λ a. a.moments.items };

    ghost invariant = { λ a. AreWords a.moments.items a.words };
}

/// An id takes its moment, or none.
#[inline]
fn take_due(words: &mut Words, id: u16, due: Option<Moment>)
    requires { id < 64 }
    ensures { TakesDue id due words.old words.new }
{
    match due {
        None => take_none(words, id),
        Some(at) => take_moment(words, id, at),
    }
}

/// An id is armed with this moment.
#[inline]
fn take_moment(words: &mut Words, id: u16, at: Moment)
    requires { id < 64 }
    ensures { TakesDue id (Some at) words.old words.new }
{
    let is_past = at.0 <= words.told.0;
    words.come = put_id(words.come, id, is_past);
    words.later = put_id(words.later, id, !is_past);
    if !is_past && goes_before(at, id, words.soon, words.next) {
        words.soon = at;
        words.next = id;
    }
}

/// An id is disarmed.
#[inline]
fn take_none(words: &mut Words, id: u16)
    requires { id < 64 }
    ensures { TakesDue id None words.old words.new }
{
    words.come = put_id(words.come, id, false);
    words.later = put_id(words.later, id, false);
}

/// Of the first so far and an id with its moment, if it is armed, the one that goes first.
fn first_with(first: Option<(Moment, u16)>, due: Option<Moment>, id: u16) -> Option<(Moment, u16)>
    ensures { result ≡ first_with_id first due id }
{
    match (first, due) {
        (_, None) => first,
        (None, Some(at)) => Some((at, id)),
        (Some((other, other_id)), Some(at)) => if goes_before(at, id, other, other_id) {
            Some((at, id))
        } else {
            first
        },
    }
}

/// The first of a set's armed ids, by moment, then by id. `None` where there is none.
fn first_of(moments: &[Option<Moment>], set: u64) -> Option<(Moment, u16)>
    requires { length moments.now ≤ 64 }
    ensures { IsFirstAmong moments.now (has_core_bit set) result }
{
    let mut rest = set;
    let mut first = None;
    while let Some(id) = lowest(rest) {
        rest = without(rest, id);
        first = first_with(first, due_of(moments, id), id);
    }
    first
}

/// What a walk over some ids has found: those whose moment has come, and a bound that none of the others goes before.
#[derive(Drop)]
struct Sifted {
    come: u64,
    soon: Moment,
    next: u16,
}

/// One id more is looked at.
#[inline]
fn sift_one(moments: &[Option<Moment>], id: u16, t: Moment, sifted: &mut Sifted)
    requires few { id < 64 }
    requires new { has_core_bit sifted.old.come id ≡ false }
    ensures { Sifts moments.now id t.0 sifted.old sifted.new }
{
    match due_of(moments, id) {
        None => (),
        Some(at) => if at.0 <= t.0 {
            sifted.come = put_id(sifted.come, id, true);
        } else if goes_before(at, id, sifted.soon, sifted.next) {
            sifted.soon = at;
            sifted.next = id;
        },
    }
}

/// Those of a set whose moment has come at t, and a bound that none of the others goes before.
fn sift(moments: &[Option<Moment>], set: u64, t: Moment) -> Sifted
    requires { length moments.now ≤ 64 }
    ensures come { (id : ℕ) → id < 64 → has_core_bit result.come id
        ≡ (has_core_bit set id && is_armed_due moments.now t.0 id) }
    ensures soon { (id : ℕ) (at : Moment) → has_core_bit set id ≡ true → IsArmed moments.now id at →
        t.0 < at.0 → GoesFirst result.soon result.next at id }
{
    let mut rest = set;
    let mut sifted = Sifted {
        come: 0,
        soon: Moment(u64::MAX),
        next: 0,
    };
    while let Some(id) = lowest(rest) {
        rest = without(rest, id);
        sift_one(moments, id, t, &mut sifted);
    }
    sifted
}

/// A moment is told at which an id may come.
#[inline(never)]
fn look(moments: &[Option<Moment>], t: Moment, words: &mut Words)
    requires words { AreWords moments.now words.old }
    requires after { words.old.told.0 ≤ t.0 }
    ensures { AreWords moments.now words.new }
{
    let sifted = sift(moments, words.later, t);
    words.told = t;
    words.come = union(words.come, sifted.come);
    words.later = difference(words.later, sifted.come);
    words.soon = sifted.soon;
    words.next = sifted.next;
}

/// A moment is told. One that is not after the last one changes nothing.
#[inline]
fn tell(moments: &[Option<Moment>], t: Moment, words: &mut Words)
    requires { AreWords moments.now words.old }
    ensures { AreWords moments.now words.new }
{
    if t.0 <= words.told.0 {
        return;
    }
    if t.0 < words.soon.0 {
        words.told = t;
    } else {
        look(moments, t, words);
    }
}

/// The least id whose moment has come at t, by a look at each that is armed.
#[inline(never)]
fn first_by_look(moments: &[Option<Moment>], t: Moment, words: &Words) -> Option<u16>
    requires { AreWords moments.now words.now }
    ensures { IsFirstCome moments.now t.0 result }
{
    let mut rest = union(words.come, words.later);
    while let Some(id) = lowest(rest) {
        if is_due(moments, id, t) {
            return Some(id);
        }
        rest = without(rest, id);
    }
    None
}

/// Whether what had come at the moment last told is what has come at t: from that moment on, up to the bound.
#[inline]
fn is_at_hand(words: &Words, t: Moment) -> bool
    ensures not_before { IsTrue result → words.now.told.0 ≤ t.0 }
    ensures till { IsTrue result → words.now.told.0 < t.0 → t.0 < words.now.soon.0 }
{
    t.0 == words.told.0 || (words.told.0 < t.0 && t.0 < words.soon.0)
}

/// The least id whose moment has come at t, at hand or by a look at each that is armed.
#[inline]
fn first_come(moments: &[Option<Moment>], t: Moment, words: &Words) -> Option<u16>
    requires { AreWords moments.now words.now }
    ensures { IsFirstCome moments.now t.0 result }
{
    if is_at_hand(words, t) {
        lowest(words.come)
    } else {
        first_by_look(moments, t, words)
    }
}

/// The first of the armed ids, by moment, then by id: at hand where none has come and the bound is one of them.
fn first_armed(moments: &[Option<Moment>], words: &Words) -> Option<(Moment, u16)>
    requires { AreWords moments.now words.now }
    ensures { IsFirstAmong moments.now (λ _. true) result }
{
    if words.come == 0 && due_of(moments, words.next) == Some(words.soon) {
        return Some((words.soon, words.next));
    }
    first_of(moments, union(words.come, words.later))
}

impl DueSet {
    ghost use Rattle.std.specs.Prelude.{ℕ, ◌≡◌, ◌<◌, ◌≤◌, Some, None, IfOk, IfSome, IfNone, length, replicate, slice_set};
    ghost use Rattle.due_heap.specs.Dues.{IsArmed, GoesFirst, HasCome};

    /// The moments of the ids below n, at most 64, none of them armed.
    pub fn room(alloc: Global, n: usize) -> Result<DueSet, NoMemory>
        requires few { n ≤ 64 }
        ensures { IfOk result (λ set. set ≡ replicate n None) }
    {
        let moments = vec![in alloc; None; n]?;
        Ok(DueSet {
            moments,
            words: Words {
                told: Moment(0),
                come: 0,
                later: 0,
                soon: Moment(u64::MAX),
                next: 0,
            },
        })
    }

    /// Gives an id below the room its moment, or none.
    #[inline]
    fn set_due(&mut self, id: u16, due: Option<Moment>)
        requires { id < length self.old }
        ensures { self.new ≡ slice_set self.old id due }
    {
        if self.moments[id as usize] == due {
            return;
        }
        self.moments[id as usize] = due;
        take_due(&mut self.words, id, due);
    }

    /// Makes an id below the room due at a moment, in place of the moment that it had.
    #[inline]
    pub fn arm(&mut self, id: u16, at: Moment)
        requires { id < length self.old }
        ensures { self.new ≡ slice_set self.old id (Some at) }
    {
        self.set_due(id, Some(at));
    }

    /// Makes an id due at no moment. An id that is not armed, or not below the room, changes nothing.
    #[inline]
    pub fn disarm(&mut self, id: u16)
        ensures { self.new ≡ slice_set self.old id None }
    {
        if (id as usize) < self.moments.len() {
            self.set_due(id, None);
        }
    }

    /// From now on the least of the ids that have come at t is at hand. A moment that is not after the one last told changes nothing.
    #[inline]
    pub fn advance(&mut self, t: Moment)
        ensures { self.new ≡ self.old }
    {
        tell(self.moments.as_slice(), t, &mut self.words);
    }

    /// The least of the ids whose moment has come at t, in a few steps where t is the moment last told or nothing comes from that one
    /// up to t, else by a look at each that is armed. `None` where none has come.
    #[inline]
    pub fn first_due(&self, t: Moment) -> Option<u16>
        ensures none { IfNone result ((id : ℕ) (at : Moment) → IsArmed self.now id at →
            t.0 < at.0) }
        ensures come { IfSome result (λ id. HasCome self.now t.0 id) }
        ensures first { IfSome result (λ id. (other : ℕ) → HasCome self.now t.0 other → id
            ≤ other) }
    {
        first_come(self.moments.as_slice(), t, &self.words)
    }

    /// The first of the armed ids with its moment: the least by moment, then by id. `None` where none is armed.
    pub fn least(&self) -> Option<(Moment, u16)>
        ensures none { IfNone result ((id : ℕ) (at : Moment) → ¬ IsArmed self.now id at) }
        ensures armed { IfSome result (λ due. IsArmed self.now due.1 due.0) }
        ensures first { IfSome result (λ due. (id : ℕ) (at : Moment) → IsArmed self.now id at →
            GoesFirst due.0 due.1 at id) }
    {
        first_armed(self.moments.as_slice(), &self.words)
    }
}
