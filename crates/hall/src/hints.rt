//! Hints: whose event comes first in a pool. No contract speaks of them, so whoever follows a wrong one loses time alone.

ghost use Rattle.hall.specs.Seats.{IsOf};
ghost use Rattle.hall.specs.Holds.{IsAsBefore};
ghost use Rattle.journal_core.specs.Parts.{tool_lock};

use crate::all::{put_all, take_all};
use crate::hall::Hall;
use crate::seat::HallSeat;
use crate::turns::Turn;
use lock_moves::WordId;
use machine_parts::PoolSlot;
use sched_base::{Moment, ProcId};
use sched_model::action::{Action, Actor};
use std::sync::Wait;

/// Whose event comes first in each of the 16 pools, where one may come.
#[derive(Clone, Copy)]
pub struct Hints {
    first: [Option<Actor>; 16],
}

impl Hints {
    ghost use Rattle.std.specs.Prelude.{◌<◌};

    /// Of no pool.
    pub fn none() -> Hints {
        let first = [None; 16];
        Hints { first }
    }

    /// Whose event comes first in this pool.
    pub fn first(&self, place: usize) -> Option<Actor>
        requires { place < tool_lock }
    {
        self.first[place]
    }
}

/// Who does an event of a pool, whose first core this is. A core has so many processors.
fn doer(action: Action, granularity: u8, first_core: u8) -> Option<Actor> {
    match action {
        Action::Wake(v) => Some(Actor::Dom(v.dom)),
        Action::Block(p) | Action::Arrive(p) | Action::Leave(p) => Some(Actor::Proc(p)),
        Action::Slice(r) | Action::Decide(r) | Action::Save(r) => {
            Some(Actor::Proc(ProcId(r.0.wrapping_mul(granularity))))
        }
        Action::Repl(_) | Action::Refill(_) => {
            Some(Actor::Proc(ProcId(first_core.wrapping_mul(granularity))))
        }
        Action::Stall | Action::Xl | Action::Moved(_) | Action::DomMoved(_) => None,
    }
}

/// Whose event comes first in the pool at t, where one may come.
pub(crate) fn next_doer(slot: &PoolSlot, t: Moment, granularity: u8) -> Option<Actor> {
    let action = slot.first_enabled(t)?;
    let (cores, _) = slot.members();
    doer(action, granularity, cores.trailing_zeros() as u8)
}

/// Whose event comes first at t in each of the pools whose places these are.
pub(crate) fn read_hints(slots: &[PoolSlot], t: Moment, granularity: u8) -> Hints {
    let mut first = [None; 16];
    for (slot, hint) in slots.iter().zip(&mut first) {
        *hint = next_doer(slot, t, granularity);
    }
    Hints { first }
}

/// Hints for the moment that follows where the turn ended one and they are asked for, and none else.
pub(crate) fn hints_behind(turn: Turn, slots: &[PoolSlot], granularity: u8, looks: bool) -> Hints {
    match turn {
        Turn::Closed { next, .. } if looks => read_hints(slots, next, granularity),
        _ => Hints::none(),
    }
}

impl Hall {
    /// Whose event comes first in each pool now. It waits for locks.
    pub fn look<R: Wait>(&self, rt: &R, seat: &mut HallSeat) -> Hints
        requires of { IsOf self.now seat.old }
        ensures { IsAsBefore seat.old seat.new }
    {
        let all = take_all(rt, &self.set, &mut seat.seat);
        let t = Moment(self.set.read_word(&mut seat.seat, WordId::Now));
        let hints = read_hints(all.slots.as_slice(), t, self.granularity);
        put_all(&self.set, &mut seat.seat, all);
        hints
    }
}
