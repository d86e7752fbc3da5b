//! What a seat does for the actors of a machine, up to the end of its run.

ghost use Rattle.std.specs.Prelude.{◌≡◌, ◌≤◌, ◌+◌};
ghost use Rattle.hall.specs.Seats.{IsOf};
ghost use Rattle.machine_trials.specs.TrialSeats.{AreActors};

use crate::numbering::Actors;
use hall::{Done, Hall, HallSeat, Turn};
use sched_io::Gate;
use std::sync::Wait;

/// More turns than a run has entries.
pub const MOST_TURNS: u32 = 4_000_001;

/// Which calls the seats make: each acts for every fourth actor, or for all, and takes a turn of the whole machine where none of them has an
/// event; or it takes turns alone; or it acts for every fourth actor, and the turns are taken by another seat.
#[derive(Clone, Copy)]
pub enum Way {
    Parted,
    Each,
    Turns,
    Rounds,
}

impl Way {
    /// The way with this name.
    pub fn named(name: &str) -> Option<Way> {
        match name.as_bytes() {
            b"parted" => Some(Way::Parted),
            b"each" => Some(Way::Each),
            b"turns" => Some(Way::Turns),
            b"rounds" => Some(Way::Rounds),
            _ => None,
        }
    }

    /// Whether the seat with this number, from 0, acts for this actor.
    fn acts(self, seat: usize, actor: u16) -> bool {
        match self {
            Way::Parted | Way::Rounds => usize::from(actor % 4) == seat,
            Way::Each => true,
            Way::Turns => false,
        }
    }
}

/// Acts for this actor, where the way has the seat act for it. It answers whether that did an event.
fn acts_at<R: Wait, G: Gate>(
    rt: &R,
    hall: &Hall,
    actors: Actors,
    seat: &mut HallSeat,
    mine: (Way, usize),
    actor: u16,
    gate: &G,
) -> bool
    requires of { IsOf hall.now seat.old }
    requires actors { AreActors hall.now.opened.input.config actors }
    requires few { actor ≤ actors.processors + actors.domains }
    ensures of { IsOf hall.now seat.new }
    ensures parts { seat.new.sitting.view.shares ≡ seat.old.sitting.view.shares }
{
    let (way, i) = mine;
    way.acts(i, actor)
        && matches!(
            hall.act(rt, seat, actors.nth(actor), gate),
            Ok(Done::Event { .. })
        )
}

/// Acts once for each actor of the seat i. It answers whether one of them did an event.
fn acts_once<R: Wait, G: Gate>(
    rt: &R,
    hall: &Hall,
    actors: Actors,
    seat: &mut HallSeat,
    mine: (Way, usize),
    gate: &G,
) -> bool
    requires of { IsOf hall.now seat.old }
    requires actors { AreActors hall.now.opened.input.config actors }
    ensures of { IsOf hall.now seat.new }
    ensures parts { seat.new.sitting.view.shares ≡ seat.old.sitting.view.shares }
{
    let mut some = false;
    for k in 0..actors.last() + 1 {
        some |= acts_at(rt, hall, actors, seat, mine, k, gate);
    }
    some
}

/// Acts for the actors of the seat i, until none of them does an event.
pub fn act_all<R: Wait, G: Gate>(
    rt: &R,
    hall: &Hall,
    actors: Actors,
    seat: &mut HallSeat,
    mine: (Way, usize),
    gate: &G,
)
    requires of { IsOf hall.now seat.old }
    requires actors { AreActors hall.now.opened.input.config actors }
    ensures of { IsOf hall.now seat.new }
    ensures parts { seat.new.sitting.view.shares ≡ seat.old.sitting.view.shares }
{
    for _ in 0..MOST_TURNS {
        if !acts_once(rt, hall, actors, seat, mine, gate) {
            return;
        }
    }
}

/// Takes a turn of the whole machine. It answers whether none follows: the run is over, or the book is full.
pub fn is_last_turn<R: Wait>(rt: &R, hall: &Hall, seat: &mut HallSeat) -> bool
    requires of { IsOf hall.now seat.old }
    ensures of { IsOf hall.now seat.new }
    ensures parts { seat.new.sitting.view.shares ≡ seat.old.sitting.view.shares }
{
    !matches!(
        hall.close_or_step(rt, seat),
        Ok(Turn::Stepped { .. } | Turn::Closed { .. })
    )
}

/// Goes to the end of the run as the seat i: acts for its actors until none does an event and takes a turn, until none follows. It answers how many turns
/// were taken.
pub fn go_to_the_end<R: Wait, G: Gate>(
    rt: &R,
    hall: &Hall,
    actors: Actors,
    seat: &mut HallSeat,
    mine: (Way, usize),
    gate: &G,
) -> u32
    requires of { IsOf hall.now seat.old }
    requires actors { AreActors hall.now.opened.input.config actors }
    ensures of { IsOf hall.now seat.new }
    ensures parts { seat.new.sitting.view.shares ≡ seat.old.sitting.view.shares }
{
    for turn in 1..MOST_TURNS {
        act_all(rt, hall, actors, seat, mine, gate);
        if is_last_turn(rt, hall, seat) {
            return turn;
        }
    }
    MOST_TURNS
}
