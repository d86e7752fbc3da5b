//! The seats of a hall.

ghost use Rattle.std.specs.Prelude.{◌≡◌, ℕ, List};
ghost use Rattle.sched_model.specs.declared.event.Entry.{Entry};
ghost use Rattle.hall.specs.Seats.{IsCountBefore, kept_arrival};

use lock_moves::LockSeat;
use sched_base::ProcId;
use sched_model::event::Event;
use std::marker::Model;

/// An arrival of a processor, and how often its core had decided before it.
#[derive(Clone, Copy)]
pub struct Arrival {
    pub p: ProcId,
    pub decides: u32,
}

/// A seat of a hall: what a thread that works with it has seen. Between two calls it holds no lock. Contracts see what it has seen, and the
/// last of its own arrivals, which it keeps until the processor leaves.
#[derive(Drop)]
pub struct HallSeat {
    pub(crate) seat: LockSeat,
    pub(crate) arrived: Option<Arrival>,
}

impl Model for HallSeat {
    ghost use Rattle.hall.specs.Seats.{Seated, SitsFree};

    ghost Value = { Seated };

    ghost view = { λ s. record { sitting = s.seat; arrived = s.arrived } };

    ghost invariant = { λ s. SitsFree s.seat s.arrived };
}

/// The arrival that is kept after an event, before which the core of an arriving processor had so many decisions.
pub(crate) fn arrived_after(kept: Option<Arrival>, event: Event, decides: u32) -> Option<Arrival>
    ensures { (g : ℕ) (before : List Entry) → IsCountBefore g before event decides → result
        ≡ kept_arrival g before event kept }
{
    match (event, kept) {
        (Event::Arrive { p }, _) => Some(Arrival { p, decides }),
        (Event::Leave { p, .. }, Some(a)) if a.p.0 == p.0 => None,
        _ => kept,
    }
}
