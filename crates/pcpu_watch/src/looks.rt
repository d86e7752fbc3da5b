//! What was seen of a watched run.

ghost use Rattle.std.specs.Prelude.{◌≡◌};

use sched_base::{Moment, NoMemory};
use status_board::Totals;
use std::alloc::Global;
use std::marker::Model;

/// What a look at the board showed: the number of entries, and the moment of the last of them in nanoseconds; 0 where there is none.
#[derive(Clone, Copy, Default)]
pub struct Look {
    pub entries: u64,
    pub moment: Moment,
}

/// The looks of a run, in their order. All memory for them is taken when it is made.
#[derive(Drop)]
pub struct Looks {
    looks: Vec<Look>,
    room: u32,
}

impl Model for Looks {
    ghost use Rattle.std.specs.Prelude.{vec_capacity};
    ghost use Rattle.pcpu_watch.specs.Looks.{FitIn, LookList};

    ghost Value = { LookList };

    ghost view = { λ l. record { items = l.looks.items; room = l.room } };

    ghost invariant = { λ l. FitIn l.looks.items l.room (vec_capacity l.looks) };
}

/// What the totals show.
pub(crate) fn shown(totals: &Totals) -> Look
    ensures { result ≡ record { entries = totals.now.entries; moment = totals.now.moment } }
{
    Look {
        entries: totals.entries,
        moment: totals.moment,
    }
}

impl Looks {
    ghost use Rattle.std.specs.Prelude.{◌≡◌, ◌<◌, ◌++◌, ◌∷◌, [], Some, IfOk, length, slice_get};

    /// No looks, with room for so many.
    pub fn room(alloc: Global, n: u32) -> Result<Looks, NoMemory>
        ensures { IfOk result (λ looks. looks ≡ record { items = []; room = n }) }
    {
        let looks = Vec::with_capacity(alloc, n as usize)?;
        Ok(Looks { looks, room: n })
    }

    /// How many looks there are.
    pub fn len(&self) -> u32
        ensures { result ≡ length self.now.items }
    {
        self.looks.len() as u32
    }

    /// The look with this number, from 0.
    pub fn get(&self, number: u32) -> Look
        requires { number < length self.now.items }
        ensures { slice_get self.now.items number ≡ Some result }
    {
        self.looks[number as usize]
    }

    /// The most looks that there may be.
    pub(crate) fn most(&self) -> u32
        ensures { result ≡ self.now.room }
    {
        self.room
    }

    /// Adds a look.
    pub(crate) fn push(&mut self, look: Look)
        requires { length self.old.items < self.old.room }
        ensures { self.new ≡ record self.old { items = self.old.items ++ look ∷ [] } }
    {
        self.looks.push_reserved(look);
    }
}
