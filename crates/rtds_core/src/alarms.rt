//! The moments at which units are replenished: a heap of them, and beside it each unit's own.

ghost use Rattle.std.specs.Prelude.{◌≡◌, ◌<◌, length, replicate, IfOk};
ghost use Rattle.rtds_core.specs.Alarms.{unit_of_id, timer_of};
ghost use Rattle.unit_places.specs.Places.{unit_index};

use due_heap::DueHeap;
use sched_base::{DomId, Moment, NoMemory, UnitId};
use sched_ops::Timer;
use std::alloc::Global;
use std::marker::Model;
use unit_places::PLACES;

/// The alarms. Contracts see the list of the units' moments by id, none where a unit has none.
#[derive(Drop)]
pub struct Alarms {
    heap: DueHeap,
    dues: Vec<Option<Moment>>,
}

impl Model for Alarms {
    ghost use Rattle.std.specs.Prelude.{List, Option};
    ghost use Rattle.sched_base.specs.declared.Moment.{Moment};

    ghost Value = { List (Option Moment) };

    ghost use Rattle.std.specs.Prelude.{◌≡◌, length};

    ghost view = { λ a. a.dues.items };

    ghost invariant = { λ a. (a.heap ≡ a.dues.items) × (length a.dues.items ≡ 2048) };
}

fn none_times(alloc: Global, times: usize) -> Result<Vec<Option<Moment>>, NoMemory>
    ensures { IfOk result (λ all. all.items ≡ replicate times None) }
{
    Ok(vec![in alloc; None; times]?)
}

fn id_of_unit(u: UnitId) -> u16
    ensures { result ≡ unit_index u }
{
    u.dom.0 as u16 * 32 + u.n as u16
}

fn unit_of(id: u16) -> UnitId
    requires { id < 2048 }
    ensures { result ≡ unit_of_id id }
{
    UnitId {
        dom: DomId((id / 32) as u8),
        n: (id % 32) as u8,
    }
}

fn timer_at(dues: &[Option<Moment>], id: u16) -> Option<(Moment, Timer)>
    requires length { length dues.now ≡ 2048 }
    requires inside { id < 2048 }
    ensures { result ≡ timer_of dues.now id }
{
    match dues[id as usize] {
        None => None,
        Some(at) => Some((at, Timer::Repl(unit_of(id)))),
    }
}

impl Alarms {
    ghost use Rattle.std.specs.Prelude.{◌≡◌, ◌<◌, IfOk, Some, None, replicate, length};
    ghost use Rattle.unit_places.specs.Places.{unit_index};
    ghost use Rattle.rtds_core.specs.Alarms.{armed_timers, with_due};
    ghost use Rattle.sched_ops.specs.Timers.{next_armed};
    /// Alarms of which none is set.
    pub fn room(alloc: Global) -> Result<Alarms, NoMemory>
        ensures { IfOk result (λ alarms. alarms ≡ replicate 2048 None) }
    {
        let heap = DueHeap::room(alloc, PLACES)?;
        let dues = none_times(alloc, PLACES)?;
        Ok(Alarms { heap, dues })
    }

    /// The unit's moment is this one, in place of the one that it had.
    pub fn arm(&mut self, u: UnitId, at: Moment)
        requires { unit_index u < 2048 }
        ensures { self.new ≡ with_due u (Some at) self.old }
    {
        let id = id_of_unit(u);
        self.heap.arm(id, at);
        self.dues[id as usize] = Some(at);
    }

    /// The unit has no moment.
    pub fn disarm(&mut self, u: UnitId)
        requires { unit_index u < 2048 }
        ensures { self.new ≡ with_due u None self.old }
    {
        let id = id_of_unit(u);
        self.heap.disarm(id);
        self.dues[id as usize] = None;
    }

    /// The first timer whose moment has come at t, in order of domain and unit; where there is none, the one of the least
    /// moment. The heap knows both.
    pub fn next(&self, t: Moment) -> Option<(Moment, Timer)>
        ensures { result ≡ next_armed t.0 (armed_timers 0 self.now) }
    {
        match self.heap.first_due(t) {
            Some(id) => timer_at(self.dues.as_slice(), id),
            None => {
                let (at, id) = self.heap.least()?;
                Some((at, Timer::Repl(unit_of(id))))
            }
        }
    }
}
