//! The null scheduler as a scheduler of a pool.
//!
//! *Design.* Each core is kept for one unit or for none (`Kept`). It is given to that unit as long as the unit is in the pool and may be on
//! the core. Such a core runs its unit or none: it idles while its unit sleeps. A core that is given to no unit takes the earliest of those
//! that wait, may have it, and are given no core, and is kept for it from then on. A core that decides while it leaves is kept for none.
//! There is nothing to charge and no end of a slice: a core decides again where its unit stops, or may not be there any more.
//!
//! *Queue scheme.* Units wait in order of arrival, with a mark for each in a table (`pool_units`). A core that is given to a unit asks for
//! that mark alone. The queue is walked only for a core that is given to none, and not at all while no unit waits. A unit that comes to wait is
//! taken by its own core, if that idles; one that is given none, by a core that is given to none.
//!
//! *Locking.* There is none here: a scheduler is owned by its pool, and a pool is what a schedule lock guards (`hall`). Only `reserve`
//! takes memory.
//!
//! *Ordering.* The unit that came to wait earlier goes first. No unit is better than a core's own. There are no timers.
//!
//! `Null` has its two parts, or none before the first `reserve`.

use crate::kept::Kept;
use crate::state::{NullParts, choose, is_wanted, wanted_for};
use pool_units::PoolUnits;
use sched_base::{Cores, DomId, Moment, NoMemory, UnitId};
use sched_model::ask::Ask;
use sched_model::config::{DomParams, ParamChange, PoolParams};
use sched_model::event::Event;
use sched_model::facts::Stored;
use sched_model::state::Resource;
use sched_ops::{Choice, Places, Policy, Timer, wanted_where};
use std::alloc::Global;
use std::marker::Model;
use std::mem;

/// The null scheduler of one pool. It holds no memory until the first `reserve`, and has no place for a domain and no core then.
///
/// Contracts see what they see of every scheduler: the waiting units, the sets of cores, the unit or none that each core is kept for, how
/// many units may still join, and the greatest moment given.
#[derive(Drop)]
pub struct Null {
    parts: Option<NullParts>,
    latest: u64,
}

impl Model for Null {
    ghost use Rattle.sched_ops.specs.Seen.{Seen};

    ghost Value = { Seen };

    ghost use Rattle.sched_null.specs.NullView.{seen_by};

    ghost view = { λ a. seen_by a.parts a.latest };
}

impl Null {
    ghost use Rattle.std.specs.Prelude.{◌≡◌};
    ghost use Rattle.sched_model.specs.declared.config.SchedKind.TheVariants as kinds;
    ghost use Rattle.sched_ops.specs.Seen.{bare_seen};

    /// No domain and no place for one, and no core. It has no memory.
    pub fn empty() -> Self
        ensures { result ≡ bare_seen kinds.Null }
    {
        Null {
            parts: None,
            latest: 0,
        }
    }
}

impl Policy for Null {
    ghost seen = { λ s. s };

    fn reserve(&mut self, alloc: Global, places: Places, units: usize) -> Result<(), NoMemory> {
        let units = PoolUnits::room(alloc, places.domains, units)?;
        let kept = Kept::room(alloc, places.cores)?;
        drop(mem::replace(&mut self.parts, Some(NullParts { units, kept })));
        Ok(())
    }

    fn restart(&mut self, params: &PoolParams) {
        if let Some(parts) = &mut self.parts {
            parts.units.keeps();
            parts.kept.clear();
        }
    }

    fn join(&mut self, d: DomId, units: u8, params: &DomParams, t: Moment) {
        if let Some(parts) = &mut self.parts {
            parts.units.join(d, units);
        }
        self.latest = t.0;
    }

    fn part(&mut self, d: DomId) {
        if let Some(parts) = &mut self.parts {
            parts.units.part(d);
            parts.kept.part(d);
        }
    }

    fn enqueue(&mut self, u: UnitId) {
        if let Some(parts) = &mut self.parts {
            parts.units.enqueue(u);
        }
    }

    fn dequeue(&mut self, u: UnitId) {
        if let Some(parts) = &mut self.parts {
            parts.units.dequeue(u);
        }
    }

    fn choose(&mut self, ask: &Ask) -> Choice {
        self.latest = ask.at.0;
        match &mut self.parts {
            None => Choice {
                unit: None,
                due: None,
                reset: 0,
            },
            Some(parts) => choose(parts, ask),
        }
    }

    fn wanted(&self, cores: &[Option<Resource>], t: Moment, home: Cores) -> Cores {
        match &self.parts {
            None => Cores(0),
            Some(parts) => {
                let waits = !parts.units.waiting().is_empty();
                wanted_where(cores, |core, cur, _since| {
                    is_wanted(&parts.units, &parts.kept, waits, cur, core, home)
                })
            }
        }
    }

    fn wanted_for(&self, u: UnitId, cores: &[Option<Resource>], t: Moment, home: Cores) -> Cores {
        match &self.parts {
            None => Cores(0),
            Some(parts) => wanted_for(&parts.units, &parts.kept, u, cores, t, home),
        }
    }

    /// No: nothing is charged, and nothing comes with time.
    fn asks_moment(&self) -> bool {
        let _ = &self.parts;
        false
    }

    /// A core that leaves gives its unit free, which may have another one then.
    fn frees(&self, cur: Option<UnitId>, leaving: bool) -> bool {
        let _ = &self.parts;
        leaving
    }

    fn timer_due(&self, t: Moment) -> Option<(Moment, Timer)> {
        let _ = &self.parts;
        None
    }

    fn timer(&mut self, which: Timer, t: Moment) -> Event {
        let _ = &self.parts;
        unreachable!()
    }

    fn set_params(&mut self, change: &ParamChange, t: Moment) {
        if let ParamChange::Pin { dom, unit, cores } = change {
            if let Some(parts) = &mut self.parts {
                parts.units.pin(*dom, *unit, *cores);
            }
        }
        self.latest = t.0;
    }

    fn stored(&self, u: UnitId) -> Stored {
        let _ = &self.parts;
        Stored::Null
    }

    fn rate(&self) -> u32 {
        let _ = &self.parts;
        0
    }

    fn keeps(&self) {
        if let Some(parts) = &self.parts {
            parts.units.keeps();
            parts.kept.keeps();
        }
    }
}
