//! Pools that wait for a command that makes a pool.

use crate::counts::KindCounts;
use crate::slot::AnyPool;
use sched_base::NoMemory;
use sched_model::config::SchedKind;
use std::alloc::Global;
use std::marker::Model;
use std::vec::Vec;

/// The spare pools of one scheduler. Contracts see the pools, of which the last is taken first, and how many there may be without taking
/// memory.
#[derive(Drop)]
struct Shelf {
    pools: Vec<AnyPool>,
}

impl Model for Shelf {
    ghost use Rattle.std.specs.Prelude.{map};
    ghost use Rattle.std.specs.Vec.{vec_capacity};
    ghost use Rattle.machine_parts.specs.Spares.{Shelf as ShelfSeen};

    ghost Value = { ShelfSeen };

    ghost view = { λ a. record {
      pools = map (λ b. b.value) a.pools.items;
      capacity = vec_capacity a.pools;
    } };
}

impl Shelf {
    ghost use Rattle.std.specs.Prelude.{◌≡◌, ◌<◌, ◌≤◌, [], length, IfOk};
    ghost use Rattle.machine_parts.specs.Spares.{shelf_with};

    /// A shelf with no pool and room for so many, at most 16.
    fn room(alloc: Global, most: usize) -> Result<Shelf, NoMemory>
        requires few { most ≤ 16 }
        ensures pools { IfOk result (λ shelf. shelf.pools ≡ []) }
        ensures capacity { IfOk result (λ shelf. most ≤ shelf.capacity) }
    {
        Ok(Shelf {
            pools: Vec::with_capacity(alloc, most)?,
        })
    }

    /// The last pool goes out.
    fn take(&mut self) -> AnyPool
        requires some { 0 < length self.old.pools }
        ensures { self.old ≡ shelf_with result.value self.new }
    {
        let Some(pool) = self.pools.pop() else {
            unreachable!();
        };
        pool
    }

    /// One pool more.
    fn give(&mut self, pool: AnyPool)
        requires room { length self.old.pools < self.old.capacity }
        ensures { self.new ≡ shelf_with pool.value self.old }
    {
        self.pools.push_reserved(pool);
    }
}

/// Spare pools of each scheduler, whose memory was taken at the opening. Contracts see a shelf for each scheduler.
///
/// No pool here is in use, none has a domain or a core, and each has room for all units that a machine may have, 256. No call but `room`
/// takes memory.
#[derive(Drop)]
pub struct Spares {
    credit2: Shelf,
    rtds: Shelf,
    arinc: Shelf,
    null: Shelf,
}

impl Model for Spares {
    ghost use Rattle.machine_parts.specs.Spares.{AreIdle, Shelves};

    ghost Value = { Shelves };

    ghost view = { λ a. record {
      credit2 = a.credit2;
      rtds = a.rtds;
      arinc = a.arinc;
      null = a.null;
    } };

    ghost invariant = { λ a. AreIdle
        (record { credit2 = a.credit2; rtds = a.rtds; arinc = a.arinc; null = a.null }) };
}

impl Spares {
    ghost use Rattle.std.specs.Prelude.{◌≡◌, ◌<◌, ◌≤◌, [], length, IfOk};
    ghost use Rattle.sched_model.specs.declared.config.SchedKind.{SchedKind};
    ghost use Rattle.machine_parts.specs.Kinds.{count_of};
    ghost use Rattle.machine_parts.specs.Spares.{IsIdle, shelf_of, shelves_with};

    /// No spare pool yet, and room for so many of each scheduler, at most 16 of each.
    pub fn room(alloc: Global, most: KindCounts) -> Result<Spares, NoMemory>
        requires few { (kind : SchedKind) → count_of kind most ≤ 16 }
        ensures pools { IfOk result (λ spares. (kind : SchedKind) → (shelf_of kind spares).pools
            ≡ []) }
        ensures capacity { IfOk result (λ spares. (kind : SchedKind) → count_of kind most
            ≤ (shelf_of kind spares).capacity) }
    {
        Ok(Spares {
            credit2: Shelf::room(alloc, usize::from(most.credit2))?,
            rtds: Shelf::room(alloc, usize::from(most.rtds))?,
            arinc: Shelf::room(alloc, usize::from(most.arinc))?,
            null: Shelf::room(alloc, usize::from(most.null))?,
        })
    }

    /// A spare pool of the scheduler goes out: the one that came last.
    pub fn take(&mut self, kind: SchedKind) -> AnyPool
        requires some { 0 < length (shelf_of kind self.old).pools }
        ensures pool { self.old ≡ shelves_with kind result.value self.new }
        ensures idle { IsIdle kind result.value }
    {
        match kind {
            SchedKind::Credit2 => self.credit2.take(),
            SchedKind::Rtds => self.rtds.take(),
            SchedKind::Arinc653 => self.arinc.take(),
            SchedKind::Null => self.null.take(),
        }
    }

    /// A pool of the scheduler that is not in use, and has neither a domain nor a core, becomes a spare one.
    pub fn give(&mut self, kind: SchedKind, pool: AnyPool)
        requires idle { IsIdle kind pool.value }
        requires room { length (shelf_of kind self.old).pools < (shelf_of kind self.old).capacity }
        ensures { self.new ≡ shelves_with kind pool.value self.old }
    {
        match kind {
            SchedKind::Credit2 => self.credit2.give(pool),
            SchedKind::Rtds => self.rtds.give(pool),
            SchedKind::Arinc653 => self.arinc.give(pool),
            SchedKind::Null => self.null.give(pool),
        }
    }
}
