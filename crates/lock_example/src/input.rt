//! The input of the example, its book and its locks.

ghost use Rattle.std.specs.Prelude.{◌≡◌, IfOk, IfSome, length};
ghost use Rattle.lock_moves.specs.SeatSight.{opening_view};
ghost use Rattle.lock_example.specs.Example.{adding_machine, new_book, pool_name};
ghost use Rattle.lock_example.specs.Counters.{AreNew};

use crate::counter::Counter;
use journal_core::Book;
use lock_moves::{LockSeat, LockSet};
use sched_base::{Moment, Name, NoMemory};
use sched_model::command::{Command, Which};
use sched_model::config::{Config, PoolConfig, PoolParams, SchedKind};
use sched_model::row::Row;
use sched_model::work::{CommandLine, Work};
use std::alloc::Global;

// The name of the pool.
fn name() -> Option<Name>
    ensures { IfSome result (λ n. n ≡ pool_name) }
{
    Name::new(b"Pool-0")
}

// The machine of two cores.
fn config(alloc: Global) -> Result<Config, NoMemory>
    ensures { IfOk result (λ c. c ≡ adding_machine.config) }
{
    let Some(name) = name() else {
        return Err(NoMemory);
    };
    let pool = PoolConfig {
        name,
        kind: SchedKind::Credit2,
        cores: 1,
        params: PoolParams::Credit2 { limit: 1000 },
    };
    Ok(Config {
        granularity: 1,
        processors: 2,
        horizon: Moment(1_000_000),
        pools: Row::from_vec(vec![in alloc; pool]?),
        domains: Row::from_vec(Vec::new(alloc)),
    })
}

// The command that adds the second core to the pool.
fn work(alloc: Global) -> Result<Work, NoMemory>
    ensures { IfOk result (λ w. w ≡ adding_machine.work) }
{
    let Some(name) = name() else {
        return Err(NoMemory);
    };
    let line = CommandLine {
        at: Moment(0),
        command: Ok(Command::CpuAdd {
            pool: Which::Name(name),
            cpu: 1,
        }),
    };
    Ok(Work {
        stalls: Row::from_vec(Vec::new(alloc)),
        commands: Row::from_vec(vec![in alloc; line]?),
    })
}

/// The book of the example, before its run.
pub fn book(alloc: Global) -> Result<Book, NoMemory>
    ensures { IfOk result (λ b. b ≡ new_book) }
{
    let config = config(alloc)?;
    let work = work(alloc)?;
    Book::room(alloc, &config, &work, 2)
}

// The parts of the opening, in the order of the locks.
fn parts(alloc: Global) -> Result<Vec<Counter>, NoMemory>
    ensures all { IfOk result (λ v. length v.items ≡ 17) }
    ensures each { IfOk result (λ v. AreNew v.items) }
{
    let mut parts = Vec::with_capacity(alloc, 17)?;
    for lock in 0..17u8 {
        parts.push_reserved(Counter::new(lock, 0));
    }
    Ok(parts)
}

/// The locks of the example, before its run, and their first seat.
pub fn opened(alloc: Global) -> Result<(LockSet<Counter>, LockSeat), NoMemory>
    ensures seat { IfOk result (λ r. (r.1.table ≡ r.0.table) × (r.1.view ≡ opening_view new_book)) }
    ensures opened { IfOk result (λ r. r.0.opened ≡ new_book) }
{
    let parts = parts(alloc)?;
    let book = book(alloc)?;
    LockSet::open(alloc, parts, book)
}
