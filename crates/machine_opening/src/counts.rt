//! How many pools of each scheduler a machine has.

ghost use Rattle.std.specs.Prelude.{◌≡◌, ◌≤◌, length};
ghost use Rattle.sched_model.specs.declared.config.SchedKind.{SchedKind as Kind};
ghost use Rattle.sched_model.specs.CheckedMachine.{IsChecked};
ghost use Rattle.sched_model.specs.Commands.{is_same_kind};
ghost use Rattle.machine_parts.specs.Counts.{configured_of, made_by, makes_at, most_at_once};
ghost use Rattle.machine_parts.specs.Kinds.{count_of};

use machine_parts::KindCounts;
use sched_model::command::Command;
use sched_model::config::{Config, PoolConfig, SchedKind};
use sched_model::machine::MOST_POOLS;
use sched_model::work::{CommandLine, Work};

/// Whether the two are the same scheduler.
fn is_kind(kind: SchedKind, other: SchedKind) -> bool
    ensures { result ≡ is_same_kind kind other }
{
    kind == other
}

/// How many of the file's pools have the scheduler.
pub fn configured(pools: &[PoolConfig], kind: SchedKind) -> usize
    ensures count { result ≡ configured_of kind pools.now }
    ensures few { result ≤ length pools.now }
{
    let mut count = 0;
    for pool in pools {
        if is_kind(kind, pool.kind) {
            count += 1;
        }
    }
    count
}

/// Whether the line's command makes a pool of the scheduler.
fn makes(line: &CommandLine, kind: SchedKind) -> bool
    ensures { result ≡ makes_at kind line.now }
{
    match &line.command {
        Ok(Command::PoolCreate { name: _, sched }) => {
            is_kind(kind, sched.unwrap_or(SchedKind::Credit2))
        }
        _ => false,
    }
}

/// How many of the lines make a pool of the scheduler.
fn made(lines: &[CommandLine], kind: SchedKind) -> usize
    ensures count { result ≡ made_by kind lines.now }
    ensures few { result ≤ length lines.now }
{
    let mut count = 0;
    for line in lines {
        if makes(line, kind) {
            count += 1;
        }
    }
    count
}

/// How many pools of the scheduler the machine has at once at most.
fn most(config: &Config, work: &Work, kind: SchedKind) -> u8
    requires checked { IsChecked (record { config = config.now; work = work.now }) }
    ensures { result ≡ most_at_once (record { config = config.now; work = work.now }) kind }
{
    let all = configured(config.pools.as_slice(), kind) + made(work.commands.as_slice(), kind);
    all.min(usize::from(MOST_POOLS)) as u8
}

/// The same of each scheduler.
pub fn most_of_each(config: &Config, work: &Work) -> KindCounts
    requires checked { IsChecked (record { config = config.now; work = work.now }) }
    ensures { (kind : Kind) → count_of kind result
        ≡ most_at_once (record { config = config.now; work = work.now }) kind }
{
    KindCounts {
        credit2: most(config, work, SchedKind::Credit2),
        rtds: most(config, work, SchedKind::Rtds),
        arinc: most(config, work, SchedKind::Arinc653),
        null: most(config, work, SchedKind::Null),
    }
}
