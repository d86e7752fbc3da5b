//! The tables of the pools.

ghost use Rattle.std.specs.Prelude.{◌≡◌, ◌≤◌, [], ◌∷◌, map, length, Ok, IfOk};
ghost use Rattle.toml.specs.View.{table_view};
ghost use Rattle.dom_file.specs.Steps.{Gives, GivesBy};
ghost use Rattle.dom_file.specs.Heads.{IsHead};
ghost use Rattle.dom_file.specs.Pools.{cpus_in, default_pool as default_pool_of, core_count_check, is_named, scheduler_named, limit_in, params_in, pool_in, known_pool_keys, pool_name_in, pools_in, sched_in};

use crate::cores::{all_cores, cores};
use crate::draft::{ParamsDraft, PoolDraft};
use crate::fault::{DomCause, DomFault, TableName};
use crate::frame::frame;
use crate::head::Head;
use crate::keys::only_known;
use crate::stop::placed;
use crate::values::{elements, name, number_or, required, text, value_at};
use sched_base::Name;
use sched_model::config::SchedKind;
use std::alloc::Global;
use toml::Table;

fn has_name(pools: &[PoolDraft], name: &Name) -> bool
    ensures { result ≡ is_named pools.now name.now }
{
    for pool in pools {
        if pool.name.is(name.as_bytes()) {
            return true;
        }
    }
    false
}

fn pool_name(pools: &[PoolDraft], table: &Table) -> Result<Name, DomCause>
    ensures { result ≡ pool_name_in pools.now (table_view table.now) }
{
    let name = name(required(table, "name")?)?;
    if has_name(pools, &name) {
        Err(DomCause::Twice)
    } else {
        Ok(name)
    }
}

fn kind_named(word: &str) -> Result<SchedKind, DomCause>
    ensures { result ≡ scheduler_named word.now }
{
    if word == "credit2" {
        Ok(SchedKind::Credit2)
    } else if word == "rtds" {
        Ok(SchedKind::Rtds)
    } else if word == "arinc653" {
        Ok(SchedKind::Arinc653)
    } else if word == "null" {
        Ok(SchedKind::Null)
    } else {
        Err(DomCause::NoSuch)
    }
}

fn sched(table: &Table) -> Result<SchedKind, DomCause>
    ensures { result ≡ sched_in (table_view table.now) }
{
    match value_at(table, "sched") {
        Some(value) => kind_named(text(value)?),
        None => Ok(SchedKind::Credit2),
    }
}

/// The set of cores, where a pool of this scheduler may have so many.
fn few_cores(kind: SchedKind, cores: u64) -> Result<u64, DomCause>
    ensures { result ≡ core_count_check kind cores }
{
    match kind {
        SchedKind::Arinc653 if cores.count_ones() > 1 => {
            Err(DomCause::Range(cores.count_ones() as i64))
        }
        _ => Ok(cores),
    }
}

fn cpus(head: &Head, pools: &[PoolDraft], kind: SchedKind, table: &Table) -> Result<u64, DomCause>
    requires { IsHead head.now }
    ensures { result ≡ cpus_in head.now pools.now kind (table_view table.now) }
{
    let values = elements(required(table, "cpus")?)?;
    few_cores(kind, cores(head, pools, values)?)
}

fn pool_keys(kind: SchedKind) -> &'static [&'static str]
    ensures { map (λ k. k.now) result.now ≡ known_pool_keys kind }
{
    match kind {
        SchedKind::Credit2 => &["name", "sched", "cpus", "ratelimit_us"],
        SchedKind::Arinc653 => &["name", "sched", "cpus", "major_ns", "frame"],
        SchedKind::Rtds | SchedKind::Null => &["name", "sched", "cpus"],
    }
}

/// The rate limit in microseconds: 0, or 100 to 500000.
fn rate_limit(table: &Table) -> Result<u32, DomCause>
    ensures { result ≡ limit_in (table_view table.now) }
{
    let limit = number_or(table, "ratelimit_us", 1000, 0, 500_000)?;
    if 0 < limit && limit < 100 {
        Err(DomCause::Range(limit as i64))
    } else {
        Ok(limit as u32)
    }
}

fn pool_params(
    alloc: Global,
    kind: SchedKind,
    index: u32,
    table: &Table,
) -> Result<ParamsDraft, DomFault>
    ensures { Gives result (params_in kind index (table_view table.now)) }
{
    match kind {
        SchedKind::Credit2 => {
            let limit = placed(
                alloc,
                TableName::Pool,
                index,
                "ratelimit_us",
                rate_limit(table),
            )?;
            Ok(ParamsDraft::Credit2 { limit })
        }
        SchedKind::Rtds => Ok(ParamsDraft::Rtds),
        SchedKind::Arinc653 => {
            let frame = frame(alloc, index, table)?;
            Ok(ParamsDraft::Arinc653 { frame })
        }
        SchedKind::Null => Ok(ParamsDraft::Null),
    }
}

/// The pool of a table that stands behind those of these pools.
#[tactic(auto, unfolding(crate::specs::Pools::pool_in))]
fn pool(
    alloc: Global,
    head: &Head,
    pools: &[PoolDraft],
    table: &Table,
) -> Result<PoolDraft, DomFault>
    requires head { IsHead head.now }
    requires few { length pools.now ≤ 16 }
    ensures { Gives result (pool_in head.now pools.now (table_view table.now)) }
{
    let index = pools.len() as u32;
    let name = placed(
        alloc,
        TableName::Pool,
        index,
        "name",
        pool_name(pools, table),
    )?;
    let kind = placed(alloc, TableName::Pool, index, "sched", sched(table))?;
    let cores = placed(
        alloc,
        TableName::Pool,
        index,
        "cpus",
        cpus(head, pools, kind, table),
    )?;
    only_known(alloc, TableName::Pool, index, pool_keys(kind), table)?;
    let params = pool_params(alloc, kind, index, table)?;
    Ok(PoolDraft {
        name,
        kind,
        cores,
        params,
    })
}

/// The pools of the tables, in order.
pub(crate) fn pools(
    alloc: Global,
    head: &Head,
    tables: &[&Table],
) -> Result<Vec<PoolDraft>, DomFault>
    requires head { IsHead head.now }
    requires few { length tables.now ≤ 16 }
    ensures value { GivesBy (λ v. v.items) result
        (pools_in head.now [] (map (λ t. table_view t.now) tables.now)) }
    ensures count { IfOk result (λ v. length v.items ≡ length tables.now) }
{
    let mut pools = Vec::new(alloc);
    for table in tables {
        let pool = pool(alloc, head, &pools, table)?;
        pools.push(pool)?;
    }
    Ok(pools)
}

/// The pools of a file that has none: one of Credit2, with all processors.
pub(crate) fn default_pools(alloc: Global, head: &Head) -> Result<Vec<PoolDraft>, DomFault>
    requires { IsHead head.now }
    ensures { GivesBy (λ v. v.items) result (Ok (default_pool_of head.now ∷ [])) }
{
    let mut pools = Vec::new(alloc);
    pools.push(PoolDraft {
        name: Name::read(b"Pool-0").unwrap(),
        kind: SchedKind::Credit2,
        cores: all_cores(head),
        params: ParamsDraft::Credit2 { limit: 1000 },
    })?;
    Ok(pools)
}
