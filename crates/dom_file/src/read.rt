//! The whole domain file.

ghost use Rattle.std.specs.Prelude.{◌≡◌, ◌≢◌, ◌≤◌, Some, None, Ok, Err, map, option_map, codes, length, IfOk, IfErr, IfSome, MatchResult};
ghost use Rattle.std.specs.List.{All};
ghost use Rattle.sched_model.specs.CheckedMachine.{IsCheckedConfig, IsWithin};
ghost use Rattle.toml.specs.View.{view, table_view};
ghost use Rattle.dom_file.specs.declared.fault.DomFault.TheVariants.{NoMemory, BadToml};
ghost use Rattle.dom_file.specs.declared.fault.TableName.TheVariants.{Top};
ghost use Rattle.dom_file.specs.Steps.{Gives, GivesBy, Stops, at, each};
ghost use Rattle.dom_file.specs.Values.{table_of};
ghost use Rattle.dom_file.specs.Heads.{IsHead};
ghost use Rattle.dom_file.specs.Configs.{pools_of_tables, config_of, spelled_table, domain_tables_in, domains_of, IsNoTable, machine_from, pool_tables_in, tables_of};

use crate::domain::domains;
use crate::draft::PoolDraft;
use crate::fault::{DomFault, TableName};
use crate::finish::{few_units, finished};
use crate::head::{Head, read_head};
use crate::pool::{default_pools, pools};
use crate::stop::{CheckStop, placed, placed_or_stopped};
use crate::values::{array, table, value_at};
use sched_model::config::Config;
use sched_model::row::Row;
use std::alloc::Global;
use toml::{Table, Value};

fn each_table(alloc: Global, values: &[Value]) -> Result<Vec<&Table>, CheckStop>
    ensures value { Stops (λ v. map (λ t. table_view t.now) v.items) result
        (each table_of (map view values.now)) }
    ensures count { IfOk result (λ v. length v.items ≡ length values.now) }
{
    let mut tables = Vec::new(alloc);
    for value in values {
        tables.push(table(value)?)?;
    }
    Ok(tables)
}

/// The tables of an array that has at least `low` and at most `high`.
fn tables(alloc: Global, value: &Value, low: usize, high: usize) -> Result<Vec<&Table>, CheckStop>
    ensures value { Stops (λ v. map (λ t. table_view t.now) v.items) result
        (tables_of low high (view value.now)) }
    ensures count { IfOk result (λ v. IsWithin low high (length v.items)) }
{
    each_table(alloc, array(value, low, high)?)
}

fn pool_tables(alloc: Global, table: &Table) -> Result<Option<Vec<&Table>>, CheckStop>
    ensures value { Stops (λ o. option_map (λ v. map (λ t. table_view t.now) v.items) o) result
        (pool_tables_in (table_view table.now)) }
    ensures count { IfOk result (λ o. IfSome o (λ v. length v.items ≤ 16)) }
{
    match value_at(table, "pool") {
        Some(value) => Ok(Some(tables(alloc, value, 1, 16)?)),
        None => Ok(None),
    }
}

fn domain_tables(alloc: Global, table: &Table) -> Result<Vec<&Table>, CheckStop>
    ensures value { Stops (λ v. map (λ t. table_view t.now) v.items) result
        (domain_tables_in (table_view table.now)) }
    ensures count { IfOk result (λ v. length v.items ≤ 64) }
{
    match value_at(table, "domain") {
        Some(value) => tables(alloc, value, 0, 64),
        None => Ok(Vec::new(alloc)),
    }
}

fn placed_pool_tables(alloc: Global, table: &Table) -> Result<Option<Vec<&Table>>, DomFault>
    ensures value { GivesBy (λ o. option_map (λ v. map (λ t. table_view t.now) v.items) o) result
        (at Top 0 (codes "pool") (pool_tables_in (table_view table.now))) }
    ensures count { IfOk result (λ o. IfSome o (λ v. length v.items ≤ 16)) }
{
    placed_or_stopped(alloc, TableName::Top, 0, "pool", pool_tables(alloc, table))
}

fn placed_domain_tables(alloc: Global, table: &Table) -> Result<Vec<&Table>, DomFault>
    ensures value { GivesBy (λ v. map (λ t. table_view t.now) v.items) result
        (at Top 0 (codes "domain") (domain_tables_in (table_view table.now))) }
    ensures count { IfOk result (λ v. length v.items ≤ 64) }
{
    placed_or_stopped(
        alloc,
        TableName::Top,
        0,
        "domain",
        domain_tables(alloc, table),
    )
}

/// The pools of the tables, or the one of a file without pools.
fn all_pools(
    alloc: Global,
    head: &Head,
    tables: &Option<Vec<&Table>>,
) -> Result<Vec<PoolDraft>, DomFault>
    requires head { IsHead head.now }
    requires few { IfSome tables.now (λ v. length v.items ≤ 16) }
    ensures value { GivesBy (λ v. v.items) result
        (pools_of_tables head.now (option_map (λ v. map (λ t. table_view t.now) v.items)
        tables.now)) }
    ensures count { IfOk result (λ v. length v.items ≤ 16) }
{
    match tables {
        Some(tables) => pools(alloc, head, tables),
        None => default_pools(alloc, head),
    }
}

/// The machine of the tables of the pools and of the domains, or the first fault in them.
fn machine(
    alloc: Global,
    head: &Head,
    pool_tables: &Option<Vec<&Table>>,
    domain_tables: &[&Table],
) -> Result<Config, DomFault>
    requires head { IsHead head.now }
    requires few_pools { IfSome pool_tables.now (λ v. length v.items ≤ 16) }
    requires few_domains { length domain_tables.now ≤ 64 }
    ensures { Gives result (machine_from head.now
        (option_map (λ v. map (λ t. table_view t.now) v.items) pool_tables.now)
        (map (λ t. table_view t.now) domain_tables.now)) }
{
    let drafts = all_pools(alloc, head, pool_tables)?;
    let domains = domains(alloc, head, &drafts, domain_tables)?;
    let few = few_units(head.granularity, &domains);
    placed(alloc, TableName::Top, 0, "domain", few)?;
    let pools = finished(alloc, head.granularity, &domains, &drafts)?;
    Ok(Config {
        granularity: head.granularity,
        processors: head.processors,
        horizon: head.horizon,
        pools: Row::from_vec(pools),
        domains: Row::from_vec(domains),
    })
}

/// The machine of a table, or the first fault.
#[tactic(auto, unfolding(crate::specs::Configs::config_of))]
fn config(alloc: Global, table: &Table) -> Result<Config, DomFault>
    ensures { Gives result (config_of (table_view table.now)) }
{
    let head = read_head(alloc, table)?;
    let pool_tables = placed_pool_tables(alloc, table)?;
    let domain_tables = placed_domain_tables(alloc, table)?;
    machine(alloc, &head, &pool_tables, &domain_tables)
}

/// The table that the bytes spell.
fn document(alloc: Global, bytes: &[u8]) -> Result<Table, DomFault>
    ensures { MatchResult result (λ table. spelled_table bytes.now ≡ Some (table_view table))
        (IsNoTable bytes.now) }
{
    match toml::table_from_slice(alloc, bytes) {
        Ok(table) => Ok(table),
        Err(e) => {
            if e.is_memory() {
                Err(DomFault::NoMemory)
            } else {
                Err(DomFault::BadToml)
            }
        }
    }
}

/// The machine that the bytes of a domain file describe, or the first fault in them.
///
/// The answer is `BadToml` where the bytes are no TOML document, which is text in UTF-8, and `Bad` with the first fault where the
/// document describes no machine. `NoMemory` may come at any file.
#[tactic(auto, unfolding(crate::specs::Configs::domains_of))]
pub fn read_domains(alloc: Global, bytes: &[u8]) -> Result<Config, DomFault>
    requires { length bytes.now ≤ 536870912 }
    ensures ok { IfOk result (λ config. domains_of bytes.now ≡ Ok config) }
    ensures bad_toml { result ≡ Err BadToml → spelled_table bytes.now ≡ None }
    ensures checked { IfOk result IsCheckedConfig }
    ensures refused { IfErr result (λ fault. fault ≢ NoMemory → domains_of bytes.now ≡ Err fault) }
{
    let table = document(alloc, bytes)?;
    config(alloc, &table)
}
