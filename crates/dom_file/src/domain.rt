//! The tables of the domains.

ghost use Rattle.std.specs.Prelude.{◌≡◌, ◌≤◌, [], map, length, IfOk};
ghost use Rattle.std.specs.List.{All};
ghost use Rattle.sched_model.specs.CheckedMachine.{IsWithin};
ghost use Rattle.toml.specs.View.{table_view};
ghost use Rattle.dom_file.specs.Steps.{Gives, GivesBy};
ghost use Rattle.dom_file.specs.Heads.{IsHead};
ghost use Rattle.dom_file.specs.Domains.{budget_in, domain_in, known_domain_keys, domain_name_in, domains_in, extra_in, has_domain_named, home_with_cores, home_in, home_place_in, params_in, period_in, named_pool_number};

use crate::draft::PoolDraft;
use crate::fault::{DomCause, DomFault, TableName};
use crate::guests::guests;
use crate::head::Head;
use crate::keys::only_known;
use crate::pins::{pins, unit_count};
use crate::stop::placed;
use crate::values::{name, number_or, required, truth, value_at};
use sched_base::{Name, PoolId, Span};
use sched_model::config::{DomConfig, DomParams, SchedKind};
use std::alloc::Global;
use toml::Table;

/// A pool that a domain may have as its home: its number and its scheduler.
#[derive(Clone, Copy)]
pub(crate) struct HomePool {
    pub pool: PoolId,
    pub kind: SchedKind,
}

fn has_name(domains: &[DomConfig], name: &Name) -> bool
    ensures { result ≡ has_domain_named domains.now name.now }
{
    for domain in domains {
        if domain.name.is(name.as_bytes()) {
            return true;
        }
    }
    false
}

fn domain_name(domains: &[DomConfig], table: &Table) -> Result<Name, DomCause>
    ensures { result ≡ domain_name_in domains.now (table_view table.now) }
{
    let name = name(required(table, "name")?)?;
    if has_name(domains, &name) {
        Err(DomCause::Twice)
    } else {
        Ok(name)
    }
}

/// The place of the first pool with the name.
fn place_named(pools: &[PoolDraft], name: &Name) -> Result<usize, DomCause>
    ensures { result ≡ named_pool_number 0 pools.now name.now }
{
    for i in 0..pools.len() {
        if pools[i].name.is(name.as_bytes()) {
            return Ok(i);
        }
    }
    Err(DomCause::NoSuch)
}

fn home_place(pools: &[PoolDraft], table: &Table) -> Result<usize, DomCause>
    ensures { result ≡ home_place_in pools.now (table_view table.now) }
{
    match value_at(table, "pool") {
        Some(value) => place_named(pools, &name(value)?),
        None => Ok(0),
    }
}

fn home_at(pools: &[PoolDraft], place: usize) -> Result<HomePool, DomCause>
    requires { length pools.now ≤ 16 }
    ensures { result ≡ home_with_cores pools.now place }
{
    match pools.get(place) {
        Some(pool) if pool.cores == 0 => Err(DomCause::Empty),
        Some(pool) => Ok(HomePool {
            pool: PoolId(place as u8),
            kind: pool.kind,
        }),
        None => Err(DomCause::NoSuch),
    }
}

fn home(pools: &[PoolDraft], table: &Table) -> Result<HomePool, DomCause>
    requires { length pools.now ≤ 16 }
    ensures { result ≡ home_in pools.now (table_view table.now) }
{
    home_at(pools, home_place(pools, table)?)
}

fn domain_keys(format: u8, kind: SchedKind) -> &'static [&'static str]
    ensures { map (λ k. k.now) result.now ≡ known_domain_keys format kind }
{
    match kind {
        SchedKind::Credit2 if format == 1 => &["name", "pool", "guests", "weight", "cap"],
        SchedKind::Credit2 => &["name", "pool", "guests", "weight", "cap", "pins"],
        SchedKind::Rtds if format == 1 => &[
            "name",
            "pool",
            "guests",
            "period_us",
            "budget_us",
            "extratime",
        ],
        SchedKind::Rtds => &[
            "name",
            "pool",
            "guests",
            "period_us",
            "budget_us",
            "extratime",
            "pins",
        ],
        SchedKind::Arinc653 | SchedKind::Null if format == 1 => &["name", "pool", "guests"],
        SchedKind::Arinc653 | SchedKind::Null => &["name", "pool", "guests", "pins"],
    }
}

/// The period in microseconds.
fn period(table: &Table) -> Result<u64, DomCause>
    ensures value { result ≡ period_in (table_view table.now) }
    ensures range { IfOk result (IsWithin 10 1000000000) }
{
    number_or(table, "period_us", 10_000, 10, 1_000_000_000)
}

/// The budget in microseconds, at most the period.
fn budget(table: &Table, period: u64) -> Result<u64, DomCause>
    requires { IsWithin 10 1000000000 period }
    ensures value { result ≡ budget_in period (table_view table.now) }
    ensures range { IfOk result (IsWithin 10 period) }
{
    number_or(table, "budget_us", period.min(4000), 10, period)
}

fn extra_time(table: &Table) -> Result<bool, DomCause>
    ensures { result ≡ extra_in (table_view table.now) }
{
    match value_at(table, "extratime") {
        Some(value) => truth(value),
        None => Ok(true),
    }
}

fn domain_params(
    alloc: Global,
    kind: SchedKind,
    index: u32,
    table: &Table,
) -> Result<DomParams, DomFault>
    ensures { Gives result (params_in kind index (table_view table.now)) }
{
    match kind {
        SchedKind::Credit2 => {
            let weight = number_or(table, "weight", 256, 1, 65535);
            let weight = placed(alloc, TableName::Domain, index, "weight", weight)? as u32;
            let cap = number_or(table, "cap", 0, 0, 6400);
            let cap = placed(alloc, TableName::Domain, index, "cap", cap)? as u32;
            Ok(DomParams::Credit2 { weight, cap })
        }
        SchedKind::Rtds => {
            let period = placed(alloc, TableName::Domain, index, "period_us", period(table))?;
            let budget = budget(table, period);
            let budget = placed(alloc, TableName::Domain, index, "budget_us", budget)?;
            let extra = placed(
                alloc,
                TableName::Domain,
                index,
                "extratime",
                extra_time(table),
            )?;
            Ok(DomParams::Rtds {
                period: Span(period * 1000),
                budget: Span(budget * 1000),
                extra,
            })
        }
        SchedKind::Arinc653 => Ok(DomParams::Arinc653),
        SchedKind::Null => Ok(DomParams::Null),
    }
}

/// The domain of a table that stands behind those of these domains.
#[tactic(auto, unfolding(crate::specs::Domains::domain_in))]
fn domain(
    alloc: Global,
    head: &Head,
    pools: &[PoolDraft],
    domains: &[DomConfig],
    table: &Table,
) -> Result<DomConfig, DomFault>
    requires head { IsHead head.now }
    requires few_pools { length pools.now ≤ 16 }
    requires few_domains { length domains.now ≤ 64 }
    ensures value { Gives result (domain_in head.now pools.now domains.now (table_view table.now)) }
    ensures guests { IfOk result (λ d. length d.guests ≤ 32) }
{
    let index = domains.len() as u32;
    let name = domain_name(domains, table);
    let name = placed(alloc, TableName::Domain, index, "name", name)?;
    let home = placed(alloc, TableName::Domain, index, "pool", home(pools, table))?;
    let guests = guests(alloc, index, table)?;
    let pins = pins(head, unit_count(head.granularity, guests.len()), table);
    let pins = placed(alloc, TableName::Domain, index, "pins", pins)?;
    let keys = domain_keys(head.format, home.kind);
    only_known(alloc, TableName::Domain, index, keys, table)?;
    let params = domain_params(alloc, home.kind, index, table)?;
    Ok(DomConfig {
        name,
        home: home.pool,
        guests,
        params,
        pins,
    })
}

/// The domains of the tables, in order.
pub(crate) fn domains(
    alloc: Global,
    head: &Head,
    pools: &[PoolDraft],
    tables: &[&Table],
) -> Result<Vec<DomConfig>, DomFault>
    requires head { IsHead head.now }
    requires few_pools { length pools.now ≤ 16 }
    requires few_domains { length tables.now ≤ 64 }
    ensures value { GivesBy (λ v. v.items) result
        (domains_in head.now pools.now [] (map (λ t. table_view t.now) tables.now)) }
    ensures count { IfOk result (λ v. length v.items ≡ length tables.now) }
    ensures guests { IfOk result (λ v. All (λ d. length d.guests ≤ 32) v.items) }
{
    let mut domains = Vec::new(alloc);
    for table in tables {
        let domain = domain(alloc, head, pools, &domains, table)?;
        domains.push(domain)?;
    }
    Ok(domains)
}
