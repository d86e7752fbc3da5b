//! What the tool keeps at the opening.

ghost use Rattle.std.specs.Prelude.{◌≡◌, ◌+◌, ◌-◌, ◌/◌, ◌≤◌, ◌<◌, ◌++◌, ◌==◌, Some, None, map, length, replicate, IfOk};
ghost use Rattle.std.specs.List.{All, list_any};
ghost use Rattle.sched_base.specs.Numbers.{moment};
ghost use Rattle.sched_model.specs.declared.config.PoolConfig.{PoolConfig as PoolRecord};
ghost use Rattle.sched_model.specs.Places.{numbers_from};
ghost use Rattle.sched_model.specs.State.{has_core_bit};
ghost use Rattle.cpupool.specs.Tool.{domain_entry};
ghost use Rattle.cpupool.specs.OpeningPools.{params_kind, size_at_home, outline_at_opening, outlines_at_opening, free_ends_at_opening, HasFewGuests};

use crate::outline::{
    CoreFlags, DomainEntry, DomainSizes, FreeCores, Outline, Outlines, PoolNames,
};
use sched_base::{Cores, Moment, NoMemory, PoolId, ResId, has_core};
use sched_model::config::{DomConfig, PoolConfig, PoolParams, SchedKind};
use sched_model::facts::StallEnds;
use sched_model::row::Row;
use sched_model::short::Short;
use std::alloc::Global;

/// Which scheduler the parameters are of.
fn kind_of_params(params: &PoolParams) -> SchedKind
    ensures { result ≡ params_kind params.now }
{
    match params {
        PoolParams::Credit2 { .. } => SchedKind::Credit2,
        PoolParams::Rtds => SchedKind::Rtds,
        PoolParams::Arinc653 { .. } => SchedKind::Arinc653,
        PoolParams::Null => SchedKind::Null,
    }
}

/// The names and sizes of the domains.
#[tactic(auto, using(std::proofs::lemmas::List::map_more))]
pub(crate) fn opened_entries(
    alloc: Global,
    domains: &[DomConfig],
) -> Result<Row<DomainEntry>, NoMemory>
    requires { All HasFewGuests domains.now }
    ensures { IfOk result (λ all. all ≡ map domain_entry domains.now) }
{
    let mut all = Vec::new(alloc);
    for d in domains {
        all.push(DomainEntry {
            name: d.name.duplicate(),
            vcpus: d.guests.len() as u8,
        })?;
    }
    Ok(Row::from_vec(all))
}

/// How many vCPUs each domain has whose home is this pool.
#[tactic(auto, using(std::proofs::lemmas::List::map_more))]
fn sizes_at_home(pool: PoolId, domains: &[DomConfig]) -> DomainSizes
    requires few { length domains.now ≤ 64 }
    requires guests { All HasFewGuests domains.now }
    ensures { result ≡ map (size_at_home pool.0) domains.now }
{
    let mut sizes = Short::new();
    for d in domains {
        sizes.push(if d.home.0 == pool.0 {
            Some(d.guests.len() as u8)
        } else {
            None
        });
    }
    sizes
}

/// Which of the first cores, so many, are in the set.
#[tactic(auto, using(crate::proofs::NumberLemmas::map_numbers_more, sched_laws::proofs::Opened::length_map_numbers))]
fn flags_of(set: Cores, cores: u8) -> CoreFlags
    requires { cores ≤ 64 }
    ensures { result ≡ map (has_core_bit set.0) (numbers_from 0 cores) }
{
    let mut flags = Short::new();
    for r in 0..cores {
        flags.push(has_core(set, ResId(r)));
    }
    flags
}

/// This pool as the tool knows it, on a machine of so many cores.
fn opened_outline(place: PoolId, cores: u8, domains: &[DomConfig], pool: &PoolConfig) -> Outline
    requires cores { cores ≤ 64 }
    requires few { length domains.now ≤ 64 }
    requires guests { All HasFewGuests domains.now }
    ensures { result ≡ outline_at_opening cores domains.now place.0 pool.now }
{
    Outline {
        kind: kind_of_params(&pool.params),
        cores: flags_of(Cores(pool.cores), cores),
        domains: sizes_at_home(place, domains),
    }
}

/// The pools as the tool knows them, of which the first has this number, behind those that stand already.
fn add_outlines(
    outlines: Outlines,
    first: PoolId,
    cores: u8,
    domains: &[DomConfig],
    pools: &[PoolConfig],
) -> Outlines
    requires room { length outlines + length pools.now ≤ 16 }
    requires number { first.0 + length pools.now ≤ 16 }
    requires cores { cores ≤ 64 }
    requires few { length domains.now ≤ 64 }
    requires guests { All HasFewGuests domains.now }
    ensures { result ≡ outlines ++ outlines_at_opening cores domains.now first.0 pools.now }
{
    match pools {
        [] => outlines,
        [pool, rest @ ..] => {
            let mut more = outlines;
            more.push(Some(opened_outline(first, cores, domains, pool)));
            add_outlines(more, PoolId(first.0 + 1), cores, domains, rest)
        }
    }
}

/// So many places more, without anything.
#[tactic(auto, using(sched_model::proofs::Replicate::replicate_one_more, std::proofs::Common::append_assoc))]
fn with_spare_pools(outlines: Outlines, spare: usize) -> Outlines
    requires { length outlines + spare ≤ 16 }
    ensures { result ≡ outlines ++ replicate spare None }
{
    let mut all = outlines;
    for i in 0..spare {
        all.push(None);
    }
    all
}

/// The pools as the tool knows them, on a machine of so many cores.
#[tactic(auto, using(crate::proofs::OutlineLemmas::length_outlines))]
pub(crate) fn opened_outlines(cores: u8, domains: &[DomConfig], pools: &[PoolConfig]) -> Outlines
    requires pools { length pools.now ≤ 16 }
    requires cores { cores ≤ 64 }
    requires few { length domains.now ≤ 64 }
    requires guests { All HasFewGuests domains.now }
    ensures { result ≡ outlines_at_opening cores domains.now 0 pools.now
        ++ replicate (16 - length pools.now) None }
{
    let outlines = add_outlines(Short::new(), PoolId(0), cores, domains, pools);
    with_spare_pools(outlines, 16 - pools.len())
}

/// The names of the pools.
#[tactic(auto, using(std::proofs::lemmas::List::map_more))]
fn names_of(pools: &[PoolConfig]) -> PoolNames
    requires { length pools.now ≤ 16 }
    ensures { result ≡ map (λ (pool : PoolRecord). Some pool.name) pools.now }
{
    let mut names = Short::new();
    for pool in pools {
        names.push(Some(pool.name.duplicate()));
    }
    names
}

/// The names of the pools, and a place for each pool there may be besides.
#[tactic(auto, using(sched_model::proofs::Replicate::replicate_one_more, std::proofs::Common::append_assoc))]
pub(crate) fn opened_names(pools: &[PoolConfig]) -> PoolNames
    requires { length pools.now ≤ 16 }
    ensures { result ≡ map (λ (pool : PoolRecord). Some pool.name) pools.now
        ++ replicate (16 - length pools.now) None }
{
    let mut names = names_of(pools);
    for i in 0..16 - pools.len() {
        names.push(None);
    }
    names
}

/// Processors that do not stall, so many.
#[tactic(auto, using(sched_model::proofs::Replicate::replicate_one_more))]
fn no_stalls(processors: u8) -> StallEnds
    requires { processors ≤ 4 }
    ensures { result ≡ replicate processors (moment 0) }
{
    let mut ends = Short::new();
    for i in 0..processors {
        ends.push(Moment(0));
    }
    ends
}

/// Whether one of the pools has the core.
fn is_taken(pools: &[PoolConfig], r: ResId) -> bool
    ensures { result ≡ list_any (λ (pool : PoolRecord). has_core_bit pool.cores r.0) pools.now }
{
    pools.iter().any(|pool| has_core(Cores(pool.cores), r))
}

/// The core r of so many processors, where no pool has it.
fn free_core(processors: u8, pools: &[PoolConfig], r: ResId) -> Option<StallEnds>
    requires { processors ≤ 4 }
    ensures { result ≡ free_ends_at_opening processors pools.now r.0 }
{
    if is_taken(pools, r) {
        None
    } else {
        Some(no_stalls(processors))
    }
}

/// The cores that no pool has, of so many cores of so many processors each.
#[tactic(auto, using(crate::proofs::NumberLemmas::map_numbers_more, sched_laws::proofs::Opened::length_map_numbers))]
pub(crate) fn opened_free(processors: u8, cores: u8, pools: &[PoolConfig]) -> FreeCores
    requires cores { cores ≤ 64 }
    requires processors { processors ≤ 4 }
    ensures { result ≡ map (free_ends_at_opening processors pools.now) (numbers_from 0 cores) }
{
    let mut free = Short::new();
    for r in 0..cores {
        free.push(free_core(processors, pools, ResId(r)));
    }
    free
}
