//! What the tool keeps, read from the whole state.

ghost use Rattle.std.specs.Prelude.{◌≡◌, ◌+◌, ◌≤◌, ◌<◌, Some, None, is_some, option_map, length, map};
ghost use Rattle.std.specs.Option.{ForSome};
ghost use Rattle.journal_core.specs.Parts.{pool_outline, first_answer, core_to_leave, domain_to_move, core_to_join, pool_under_way, state_under_way};
ghost use Rattle.cpupool.specs.Tool.{way_of, domain_size, free_core_ends};
ghost use Rattle.cpupool.specs.Fits.{DomainFits, PoolFits, StateFits};
ghost use Rattle.sched_laws.specs.EachPlace.{AllPlaces};

use crate::outline::{
    CoreFlags, DomainSizes, FreeCores, MoveUnderWay, Outline, Outlines, PoolNames,
};
use sched_base::{DomId, Name, PoolId, ResId};
use sched_model::config::SchedKind;
use sched_model::facts::{StallEnds, kind_of};
use sched_model::short::{Short, same_items};
use sched_model::state::{Domain, FreeCore, Pool, Records, Resource, State};

/// Which cores there are.
#[tactic(auto, using(std::proofs::lemmas::List::map_more))]
pub(crate) fn read_cores<T>(cores: &[Option<T>]) -> CoreFlags
    requires { length cores.now ≤ 64 }
    ensures { result ≡ map is_some cores.now }
{
    let mut flags = Short::new();
    for core in cores {
        flags.push(core.is_some());
    }
    flags
}

/// How many vCPUs the domain has, where there is one.
fn size_of(domain: &Option<Domain>) -> Option<u8>
    requires { ForSome domain.now DomainFits }
    ensures { result ≡ option_map domain_size domain.now }
{
    match domain {
        None => None,
        Some(d) => Some(d.vcpus.len() as u8),
    }
}

/// How many vCPUs each domain has.
#[tactic(auto, using(std::proofs::lemmas::List::map_more, crate::proofs::AllPlacesLemmas::place_fits))]
fn read_domains(domains: &[Option<Domain>]) -> DomainSizes
    requires few { length domains.now ≤ 64 }
    requires fits { AllPlaces DomainFits domains.now }
    ensures { result ≡ map (option_map domain_size) domains.now }
{
    let mut sizes = Short::new();
    for domain in domains {
        sizes.push(size_of(domain));
    }
    sizes
}

/// The pool as the tool knows it.
fn read_pool(pool: &Option<Pool>) -> Option<Outline>
    requires { ForSome pool.now PoolFits }
    ensures { result ≡ option_map pool_outline pool.now }
{
    match pool {
        None => None,
        Some(pool) => Some(Outline {
            kind: kind_of(&pool.scheduler.records),
            cores: read_cores(pool.resources.as_slice()),
            domains: read_domains(pool.domains.as_slice()),
        }),
    }
}

/// The pools as the tool knows them.
#[tactic(auto, using(std::proofs::lemmas::List::map_more, crate::proofs::AllPlacesLemmas::place_fits))]
pub(crate) fn read_pools(pools: &[Option<Pool>]) -> Outlines
    requires few { length pools.now ≤ 16 }
    requires fits { AllPlaces PoolFits pools.now }
    ensures { result ≡ map (option_map pool_outline) pools.now }
{
    let mut outlines = Short::new();
    for pool in pools {
        outlines.push(read_pool(pool));
    }
    outlines
}

/// The name once more.
fn read_name(name: &Option<Name>) -> Option<Name>
    ensures { result ≡ name.now }
{
    match name {
        None => None,
        Some(name) => Some(name.duplicate()),
    }
}

/// The names once more.
pub(crate) fn read_names(names: &[Option<Name>]) -> PoolNames
    requires { length names.now ≤ 16 }
    ensures { result ≡ names.now }
{
    let mut all = Short::new();
    for name in names {
        all.push(read_name(name));
    }
    all
}

/// The ends of the stalls of the core's processors, where there is such a core.
fn read_free_core(core: &Option<FreeCore>) -> Option<StallEnds>
    ensures { result ≡ option_map free_core_ends core.now }
{
    match core {
        None => None,
        Some(core) => Some(same_items(&core.stall_ends)),
    }
}

/// The ends of the stalls of each core that no pool has.
#[tactic(auto, using(std::proofs::lemmas::List::map_more))]
pub(crate) fn read_free(free: &[Option<FreeCore>]) -> FreeCores
    requires { length free.now ≤ 64 }
    ensures { result ≡ map (option_map free_core_ends) free.now }
{
    let mut all = Short::new();
    for core in free {
        all.push(read_free_core(core));
    }
    all
}

/// The first of the cores that is leaving, where the first of these has the number r.
fn core_leaving(r: ResId, cores: &[Option<Resource>]) -> Option<MoveUnderWay>
    requires { r.0 + length cores.now ≤ 64 }
    ensures { option_map way_of result ≡ first_answer core_to_leave r.0 cores.now }
{
    match cores {
        [] => None,
        [None, rest @ ..] => core_leaving(ResId(r.0 + 1), rest),
        [Some(c), rest @ ..] => {
            if c.leaving {
                Some(MoveUnderWay::Core { r, to: None })
            } else {
                core_leaving(ResId(r.0 + 1), rest)
            }
        }
    }
}

/// The first of the domains that is moving, where the first of these has the number d.
fn domain_moving(d: DomId, domains: &[Option<Domain>]) -> Option<MoveUnderWay>
    requires { d.0 + length domains.now ≤ 64 }
    ensures { option_map way_of result ≡ first_answer domain_to_move d.0 domains.now }
{
    match domains {
        [] => None,
        [None, rest @ ..] => domain_moving(DomId(d.0 + 1), rest),
        [Some(domain), rest @ ..] => match domain.moving {
            Some(to) => Some(MoveUnderWay::Domain { d, to }),
            None => domain_moving(DomId(d.0 + 1), rest),
        },
    }
}

/// What is on its way from this pool.
fn leaving_pool(place: PoolId, pool: &Pool) -> Option<MoveUnderWay>
    requires { PoolFits pool.now }
    ensures { option_map way_of result ≡ pool_under_way place.0 pool.now }
{
    match core_leaving(ResId(0), pool.resources.as_slice()) {
        Some(way) => Some(way),
        None => domain_moving(DomId(0), pool.domains.as_slice()),
    }
}

/// What is on its way from one of the pools, where the first of these has this number.
fn leaving_pools(first: PoolId, pools: &[Option<Pool>]) -> Option<MoveUnderWay>
    requires few { first.0 + length pools.now ≤ 16 }
    requires fits { AllPlaces PoolFits pools.now }
    ensures { option_map way_of result ≡ first_answer pool_under_way first.0 pools.now }
{
    match pools {
        [] => None,
        [None, rest @ ..] => leaving_pools(PoolId(first.0 + 1), rest),
        [Some(pool), rest @ ..] => match leaving_pool(first, pool) {
            Some(way) => Some(way),
            None => leaving_pools(PoolId(first.0 + 1), rest),
        },
    }
}

/// The first of the cores that is to join a pool, where the first of these has the number r.
fn core_joining(r: ResId, free: &[Option<FreeCore>]) -> Option<MoveUnderWay>
    requires { r.0 + length free.now ≤ 64 }
    ensures { option_map way_of result ≡ first_answer core_to_join r.0 free.now }
{
    match free {
        [] => None,
        [None, rest @ ..] => core_joining(ResId(r.0 + 1), rest),
        [Some(core), rest @ ..] => match core.target {
            Some(to) => Some(MoveUnderWay::Core {
                r,
                to: Some(PoolId(to)),
            }),
            None => core_joining(ResId(r.0 + 1), rest),
        },
    }
}

/// What is on its way.
pub(crate) fn under_way_of(state: &State) -> Option<MoveUnderWay>
    requires { StateFits state.now }
    ensures { option_map way_of result ≡ state_under_way state.entry.now }
{
    match leaving_pools(PoolId(0), state.pools.as_slice()) {
        Some(way) => Some(way),
        None => core_joining(ResId(0), state.free.as_slice()),
    }
}
