//! What the tool finds among the names and the pools that it keeps.

ghost use Rattle.std.specs.Prelude.{◌≡◌, ◌+◌, ◌≤◌, ◌<◌, true, is_some, length, option_map, bytes_eq, count_by};
ghost use Rattle.sched_model.specs.Places.{at_place, first_place, first_empty};
ghost use Rattle.journal_core.specs.Parts.{Outline as PoolOutline};
ghost use Rattle.cpupool.specs.Tool.{number_of_domain, number_of_pool};
ghost use Rattle.cpupool.specs.Verdicts.{entry_named, has_outlined_core, outlined_core_count, outlined_domain_count, flags_from};

use crate::outline::{DomainEntry, Outline};
use sched_base::{Cores, DomId, Name, PoolId, ResId};
use sched_model::config::SchedKind;
use sched_model::places::item_at;

/// The first place with this name, where the first of these has this number.
pub(crate) fn place_named(first: PoolId, names: &[Option<Name>], name: &Name) -> Option<PoolId>
    requires { first.0 + length names.now ≤ 16 }
    ensures { option_map number_of_pool result ≡ first_place first.0 (bytes_eq name.now) names.now }
{
    match names {
        [] => None,
        [None, rest @ ..] => place_named(PoolId(first.0 + 1), rest, name),
        [Some(other), rest @ ..] => {
            if name.is(other.as_bytes()) {
                Some(first)
            } else {
                place_named(PoolId(first.0 + 1), rest, name)
            }
        }
    }
}

/// The first domain with this name, where the first of these has the number d.
pub(crate) fn domain_named(d: DomId, domains: &[DomainEntry], name: &Name) -> Option<DomId>
    requires { d.0 + length domains.now ≤ 64 }
    ensures { option_map number_of_domain result ≡ entry_named d.0 name.now domains.now }
{
    match domains {
        [] => None,
        [domain, rest @ ..] => {
            if name.is(domain.name.as_bytes()) {
                Some(d)
            } else {
                domain_named(DomId(d.0 + 1), rest, name)
            }
        }
    }
}

/// The first place without a pool, where the first of these has this number.
pub(crate) fn first_empty_place(first: PoolId, pools: &[Option<Outline>]) -> Option<PoolId>
    requires { first.0 + length pools.now ≤ 16 }
    ensures { option_map number_of_pool result ≡ first_empty first.0 pools.now }
{
    match pools {
        [] => None,
        [None, ..] => Some(first),
        [Some(_), rest @ ..] => first_empty_place(PoolId(first.0 + 1), rest),
    }
}

/// How many places have something.
pub(crate) fn count_of<T>(places: &[Option<T>]) -> u64
    ensures value { result ≡ count_by is_some places.now }
    ensures few { result ≤ length places.now }
{
    places.iter().filter(|x| x.is_some()).count() as u64
}

/// The pool's scheduler.
pub(crate) fn kind_of(pool: &Outline) -> SchedKind
    ensures { result ≡ pool.now.kind }
{
    pool.kind
}

/// Whether the pool has the core.
pub(crate) fn has_core(pool: &Outline, r: ResId) -> bool
    ensures { result ≡ has_outlined_core pool.now r.0 }
{
    let r = r.0 as usize;
    let cores = pool.cores.as_slice();
    r < cores.len() && cores[r]
}

/// How many vCPUs the domain has, where the pool has it.
pub(crate) fn size_in(pool: &Outline, d: DomId) -> Option<u8>
    ensures { result ≡ at_place pool.now.domains d.0 }
{
    item_at(pool.domains.as_slice(), d.0 as usize).copied()
}

/// How many cores the pool has.
pub(crate) fn core_total(pool: &Outline) -> u64
    ensures value { result ≡ outlined_core_count pool.now }
    ensures few { result ≤ 64 }
{
    pool.cores.as_slice().iter().filter(|core| **core).count() as u64
}

/// How many domains the pool has.
pub(crate) fn domain_total(pool: &Outline) -> u64
    ensures value { result ≡ outlined_domain_count pool.now }
    ensures few { result ≤ 64 }
{
    count_of(pool.domains.as_slice())
}

/// The first pool that has the core, where the first of these has this number.
pub(crate) fn core_home(first: PoolId, pools: &[Option<Outline>], r: ResId) -> Option<PoolId>
    requires { first.0 + length pools.now ≤ 16 }
    ensures { option_map number_of_pool result
        ≡ first_place first.0 (λ (o : PoolOutline). has_outlined_core o r.0) pools.now }
{
    match pools {
        [] => None,
        [None, rest @ ..] => core_home(PoolId(first.0 + 1), rest, r),
        [Some(pool), rest @ ..] => {
            if has_core(pool, r) {
                Some(first)
            } else {
                core_home(PoolId(first.0 + 1), rest, r)
            }
        }
    }
}

/// The first pool that has the domain, where the first of these has this number.
pub(crate) fn domain_home(first: PoolId, pools: &[Option<Outline>], d: DomId) -> Option<PoolId>
    requires { first.0 + length pools.now ≤ 16 }
    ensures { option_map number_of_pool result
        ≡ first_place first.0 (λ (o : PoolOutline). is_some (at_place o.domains d.0)) pools.now }
{
    match pools {
        [] => None,
        [None, rest @ ..] => domain_home(PoolId(first.0 + 1), rest, d),
        [Some(pool), rest @ ..] => {
            if size_in(pool, d).is_some() {
                Some(first)
            } else {
                domain_home(PoolId(first.0 + 1), rest, d)
            }
        }
    }
}

/// The first domain that is there, where the first of these has the number d.
pub(crate) fn first_domain(d: DomId, domains: &[Option<u8>]) -> Option<DomId>
    requires { d.0 + length domains.now ≤ 64 }
    ensures { option_map number_of_domain result ≡ first_place d.0 (λ vcpus. true) domains.now }
{
    match domains {
        [] => None,
        [None, rest @ ..] => first_domain(DomId(d.0 + 1), rest),
        [Some(_), ..] => Some(d),
    }
}

/// The set of the pool's cores.
pub(crate) fn core_set(pool: &Outline) -> Cores
    ensures { result.0 ≡ flags_from 0 pool.now.cores }
{
    set_of(pool.cores.as_slice())
}

/// The set of the cores that are there.
pub(crate) fn set_of(cores: &[bool]) -> Cores
    requires { length cores.now ≤ 64 }
    ensures { result.0 ≡ flags_from 0 cores.now }
{
    let mut set = 0u64;
    for r in 0..cores.len() {
        if cores[r] {
            set += 1u64 << r;
        }
    }
    Cores(set)
}
