//! Where cores and domains are, and whether one of them is on its way.

ghost use Rattle.std.specs.Prelude.{◌≡◌, ℕ, ◌+◌, ◌<◌, ◌≤◌, ◌^◌, length, is_some};
ghost use Rattle.std.specs.List.{list_any};
ghost use Rattle.std.specs.Option.{option_copied};
ghost use Rattle.sched_model.specs.declared.state.Resource.{Resource as ResourceRecord};
ghost use Rattle.sched_model.specs.declared.state.Domain.{Domain as DomainRecord};
ghost use Rattle.sched_model.specs.declared.state.Pool.{Pool as PoolRecord};
ghost use Rattle.sched_model.specs.declared.state.FreeCore.{FreeCore as FreeCoreRecord};
ghost use Rattle.sched_model.specs.Places.{at_place, first_place, numbered_items};
ghost use Rattle.sched_laws.specs.EachPlace.{AllPlaces};
ghost use Rattle.sched_model.specs.Actions.{home_pool_of_core, home_pool_of_domain, home_pool_of_action};
ghost use Rattle.sched_model.specs.Machine.{has_move_under_way};
ghost use Rattle.sched_plain.specs.Moves.{is_anything_moving};
ghost use Rattle.pool_records.specs.Fits.{PoolFits};

use sched_base::{DomId, ResId};
use sched_model::action::Action;
use sched_model::places::item_at;
use sched_model::state::{Domain, FreeCore, Pool, Resource, State};

/// The pool that has the core, where the first of these has this number.
fn core_home(first: usize, pools: &[Option<Pool>], r: ResId) -> Option<usize>
    requires { first + length pools.now < 2 ^ 64 }
    ensures { result ≡ first_place first (λ (pool : PoolRecord). is_some
        (at_place pool.resources r.0)) pools.now }
{
    match pools {
        [] => None,
        [None, rest @ ..] => core_home(first + 1, rest, r),
        [Some(pool), rest @ ..] => {
            if item_at(pool.resources.as_slice(), r.0 as usize).is_some() {
                Some(first)
            } else {
                core_home(first + 1, rest, r)
            }
        }
    }
}

/// The pool that has the domain, where the first of these has this number.
fn domain_home(first: usize, pools: &[Option<Pool>], d: DomId) -> Option<usize>
    requires { first + length pools.now < 2 ^ 64 }
    ensures { result ≡ first_place first (λ (pool : PoolRecord). is_some
        (at_place pool.domains d.0)) pools.now }
{
    match pools {
        [] => None,
        [None, rest @ ..] => domain_home(first + 1, rest, d),
        [Some(pool), rest @ ..] => {
            if item_at(pool.domains.as_slice(), d.0 as usize).is_some() {
                Some(first)
            } else {
                domain_home(first + 1, rest, d)
            }
        }
    }
}

/// The pool that has the core.
pub fn home_of_core(state: &State, r: ResId) -> Option<usize>
    requires { length state.now.pools ≤ 16 }
    ensures { result ≡ home_pool_of_core state.entry.now r.0 }
{
    core_home(0, state.pools.as_slice(), r)
}

/// The pool that has the domain.
pub fn home_of_domain(state: &State, d: DomId) -> Option<usize>
    requires { length state.now.pools ≤ 16 }
    ensures { result ≡ home_pool_of_domain state.entry.now d.0 }
{
    domain_home(0, state.pools.as_slice(), d)
}

/// The pool with this number.
pub fn pool_at(state: &State, place: usize) -> Option<&Pool>
    ensures { option_copied result ≡ at_place state.entry.now.pools place }
{
    item_at(state.pools.as_slice(), place)
}

/// The pool of the action's subject.
pub fn home_of(granularity: u8, state: &State, action: Action) -> Option<usize>
    requires some { 0 < granularity }
    requires few { length state.now.pools ≤ 16 }
    ensures { result ≡ home_pool_of_action granularity state.entry.now action }
{
    match action {
        Action::Stall => None,
        Action::Xl => None,
        Action::Moved(r) => home_of_core(state, r),
        Action::DomMoved(d) => home_of_domain(state, d),
        Action::Wake(v) => home_of_domain(state, v.dom),
        Action::Block(p) => home_of_core(state, ResId(p.0 / granularity)),
        Action::Slice(r) => home_of_core(state, r),
        Action::Repl(u) => home_of_domain(state, u.dom),
        Action::Refill(d) => home_of_domain(state, d),
        Action::Arrive(p) => home_of_core(state, ResId(p.0 / granularity)),
        Action::Decide(r) => home_of_core(state, r),
        Action::Leave(p) => home_of_core(state, ResId(p.0 / granularity)),
        Action::Save(r) => home_of_core(state, r),
    }
}

/// Whether one of the cores is leaving, where the first of these has this number.
fn any_leaving(first: usize, cores: &[Option<Resource>]) -> bool
    requires { first + length cores.now < 2 ^ 64 }
    ensures { result
        ≡ list_any (λ (c : ℕ × ResourceRecord). c.1.leaving) (numbered_items first cores.now) }
{
    match cores {
        [] => false,
        [None, rest @ ..] => any_leaving(first + 1, rest),
        [Some(c), rest @ ..] => c.leaving || any_leaving(first + 1, rest),
    }
}

/// Whether one of the domains is moving, where the first of these has this number.
fn any_moving(first: usize, domains: &[Option<Domain>]) -> bool
    requires { first + length domains.now < 2 ^ 64 }
    ensures { result ≡ list_any (λ (d : ℕ × DomainRecord). is_some d.1.moving)
        (numbered_items first domains.now) }
{
    match domains {
        [] => false,
        [None, rest @ ..] => any_moving(first + 1, rest),
        [Some(d), rest @ ..] => d.moving.is_some() || any_moving(first + 1, rest),
    }
}

/// Whether one of the free cores is leaving, where the first of these has this number.
fn any_free_leaving(first: usize, free: &[Option<FreeCore>]) -> bool
    requires { first + length free.now < 2 ^ 64 }
    ensures { result ≡ list_any (λ (e : ℕ × FreeCoreRecord). is_some e.1.target)
        (numbered_items first free.now) }
{
    match free {
        [] => false,
        [None, rest @ ..] => any_free_leaving(first + 1, rest),
        [Some(c), rest @ ..] => c.target.is_some() || any_free_leaving(first + 1, rest),
    }
}

/// Whether a core or a domain of the pool is on its way.
fn is_moving_in(pool: &Pool) -> bool
    requires { PoolFits pool.now }
    ensures { result ≡ is_anything_moving pool.now }
{
    any_leaving(0, pool.resources.as_slice()) || any_moving(0, pool.domains.as_slice())
}

/// Whether a core or a domain of one of the pools is on its way, where the first of these has this number.
fn any_in_pools(first: usize, pools: &[Option<Pool>]) -> bool
    requires few { first + length pools.now < 2 ^ 64 }
    requires fits { AllPlaces PoolFits pools.now }
    ensures { result ≡ list_any (λ (e : ℕ × PoolRecord). is_anything_moving e.1)
        (numbered_items first pools.now) }
{
    match pools {
        [] => false,
        [None, rest @ ..] => any_in_pools(first + 1, rest),
        [Some(pool), rest @ ..] => is_moving_in(pool) || any_in_pools(first + 1, rest),
    }
}

/// Whether a core or a domain is on its way to another pool.
pub fn is_move_under_way(state: &State) -> bool
    requires pools { length state.now.pools ≤ 16 }
    requires free { length state.now.free ≤ 64 }
    requires fits { AllPlaces PoolFits state.now.pools }
    ensures { result ≡ has_move_under_way state.entry.now }
{
    any_in_pools(0, state.pools.as_slice()) || any_free_leaving(0, state.free.as_slice())
}
