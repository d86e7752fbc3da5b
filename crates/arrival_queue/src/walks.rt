//! Searches along list 0 of a ring.

ghost use Rattle.std.specs.Prelude.{ℕ, ◌≡◌, ◌+◌, ◌≤◌, ◌&&◌, drop, length};
ghost use Rattle.unit_ring.specs.Lists.{first_in};
ghost use Rattle.arrival_queue.specs.Filters.{has_core_bit, in_domains, may_run};
ghost use Rattle.arrival_queue.specs.Tables.{Apart, IsStop, all_items, first_unit};

use sched_base::{Cores, DomId, ResId, Steps, UnitId, has_core, is_allowed};
use std::sync::ledger::Ledger;
use unit_places::Masks;
use unit_ring::{Node, Ring};

/// A set of domains, with bit d for domain d.
#[derive(Clone, Copy)]
pub struct Allowed(pub u64);

/// Whether a domain is in a set of domains, which has a bit for each as a set of cores has.
pub fn has_domain(allowed: Allowed, d: DomId) -> bool
    ensures { result ≡ has_core_bit allowed.0 d.0 }
{
    has_core(Cores(allowed.0), ResId(d.0))
}

/// Whether a unit passes: its domain is in the set, where there is one, and its cores let it run on the core of a pool.
fn passes(domains: Option<Allowed>, masks: &Masks, core: ResId, home: Cores, u: UnitId) -> bool
    ensures { result ≡ (in_domains domains u && may_run masks.now core home u) }
{
    let is_in = match domains {
        None => true,
        Some(allowed) => has_domain(allowed, u.dom),
    };
    is_in && is_allowed(masks.get(u), core, home)
}

/// The first unit whose domain is in the set, in at most n + 1 steps, n the length of list 0.
pub fn first_where<L: Ledger>(ring: &Ring, allowed: Allowed, steps: &mut Steps<L>) -> Option<UnitId>
    requires { Apart (all_items ring.now) }
    ensures unit { result ≡ first_unit (λ u. has_core_bit allowed.0 u.dom.0) ring.now.first }
    ensures cost { steps.new ≤ steps.old + length ring.now.first + 1 }
{
    let mut at = ring.first(0, steps);
    while let Some(n) = at {
        let u = ring.unit(n);
        if has_domain(allowed, u.dom) {
            return Some(u);
        }
        at = ring.next(n, steps);
    }
    None
}

/// The first unit whose domain is in the set, from a node of list 0 on, or from its end, in at most n steps, n the length of list 0.
pub fn first_from<L: Ledger>(
    ring: &Ring,
    from: Option<Node>,
    allowed: Allowed,
    steps: &mut Steps<L>,
) -> Option<UnitId>
    requires apart { Apart (all_items ring.now) }
    requires stop { IsStop ring.now.first from }
    ensures unit { (k : ℕ) → from ≡ first_in (drop k ring.now.first) → result
        ≡ first_unit (λ u. has_core_bit allowed.0 u.dom.0) (drop k ring.now.first) }
    ensures cost { steps.new ≤ steps.old + length ring.now.first }
{
    let mut at = from;
    while let Some(n) = at {
        let u = ring.unit(n);
        if has_domain(allowed, u.dom) {
            return Some(u);
        }
        at = ring.next(n, steps);
    }
    None
}

/// The first unit that passes, in at most n + 1 steps, n the length of list 0.
pub fn first_on<L: Ledger>(
    ring: &Ring,
    domains: Option<Allowed>,
    masks: &Masks,
    core: ResId,
    home: Cores,
    steps: &mut Steps<L>,
) -> Option<UnitId>
    requires { Apart (all_items ring.now) }
    ensures unit { result ≡ first_unit (λ u. in_domains domains u && may_run masks.now core home u)
        ring.now.first }
    ensures cost { steps.new ≤ steps.old + length ring.now.first + 1 }
{
    let mut at = ring.first(0, steps);
    while let Some(n) = at {
        let u = ring.unit(n);
        if passes(domains, masks, core, home, u) {
            return Some(u);
        }
        at = ring.next(n, steps);
    }
    None
}
