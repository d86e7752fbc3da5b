//! The domains of one pool, and their vCPUs.

ghost use Rattle.std.specs.Prelude.{◌≡◌, ◌≤◌, true, is_some, IfOk, None, Some, length};
ghost use Rattle.sched_model.specs.declared.state.Domain.{Domain as DomainRecord};
ghost use Rattle.sched_model.specs.Places.{at_place, change_at, clear_at};
ghost use Rattle.unit_state.specs.Seen.{domains_from};

use crate::part::DomPart;
use crate::sleepers::{IDS, rearm, rearm_domain, vcpu_with, wake_moment};
use due_heap::DueHeap;
use pool_records::pausing::{set_paused, set_target};
use pool_records::runnable::is_runnable;
use pool_records::units::unit_count;
use pool_records::vcpus::{done_at, sleep_vcpu, start_vcpu, stop_vcpu, vcpu_of, wake_vcpu};
use sched_base::{DomId, Moment, NoMemory, PoolId, UnitId, VcpuId};
use sched_model::places::item_at;
use sched_model::row::{Row, empty_places};
use sched_model::state::Domain;
use std::alloc::Global;
use std::marker::Model;

/// The domains of one pool with their vCPUs. Contracts see the domains by number, how many vCPUs a unit has, how many units may still
/// be added, and the greatest moment that was given.
///
/// All moments are in nanoseconds, each at least the greatest one given before and at most 10^13. No call but `room` takes memory.
#[derive(Drop)]
pub struct Guests {
    granularity: u8,
    spare: usize,
    latest: Moment,
    domains: Row<Option<Domain>>,
    sleepers: DueHeap,
}

impl Model for Guests {
    ghost use Rattle.unit_state.specs.Seen.{Seen};

    ghost Value = { Seen };

    ghost use Rattle.unit_state.specs.Guests.{KeepsGuests, AreSleepers};

    ghost view = { λ a. record {
      domains = a.domains;
      granularity = a.granularity;
      spare = a.spare;
      latest = a.latest.0;
    } };

    ghost invariant = { λ a. KeepsGuests
        (record {
          domains = a.domains;
          granularity = a.granularity;
          spare = a.spare;
          latest = a.latest.0;
        }) × AreSleepers a.domains a.sleepers };
}

/// The set of the domains that are there.
fn home_domains(domains: &[Option<Domain>]) -> u64
    requires { length domains.now ≤ 64 }
    ensures { result ≡ domains_from 0 domains.now }
{
    let mut set = 0u64;
    for d in 0..domains.len() {
        if domains[d].is_some() {
            set += 1u64 << d;
        }
    }
    set
}

/// The domain, which is there, is taken out of its place.
fn take_out(domains: &mut Row<Option<Domain>>, d: DomId) -> Domain
    requires { is_some (at_place domains.old d.0) ≡ true }
    ensures domain { at_place domains.old d.0 ≡ Some result }
    ensures domains { domains.new ≡ clear_at d.0 domains.old }
{
    match domains.replace(d.0 as usize, None) {
        Some(domain) => domain,
        None => unreachable!(),
    }
}

impl Guests {
    ghost use Rattle.std.specs.Prelude.{◌≡◌, ◌≤◌, ◌<◌, ◌+◌, ◌-◌, ℕ, false, true, is_some, IfOk, IfSome, IfNone, length, None, Some};
    ghost use Rattle.std.specs.Option.{ForSome};
    ghost use Rattle.sched_base.specs.Numbers.{moment};
    ghost use Rattle.sched_base.specs.declared.VcpuId.{VcpuId};
    ghost use Rattle.sched_base.specs.declared.Moment.{Moment};
    ghost use Rattle.sched_model.specs.declared.state.Vcpu.{Vcpu as VcpuRecord};
    ghost use Rattle.sched_model.specs.declared.state.Domain.{Domain as DomainRecord};
    ghost use Rattle.sched_model.specs.CheckedMachine.{IsGranularity};
    ghost use Rattle.sched_model.specs.Places.{at_place, change_at, clear_at, put_at};
    ghost use Rattle.sched_base.specs.Numbers.{has_moment_come};
    ghost use Rattle.sched_model.specs.State.{has_core_bit, runnable_among};
    ghost use Rattle.sched_model.specs.Pool.{put_to_sleep, stopped_vcpu, domain_unit_count, woken_vcpu, change_among};
    ghost use Rattle.unit_state.specs.Seen.{IsNow, IsNotAfter, done_among, is_awake_among, is_due_among, is_paused_among, target_among, units_at, vacant_guests, wake_among};
    ghost use Rattle.unit_state.specs.Parts.{IsPart, IsStill};
    ghost use Rattle.unit_state.specs.Guests.{KeepsGuests};

    /// Guests of no domain yet, with places for so many domains, at most 64, and room for so many units, at most 256, of 1, 2 or 4
    /// vCPUs each.
    pub fn room(
        alloc: Global,
        granularity: u8,
        places: u8,
        units: usize,
    ) -> Result<Guests, NoMemory>
        requires granularity { IsGranularity granularity }
        requires places { places ≤ 64 }
        requires units { units ≤ 256 }
        ensures { IfOk result (λ guests. guests ≡ vacant_guests granularity places units) }
    {
        let domains = empty_places(alloc, places as usize)?;
        let sleepers = DueHeap::room(alloc, IDS)?;
        Ok(Guests {
            granularity,
            spare: units,
            latest: Moment(0),
            domains,
            sleepers,
        })
    }

    /// A domain comes in. None of its vCPUs is started.
    pub fn add(&mut self, part: DomPart)
        requires part { IsPart part }
        requires place { part.d.0 < length self.old.domains }
        requires absent { at_place self.old.domains part.d.0 ≡ None }
        requires granularity { part.granularity ≡ self.old.granularity }
        requires room { domain_unit_count part.granularity part.domain ≤ self.old.spare }
        ensures { self.new ≡ record self.old {
          domains = put_at part.d.0 part.domain self.old.domains;
          spare = self.old.spare -
              domain_unit_count part.granularity part.domain;
        } }
    {
        let DomPart {
            d,
            granularity,
            domain,
        } = part;
        self.spare -= unit_count(granularity, &domain) as usize;
        let _empty = self.domains.replace(d.0 as usize, Some(domain));
        rearm_domain(&mut self.sleepers, self.domains.as_slice(), d);
    }

    /// A vCPU that sleeps, and whose wake moment has come at t, wakes: the next run of its script is the work left to it.
    pub fn wake(&mut self, v: VcpuId, t: Moment)
        requires now { IsNow self.old t.0 }
        requires due { is_due_among t.0 self.old.domains v ≡ true }
        ensures { self.new ≡ record self.old
            { domains = change_among v woken_vcpu self.old.domains; latest = t.0 } }
    {
        wake_vcpu(&mut self.domains, v);
        rearm(&mut self.sleepers, self.domains.as_slice(), v);
        self.latest = t;
    }

    /// A vCPU that is awake is started: its work is counted from t on.
    pub fn start(&mut self, v: VcpuId, t: Moment)
        requires now { IsNow self.old t.0 }
        requires awake { is_awake_among self.old.domains v ≡ true }
        ensures { self.new ≡ record self.old {
          domains = change_among v (λ (x : VcpuRecord).
              record x { started = Some (moment t.0) }) self.old.domains;
          latest = t.0;
        } }
    {
        start_vcpu(&mut self.domains, v, t);
        self.latest = t;
    }

    /// A vCPU is stopped: the work left to it falls by the span since it was started, and not below 0. Where it is not started, it
    /// stays as it is.
    pub fn stop(&mut self, v: VcpuId, t: Moment)
        requires now { IsNow self.old t.0 }
        ensures { self.new ≡ record self.old
            { domains = change_among v (stopped_vcpu t.0) self.old.domains; latest = t.0 } }
    {
        stop_vcpu(&mut self.domains, v, t);
        self.latest = t;
    }

    /// A vCPU that is started, and whose work is done at t, sleeps from t on for the next span of its script.
    pub fn block(&mut self, v: VcpuId, t: Moment)
        requires now { IsNow self.old t.0 }
        requires done { has_moment_come t.0 (done_among self.old.domains v) ≡ true }
        ensures { self.new ≡ record self.old
            { domains = change_among v (put_to_sleep t.0) self.old.domains; latest = t.0 } }
    {
        sleep_vcpu(&mut self.domains, v, t);
        rearm(&mut self.sleepers, self.domains.as_slice(), v);
        self.latest = t;
    }

    /// A domain is paused, or no longer. Where it is not there, nothing changes.
    pub fn set_paused(&mut self, d: DomId, yes: bool)
        ensures { self.new ≡ record self.old {
          domains = change_at d.0 (λ (x : DomainRecord). record x { paused = yes })
              self.old.domains;
        } }
    {
        set_paused(d, yes, &mut self.domains);
    }

    /// A domain is moving to a pool, or no longer. Where it is not there, nothing changes.
    pub fn set_moving(&mut self, d: DomId, to: Option<PoolId>)
        ensures { self.new ≡ record self.old {
          domains = change_at d.0 (λ (x : DomainRecord). record x { moving = to })
              self.old.domains;
        } }
    {
        set_target(d, to, &mut self.domains);
    }

    /// A domain goes out, and its units leave their room. None of its vCPUs is started.
    pub fn take(&mut self, d: DomId) -> DomPart
        requires here { is_some (at_place self.old.domains d.0) ≡ true }
        requires still { ForSome (at_place self.old.domains d.0) IsStill }
        ensures number { result.d ≡ d }
        ensures granularity { result.granularity ≡ self.old.granularity }
        ensures domain { at_place self.old.domains d.0 ≡ Some result.domain }
        ensures part { IsPart result }
        ensures after { self.new ≡ record self.old {
          domains = clear_at d.0 self.old.domains;
          spare = self.old.spare + domain_unit_count
              result.granularity result.domain;
        } }
    {
        let granularity = self.granularity;
        let domain = take_out(&mut self.domains, d);
        self.spare += unit_count(granularity, &domain) as usize;
        rearm_domain(&mut self.sleepers, self.domains.as_slice(), d);
        DomPart {
            d,
            granularity,
            domain,
        }
    }

    /// Whether some vCPU of the unit is awake, and its domain is here and neither paused nor moving.
    pub fn runnable(&self, u: UnitId) -> bool
        ensures { result ≡ runnable_among self.now.granularity self.now.domains u }
    {
        is_runnable(self.granularity, self.domains.as_slice(), u)
    }

    /// Whether the vCPU is here and awake.
    pub fn awake(&self, v: VcpuId) -> bool
        ensures { result ≡ is_awake_among self.now.domains v }
    {
        match vcpu_of(self.domains.as_slice(), v) {
            Some(x) => x.asleep_until.is_none(),
            None => false,
        }
    }

    /// The moment at which the vCPU's work is done. `None` where it is not started, its work has no end, or it is not here.
    pub fn done_at(&self, v: VcpuId) -> Option<Moment>
        ensures { result ≡ done_among self.now.domains v }
    {
        match vcpu_of(self.domains.as_slice(), v) {
            Some(x) => done_at(x),
            None => None,
        }
    }

    /// The moment at which the vCPU wakes. `None` where it is awake or not here.
    pub fn wakes_at(&self, v: VcpuId) -> Option<Moment>
        ensures { result ≡ wake_among self.now.domains v }
    {
        wake_moment(self.domains.as_slice(), v)
    }

    /// How many units the domain has, at most 32, and 0 where it is not here.
    pub fn unit_count(&self, d: DomId) -> u8
        ensures { result ≡ units_at self.now.granularity (at_place self.now.domains d.0) }
    {
        match item_at(self.domains.as_slice(), d.0 as usize) {
            Some(domain) => unit_count(self.granularity, domain),
            None => 0,
        }
    }

    /// Whether the domain is here and paused.
    pub fn is_paused(&self, d: DomId) -> bool
        ensures { result ≡ is_paused_among self.now.domains d.0 }
    {
        match item_at(self.domains.as_slice(), d.0 as usize) {
            Some(domain) => domain.paused,
            None => false,
        }
    }

    /// The pool to which the domain is moving. `None` where it is not moving or not here.
    pub fn moving(&self, d: DomId) -> Option<PoolId>
        ensures { result ≡ target_among self.now.domains d.0 }
    {
        match item_at(self.domains.as_slice(), d.0 as usize) {
            Some(domain) => domain.moving,
            None => None,
        }
    }

    /// The first vCPU, by domain, then by index, that sleeps and whose wake moment has come at t.
    #[inline]
    pub fn first_wake(&self, t: Moment) -> Option<VcpuId>
        ensures none { IfNone result ((v : VcpuId) → is_due_among t.0 self.now.domains v ≡ false) }
        ensures due { IfSome result (λ v. is_due_among t.0 self.now.domains v ≡ true) }
        ensures first { IfSome result (λ v. (w : VcpuId) → is_due_among t.0 self.now.domains w
            ≡ true → IsNotAfter v w) }
    {
        match self.sleepers.first_due(t) {
            Some(id) => Some(vcpu_with(id)),
            None => None,
        }
    }

    /// The least moment at which a vCPU wakes. `None` where none sleeps.
    pub fn next_wake(&self) -> Option<Moment>
        ensures none { IfNone result ((v : VcpuId) → wake_among self.now.domains v ≡ None) }
        ensures some { IfSome result (λ at. (v : VcpuId)
            × (wake_among self.now.domains v ≡ Some at)) }
        ensures least { IfSome result (λ at. (v : VcpuId) (other : Moment) →
            wake_among self.now.domains v ≡ Some other → at.0 ≤ other.0) }
    {
        match self.sleepers.least() {
            Some((at, _)) => Some(at),
            None => None,
        }
    }

    /// The domains that are here, with bit d for the domain d.
    #[tactic(auto, using(crate::proofs::Members::has_domain))]
    pub fn members(&self) -> u64
        ensures { (d : ℕ) → has_core_bit result d ≡ is_some (at_place self.now.domains d) }
    {
        home_domains(self.domains.as_slice())
    }

    /// How many vCPUs a unit has: 1, 2 or 4.
    pub fn granularity(&self) -> u8
        ensures { result ≡ self.now.granularity }
    {
        self.granularity
    }

    /// The greatest moment that was given, 0 at first.
    pub fn latest(&self) -> Moment
        ensures { result.0 ≡ self.now.latest }
    {
        self.latest
    }

    /// Does nothing, and tells what the guests keep: the ranges of all numbers.
    pub fn keeps(&self)
        ensures { KeepsGuests self.now }
    {
        let _ = &self.granularity;
    }
}
