//! The end of a move: the home of a core or of a domain is its target.

ghost use Rattle.std.specs.Prelude.{◌≡◌, option_map, slice_set};
ghost use Rattle.sched_model.specs.Places.{change_at};
ghost use Rattle.cpupool.specs.ToolArrival.{with_core, outline_with_domain, outline_without_domain, outlined_size, handed_over, core_freed, core_arrived, domain_arrived, pools_after};
ghost use Rattle.cpupool.specs.Tool.{number_of_pool, way_of};

use crate::outline::{CoreFlags, DomainSizes, MoveUnderWay, Outlines};
use crate::pools::{core_home, domain_home, size_in};
use crate::tool::ToolState;
use sched_base::{DomId, PoolId, ResId};
use sched_model::places::item_at;

/// Puts a flag at the place of the core r.
#[tactic(auto, using(crate::proofs::PlaceLemmas::set_past))]
fn put_flag(flags: &mut CoreFlags, r: ResId, there: bool)
    ensures { flags.new ≡ slice_set flags.old r.0 there }
{
    if let Some(place) = flags.get_mut(r.0 as usize) {
        *place = there;
    }
}

/// Puts the number of vCPUs, or nothing, at the place of the domain d.
#[tactic(auto, using(crate::proofs::PlaceLemmas::set_past))]
fn put_size(sizes: &mut DomainSizes, d: DomId, size: Option<u8>)
    ensures { sizes.new ≡ slice_set sizes.old d.0 size }
{
    if let Some(place) = sizes.get_mut(d.0 as usize) {
        *place = size;
    }
}

/// This pool has the core r from now on, or has it no more.
#[tactic(auto, using(crate::proofs::PlaceLemmas::set_past))]
fn set_core(pools: &mut Outlines, home: PoolId, r: ResId, there: bool)
    ensures { pools.new ≡ change_at home.0 (with_core r.0 there) pools.old }
{
    if let Some(place) = pools.get_mut(home.0 as usize)
        && let Some(pool) = place
    {
        put_flag(&mut pool.cores, r, there);
    }
}

/// This pool has the domain d, with so many vCPUs, from now on.
#[tactic(auto, using(crate::proofs::PlaceLemmas::set_past))]
fn add_domain(pools: &mut Outlines, home: PoolId, d: DomId, vcpus: u8)
    ensures { pools.new ≡ change_at home.0 (outline_with_domain d.0 vcpus) pools.old }
{
    if let Some(place) = pools.get_mut(home.0 as usize)
        && let Some(pool) = place
    {
        put_size(&mut pool.domains, d, Some(vcpus));
    }
}

/// This pool has the domain d no more.
#[tactic(auto, using(crate::proofs::PlaceLemmas::set_past))]
fn remove_domain(pools: &mut Outlines, home: PoolId, d: DomId)
    ensures { pools.new ≡ change_at home.0 (outline_without_domain d.0) pools.old }
{
    if let Some(place) = pools.get_mut(home.0 as usize)
        && let Some(pool) = place
    {
        put_size(&mut pool.domains, d, None);
    }
}

/// How many vCPUs the domain d has, where this pool has it.
fn size_at(pools: &Outlines, place: PoolId, d: DomId) -> Option<u8>
    ensures { result ≡ outlined_size pools.now place.0 d.0 }
{
    match item_at(pools.as_slice(), place.0 as usize) {
        None => None,
        Some(pool) => size_in(pool, d),
    }
}

/// The domain d is in the pool j in place of this pool.
fn hand_over(pools: &mut Outlines, d: DomId, pool: PoolId, j: PoolId)
    ensures { pools.new ≡ handed_over d.0 pool.0 j.0 pools.old }
{
    if let Some(vcpus) = size_at(pools, pool, d) {
        remove_domain(pools, pool, d);
        add_domain(pools, j, d, vcpus);
    }
}

/// The pool that has the core r has it no more.
fn free_core(pools: &mut Outlines, r: ResId)
    ensures { pools.new ≡ core_freed r.0 pools.old }
{
    if let Some(i) = core_home(PoolId(0), pools.as_slice(), r) {
        set_core(pools, i, r, false);
    }
}

/// The core r is at its target.
fn arrive_core(pools: &mut Outlines, r: ResId, to: Option<PoolId>)
    ensures { pools.new ≡ core_arrived r.0 (option_map number_of_pool to) pools.old }
{
    match to {
        None => free_core(pools, r),
        Some(i) => set_core(pools, i, r, true),
    }
}

/// The domain d is in the pool j.
fn arrive_domain(pools: &mut Outlines, d: DomId, j: PoolId)
    ensures { pools.new ≡ domain_arrived d.0 j.0 pools.old }
{
    if let Some(i) = domain_home(PoolId(0), pools.as_slice(), d) {
        hand_over(pools, d, i, j);
    }
}

/// What was on its way is there.
fn arrive(pools: &mut Outlines, way: MoveUnderWay)
    ensures { pools.new ≡ pools_after pools.old (way_of way) }
{
    match way {
        MoveUnderWay::Core { r, to } => arrive_core(pools, r, to),
        MoveUnderWay::Domain { d, to } => arrive_domain(pools, d, to),
    }
}

impl ToolState {
    ghost use Rattle.std.specs.Prelude.{◌≡◌, ℕ, List, Option, Some, None, IsSome};
    ghost use Rattle.sched_base.specs.declared.Moment.{Moment};
    ghost use Rattle.sched_model.specs.declared.machine.Machine.{Machine};
    ghost use Rattle.sched_model.specs.declared.state.State.{State};
    ghost use Rattle.sched_model.specs.Machine.{after};
    ghost use Rattle.journal_core.specs.Parts.{UnderWay};
    ghost use Rattle.cpupool.specs.Tool.{tool_of};
    ghost use Rattle.cpupool.specs.ToolArrival.{after_arrival, action_of, but_for_free, EndsTheMove};

    /// What was on its way is there: its home is its target, and nothing is on its way any more.
    ///
    /// A core of no pool is given and taken by [`ToolState::give_free`] and [`ToolState::take_free`], before this call or after it.
    pub fn move_done(&mut self)
        requires { IsSome self.old.part.under_way }
        ensures idle { self.new.part.under_way ≡ None }
        ensures state { (m : Machine) → (s : State) → (t : ℕ) → (way : UnderWay)
            → (free : List (Option (List Moment))) → but_for_free free (tool_of m s) ≡ self.old
            → self.old.part.under_way ≡ Some way → EndsTheMove m s t (action_of way)
            → self.new ≡ but_for_free free (tool_of m (after m s t (action_of way))) }
    {
        self.end_move();
    }

    /// The same, by what the tool keeps.
    fn end_move(&mut self)
        ensures { self.new ≡ after_arrival self.old }
    {
        if let Some(way) = self.under_way {
            arrive(&mut self.pools, way);
            self.under_way = None;
        }
    }
}
