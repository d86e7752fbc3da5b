//! Accepted commands, carried out on what the tool keeps.

ghost use Rattle.std.specs.Prelude.{◌≡◌, ◌≤◌, ◌+◌, false, Some, None, length, replicate, slice_set};

use crate::outline::{CoreFlags, DomainSizes, MoveUnderWay, Outline, Outlines, PoolNames};
use crate::pools::{has_core, size_in};
use crate::tool::ToolState;
use sched_base::{DomId, Name, PoolId, ResId};
use sched_model::config::SchedKind;
use sched_model::places::item_at;
use sched_model::plan::Plan;
use sched_model::short::Short;

/// No core, where there are so many.
#[tactic(auto, using(sched_model::proofs::Replicate::replicate_one_more))]
fn no_cores(cores: u8) -> CoreFlags
    requires { cores ≤ 64 }
    ensures { result ≡ replicate cores false }
{
    let mut flags = Short::new();
    for i in 0..cores {
        flags.push(false);
    }
    flags
}

/// No domain, where there are so many.
#[tactic(auto, using(sched_model::proofs::Replicate::replicate_one_more))]
fn no_domains(domains: usize) -> DomainSizes
    requires { domains ≤ 64 }
    ensures { result ≡ replicate domains None }
{
    let mut sizes = Short::new();
    for i in 0..domains {
        sizes.push(None);
    }
    sizes
}

/// Puts a pool, or none, at this place.
#[tactic(auto, using(crate::proofs::PlaceLemmas::set_past))]
fn put_pool(pools: &mut Outlines, home: PoolId, pool: Option<Outline>)
    ensures { pools.new ≡ slice_set pools.old home.0 pool }
{
    if let Some(place) = pools.get_mut(home.0 as usize) {
        *place = pool;
    }
}

/// Puts a name, or none, at this place.
#[tactic(auto, using(crate::proofs::PlaceLemmas::set_past))]
fn put_name(names: &mut PoolNames, pool: PoolId, name: Option<Name>)
    ensures { names.new ≡ slice_set names.old pool.0 name }
{
    if let Some(place) = names.get_mut(pool.0 as usize) {
        *place = name;
    }
}

impl ToolState {
    ghost use Rattle.std.specs.Prelude.{◌≡◌, ◌<◌, None, Ok, ℕ, is_some, length};
    ghost use Rattle.sched_model.specs.declared.machine.Machine.{Machine};
    ghost use Rattle.sched_model.specs.declared.state.State.{State};
    ghost use Rattle.sched_model.specs.declared.work.CommandLine.{CommandLine as Line};
    ghost use Rattle.sched_model.specs.Machine.{line_verdict, after_command};
    ghost use Rattle.sched_model.specs.Places.{at_place};
    ghost use Rattle.cpupool.specs.Tool.{tool_of};
    ghost use Rattle.cpupool.specs.ToolAdvance.{fresh_outline, has_outlined_core_at, has_outlined_domain_at, after_advance};

    /// The next command is accepted with this plan: it is over, and what it does to the tool's part is done.
    pub fn advance(&mut self, p: &Plan)
        requires left { self.old.part.next_command < length self.old.commands }
        requires idle { self.old.part.under_way ≡ None }
        ensures { (m : Machine) → (s : State) → (t : ℕ) → (line : Line) → tool_of m s ≡ self.old
            → line_verdict m s line ≡ Ok p.now
            → self.new ≡ tool_of m (after_command m t line s) }
    {
        self.carry_out(p);
    }

    /// The same, by what the tool keeps.
    fn carry_out(&mut self, p: &Plan)
        requires left { self.old.part.next_command < length self.old.commands }
        requires idle { self.old.part.under_way ≡ None }
        ensures { self.new ≡ after_advance self.old p.now }
    {
        match p {
            Plan::PoolCreate {
                pool,
                name,
                kind,
                ..
            } => {
                let outline = self.empty_outline(*kind);
                put_name(&mut self.names, *pool, Some(name.duplicate()));
                put_pool(&mut self.pools, *pool, Some(outline));
            }
            Plan::PoolDestroy { pool, .. } => {
                put_name(&mut self.names, *pool, None);
                put_pool(&mut self.pools, *pool, None);
            }
            Plan::PoolRename { pool, name, .. } => {
                put_name(&mut self.names, *pool, Some(name.duplicate()));
            }
            Plan::CpuAdd { pool, core, .. } => {
                if self.has_free(*core) {
                    self.under_way = Some(MoveUnderWay::Core {
                        r: *core,
                        to: Some(*pool),
                    });
                }
            }
            Plan::CpuRemove { pool, core, .. } => {
                if self.has_core_at(*pool, *core) {
                    self.under_way = Some(MoveUnderWay::Core { r: *core, to: None });
                }
            }
            Plan::Migrate { dom, from, to, .. } => {
                if from.0 != to.0 && self.has_domain_at(*from, *dom) {
                    self.under_way = Some(MoveUnderWay::Domain { d: *dom, to: *to });
                }
            }
            _ => {}
        }
        self.next_command += 1;
    }

    /// A pool without cores and domains.
    fn empty_outline(&self, kind: SchedKind) -> Outline
        ensures { result ≡ fresh_outline self.now kind }
    {
        Outline {
            kind,
            cores: no_cores(self.processors / self.granularity),
            domains: no_domains(self.domains.len()),
        }
    }

    /// Whether no pool has the core r.
    fn has_free(&self, r: ResId) -> bool
        ensures { result ≡ is_some (at_place self.now.part.free r.0) }
    {
        item_at(self.free.as_slice(), r.0 as usize).is_some()
    }

    /// Whether this pool has the core r.
    fn has_core_at(&self, place: PoolId, r: ResId) -> bool
        ensures { result ≡ has_outlined_core_at self.now.part place.0 r.0 }
    {
        match item_at(self.pools.as_slice(), place.0 as usize) {
            None => false,
            Some(pool) => has_core(pool, r),
        }
    }

    /// Whether this pool has the domain d.
    fn has_domain_at(&self, place: PoolId, d: DomId) -> bool
        ensures { result ≡ has_outlined_domain_at self.now.part place.0 d.0 }
    {
        match item_at(self.pools.as_slice(), place.0 as usize) {
            None => false,
            Some(pool) => size_in(pool, d).is_some(),
        }
    }
}
