//! Cores that join a pool and leave it, and the ends of their stalls.

ghost use Rattle.std.specs.Prelude.{◌≡◌, ◌<◌, ◌/◌, ◌%◌, map, option_map};
ghost use Rattle.sched_model.specs.Opening.{joined_core};
ghost use Rattle.sched_model.specs.Places.{at_place, put_at, clear_at, change_at, change_item};
ghost use Rattle.sched_model.specs.Pool.{pool_with_leaving, change_processor};
ghost use Rattle.pool_records.specs.Cores.{fresh_processor, ends_of, leaving_core, stalled_to, with_sibling};

use sched_base::{Moment, ProcId, ResId};
use sched_model::facts::StallEnds;
use sched_model::places::{set_place, take_item};
use sched_model::row::Row;
use sched_model::short::Short;
use sched_model::state::{Doing, Pool, Processor, Processors, Resource, Stage};

/// Processors that idle, with these ends of their stalls.
fn fresh_processors(stall_ends: &StallEnds) -> Processors
    ensures { result ≡ map fresh_processor stall_ends.now }
{
    let mut processors = Short::new();
    for end in stall_ends.as_slice() {
        processors.push(Processor {
            doing: Doing::Idle,
            stall_end: *end,
        });
    }
    processors
}

/// A core that joins a pool, with the ends of its processors' stalls: it is to decide.
pub fn fresh_core(stall_ends: &StallEnds) -> Resource
    ensures { result ≡ joined_core stall_ends.now }
{
    Resource {
        cur: None,
        saving: None,
        pending: true,
        leaving: false,
        since: Moment(0),
        due: None,
        stage: Stage::Open,
        processors: fresh_processors(stall_ends),
    }
}

/// The core joins the pool, with the ends of its processors' stalls.
pub fn put_core(r: ResId, stall_ends: &StallEnds, pool: &mut Pool)
    ensures { pool.new ≡ record pool.old
        { resources = put_at r.0 (joined_core stall_ends.now) pool.old.resources } }
{
    set_place(&mut pool.resources, r.0, Some(fresh_core(stall_ends)));
}

/// The ends of the stalls of the core's processors.
pub fn stall_ends_of(core: &Resource) -> StallEnds
    ensures { result ≡ ends_of core.now }
{
    let mut stall_ends = Short::new();
    for p in core.processors.as_slice() {
        stall_ends.push(p.stall_end);
    }
    stall_ends
}

/// The core leaves the pool: the ends of its processors' stalls, and none where the pool has no such core.
pub fn take_core(r: ResId, pool: &mut Pool) -> Option<StallEnds>
    ensures ends { result ≡ option_map ends_of (at_place pool.old.resources r.0) }
    ensures pool { pool.new ≡ record pool.old { resources = clear_at r.0 pool.old.resources } }
{
    match take_item(&mut pool.resources, r.0 as usize) {
        None => None,
        Some(c) => Some(stall_ends_of(&c)),
    }
}

/// The core is leaving; it is to decide where it has a unit.
pub fn mark_leaving(r: ResId, cores: &mut Row<Option<Resource>>)
    ensures { cores.new ≡ change_at r.0 leaving_core cores.old }
{
    let place = r.0 as usize;
    if place < cores.len() {
        if let Some(c) = cores.item_mut(place) {
            c.leaving = true;
            c.pending = c.pending || c.cur.is_some();
        }
    }
}

/// The pool's core is leaving.
pub fn set_leaving(r: ResId, pool: &mut Pool)
    ensures { pool.new ≡ pool_with_leaving r.0 pool.old }
{
    mark_leaving(r, &mut pool.resources);
}

/// The stall of the processor at this place ends then.
#[tactic(auto, using(sched_model::proofs::PlaceLemmas::past_the_end))]
fn set_end(processors: &mut Processors, sibling: usize, end: Moment)
    ensures { processors.new ≡ change_item sibling (stalled_to end) processors.old }
{
    if let Some(p) = processors.get_mut(sibling) {
        p.stall_end = end;
    }
}

/// The stall of the processor of one of the cores ends then.
pub fn end_stall(granularity: u8, p: ProcId, end: Moment, cores: &mut Row<Option<Resource>>)
    requires { 0 < granularity }
    ensures { cores.new ≡ change_at (p.0 / granularity)
        (with_sibling (p.0 % granularity) (stalled_to end)) cores.old }
{
    let r = (p.0 / granularity) as usize;
    if r < cores.len() {
        if let Some(c) = cores.item_mut(r) {
            set_end(&mut c.processors, (p.0 % granularity) as usize, end);
        }
    }
}

/// The stall of the pool's processor ends then.
pub fn set_stall_end(granularity: u8, p: ProcId, end: Moment, pool: &mut Pool)
    requires { 0 < granularity }
    ensures { pool.new ≡ change_processor granularity p.0 (stalled_to end) pool.old }
{
    end_stall(granularity, p, end, &mut pool.resources);
}
