//! The sets of moments of one pool's cores and processors.

ghost use Rattle.std.specs.Prelude.{◌≡◌, ◌+◌, ◌*◌, ◌/◌, ◌<◌, ◌≤◌, false, None, Some, IfOk, length, slice_set, replicate};
ghost use Rattle.std.specs.Option.{option_copied};
ghost use Rattle.sched_model.specs.CheckedMachine.{IsGranularity};
ghost use Rattle.due_heap.specs.Dues.{armed_moment};
ghost use Rattle.core_state.specs.Firsts.{IsFirstCore, IsFirstProcessor, IsLeast, earlier_of_both};
ghost use Rattle.sched_model.specs.Places.{at_place};
ghost use Rattle.core_state.specs.CoreState.{AgreesBut, AreArmed, AreEmpty, HaveIds, MayGather, MayRearm, with_core_ends, with_processor_ends, with_step_ends, with_work_ends};
ghost use Rattle.core_state.specs.Ends.{arrival_among, is_core_pending, leaving_among};

use crate::ends::{
    arrive_end, block_end, decide_end, leave_end, processor_at, save_end, sibling_of, slice_end,
    work_at,
};
use due_heap::DueSet;
use sched_base::{Moment, NoMemory, ProcId, ResId};
use sched_model::places::item_at;
use sched_model::row::Row;
use sched_model::state::Resource;
use std::alloc::Global;

/// How many numbers a set has.
pub const IDS: usize = 64;

/// For each kind of event the moments from which on it may come: by core those of a core that is to decide anew, decides and puts
/// away what it saves, and by processor those of one whose vCPU blocks, that arrives and that leaves. That a core leaves the pool
/// is asked of the one core that is on its way, so there is no set of such moments.
#[derive(Drop)]
pub struct Dues {
    pub slices: DueSet,
    pub decides: DueSet,
    pub saves: DueSet,
    pub blocks: DueSet,
    pub arrives: DueSet,
    pub leaves: DueSet,
}

/// Two sets without a moment.
fn two_sets(alloc: Global) -> Result<(DueSet, DueSet), NoMemory>
    ensures first { IfOk result (λ two. two.0 ≡ replicate 64 None) }
    ensures second { IfOk result (λ two. two.1 ≡ replicate 64 None) }
{
    let first = DueSet::room(alloc, IDS)?;
    let second = DueSet::room(alloc, IDS)?;
    Ok((first, second))
}

/// Dues without a moment.
pub fn empty_dues(alloc: Global) -> Result<Dues, NoMemory>
    ensures { IfOk result (λ dues. AreEmpty dues) }
{
    let (slices, decides) = two_sets(alloc)?;
    let (saves, blocks) = two_sets(alloc)?;
    let (arrives, leaves) = two_sets(alloc)?;
    Ok(Dues {
        slices,
        decides,
        saves,
        blocks,
        arrives,
        leaves,
    })
}

/// Arms a number with the moment, or disarms it where there is none.
#[inline(always)]
fn set_due(dues: &mut DueSet, id: u16, at: Option<Moment>)
    requires { length dues.old ≤ id → at ≡ None }
    ensures { dues.new ≡ slice_set dues.old id at }
{
    match at {
        Some(moment) => dues.arm(id, moment),
        None => dues.disarm(id),
    }
}

/// Arms the core with its moments.
#[inline]
fn rearm_core(dues: &mut Dues, r: u16, core: Option<&Resource>)
    requires none { 64 ≤ r → option_copied core ≡ None }
    requires slices { length dues.old.slices ≡ 64 }
    requires decides { length dues.old.decides ≡ 64 }
    requires saves { length dues.old.saves ≡ 64 }
    ensures { dues.new ≡ with_core_ends r (option_copied core.entry) dues.old }
{
    set_due(&mut dues.slices, r, slice_end(core));
    set_due(&mut dues.decides, r, decide_end(core));
    set_due(&mut dues.saves, r, save_end(core));
}

/// Arms a processor with its moments, which is the i-th of the core.
#[inline]
fn rearm_processor(
    dues: &mut Dues,
    p: u16,
    core: Option<&Resource>,
    sibling: u8,
    work: Option<Moment>,
)
    requires none { 64 ≤ p → option_copied core ≡ None }
    requires blocks { length dues.old.blocks ≡ 64 }
    requires arrives { length dues.old.arrives ≡ 64 }
    requires leaves { length dues.old.leaves ≡ 64 }
    ensures { dues.new ≡ with_processor_ends p (option_copied core.entry) sibling work dues.old }
{
    let processor = sibling_of(core, sibling as usize);
    set_due(&mut dues.blocks, p, block_end(work, processor));
    set_due(&mut dues.arrives, p, arrive_end(core, processor));
    set_due(&mut dues.leaves, p, leave_end(core, processor));
}

/// Arms the core's processors anew with the moments from which on they may arrive.
pub fn rearm_arrivals(
    arrives: &mut DueSet,
    granularity: u8,
    r: ResId,
    cores: &Row<Option<Resource>>,
)
    requires granularity { IsGranularity granularity }
    requires places { length cores.now * granularity ≤ 64 }
    requires others { AgreesBut (r.0 * granularity) (r.0 * granularity + granularity) arrives.old
        (arrival_among granularity cores.now) }
    ensures { AgreesBut 0 0 arrives.new (arrival_among granularity cores.now) }
{
    let core = item_at(cores.as_slice(), r.0 as usize);
    for i in 0..granularity {
        let p = r.0 as u16 * granularity as u16 + i as u16;
        set_due(arrives, p, arrive_end(core, sibling_of(core, i as usize)));
    }
}

/// The same of the moments from which on they may leave.
fn rearm_leavings(leaves: &mut DueSet, granularity: u8, r: ResId, cores: &Row<Option<Resource>>)
    requires granularity { IsGranularity granularity }
    requires places { length cores.now * granularity ≤ 64 }
    requires others { AgreesBut (r.0 * granularity) (r.0 * granularity + granularity) leaves.old
        (leaving_among granularity cores.now) }
    ensures { AgreesBut 0 0 leaves.new (leaving_among granularity cores.now) }
{
    let core = item_at(cores.as_slice(), r.0 as usize);
    for i in 0..granularity {
        let p = r.0 as u16 * granularity as u16 + i as u16;
        set_due(leaves, p, leave_end(core, sibling_of(core, i as usize)));
    }
}

/// Whether the core, if there is one, is to decide anew.
#[inline]
fn is_pending(core: Option<&Resource>) -> bool
    ensures { result ≡ is_core_pending (option_copied core.entry) }
{
    match core {
        None => false,
        Some(c) => c.pending,
    }
}

/// Arms the core's processors anew with the moments from which on they may arrive, where the core is to decide: else none arrives.
fn rearm_gathering(arrives: &mut DueSet, granularity: u8, r: ResId, cores: &Row<Option<Resource>>)
    requires granularity { IsGranularity granularity }
    requires places { length cores.now * granularity ≤ 64 }
    requires others { AgreesBut (r.0 * granularity) (r.0 * granularity + granularity) arrives.old
        (arrival_among granularity cores.now) }
    requires still { is_core_pending (at_place cores.now r.0) ≡ false
        → AgreesBut 0 0 arrives.old (arrival_among granularity cores.now) }
    ensures { AgreesBut 0 0 arrives.new (arrival_among granularity cores.now) }
{
    if is_pending(item_at(cores.as_slice(), r.0 as usize)) {
        rearm_arrivals(arrives, granularity, r, cores);
    }
}

/// Arms the core and its processors anew, after a change of that core or of its processors' works.
pub fn rearm(
    dues: &mut Dues,
    granularity: u8,
    r: ResId,
    cores: &Row<Option<Resource>>,
    works: &Row<Option<Moment>>,
)
    requires { MayRearm r.0
        (record { resources = cores.now; works = works.now; granularity = granularity }) dues.old }
    ensures { AreArmed (record {
      resources = cores.now;
      works = works.now;
      granularity = granularity;
    }) dues.new }
{
    let core = item_at(cores.as_slice(), r.0 as usize);
    let done_at = works.as_slice();
    rearm_core(dues, r.0 as u16, core);
    for i in 0..granularity {
        let p = r.0 as u16 * granularity as u16 + i as u16;
        rearm_processor(dues, p, core, i, work_at(done_at, p as usize));
    }
}

/// Arms anew what depends on what the processor does and on its work, but for arrivals: when its core decides and puts away what it
/// saves, and when its vCPU blocks and it leaves.
#[inline]
fn rearm_work(
    dues: &mut Dues,
    granularity: u8,
    p: ProcId,
    cores: &Row<Option<Resource>>,
    works: &Row<Option<Moment>>,
)
    requires granularity { IsGranularity granularity }
    requires places { length cores.now * granularity ≤ 64 }
    requires ids { HaveIds dues.old }
    ensures { dues.new ≡ with_work_ends granularity p.0 cores.now works.now dues.old }
{
    let r = p.0 / granularity;
    let core = item_at(cores.as_slice(), r as usize);
    let processor = sibling_of(core, (p.0 % granularity) as usize);
    let work = work_at(works.as_slice(), p.0 as usize);
    set_due(&mut dues.decides, r as u16, decide_end(core));
    set_due(&mut dues.saves, r as u16, save_end(core));
    set_due(&mut dues.blocks, p.0 as u16, block_end(work, processor));
    set_due(&mut dues.leaves, p.0 as u16, leave_end(core, processor));
}

/// Arms anew after a change of what a processor does and of its work.
pub fn rearm_step(
    dues: &mut Dues,
    granularity: u8,
    p: ProcId,
    cores: &Row<Option<Resource>>,
    works: &Row<Option<Moment>>,
)
    requires granularity { IsGranularity granularity }
    requires places { length cores.now * granularity ≤ 64 }
    requires ids { HaveIds dues.old }
    ensures { dues.new ≡ with_step_ends granularity p.0 cores.now works.now dues.old }
{
    rearm_work(dues, granularity, p, cores, works);
    let processor = processor_at(granularity, cores.as_slice(), p.0 as usize);
    let core = item_at(cores.as_slice(), (p.0 / granularity) as usize);
    set_due(&mut dues.arrives, p.0 as u16, arrive_end(core, processor));
}

/// The same, where the core's stage may be open again, so that its processors may arrive.
pub fn rearm_left(
    dues: &mut Dues,
    granularity: u8,
    p: ProcId,
    cores: &Row<Option<Resource>>,
    works: &Row<Option<Moment>>,
)
    requires granularity { IsGranularity granularity }
    requires places { length cores.now * granularity ≤ 64 }
    requires ids { HaveIds dues.old }
    requires arrives { MayGather granularity (p.0 / granularity) cores.now dues.old.arrives }
    ensures rest { dues.new ≡ record (with_work_ends granularity p.0 cores.now works.now dues.old) {
      arrives = dues.new.arrives;
    } }
    ensures arrives { AgreesBut 0 0 dues.new.arrives (arrival_among granularity cores.now) }
{
    rearm_work(dues, granularity, p, cores, works);
    let r = p.0 / granularity;
    rearm_gathering(&mut dues.arrives, granularity, ResId(r), cores);
}

/// Arms anew after the core put away its unit: its processors may arrive.
pub fn rearm_saved(dues: &mut Dues, granularity: u8, r: ResId, cores: &Row<Option<Resource>>)
    requires granularity { IsGranularity granularity }
    requires places { length cores.now * granularity ≤ 64 }
    requires arrives { MayGather granularity r.0 cores.now dues.old.arrives }
    ensures rest { dues.new ≡ record dues.old {
      saves = slice_set dues.old.saves r.0 None;
      arrives = dues.new.arrives;
    } }
    ensures arrives { AgreesBut 0 0 dues.new.arrives (arrival_among granularity cores.now) }
{
    dues.saves.disarm(r.0 as u16);
    rearm_gathering(&mut dues.arrives, granularity, r, cores);
}

/// Arms anew after the core decided: all but when its vCPUs block.
pub fn rearm_decided(dues: &mut Dues, granularity: u8, r: ResId, cores: &Row<Option<Resource>>)
    requires granularity { IsGranularity granularity }
    requires places { length cores.now * granularity ≤ 64 }
    requires ids { HaveIds dues.old }
    requires arrives { AgreesBut (r.0 * granularity) (r.0 * granularity + granularity)
        dues.old.arrives (arrival_among granularity cores.now) }
    requires leaves { AgreesBut (r.0 * granularity) (r.0 * granularity + granularity)
        dues.old.leaves (leaving_among granularity cores.now) }
    ensures rest { dues.new ≡ record (with_core_ends r.0 (at_place cores.now r.0) dues.old) {
      arrives = dues.new.arrives;
      leaves = dues.new.leaves;
    } }
    ensures arrives { AgreesBut 0 0 dues.new.arrives (arrival_among granularity cores.now) }
    ensures leaves { AgreesBut 0 0 dues.new.leaves (leaving_among granularity cores.now) }
{
    rearm_core(dues, r.0 as u16, item_at(cores.as_slice(), r.0 as usize));
    rearm_arrivals(&mut dues.arrives, granularity, r, cores);
    rearm_leavings(&mut dues.leaves, granularity, r, cores);
}

/// From now on what has come at t is at hand in each set.
pub fn advance(dues: &mut Dues, t: Moment)
    ensures { dues.new ≡ dues.old }
{
    dues.slices.advance(t);
    dues.decides.advance(t);
    dues.saves.advance(t);
    dues.blocks.advance(t);
    dues.arrives.advance(t);
    dues.leaves.advance(t);
}

/// The first core of the set whose moment has come at t.
#[inline]
pub fn first_due_core(dues: &DueSet, t: Moment) -> Option<ResId>
    requires { length dues.now ≡ 64 }
    ensures { IsFirstCore (λ r. armed_moment dues.now r.0) t.0 result }
{
    match dues.first_due(t) {
        None => None,
        Some(id) => Some(ResId(id as u8)),
    }
}

/// The first processor of the set whose moment has come at t.
#[inline]
pub fn first_due_processor(dues: &DueSet, t: Moment) -> Option<ProcId>
    requires { length dues.now ≡ 64 }
    ensures { IsFirstProcessor (λ p. armed_moment dues.now p.0) t.0 result }
{
    match dues.first_due(t) {
        None => None,
        Some(id) => Some(ProcId(id as u8)),
    }
}

/// The least moment of the set.
pub fn least_of(dues: &DueSet) -> Option<Moment>
    ensures { IsLeast (armed_moment dues.now) result }
{
    match dues.least() {
        None => None,
        Some((at, _)) => Some(at),
    }
}

/// The earlier of two moments.
pub fn earlier(a: Option<Moment>, b: Option<Moment>) -> Option<Moment>
    ensures { result ≡ earlier_of_both a b }
{
    match (a, b) {
        (None, _) => b,
        (_, None) => a,
        (Some(x), Some(y)) => if x.0 <= y.0 { a } else { b },
    }
}
