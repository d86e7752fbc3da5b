//! From when on the events of one core and of one processor may come.

ghost use Rattle.std.specs.Prelude.{◌≡◌, ◌<◌, not, true, None, Some};
ghost use Rattle.std.specs.Option.{option_copied};
ghost use Rattle.sched_model.specs.Places.{at_place, first_place};
ghost use Rattle.sched_model.specs.Pool.{is_held_back};
ghost use Rattle.pool_laws.specs.ReadyMoments.{guarded_moment, later_of, end_of, end_where, first_stall_end, may_core_move, may_gather, slice_moment};
ghost use Rattle.core_state.specs.Seen.{processor_among, core_sibling};
ghost use Rattle.core_state.specs.Ends.{may_core_decide, may_core_save, may_core_part, sibling_end, lowest_among};

use pool_records::cores::{all_held, any_held, is_held, is_open};
use sched_base::Moment;
use sched_model::places::item_at;
use sched_model::state::{Processor, Resource};

/// The moment, under a condition.
fn when(condition: bool, at: Option<Moment>) -> Option<Moment>
    ensures { result ≡ guarded_moment condition at }
{
    if condition { at } else { None }
}

/// The later of two moments, where both are there.
fn later(a: Option<Moment>, b: Option<Moment>) -> Option<Moment>
    ensures { result ≡ later_of a b }
{
    match (a, b) {
        (Some(x), Some(y)) => Some(Moment(x.0.max(y.0))),
        _ => None,
    }
}

/// The end of the stall of the core's first processor.
fn first_end(core: &Resource) -> Option<Moment>
    ensures { result ≡ first_stall_end core.now }
{
    match core.processors.as_slice() {
        [] => None,
        [p, ..] => Some(p.stall_end),
    }
}

/// Whether the core may leave the pool.
fn may_move(core: &Resource) -> bool
    ensures { result ≡ may_core_move core.now }
{
    core.leaving && core.cur.is_none() && core.saving.is_none() && !core.pending && is_open(core)
}

/// Whether the core's processors may arrive.
fn gathers(core: &Resource) -> bool
    ensures { result ≡ may_gather core.now }
{
    core.pending && is_open(core) && core.saving.is_none()
}

/// Whether the core may decide.
fn may_decide(core: &Resource) -> bool
    ensures { result ≡ may_core_decide core.now }
{
    all_held(core.processors.as_slice()) && is_open(core)
}

/// Whether the core may put away the unit that it saves.
fn may_save(core: &Resource) -> bool
    ensures { result ≡ may_core_save core.now }
{
    core.saving.is_some() && !any_held(core.processors.as_slice())
}

/// From when on the core, if there is one, may leave the pool.
#[inline]
pub fn move_end(core: Option<&Resource>) -> Option<Moment>
    ensures { result ≡ end_where may_core_move (option_copied core.entry) }
{
    match core {
        None => None,
        Some(c) => when(may_move(c), first_end(c)),
    }
}

/// From when on the core is to decide anew, since its due has come.
#[inline]
pub fn slice_end(core: Option<&Resource>) -> Option<Moment>
    ensures { result ≡ slice_moment (option_copied core.entry) }
{
    match core {
        None => None,
        Some(c) => when(!c.pending, later(c.due, first_end(c))),
    }
}

/// From when on the core may decide.
#[inline]
pub fn decide_end(core: Option<&Resource>) -> Option<Moment>
    ensures { result ≡ end_where may_core_decide (option_copied core.entry) }
{
    match core {
        None => None,
        Some(c) => when(may_decide(c), first_end(c)),
    }
}

/// From when on the core may put away the unit that it saves.
#[inline]
pub fn save_end(core: Option<&Resource>) -> Option<Moment>
    ensures { result ≡ end_where may_core_save (option_copied core.entry) }
{
    match core {
        None => None,
        Some(c) => when(may_save(c), first_end(c)),
    }
}

/// This processor of the core.
#[inline]
pub fn sibling_of(core: Option<&Resource>, sibling: usize) -> Option<&Processor>
    ensures { option_copied result ≡ core_sibling (option_copied core.entry) sibling }
{
    core?.processors.as_slice().get(sibling)
}

/// The processor.
pub fn processor_at(granularity: u8, cores: &[Option<Resource>], p: usize) -> Option<&Processor>
    requires { 0 < granularity }
    ensures { option_copied result ≡ processor_among granularity cores.now p }
{
    sibling_of(
        item_at(cores, p / granularity as usize),
        p % granularity as usize,
    )
}

#[inline]
fn stall_end(processor: Option<&Processor>) -> Option<Moment>
    ensures { result ≡ end_of (option_copied processor.entry) }
{
    match processor {
        None => None,
        Some(q) => Some(q.stall_end),
    }
}

/// The same of a processor that is held.
#[inline]
fn held_end(processor: Option<&Processor>) -> Option<Moment>
    ensures { result ≡ elim (option_copied processor.entry)
        [ None ↦ None | Some q ↦ guarded_moment (is_held_back q) (Some q.stall_end) ] }
{
    match processor {
        None => None,
        Some(q) => when(is_held(q), Some(q.stall_end)),
    }
}

/// The same of a processor that is not held.
#[inline]
fn free_end(processor: Option<&Processor>) -> Option<Moment>
    ensures { result ≡ elim (option_copied processor.entry)
        [ None ↦ None | Some q ↦ guarded_moment (not (is_held_back q)) (Some q.stall_end) ] }
{
    match processor {
        None => None,
        Some(q) => when(!is_held(q), Some(q.stall_end)),
    }
}

/// From when on the vCPU that a processor runs may block, where its work is done then.
#[inline]
pub fn block_end(work: Option<Moment>, processor: Option<&Processor>) -> Option<Moment>
    ensures { result ≡ later_of work (end_of (option_copied processor.entry)) }
{
    later(work, stall_end(processor))
}

/// From when on a processor of the core may arrive.
#[inline]
pub fn arrive_end(core: Option<&Resource>, processor: Option<&Processor>) -> Option<Moment>
    ensures { result ≡ sibling_end may_gather (λ q. not (is_held_back q))
        (option_copied core.entry) (option_copied processor.entry) }
{
    match core {
        None => None,
        Some(c) => when(gathers(c), free_end(processor)),
    }
}

/// From when on a processor of the core may leave.
#[inline]
pub fn leave_end(core: Option<&Resource>, processor: Option<&Processor>) -> Option<Moment>
    ensures { result ≡ sibling_end may_core_part is_held_back (option_copied core.entry)
        (option_copied processor.entry) }
{
    match core {
        None => None,
        Some(c) => when(!is_open(c), held_end(processor)),
    }
}

/// What stands at the place, where there is such a place.
#[inline]
pub fn work_at(works: &[Option<Moment>], p: usize) -> Option<Moment>
    ensures { result ≡ at_place works.now p }
{
    if p < works.len() { works[p] } else { None }
}

/// The end of the stall of the pool's lowest processor.
pub fn lowest_end(cores: &[Option<Resource>], first: Option<u8>) -> Option<Moment>
    requires { first ≡ first_place 0 (λ c. true) cores.now }
    ensures { result ≡ lowest_among cores.now }
{
    match first {
        None => None,
        Some(r) => match item_at(cores, r as usize) {
            None => None,
            Some(c) => first_end(c),
        },
    }
}
