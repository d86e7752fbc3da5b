//! The stalls of the workload.

ghost use Rattle.std.specs.Prelude.{◌≡◌, ◌<◌, ◌≤◌, length, true};
ghost use Rattle.sched_base.specs.Numbers.{moment};
ghost use Rattle.sched_model.specs.declared.action.Action.TheVariants as actions;
ghost use Rattle.sched_model.specs.Machine.{is_action_enabled, event_of, after, later_stall_end, state_with_stall};
ghost use Rattle.sched_model.specs.Places.{at_place, change_at};
ghost use Rattle.sched_model.specs.Pool.{change_processor};
ghost use Rattle.pool_records.specs.Cores.{stalled_to};
ghost use Rattle.sched_plain.specs.ReachedStates.{Stands};
ghost use Rattle.sched_plain.specs.Stalls.{later_end_in_pool, later_end_at_home, later_end_among, later_end_in_free, ends_to, free_to};

use crate::homes::{home_of_core, pool_at};
use plain_pool::pool::processor_of;
use pool_records::leaving::set_stall_end;
use sched_base::{Moment, ProcId, ResId};
use sched_model::event::Event;
use sched_model::machine::Machine;
use sched_model::places::item_at;
use sched_model::row::Row;
use sched_model::state::{FreeCore, Pool, State};

/// The later of the end and that of the processor's stall, where the pool has the processor.
fn end_in_pool(granularity: u8, pool: &Pool, p: ProcId, end: u64) -> u64
    requires { 0 < granularity }
    ensures { result ≡ later_end_in_pool granularity pool.now p.0 end }
{
    match processor_of(granularity, pool, p) {
        None => end,
        Some(q) => q.stall_end.0.max(end),
    }
}

/// The same of the pool with this number.
fn end_at_home(granularity: u8, state: &State, place: usize, p: ProcId, end: u64) -> u64
    requires { 0 < granularity }
    ensures { result ≡ later_end_at_home granularity (at_place state.entry.now.pools place) p.0
        end }
{
    match pool_at(state, place) {
        None => end,
        Some(pool) => end_in_pool(granularity, pool, p, end),
    }
}

/// The later of the end and that at this place.
fn end_among(ends: &[Moment], place: usize, end: u64) -> u64
    ensures { result ≡ later_end_among ends.now place end }
{
    match ends.get(place) {
        None => end,
        Some(old) => old.0.max(end),
    }
}

/// The same of a processor of a core of no pool.
fn end_in_free(granularity: u8, free: &[Option<FreeCore>], p: ProcId, end: u64) -> u64
    requires { 0 < granularity }
    ensures { result ≡ later_end_in_free granularity free.now p.0 end }
{
    match item_at(free, (p.0 / granularity) as usize) {
        None => end,
        Some(c) => end_among(c.stall_ends.as_slice(), (p.0 % granularity) as usize, end),
    }
}

/// The later of the end and that of the stall of the processor.
pub(crate) fn stall_end_of(granularity: u8, state: &State, p: ProcId, end: u64) -> u64
    requires some { 0 < granularity }
    requires few { length state.now.pools ≤ 16 }
    ensures { result ≡ later_stall_end granularity state.entry.now p.0 end }
{
    match home_of_core(state, ResId(p.0 / granularity)) {
        None => end_in_free(granularity, state.free.as_slice(), p, end),
        Some(i) => end_at_home(granularity, state, i, p, end),
    }
}

/// The end at this place of a core of no pool set.
#[tactic(auto, using(sched_model::proofs::PlaceLemmas::past_the_end))]
fn set_end_among(core: &mut FreeCore, place: usize, end: u64)
    ensures { core.new ≡ record core.old { stall_ends = ends_to place end core.old.stall_ends } }
{
    if let Some(old) = core.stall_ends.get_mut(place) {
        *old = Moment(end);
    }
}

/// The same of a processor of a core of no pool.
fn set_end_in_free(granularity: u8, p: ProcId, end: u64, free: &mut Row<Option<FreeCore>>)
    requires { 0 < granularity }
    ensures { free.new ≡ free_to granularity p.0 end free.old }
{
    if let Some(place) = free.get_mut((p.0 / granularity) as usize)
        && let Some(c) = place
    {
        set_end_among(c, (p.0 % granularity) as usize, end);
    }
}

/// The same of a processor of the pool with this number.
fn set_end_at_home(
    granularity: u8,
    p: ProcId,
    end: u64,
    index: usize,
    pools: &mut Row<Option<Pool>>,
)
    requires { 0 < granularity }
    ensures { pools.new ≡ change_at index (change_processor granularity p.0
        (stalled_to (moment end))) pools.old }
{
    if let Some(place) = pools.get_mut(index)
        && let Some(pool) = place
    {
        set_stall_end(granularity, p, Moment(end), pool);
    }
}

/// The processor stalls up to a moment.
fn stalled(granularity: u8, p: ProcId, end: u64, state: &mut State)
    requires some { 0 < granularity }
    requires few { length state.old.pools ≤ 16 }
    ensures { state.new ≡ state_with_stall granularity p.0 end state.old }
{
    match home_of_core(state, ResId(p.0 / granularity)) {
        None => set_end_in_free(granularity, p, end, &mut state.free),
        Some(i) => set_end_at_home(granularity, p, end, i, &mut state.pools),
    }
}

/// The next stall of the workload, whose moment has come.
pub fn stall(machine: &Machine, state: &mut State) -> Event
    requires stands { Stands machine.now state.old }
    requires enabled { is_action_enabled machine.now state.old state.old.now actions.Stall ≡ true }
    ensures event { result ≡ event_of machine.now state.old state.old.now actions.Stall }
    ensures state { state.new ≡ after machine.now state.old state.old.now actions.Stall }
{
    let g = machine.config.granularity;
    let Some(line) = machine
        .work
        .stalls
        .as_slice()
        .get(state.next_stall as usize)
    else {
        unreachable!();
    };
    let until = stall_end_of(g, state, line.cpu, state.now + line.span.0);
    stalled(g, line.cpu, until, state);
    state.next_stall += 1;
    Event::Stall {
        p: line.cpu,
        until: Moment(until),
    }
}
