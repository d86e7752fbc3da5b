//! What is on its way, and the cores that no pool has.

ghost use Rattle.std.specs.Prelude.{◌≡◌, option_map, slice_set};
ghost use Rattle.sched_model.specs.Places.{at_place};
ghost use Rattle.cpupool.specs.Steps.{first_end_up};

use crate::outline::{FreeCores, MoveUnderWay};
use crate::pools::kind_of;
use crate::tool::ToolState;
use sched_base::{DomId, Moment, PoolId, ResId};
use sched_model::config::SchedKind;
use sched_model::facts::{ResPart, StallEnds};
use sched_model::places::item_at;
use sched_model::short::same_items;

/// What is on its way: a core to a pool, or to none; or a domain to a pool with this scheduler.
#[derive(Clone, Copy)]
pub enum Move {
    Res {
        r: ResId,
        to: Option<PoolId>,
    },
    Dom {
        d: DomId,
        to: PoolId,
        kind: SchedKind,
    },
}

/// Whether no pool has the core r, and its first processor is up at t.
fn is_first_up(t: Moment, free: &[Option<StallEnds>], r: ResId) -> bool
    ensures { result ≡ first_end_up t.0 (at_place free.now r.0) }
{
    match item_at(free, r.0 as usize) {
        None => false,
        Some(ends) => match ends.as_slice() {
            [] => false,
            [end, ..] => end.0 <= t.0,
        },
    }
}

/// Puts the ends of stalls at the place of the core r, or nothing.
#[tactic(auto, using(crate::proofs::PlaceLemmas::set_past))]
pub(crate) fn put_ends(free: &mut FreeCores, r: ResId, ends: Option<StallEnds>)
    ensures { free.new ≡ slice_set free.old r.0 ends }
{
    if let Some(place) = free.get_mut(r.0 as usize) {
        *place = ends;
    }
}

/// The stall of the processor at this place ends at a moment.
#[tactic(auto, using(crate::proofs::PlaceLemmas::set_past))]
pub(crate) fn put_end(ends: &mut StallEnds, sibling: usize, end: Moment)
    ensures { ends.new ≡ slice_set ends.old sibling end }
{
    if let Some(place) = ends.get_mut(sibling) {
        *place = end;
    }
}

impl ToolState {
    ghost use Rattle.std.specs.Prelude.{◌≡◌, ◌<◌, Some, None, IsSome, option_map, is_some, length};
    ghost use Rattle.sched_model.specs.declared.machine.Machine.{Machine};
    ghost use Rattle.sched_model.specs.declared.state.State.{State};
    ghost use Rattle.sched_model.specs.Places.{at_place, put_at, clear_at};
    ghost use Rattle.sched_model.specs.Machine.{has_move_under_way};
    ghost use Rattle.cpupool.specs.Tool.{tool_of};
    ghost use Rattle.cpupool.specs.Steps.{outlined_kind, move_of, joining_ready};
    ghost use Rattle.journal_core.specs.ToolActions.{may_join};

    /// The scheduler of this pool.
    fn kind_at(&self, place: PoolId) -> SchedKind
        ensures { result ≡ outlined_kind self.now.part place.0 }
    {
        match item_at(self.pools.as_slice(), place.0 as usize) {
            None => SchedKind::Null,
            Some(pool) => kind_of(pool),
        }
    }

    /// What is on its way, or `None` exactly where nothing is.
    pub fn moving(&self) -> Option<Move>
        ensures way { result ≡ option_map (move_of self.now.part) self.now.part.under_way }
        ensures none { (m : Machine) → (s : State) → tool_of m s ≡ self.now → is_some result
            ≡ has_move_under_way s }
    {
        self.way_under_way()
    }

    /// What is on its way, as the program tells it.
    fn way_under_way(&self) -> Option<Move>
        ensures { result ≡ option_map (move_of self.now.part) self.now.part.under_way }
    {
        match self.under_way {
            None => None,
            Some(MoveUnderWay::Core { r, to }) => Some(Move::Res { r, to }),
            Some(MoveUnderWay::Domain { d, to }) => Some(Move::Dom {
                d,
                to,
                kind: self.kind_at(to),
            }),
        }
    }

    /// Whether a core of no pool is to join one, and its first processor is up at t.
    pub fn free_ready(&self, t: Moment) -> bool
        ensures part { result ≡ joining_ready self.now.part t.0 self.now.part.under_way }
        ensures state { (m : Machine) → (s : State) → tool_of m s ≡ self.now → result
            ≡ may_join s t.0 }
    {
        self.joins(t)
    }

    /// The same, by what the tool keeps.
    fn joins(&self, t: Moment) -> bool
        ensures { result ≡ joining_ready self.now.part t.0 self.now.part.under_way }
    {
        match self.under_way {
            Some(MoveUnderWay::Core { r, to: Some(_) }) => is_first_up(t, self.free.as_slice(), r),
            _ => false,
        }
    }

    /// A core that no pool had is given; the core is one of the machine, and none is there with its number.
    pub fn give_free(&mut self, r: ResPart)
        requires core { r.r.0 < length self.old.part.free }
        requires new { at_place self.old.part.free r.r.0 ≡ None }
        ensures { self.new ≡ record self.old {
          part = record self.old.part {
            free = put_at r.r.0 r.stall_ends
                self.old.part.free;
          };
        } }
    {
        let ResPart { r, stall_ends } = r;
        put_ends(&mut self.free, r, Some(stall_ends));
    }

    /// Takes a core that no pool has.
    pub fn take_free(&mut self, r: ResId) -> ResPart
        requires { IsSome (at_place self.old.part.free r.0) }
        ensures core { result.r ≡ r }
        ensures ends { at_place self.old.part.free r.0 ≡ Some result.stall_ends }
        ensures rest { self.new ≡ record self.old
            { part = record self.old.part { free = clear_at r.0 self.old.part.free } } }
    {
        let stall_ends = match item_at(self.free.as_slice(), r.0 as usize) {
            None => unreachable!(),
            Some(ends) => same_items(ends),
        };
        put_ends(&mut self.free, r, None);
        ResPart { r, stall_ends }
    }
}
