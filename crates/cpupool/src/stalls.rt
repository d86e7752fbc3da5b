//! The stalls of the cores that no pool has.

ghost use Rattle.std.specs.Prelude.{◌≡◌, max, slice_get};
ghost use Rattle.sched_base.specs.Numbers.{moment};

use crate::moves::{put_end, put_ends};
use crate::tool::ToolState;
use sched_base::{Moment, ProcId, ResId};
use sched_model::facts::StallEnds;
use sched_model::places::item_at;
use sched_model::short::same_items;

impl ToolState {
    ghost use Rattle.std.specs.Prelude.{◌≡◌, ◌/◌, ◌%◌, None, IsSome};
    ghost use Rattle.sched_base.specs.Numbers.{moment};
    ghost use Rattle.sched_model.specs.declared.machine.Machine.{Machine};
    ghost use Rattle.sched_model.specs.declared.state.State.{State};
    ghost use Rattle.sched_model.specs.Places.{at_place};
    ghost use Rattle.sched_model.specs.Actions.{home_pool_of_core};
    ghost use Rattle.sched_model.specs.Machine.{later_stall_end, state_with_stall};
    ghost use Rattle.cpupool.specs.Tool.{tool_of};
    ghost use Rattle.cpupool.specs.Dues.{free_stall_end, free_stalled};

    /// A processor whose core no pool has stalls up to the later of its old end and this moment, which is answered.
    pub fn stall_free(&mut self, p: ProcId, until: Moment) -> Moment
        requires { IsSome (at_place self.old.part.free (p.0 / self.old.granularity)) }
        ensures end { (m : Machine) → (s : State) → tool_of m s ≡ self.old
            → home_pool_of_core s (p.0 / m.config.granularity) ≡ None
            → result ≡ moment (later_stall_end m.config.granularity s p.0 until.0) }
        ensures state { (m : Machine) → (s : State) → tool_of m s ≡ self.old
            → home_pool_of_core s (p.0 / m.config.granularity) ≡ None
            → self.new ≡ tool_of m (state_with_stall m.config.granularity p.0 result.0 s) }
    {
        self.stall_end(p, until)
    }

    /// The same, by what the tool keeps.
    #[tactic(auto, using(crate::proofs::PlaceLemmas::changed_there))]
    fn stall_end(&mut self, p: ProcId, until: Moment) -> Moment
        requires { IsSome (at_place self.old.part.free (p.0 / self.old.granularity)) }
        ensures end { result ≡ moment (free_stall_end self.old.part (p.0 / self.old.granularity)
            (p.0 % self.old.granularity) until.0) }
        ensures part { self.new ≡ record self.old {
          part = free_stalled self.old.part (p.0 / self.old.granularity)
              (p.0 % self.old.granularity) result.0;
        } }
    {
        let r = ResId(p.0 / self.granularity);
        let i = (p.0 % self.granularity) as usize;
        let mut ends = match item_at(self.free.as_slice(), r.0 as usize) {
            None => unreachable!(),
            Some(ends) => same_items(ends),
        };
        let end = later_end(&ends, i, until);
        put_end(&mut ends, i, end);
        put_ends(&mut self.free, r, Some(ends));
        end
    }
}

/// The later of the end at this place and this moment.
fn later_end(ends: &StallEnds, sibling: usize, until: Moment) -> Moment
    ensures { result ≡ moment (elim (slice_get ends.now sibling)
        [ None ↦ until.0 | Some old ↦ max old.0 until.0 ]) }
{
    match ends.as_slice().get(sibling) {
        None => until,
        Some(old) => { if until.0 < old.0 { *old } else { until } }
    }
}
