//! What a pool at a place does in its machine. A trail tells where the machine stands.

use crate::slot::{AnyPool, PoolSlot};
use crate::trail::Trail;
use sched_base::Moment;
use sched_model::action::Action;
use sched_model::config::PoolParams;
use sched_model::event::Event;

impl PoolSlot {
    ghost use Rattle.std.specs.Prelude.{◌≡◌, true, false, None, Some};
    ghost use Rattle.std.specs.Option.{ForSome, IfSome, IsSome};
    ghost use Rattle.sched_model.specs.Actions.{IsOfPool, home_pool_of_action};
    ghost use Rattle.sched_model.specs.Machine.{is_action_enabled, event_of, after};
    ghost use Rattle.sched_model.specs.Policy.{records_kind};
    ghost use Rattle.sched_ops.specs.Conditions.{ArePoolParams};
    ghost use Rattle.journal_core.specs.Parts.{part_of};
    ghost use Rattle.pool_core.specs.Seen.{IsEmpty};
    ghost use Rattle.machine_parts.specs.Told.{told_more};
    ghost use Rattle.machine_parts.specs.Places.{GoesOn, StandsAt, slot_part, state_of};
    ghost use Rattle.machine_parts.specs.Spares.{IsSpare, made_seen};

    /// An event of the pool that is this part of the machine, which stands where the trail leads: the machine's own event, after which
    /// the place stands where the trail leads with the entry added. The event's moment is the machine's.
    pub fn perform(&mut self, trail: &Trail, place: u8, action: Action, t: Moment) -> Event
        requires goes { GoesOn trail.now }
        requires now { t.0 ≡ (state_of trail.now).now }
        requires stands { StandsAt trail.now place self.old }
        requires own { IsOfPool action }
        requires enabled { is_action_enabled trail.now.input (state_of trail.now)
            (state_of trail.now).now action ≡ true }
        requires home { home_pool_of_action trail.now.input.config.granularity (state_of trail.now)
            action ≡ Some place }
        ensures event { result ≡ event_of trail.now.input (state_of trail.now)
            (state_of trail.now).now action }
        ensures part { slot_part self.new
            ≡ part_of (after trail.now.input (state_of trail.now) (state_of trail.now).now action)
            place }
        ensures stands { StandsAt (told_more trail.now (record { at = t; event = result })) place
            self.new }
    {
        let mut event = Event::Finish;
        self.perform_into(trail, place, action, t, &mut event);
        event
    }

    /// The same, and the event is written in its place.
    pub fn perform_into(
        &mut self,
        trail: &Trail,
        place: u8,
        action: Action,
        t: Moment,
        out: &mut Event,
    )
        requires goes { GoesOn trail.now }
        requires now { t.0 ≡ (state_of trail.now).now }
        requires stands { StandsAt trail.now place self.old }
        requires own { IsOfPool action }
        requires enabled { is_action_enabled trail.now.input (state_of trail.now)
            (state_of trail.now).now action ≡ true }
        requires home { home_pool_of_action trail.now.input.config.granularity (state_of trail.now)
            action ≡ Some place }
        ensures event { out.new ≡ event_of trail.now.input (state_of trail.now)
            (state_of trail.now).now action }
        ensures part { slot_part self.new
            ≡ part_of (after trail.now.input (state_of trail.now) (state_of trail.now).now action)
            place }
        ensures stands { StandsAt (told_more trail.now (record { at = t; event = out.new })) place
            self.new }
    {
        let Some(pool) = &mut self.state else {
            unreachable!();
        };
        pool.perform_into(action, t, out);
    }

    /// A spare pool of the machine comes to the place, which is empty, with these parameters of its scheduler. It is in use, and has
    /// neither a domain nor a core.
    pub fn open_with(&mut self, trail: &Trail, spare: AnyPool, params: &PoolParams)
        requires empty { self.old ≡ None }
        requires spare { IsSpare trail.now.input (state_of trail.now).now
            (records_kind spare.value.pool.scheduler.records) spare.value }
        requires params { ArePoolParams (records_kind spare.value.pool.scheduler.records)
            params.now }
        ensures { self.new ≡ Some (made_seen trail.now.input.config params.now spare.value.latest) }
    {
        let mut pool = spare;
        pool.open(params);
        self.state = Some(pool);
    }

    /// The pool of the place, this part of the machine, goes out, which has neither a domain nor a core. It is in use no longer, and is
    /// a spare one.
    pub fn shut(&mut self, trail: &Trail, place: u8) -> AnyPool
        requires goes { GoesOn trail.now }
        requires stands { StandsAt trail.now place self.old }
        requires some { IsSome self.old }
        requires empty { ForSome self.old (λ seen. IsEmpty seen.pool) }
        ensures after { self.new ≡ None }
        ensures pool { ForSome self.old (λ seen. result.value ≡ record seen { in_use = false }) }
        ensures spare { IsSpare trail.now.input (state_of trail.now).now
            (records_kind result.value.pool.scheduler.records) result.value }
    {
        let Some(mut pool) = self.state.take() else {
            unreachable!();
        };
        pool.shut();
        pool
    }
}
