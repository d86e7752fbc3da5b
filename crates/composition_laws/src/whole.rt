//! The first action of the whole machine, its next moment, and the first action of an actor.

ghost use Rattle.std.specs.Prelude.{◌≡◌, ◌∷◌, ◌/◌, ℕ, true, List, None, Option, Some};
ghost use Rattle.sched_base.specs.declared.Moment.{Moment};
ghost use Rattle.sched_base.specs.declared.ProcId.{ProcId};
ghost use Rattle.sched_model.specs.declared.action.Action.{Action};
ghost use Rattle.sched_model.specs.declared.action.Actor.{Actor};
ghost use Rattle.sched_model.specs.declared.action.Actor.TheVariants.{Proc, Tool};
ghost use Rattle.sched_model.specs.declared.event.Entry.{Entry};
ghost use Rattle.sched_model.specs.declared.machine.Machine.{Machine};
ghost use Rattle.sched_model.specs.declared.state.FreeCore.{FreeCore};
ghost use Rattle.sched_model.specs.declared.state.Pool.{Pool};
ghost use Rattle.sched_model.specs.Places.{at_place};
ghost use Rattle.sched_model.specs.CheckedMachine.{IsChecked};
ghost use Rattle.sched_model.specs.Machine.{first_enabled_action};
ghost use Rattle.sched_model.specs.Runs.{IsRun};
ghost use Rattle.sched_laws.specs.StateLaws.{state_after};
ghost use Rattle.journal_core.specs.Parts.{state_under_way};
ghost use Rattle.pool_laws.specs.Actors.{IsFirstBy};
ghost use Rattle.journal_core.specs.ToolActions.{tool_may_act, IsLeastLater};
ghost use Rattle.composition_laws.specs.Actors.{first_by, has_actor};
ghost use Rattle.composition_laws.specs.WholeFirst.{ArePoolsFirsts, IsEarliest, first_tool_action};
ghost use Rattle.composition_laws.specs.WholeNext.{ArePoolsNexts, IsSoonest, IsWholeNext, leaving_at};

use run_laws::laws::{law_enabled_stays, law_next_moment};

/// In every state of a run, at whatever moment, the tool's first action is the first of the machine, where there is one. Where there is none, it is
/// the earliest of the pools' first events, and nothing may come where no pool has one.
pub fn law_whole_first()
    ensures tool { (m : Machine) → IsChecked m → (entries : List Entry) → IsRun m entries →
        (t : ℕ) → (action : Action) → first_tool_action m (state_after m entries) t ≡ Some action →
        first_enabled_action m (state_after m entries) t ≡ Some action }
    ensures pools { (m : Machine) → IsChecked m → (entries : List Entry) → IsRun m entries → (t : ℕ)
        → (firsts : List (Option Action)) → (found : Option Action)
        → first_tool_action m (state_after m entries) t ≡ None
        → ArePoolsFirsts m.config.granularity t (state_after m entries).pools firsts
        → IsEarliest firsts found → first_enabled_action m (state_after m entries) t ≡ found }
{}

/// In every state of a run in which nothing may come now, the next moment of the machine is the least of the pools' next moments, the tool's due and
/// the moment from which the core that is leaving its pool may go; there is none where none of these is there.
pub fn law_whole_next()
    ensures { (m : Machine) → IsChecked m → (entries : List Entry) → IsRun m entries
        → (nexts : List (Option Moment)) → (due next : Option Moment)
        → first_enabled_action m (state_after m entries) (state_after m entries).now ≡ None
        → ArePoolsNexts m.config.granularity (state_after m entries).pools nexts
        → IsLeastLater (state_after m entries).now (tool_may_act m (state_after m entries)) due
        → IsSoonest
        (due ∷ leaving_at m.config.granularity (state_after m entries)
        (state_under_way (state_after m entries)) ∷ nexts) next
        → IsWholeNext m (state_after m entries) next }
{
    law_enabled_stays();
    law_next_moment();
}

/// In every state of a run the first action of an actor that may come now is the first event by it in the pool that has it: the core of a
/// processor, or the domain. The processors of a core that no pool has do nothing. The first action of the tool is the stall, or else the command,
/// or else the move of what is on its way.
pub fn law_actor()
    ensures pool { (m : Machine) → IsChecked m → (entries : List Entry) → IsRun m entries → (i : ℕ)
        → (pool : Pool) → (actor : Actor) → (found : Option Action)
        → at_place (state_after m entries).pools i ≡ Some pool
        → has_actor m.config.granularity pool actor ≡ true
        → IsFirstBy m.config.granularity (state_after m entries).now pool actor found
        → first_by m (state_after m entries) actor ≡ found }
    ensures free { (m : Machine) → IsChecked m → (entries : List Entry) → IsRun m entries
        → (p : ProcId) → (core : FreeCore)
        → at_place (state_after m entries).free (p.0 / m.config.granularity) ≡ Some core
        → first_by m (state_after m entries) (Proc p) ≡ None }
    ensures tool { (m : Machine) → IsChecked m → (entries : List Entry) → IsRun m entries →
        first_by m (state_after m entries) Tool
        ≡ first_tool_action m (state_after m entries) (state_after m entries).now }
{}
