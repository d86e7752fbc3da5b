//! What a stall, a command and a move change.

ghost use Rattle.std.specs.Prelude.{◌≡◌, ℕ, List, Ok, is_some, true};
ghost use Rattle.sched_base.specs.declared.PoolId.{PoolId};
ghost use Rattle.sched_base.specs.declared.ResId.{ResId};
ghost use Rattle.sched_model.specs.declared.event.Entry.{Entry};
ghost use Rattle.sched_model.specs.declared.event.Reply.{Reply};
ghost use Rattle.sched_model.specs.declared.machine.Machine.{Machine};
ghost use Rattle.sched_model.specs.declared.state.State.{State};
ghost use Rattle.sched_model.specs.declared.plan.Plan.{Plan};
ghost use Rattle.sched_model.specs.declared.plan.Plan.TheVariants as plan;
ghost use Rattle.sched_model.specs.Places.{at_place};
ghost use Rattle.sched_model.specs.declared.work.CommandLine.{CommandLine};
ghost use Rattle.sched_model.specs.Machine.{line_verdict};
ghost use Rattle.sched_model.specs.CheckedMachine.{IsChecked};
ghost use Rattle.sched_model.specs.Runs.{IsRun};
ghost use Rattle.sched_laws.specs.StateLaws.{state_after};
ghost use Rattle.composition_laws.specs.ListedNames.{ListsNames};
ghost use Rattle.composition_laws.specs.Moves.{HasOneMove};
ghost use Rattle.composition_laws.specs.Plans.{Finds};
ghost use Rattle.composition_laws.specs.ToolSteps.{ToolSteps};

/// Of every state, reached or not: a stall, a command and the move of a core change one place of the pools at most, and the move of a
/// domain at most two. Each has then what the law names; the other places and the moment are as before. A stall in a pool and a
/// command that is refused leave what the tool keeps, but for the number of stalls or commands done.
pub fn law_tool_steps()
    ensures { (m : Machine) → (s : State) → (t : ℕ) → ToolSteps m s t }
{}

/// In every state of a run the move of a core or of a domain hands over its name, to the part of its target: that part lists it, and the
/// part that it came from does not. Every other name stays where it was, and after every other action all names do.
pub fn law_listed()
    ensures { (m : Machine) → IsChecked m → (entries : List Entry) → IsRun m entries → (t : ℕ) →
        ListsNames m (state_after m entries) t }
{}

/// In every state of a run at most one thing is on its way: a core that leaves its pool, a domain that moves to another, or a core
/// of no pool that is to join one. A move that may come is that thing's own, and after it nothing is on its way.
pub fn law_one_move()
    ensures { (m : Machine) → IsChecked m → (entries : List Entry) → IsRun m entries →
        HasOneMove m (state_after m entries) }
{}

/// The plan of an accepted command finds in the state what its pools are asked for, in every state of a checked machine. Pools and
/// domains that it names are there, a pool that it makes has an empty place, one that it destroys has nothing, a core that it adds has
/// no pool, and parameters are those of the pool's scheduler. In a state of a run the core that it adds is one of the tool's.
pub fn law_plan_conditions()
    ensures finds { (m : Machine) → IsChecked m → (s : State) → (line : CommandLine) → (p : Plan) →
        line_verdict m s line ≡ Ok p → Finds m s p }
    ensures free { (m : Machine) → IsChecked m → (entries : List Entry) → IsRun m entries →
        (line : CommandLine) → (i : PoolId) → (core : ResId) → (answer : Reply) →
        line_verdict m (state_after m entries) line ≡ Ok (plan.CpuAdd i core answer) →
        is_some (at_place (state_after m entries).free core.0) ≡ true }
{}
