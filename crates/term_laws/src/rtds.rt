//! How long an RTDS unit is on a core between two replenishments.

ghost use Rattle.std.specs.Prelude.{ℕ, ◌≤◌, List};
ghost use Rattle.std.specs.List.{All};
ghost use Rattle.sched_base.specs.RtdsNumbers.{next_deadline};
ghost use Rattle.sched_base.specs.declared.UnitId.{UnitId};
ghost use Rattle.sched_model.specs.declared.event.Entry.{Entry};
ghost use Rattle.sched_model.specs.declared.machine.Machine.{Machine};
ghost use Rattle.sched_model.specs.CheckedMachine.{IsChecked};
ghost use Rattle.sched_model.specs.Runs.{IsRun};
ghost use Rattle.sched_laws.specs.StateLaws.{state_after};
ghost use Rattle.rtds_replenish.specs.Grid.{IsTermAround};
ghost use Rattle.term_laws.specs.RtdsTerm.{legs, terms, KeepsTerm};

/// In each term of an RTDS unit without extra time, of every run and of every beginning of one, the unit is on a core for its
/// budget at most, and for what was late: the term's own beginning, and the ends of the legs that meet the term.
/// Times are in nanoseconds.
pub fn law_rtds_term()
    ensures { (m : Machine) → IsChecked m → (entries : List Entry) → IsRun m entries →
        (u : UnitId) → All (KeepsTerm (legs (state_after m entries) u entries))
        (terms m u entries) }
{}

/// A term that begins late leaves the grid of a unit's deadlines as it is: the moment t at which it begins lies in the new term,
/// and that term begins no earlier than the old one ended. Deadlines, periods and moments are in nanoseconds.
pub fn law_deadlines_keep_their_grid()
    ensures { (deadline period t : ℕ) → 1 ≤ period → deadline ≤ t →
        IsTermAround deadline period t (next_deadline deadline period t) }
{}
