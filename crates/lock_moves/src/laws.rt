//! How often each core has decided, as histories grow.

ghost use Rattle.std.specs.Prelude.{◌≡◌, ℕ, ◌+◌, ◌≤◌, List, [], ◌∷◌, ◌++◌};
ghost use mathlib.Core.List.{IsPrefix};
ghost use Rattle.sched_model.specs.declared.event.Entry.{Entry};
ghost use Rattle.sched_model.specs.Runs.{event_action};
ghost use Rattle.journal_core.specs.Histories.{decides_at, decision_of};
ghost use Rattle.lock_moves.specs.Plays.{Decided};
ghost use Rattle.lock_moves.specs.SeatSight.{Seen};
ghost use Rattle.lock_moves.specs.Decisions.{who_decides};

/// One entry more: each core has as many decisions as before, and one more exactly where the event is a decision of this core.
pub fn law_decisions()
    ensures { (h : List Entry) (entry : Entry) (r : ℕ) → decides_at (h ++ entry ∷ []) r
        ≡ decides_at h r + decision_of entry.event r }
{}

/// The same in the words of `commit`: a view that names the core whose decision the event is, or none where it is no decision, may commit
/// the history with this entry more; and a view that names none may commit its front as it is.
pub fn law_decided()
    ensures added { (v : Seen) (entry : Entry) → v.named ≡ who_decides (event_action entry.event) →
        Decided v (v.front ++ entry ∷ []) }
    ensures same { (v : Seen) → v.named ≡ 0 → Decided v v.front }
{}

/// A history that begins another has at most as many decisions of each core.
pub fn law_decisions_grow()
    ensures { (h longer : List Entry) → IsPrefix h longer → (r : ℕ) → decides_at h r
        ≤ decides_at longer r }
{}
