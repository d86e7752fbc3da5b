//! The law of the entries that are written of the ordered run. The function does nothing, and its contract is the law.

ghost use Rattle.std.specs.Prelude.{◌≡◌, ℕ, List, true};
ghost use Rattle.sched_model.specs.declared.event.Entry.{Entry};
ghost use Rattle.sched_model.specs.declared.machine.Machine.{Machine};
ghost use Rattle.xensched_top.specs.Schedules.{EndsWithin, FillsLimit, schedule};

/// Where the ordered run is asked, the machine and the limit alone determine the entries that are written.
pub fn law_ordered_entries()
    ensures ends { (limit : ℕ) (m : Machine) (entries : List Entry) →
        EndsWithin true limit m entries → entries ≡ schedule limit m }
    ensures fills { (limit : ℕ) (m : Machine) (entries : List Entry) →
        FillsLimit true limit m entries → entries ≡ schedule limit m }
{}
