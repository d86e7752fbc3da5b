//! How long the units of a capped domain are on cores between two refills.

ghost use Rattle.std.specs.Prelude.{ℕ, List};
ghost use Rattle.std.specs.List.{All};
ghost use Rattle.sched_model.specs.declared.event.Entry.{Entry};
ghost use Rattle.sched_model.specs.declared.machine.Machine.{Machine};
ghost use Rattle.sched_model.specs.CheckedMachine.{IsChecked};
ghost use Rattle.sched_model.specs.Runs.{IsRun};
ghost use Rattle.sched_laws.specs.StateLaws.{state_after};
ghost use Rattle.term_laws.specs.CapTerm.{domain_legs, settings, cap_terms, KeepsCap};

/// In each term of a domain's cap, of every run and of every beginning of one, the domain's units together are on cores for the
/// budget of the cap at most, and for what was late: the ends of the legs that meet the term. Not spoken of are terms that a
/// setting of the cap ends, and those where the cap is set later within a leg that meets the term, since a setting makes the
/// cores that run the domain's units due at once, and what was late until then is recorded nowhere.
/// Times are in nanoseconds.
pub fn law_cap_term()
    ensures { (m : Machine) → IsChecked m → (entries : List Entry) → IsRun m entries → (d : ℕ) →
        All (KeepsCap (settings m d 0 entries) (domain_legs (state_after m entries) d 0 entries))
        (cap_terms m (state_after m entries) d entries) }
{}
