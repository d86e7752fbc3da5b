//! The figures of docs/MEASURES.md that are times, computed by the definitions.

ghost use Rattle.std.specs.Prelude.{◌≡◌, [], ◌∷◌};
ghost use Rattle.sched_times.specs.Example as example;

/// The machine of `examples/measures`: the whole run of 32 ms, and its part from 10 to 20 ms.
pub fn measured_times()
    ensures states_of_a { example.states_of (example.part 0 32000000) 0
        ≡ 7000000 ∷ 1000000 ∷ 24000000 ∷ [] }
    ensures states_of_b { example.states_of (example.part 0 32000000) 1
        ≡ 25000000 ∷ 7000000 ∷ 0 ∷ [] }
    ensures unit_of_a { example.run_of (example.part 0 32000000) 0 ≡ 7000000 }
    ensures unit_of_b { example.run_of (example.part 0 32000000) 1 ≡ 25000000 }
    ensures core { example.core_times (example.part 0 32000000) ≡ 32000000 ∷ 0 ∷ [] }
    ensures part_of_a { example.states_of (example.part 10000000 20000000) 0
        ≡ 2000000 ∷ 0 ∷ 8000000 ∷ [] }
    ensures part_of_b { example.states_of (example.part 10000000 20000000) 1
        ≡ 8000000 ∷ 2000000 ∷ 0 ∷ [] }
{}

/// A vCPU that wakes and finds its processor idle runs at once.
pub fn woken_runs_at_once()
    ensures { example.states_of_second ≡ 5 ∷ 0 ∷ 5 ∷ [] }
{}
