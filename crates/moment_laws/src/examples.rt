//! Stretches and moments of the ordered runs of small machines.

ghost use Rattle.std.specs.Prelude.{◌≡◌, ◌*◌, [], ◌∷◌};
ghost use Rattle.moment_laws.specs.Stretches.{most_in_stretch};
ghost use Rattle.moment_laws.specs.Moments.{most_in_moment, most_in_moments};
ghost use Rattle.moment_laws.specs.Examples.{stretches_of, sums_at, sums, sums_of, run_sums, two_windows, cap_set, budgets};

/// One core with two windows. The moment at which the first window ends has six entries and one cause: its slice ends, the core
/// decides, its processor leaves and its unit is saved. Leaving and saving are a stretch of two, where the bound is 36; the bound of
/// the moment is 240. The run has 38 entries in seven moments, of which none has more than one cause: so it never reaches 1680.
pub fn windows()
    ensures stretches { stretches_of two_windows ≡ 3 ∷ 1 ∷ 2 ∷ 1 ∷ 2 ∷ 3 ∷ 1 ∷ 2 ∷ 1 ∷ 2 ∷ 3 ∷ [] }
    ensures sums { sums_at two_windows 4000000 ≡ sums 6 1 0 }
    ensures most { most_in_stretch two_windows ≡ 36 }
    ensures moment { most_in_moment two_windows 1 ≡ 240 }
    ensures run { sums_of two_windows ≡ run_sums 38 6 7 }
    ensures limit { 7 * most_in_moment two_windows 1 ≡ 1680 }
    ensures by_causes { most_in_moments two_windows 6 7 ≡ 1600 }
{}

/// Two cores of two processors and a cap that a command sets: the moment of the command has four causes, and the last stretch of the
/// run has eleven entries.
pub fn siblings_and_caps()
    ensures stretches { stretches_of cap_set ≡ 10 ∷ 4 ∷ 5 ∷ 4 ∷ 11 ∷ [] }
    ensures line { sums_at cap_set 1000000 ≡ sums 16 4 1 }
    ensures last { sums_at cap_set 3000000 ≡ sums 19 2 0 }
{}

/// Two cores of an RTDS pool and a stall: a moment at which three things come due has twelve entries.
pub fn budgets_and_a_stall()
    ensures stretches { stretches_of budgets ≡ 6 ∷ 1 ∷ 2 ∷ 1 ∷ 2 ∷ 2 ∷ 4 ∷ 3 ∷ [] }
    ensures busy { sums_at budgets 4000000 ≡ sums 12 3 0 }
{}
