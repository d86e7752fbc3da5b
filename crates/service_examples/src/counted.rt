//! Times that the laws of service compare, nanosecond by nanosecond, in the ordered runs of small machines.

ghost use Rattle.std.specs.Prelude.{◌≡◌, ◌∷◌, [], take, length};
ghost use Rattle.sched_examples.specs.Words.{run_of, unit};
ghost use Rattle.service_laws.specs.Ends.{most_entries};
ghost use Rattle.service_laws.specs.Late.{hindered_for};
ghost use Rattle.share_laws.specs.Shares.{longest_slice, pool_units, total_weight};
ghost use Rattle.service_examples.specs.Counted.{a_core_given, a_core_shared, given_service, lates, service, time_on_core, two_windows, window_service};

/// Two windows of 4 and 2 of each 10 nanoseconds, and a stall from 12 to 17. The first unit, which never sleeps, has its window from 0, 10 and 20 on. It
/// keeps the core while that is stalled, beyond its window. The second one sleeps from 5 to 13 and from 25 on; its window from 14 to 16 is lost to the
/// stall.
pub fn windows_and_a_stall()
    ensures first { window_service two_windows (unit 0 0) ≡ service 12 15 0 5 }
    ensures second { window_service two_windows (unit 1 0) ≡ service 6 2 13 5 }
{}

/// The decision after the stall is late by the 3 nanoseconds since the end of the window. The processor was stalled for 5.
pub fn late_by_a_stall()
    ensures printed { lates two_windows ≡ 0 ∷ 0 ∷ 0 ∷ 0 ∷ 0 ∷ 3 ∷ 0 ∷ 0 ∷ 0 ∷ 0 ∷ 0 ∷ [] }
    ensures hindered { hindered_for two_windows 0 (take 32 (run_of two_windows)) ≡ 5 }
{}

/// A null pool gives its core to the first unit, which sleeps from 2 to 5, and from 9 on. A stall from 6 to 9 holds up its block. The core is its own all
/// the while, and the second unit waits.
pub fn a_core_for_good()
    ensures first { given_service a_core_given (unit 0 0) ≡ service 9 6 3 3 }
    ensures second { given_service a_core_given (unit 1 0) ≡ service 0 0 0 3 }
{}

/// Two equal guests that always run: the first one has the core all the time, and the other waits. It is behind by less than one longest slice, which is 10
/// milliseconds.
pub fn behind_by_less_than_a_slice()
    ensures first { time_on_core a_core_shared (unit 0 0) ≡ 20 }
    ensures second { time_on_core a_core_shared (unit 1 0) ≡ 0 }
    ensures weight { total_weight (pool_units a_core_shared 0) ≡ 512 }
    ensures slice { longest_slice 1000 ≡ 10000000 }
{}

/// A run has far fewer entries than the bound that follows from its machine.
pub fn fewer_than_the_bound()
    ensures bound { most_entries two_windows ≡ 29761 }
    ensures entries { length (run_of two_windows) ≡ 63 }
{}
