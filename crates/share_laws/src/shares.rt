//! A unit gets no more than its weight gives it beside one that never sleeps, and one that never sleeps gets its share.

ghost use Rattle.std.specs.Prelude.{ℕ, List, ◌++◌};
ghost use Rattle.sched_base.specs.declared.UnitId.{UnitId};
ghost use Rattle.sched_model.specs.declared.event.Entry.{Entry};
ghost use Rattle.sched_model.specs.declared.machine.Machine.{Machine};
ghost use Rattle.sched_model.specs.CheckedMachine.{IsChecked};
ghost use Rattle.sched_model.specs.Runs.{IsRun, after_entries, run_start};
ghost use Rattle.undisturbed_laws.specs.Undisturbed.{NeverSleeps};
ghost use Rattle.share_laws.specs.Shares.{HasShare, HasWeight, IsNearShare, IsPlainCredit2, IsWithinShare, SleepsAreSeen};

use run_laws::laws::law_next_moment;
use sched_laws::laws::law_waiting;
use service_laws::on_time::law_on_time;

/// In a Credit2 pool of one core and of domains without caps, on a machine to which nothing happens from outside, a unit has had no more time at any point of
/// a run than its weight gives it beside a unit that never sleeps, but for one longest slice and a nanosecond. The first unit may sleep or not. So between two
/// that never sleep the difference is bounded on both sides, from the opening on, and in every part of a run by one such slice of each. And a unit that never
/// sleeps has had its weight's part of all time so far, but for one such slice for each other unit, in the same part.
pub fn law_shares()
    ensures share { (m : Machine) → IsChecked m → (i r rate : ℕ) → IsPlainCredit2 m i r rate →
        (u v : UnitId) (wu wv : ℕ) → HasWeight m i u wu → HasWeight m i v wv → NeverSleeps m v →
        (entries : List Entry) → SleepsAreSeen m i rate entries → IsRun m entries →
        IsWithinShare m i r rate u wu v wv entries }
    ensures both { (m : Machine) → IsChecked m → (i r rate : ℕ) → IsPlainCredit2 m i r rate →
        (u v : UnitId) (wu wv : ℕ) → HasWeight m i u wu → HasWeight m i v wv → NeverSleeps m u → NeverSleeps m v →
        (entries : List Entry) → SleepsAreSeen m i rate entries → IsRun m entries →
        IsWithinShare m i r rate u wu v wv entries × IsWithinShare m i r rate v wv u wu entries }
    ensures part { (m : Machine) → IsChecked m → (i r rate : ℕ) → IsPlainCredit2 m i r rate →
        (u v : UnitId) (wu wv : ℕ) → HasWeight m i u wu → HasWeight m i v wv → NeverSleeps m u → NeverSleeps m v →
        (before entries : List Entry) → SleepsAreSeen m i rate (before ++ entries) → IsRun m (before ++ entries) →
        IsNearShare m i r rate u wu v wv (after_entries m (run_start m) before) entries }
    ensures least { (m : Machine) → IsChecked m → (i r rate : ℕ) → IsPlainCredit2 m i r rate →
        (v : UnitId) (wv : ℕ) → HasWeight m i v wv → NeverSleeps m v →
        (entries : List Entry) → SleepsAreSeen m i rate entries → IsRun m entries →
        HasShare m i r rate v wv entries }
{
    law_next_moment();
    law_on_time();
    law_waiting();
}
