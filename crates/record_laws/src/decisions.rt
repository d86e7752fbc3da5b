//! What one decision makes of the records of a scheduler.

ghost use Rattle.std.specs.Prelude.{List, Option};
ghost use Rattle.sched_base.specs.declared.UnitId.{UnitId};
ghost use Rattle.sched_model.specs.declared.ask.Ask.{Ask};
ghost use Rattle.sched_model.specs.declared.state.Credit2Records.{Credit2Records};
ghost use Rattle.sched_model.specs.declared.state.RtdsUnit.{RtdsUnit};
ghost use Rattle.sched_model.specs.declared.state.Scheduler.{Scheduler};
ghost use Rattle.sched_model.specs.Credit2.{credit2_decision_for, own_burned_records};
ghost use Rattle.sched_model.specs.Rtds.{own_burned_domains, rtds_decision_for};
ghost use Rattle.record_laws.specs.Laws.{AreDecided, AreUnitsDecided};

/// Whatever unit is chosen, or none: the decision changes each domain of a Credit2 pool for itself, and leaves the rate limit and the greatest weight; and it
/// changes each unit of an RTDS pool for itself.
pub fn law_decided_records()
    ensures credit2 { (ask : Ask) (scheduler : Scheduler) (own : Credit2Records) (chosen : Option UnitId) →
        AreDecided ask own chosen (credit2_decision_for ask scheduler (own_burned_records ask.cur ask.at.0 own) chosen).records }
    ensures rtds { (ask : Ask) (domains : List (Option (List RtdsUnit))) (chosen : Option UnitId) →
        AreUnitsDecided ask domains chosen (rtds_decision_for ask (own_burned_domains ask.cur ask.at.0 domains) chosen).records }
{}
