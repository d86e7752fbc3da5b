//! Decisions in Credit2 pools that reset no credits and end no leg that began earlier.

ghost use Rattle.std.specs.Prelude.{◌≡◌, ℕ};
ghost use Rattle.sched_model.specs.declared.machine.Machine.{Machine};
ghost use Rattle.sched_model.specs.declared.state.Credit2Records.{Credit2Records};
ghost use Rattle.sched_model.specs.declared.state.Pool.{Pool};
ghost use Rattle.sched_model.specs.declared.state.Records.TheVariants.{Credit2Pool};
ghost use Rattle.sched_model.specs.declared.state.Resource.{Resource};
ghost use Rattle.moment_laws.specs.GoodDecisions.{DecidesWell, Standing};
ghost use Rattle.moment_laws.specs.Credit2Turns.{IsStill};

/// A decision in a Credit2 pool, with caps or without, is a good one where it resets nothing and the core's own unit was charged at
/// this very moment: the credits stay as they are, so the core's own unit is lost to one of more credit alone, or because its
/// domain's budget is spent, and then once; and no domain that owes nothing comes to owe something.
pub fn law_credit2_decides_well()
    ensures { (m : Machine) (t : ℕ) (pool : Pool) (records : Credit2Records) →
        pool.scheduler.records ≡ Credit2Pool records → (r : ℕ) (c : Resource) →
        Standing m pool r c → IsStill m t pool records r c → DecidesWell m t pool r c }
{}
