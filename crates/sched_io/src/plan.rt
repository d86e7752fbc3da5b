//! Which calls of an object in memory fail, and how many did.

ghost use Rattle.std.specs.Prelude.{◌≡◌, ◌≤◌, IfOk, IsTrue, if◌then◌else◌};
ghost use Rattle.sched_io.specs.Faults.{Rose, one_more};
ghost use Rattle.sched_io.specs.Memory.{is_listed};

use sched_base::NoMemory;
use std::alloc::Global;

/// The numbers of the calls that fail, from 1, and the counts of calls and of failed calls.
#[derive(Drop)]
pub(crate) struct FaultPlan {
    pub(crate) fails: Vec<u32>,
    pub(crate) calls: u64,
    pub(crate) faults: u64,
}

impl FaultPlan {
    /// A plan with these numbers, before the first call.
    pub(crate) fn new(alloc: Global, fails: &[u32]) -> Result<FaultPlan, NoMemory>
        ensures fails { IfOk result (λ plan. plan.fails.items ≡ fails.now) }
        ensures calls { IfOk result (λ plan. plan.calls ≡ 0) }
        ensures faults { IfOk result (λ plan. plan.faults ≡ 0) }
    {
        Ok(FaultPlan {
            fails: fails.to_vec(alloc)?,
            calls: 0,
            faults: 0,
        })
    }

    /// Whether the next call's number is among those that fail.
    pub(crate) fn is_next_listed(&self) -> bool
        ensures { result ≡ is_listed self.now.fails.items self.now.calls }
    {
        let number = self.calls.saturating_add(1);
        self.fails.iter().any(|listed| *listed as u64 == number)
    }

    /// Counts a call.
    pub(crate) fn count(&mut self, failed: bool)
        ensures fails { self.new.fails ≡ self.old.fails }
        ensures calls { self.new.calls ≡ one_more self.old.calls }
        ensures faults { self.new.faults
            ≡ (if failed then one_more self.old.faults else self.old.faults) }
        ensures counts { self.old.faults ≤ self.new.faults }
        ensures rose { IsTrue failed → Rose self.old.faults self.new.faults }
    {
        self.calls = self.calls.saturating_add(1);
        if failed {
            self.faults = self.faults.saturating_add(1);
        }
    }
}
