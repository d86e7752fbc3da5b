//! A store in memory that fails where it is told to.

ghost use Rattle.std.specs.Prelude.{◌≡◌, ◌≢◌, ◌≤◌, ◌↔◌, ℕ, List, [], length, Some, OnOk, OnErr, IfOk, IfSome, IsErrOf, IsTrue, IsNone, ◌||◌, if◌then◌else◌};
ghost use Rattle.sched_io.specs.Faults.{Rose, one_more};
ghost use Rattle.sched_io.specs.HeldBytes.{bytes_under, is_unreadable, most_bytes};
ghost use Rattle.sched_io.specs.Memory.{StoreState, is_listed, read_fails};

use crate::plan::FaultPlan;
use crate::shelf::NamedBytes;
use crate::store::{MOST_BYTES, ReadErr, Store};
use sched_base::NoMemory;
use std::alloc::Global;
use std::marker::Model;

/// Names with bytes, and the numbers of the calls that fail. It keeps one count of faults for all names.
#[derive(Drop)]
pub struct MemStore {
    files: NamedBytes,
    plan: FaultPlan,
}

impl Model for MemStore {
    ghost use Rattle.sched_io.specs.Memory.{StoreState};

    ghost Value = { StoreState };

    ghost view = { λ a. record {
      files = a.files;
      fails = a.plan.fails.items;
      calls = a.plan.calls;
      faults = a.plan.faults;
    } };
}

impl MemStore {
    /// A store with no name, whose calls of `read_all` with the listed numbers, from 1, fail.
    pub fn room(alloc: Global, fails: &[u32]) -> Result<MemStore, NoMemory>
        ensures { IfOk result (λ store. store
            ≡ record { files = []; fails = fails.now; calls = 0; faults = 0 }) }
    {
        Ok(MemStore {
            files: NamedBytes::new(alloc),
            plan: FaultPlan::new(alloc, fails)?,
        })
    }

    /// Replaces what a name holds. After `NoMemory` the store is as before.
    pub fn set(&mut self, alloc: Global, name: &str, bytes: &[u8]) -> Result<(), NoMemory>
        ensures held { OnOk result (bytes_under name.now self.new.files ≡ Some bytes.now) }
        ensures others { OnOk result ((other : List ℕ) → other ≢ name.now →
            bytes_under other self.new.files ≡ bytes_under other self.old.files) }
        ensures listed { self.new.fails ≡ self.old.fails }
        ensures calls { self.new.calls ≡ self.old.calls }
        ensures faults { self.new.faults ≡ self.old.faults }
        ensures no_memory { OnErr result (self.new ≡ self.old) }
    {
        self.files.set(alloc, name, bytes)
    }
}

/// The bytes that the next call answers, where it does not fail.
fn readable<'a>(files: &'a NamedBytes, plan: &FaultPlan, name: &str) -> Option<&'a [u8]>
    ensures none { IsNone result ↔ IsTrue (is_listed plan.now.fails.items plan.now.calls
        || is_unreadable (bytes_under name.now files.now)) }
    ensures bytes { IfSome result (λ bytes. bytes_under name.now files.now ≡ Some bytes.now) }
    ensures bound { IfSome result (λ bytes. length bytes.now ≤ most_bytes) }
{
    if plan.is_next_listed() {
        return None;
    }
    files.get(name).filter(|bytes| bytes.len() <= MOST_BYTES)
}

impl Store for MemStore {
    ghost held = { λ store name. bytes_under name store.files };

    ghost faults = { λ store _. store.faults };

    /// What the name holds, or `Failed`: exactly where the call's number is listed, the name is not there, or it
    /// holds more than 536,870,912 bytes. A call that ends with `NoMemory` is not counted.
    fn read_all(&mut self, alloc: Global, name: &str) -> Result<Vec<u8>, ReadErr>
        ensures fails { IsErrOf result ReadErr.Failed ↔ IsTrue (read_fails self.old name.now) }
        ensures bytes { IfOk result (λ bytes. bytes_under name.now self.old.files
            ≡ Some bytes.items) }
        ensures files { self.new.files ≡ self.old.files }
        ensures listed { self.new.fails ≡ self.old.fails }
        ensures calls { ¬ IsErrOf result ReadErr.NoMemory → self.new.calls
            ≡ one_more self.old.calls }
        ensures faults { self.new.faults
            ≡ (if read_fails self.old name.now then one_more self.old.faults else self.old.faults) }
        ensures answer { IfOk result (λ bytes.
            IfSome (bytes_under name.now self.old.files) (λ all. bytes.items ≡ all)) }
        ensures bound { IfOk result (λ bytes. length bytes.items ≤ most_bytes) }
        ensures same { (other : List ℕ) → bytes_under other self.new.files
            ≡ bytes_under other self.old.files }
        ensures counts { (other : List ℕ) → self.old.faults ≤ self.new.faults }
        ensures cause { IsErrOf result ReadErr.Failed → Rose self.old.faults self.new.faults }
        ensures no_memory { IsErrOf result ReadErr.NoMemory → self.new ≡ self.old }
    {
        let Some(bytes) = readable(&self.files, &self.plan, name) else {
            self.plan.count(true);
            return Err(ReadErr::Failed);
        };
        let answer = bytes.to_vec(alloc)?;
        self.plan.count(false);
        Ok(answer)
    }
}
