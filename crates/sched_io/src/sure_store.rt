//! A store in memory that never fails.

ghost use Rattle.std.specs.Prelude.{◌≡◌, ◌≢◌, ◌≤◌, ℕ, List, [], length, Some, OnOk, OnErr, IfOk, IfSome, IsErrOf};
ghost use Rattle.sched_io.specs.HeldBytes.{bytes_if_set, most_bytes};

use crate::shelf::NamedBytes;
use crate::store::{ReadErr, Store};
use sched_base::NoMemory;
use std::alloc::Global;
use std::marker::Model;

/// Bytes under every name: none where nothing was set, and at most 536,870,912. Contracts see it as a list of pairs.
#[derive(Drop)]
pub struct SureStore {
    files: NamedBytes,
}

impl Model for SureStore {
    ghost use Rattle.std.specs.Prelude.{ℕ, ◌≤◌, List, length};
    ghost use Rattle.sched_io.specs.HeldBytes.{bytes_if_set, most_bytes};

    ghost Value = { List (List ℕ × List ℕ) };

    ghost view = { λ a. a.files };

    ghost invariant = { λ a. (name : List ℕ) → length (bytes_if_set name a.files) ≤ most_bytes };
}

impl SureStore {
    /// A store in which no name was set.
    pub fn room(alloc: Global) -> Result<SureStore, NoMemory>
        ensures { IfOk result (λ store. (name : List ℕ) → bytes_if_set name store ≡ []) }
    {
        Ok(SureStore {
            files: NamedBytes::new(alloc),
        })
    }

    /// Replaces what a name holds. After `NoMemory` the store is as before.
    pub fn set(&mut self, alloc: Global, name: &str, bytes: &[u8]) -> Result<(), NoMemory>
        requires { length bytes.now ≤ most_bytes }
        ensures held { OnOk result (bytes_if_set name.now self.new ≡ bytes.now) }
        ensures others { OnOk result ((other : List ℕ) → other ≢ name.now →
            bytes_if_set other self.new ≡ bytes_if_set other self.old) }
        ensures no_memory { OnErr result (self.new ≡ self.old) }
    {
        self.files.set(alloc, name, bytes)
    }
}

impl Store for SureStore {
    ghost held = { λ store name. Some (bytes_if_set name store) };

    ghost faults = { λ _ _. 0 };

    /// What the name holds. It never answers `Failed`.
    fn read_all(&mut self, alloc: Global, name: &str) -> Result<Vec<u8>, ReadErr>
        ensures sure { IsErrOf result ReadErr.Failed → ⊥ }
        ensures unchanged { self.new ≡ self.old }
        ensures answer { IfOk result (λ bytes. bytes.items ≡ bytes_if_set name.now self.old) }
        ensures bound { IfOk result (λ bytes. length bytes.items ≤ most_bytes) }
        ensures same { (other : List ℕ) → Some (bytes_if_set other self.new)
            ≡ Some (bytes_if_set other self.old) }
        ensures no_memory { IsErrOf result ReadErr.NoMemory → self.new ≡ self.old }
    {
        match self.files.get(name) {
            Some(bytes) => Ok(bytes.to_vec(alloc)?),
            None => Ok(Vec::new(alloc)),
        }
    }
}
