//! Names with bytes, as both stores in memory keep them.

ghost use Rattle.std.specs.Prelude.{◌≡◌, ◌≢◌, ℕ, List, [], Some, OnOk, OnErr};
ghost use Rattle.std.specs.Option.{option_map};
ghost use Rattle.sched_io.specs.HeldBytes.{bytes_under};

use sched_base::NoMemory;
use std::alloc::Global;
use std::collections::BTreeMap;
use std::marker::Model;

/// Names with bytes. Contracts see it as a list of pairs.
#[derive(Drop)]
pub(crate) struct NamedBytes {
    files: BTreeMap<String, Vec<u8>>,
}

impl Model for NamedBytes {
    ghost use Rattle.std.specs.Prelude.{ℕ, List, map};
    ghost use Rattle.std.specs.String.{string_bytes};

    ghost Value = { List (List ℕ × List ℕ) };

    ghost view = { λ a. map (λ e. (string_bytes e.0, e.1.items)) a.files.entries };
}

impl NamedBytes {
    /// A shelf with no name.
    pub(crate) fn new(alloc: Global) -> NamedBytes
        ensures { result ≡ [] }
    {
        NamedBytes {
            files: BTreeMap::new(alloc),
        }
    }

    /// What a name holds, or `None` where it is not there.
    pub(crate) fn get(&self, name: &str) -> Option<&[u8]>
        ensures { option_map (λ bytes. bytes.now) result ≡ bytes_under name.now self.now }
    {
        match self.files.get(name) {
            Some(bytes) => Some(bytes.as_slice()),
            None => None,
        }
    }

    /// Replaces what a name holds.
    pub(crate) fn set(&mut self, alloc: Global, name: &str, bytes: &[u8]) -> Result<(), NoMemory>
        ensures held { OnOk result (bytes_under name.now self.new ≡ Some bytes.now) }
        ensures others { OnOk result ((other : List ℕ) → other ≢ name.now →
            bytes_under other self.new ≡ bytes_under other self.old) }
        ensures no_memory { OnErr result (self.new ≡ self.old) }
    {
        let key = String::from_str(alloc, name)?;
        let value = bytes.to_vec(alloc)?;
        let _ = self.files.insert(key, value)?;
        Ok(())
    }
}
