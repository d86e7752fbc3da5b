//! Where files are read from.

ghost use Rattle.std.specs.Prelude.{◌≡◌, ◌≤◌, ℕ, List, Option, length, IfOk, IfSome, IsErrOf};
ghost use Rattle.sched_io.specs.Faults.{Rose};
ghost use Rattle.sched_io.specs.HeldBytes.{most_bytes};
ghost use Rattle.sched_io.specs.declared.store.ReadErr.TheVariants.{NoMemory as out_of_memory};

use std::alloc::{AllocError, AllocFailed, Global};
use thiserror::Error;

/// The most bytes that one read gives.
pub const MOST_BYTES: usize = 536_870_912;

/// Why a file was not read.
#[derive(Clone, Copy, Debug, Error)]
pub enum ReadErr {
    /// It is not there, holds more than 536,870,912 bytes, or could not be read. The count of its faults rose.
    #[error("cannot read")]
    Failed,
    /// Memory was wanted and not found. Nothing changed.
    #[error("no memory")]
    NoMemory,
}

impl From<AllocError> for ReadErr {
    ghost from_gives = { λ _ e. e ≡ out_of_memory };

    fn from(_e: AllocError) -> ReadErr {
        ReadErr::NoMemory
    }
}

impl<T: Drop> From<AllocFailed<T>> for ReadErr {
    ghost from_gives = { λ _ e. e ≡ out_of_memory };

    fn from(_e: AllocFailed<T>) -> ReadErr {
        ReadErr::NoMemory
    }
}

/// Files by name. Reading changes none of them.
pub trait Store {
    /// What the name with these bytes holds, or `None` where the store does not tell it.
    ghost held: { Self → List ℕ → Option (List ℕ) };

    /// How often the name with these bytes could not be read. It never falls.
    ghost faults: { Self → List ℕ → ℕ };

    /// The whole of what a name holds, at most 536,870,912 bytes.
    ///
    /// `Failed` comes where the name is not there, holds more, or could not be read; the name's count of faults then
    /// rose. After `NoMemory` the store is as before.
    fn read_all(&mut self, alloc: Global, name: &str) -> Result<Vec<u8>, ReadErr>
        ensures answer { IfOk result (λ bytes.
            IfSome (held self.old name.now) (λ all. bytes.items ≡ all)) }
        ensures bound { IfOk result (λ bytes. length bytes.items ≤ most_bytes) }
        ensures same { (other : List ℕ) → held self.new other ≡ held self.old other }
        ensures counts { (other : List ℕ) → faults self.old other ≤ faults self.new other }
        ensures cause { IsErrOf result ReadErr.Failed →
            Rose (faults self.old name.now) (faults self.new name.now) }
        ensures no_memory { IsErrOf result ReadErr.NoMemory → self.new ≡ self.old };
}
