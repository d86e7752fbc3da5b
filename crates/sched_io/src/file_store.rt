//! The files of the system.

ghost use Rattle.std.specs.Prelude.{◌≡◌, ◌≤◌, ℕ, List, None, OnOk, length, IfOk, IfSome, IsErrOf, if◌then◌else◌};
ghost use Rattle.sched_io.specs.Faults.{Rose, one_more};
ghost use Rattle.sched_io.specs.HeldBytes.{most_bytes, untold_bytes};

use crate::store::{MOST_BYTES, ReadErr, Store};
use std::alloc::Global;
use std::fs;
use std::io::Read;
use std::marker::Model;
use std::rt::Files;

/// The most reads of one file.
const MOST_READS: usize = 1_048_576;

/// The most bytes that one read asks for.
const BLOCK: usize = 65_536;

/// The files of the system, as the runtime opens them. It tells nothing of what they hold, and keeps one count of
/// faults for all names, which contracts see.
#[derive(Drop)]
pub struct FileStore<'a, R> {
    files: &'a R,
    faults: u64,
}

impl<'a, R> Model for FileStore<'a, R> {
    ghost use Rattle.std.specs.Prelude.{ℕ};

    ghost Value = { ℕ };

    ghost view = { λ a. a.faults };
}

impl<'a, R> FileStore<'a, R> {
    /// The files that this runtime opens, with no fault so far.
    pub fn new(files: &'a R) -> FileStore<'a, R>
        ensures { result ≡ 0 }
    {
        FileStore { files, faults: 0 }
    }
}

/// All that a reader gives up to its end, which is a read of no byte. It takes at most 1,048,576 reads and 536,870,912
/// bytes.
fn read_whole<F: Read>(alloc: Global, file: &mut F) -> Result<Vec<u8>, ReadErr>
    ensures whole { IfOk result (λ bytes.
        IfSome (F.remaining file.old) (λ all. bytes.items ≡ all)) }
    ensures bound { IfOk result (λ bytes. length bytes.items ≤ most_bytes) }
{
    let mut bytes = Vec::new(alloc);
    let mut block = [0u8; BLOCK];
    for _ in 0..MOST_READS {
        let Ok(count) = file.read(&mut block) else {
            return Err(ReadErr::Failed);
        };
        if count == 0 {
            return Ok(bytes);
        }
        if count > MOST_BYTES - bytes.len() {
            return Err(ReadErr::Failed);
        }
        bytes.extend_from_slice(&block[..count])?;
    }
    Err(ReadErr::Failed)
}

/// Opens a file and reads it whole.
fn read_named<R: Files>(files: &R, alloc: Global, name: &str) -> Result<Vec<u8>, ReadErr>
    ensures { IfOk result (λ bytes. length bytes.items ≤ most_bytes) }
{
    let Ok(mut file) = fs::open(files, name) else {
        return Err(ReadErr::Failed);
    };
    read_whole(alloc, &mut file)
}

impl<R: Files> Store for FileStore<'_, R> {
    ghost held = { λ _ _. untold_bytes };

    ghost faults = { λ store _. store };

    /// All bytes of a file. It answers `Failed` where the file cannot be opened or read, gives more than 536,870,912
    /// bytes, or does not end within 1,048,576 reads of up to 65,536 bytes.
    fn read_all(&mut self, alloc: Global, name: &str) -> Result<Vec<u8>, ReadErr>
        ensures faults { IsErrOf result ReadErr.Failed → self.new ≡ one_more self.old }
        ensures no_fault { OnOk result (self.new ≡ self.old) }
        ensures answer { IfOk result (λ bytes. IfSome untold_bytes (λ all. bytes.items ≡ all)) }
        ensures bound { IfOk result (λ bytes. length bytes.items ≤ most_bytes) }
        ensures same { (other : List ℕ) → untold_bytes ≡ untold_bytes }
        ensures counts { (other : List ℕ) → self.old ≤ self.new }
        ensures cause { IsErrOf result ReadErr.Failed → Rose self.old self.new }
        ensures no_memory { IsErrOf result ReadErr.NoMemory → self.new ≡ self.old }
    {
        let answer = read_named(self.files, alloc, name);
        if matches!(answer, Err(ReadErr::Failed)) {
            self.faults = self.faults.saturating_add(1);
        }
        answer
    }
}
