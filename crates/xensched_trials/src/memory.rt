//! Calls over stores and sinks in memory, which fail where they are told to, or never.

use sched_base::NoMemory;
use sched_io::{FileStore, MOST_BYTES, MemSink, MemStore, ReadErr, Store, SureSink, SureStore};
use std::alloc::Global;
use std::io::Print;
use std::rt::Files;
use std::sync::Wait;
use std::thread::Threads;
use xensched_top::status::Status;
use xensched_top::sure::xensched_surely;
use xensched_top::top::xensched;

/// The room of a sink.
const ROOM: usize = 65_536;

/// The bytes of a file, or `None` where there is none.
fn bytes_of<R: Files>(rt: &R, alloc: Global, name: &str) -> Option<Vec<u8>> {
    FileStore::new(rt).read_all(alloc, name).ok()
}

/// A store of the files that the words name, whose read with this number fails.
pub fn failing_store<R: Files>(
    rt: &R,
    alloc: Global,
    words: &[String],
    read: u32,
) -> Result<MemStore, NoMemory> {
    let mut store = MemStore::room(alloc, &[read])?;
    for word in words {
        if let Some(bytes) = bytes_of(rt, alloc, word.as_str()) {
            store.set(alloc, word.as_str(), bytes.as_slice())?;
        }
    }
    Ok(store)
}

/// A store of the files that the words name.
fn sure_store<R: Files>(rt: &R, alloc: Global, words: &[String]) -> Result<SureStore, NoMemory> {
    let mut store = SureStore::room(alloc)?;
    for word in words {
        match bytes_of(rt, alloc, word.as_str()) {
            Some(bytes) if bytes.len() <= MOST_BYTES => {
                store.set(alloc, word.as_str(), bytes.as_slice())?;
            }
            _ => {}
        }
    }
    Ok(store)
}

/// A store that has no memory for what a name holds.
#[derive(Drop)]
struct ScantStore {}

impl Store for ScantStore {
    ghost use Rattle.std.specs.Prelude.{None};

    ghost held = { λ _ _. None };

    ghost faults = { λ _ _. 0 };

    fn read_all(&mut self, _alloc: Global, _name: &str) -> Result<Vec<u8>, ReadErr> {
        Err(ReadErr::NoMemory)
    }
}

/// Prints what was put; a status of its own where that fails.
fn printed<R: Print>(rt: &R, bytes: &[u8], status: Status) -> Status {
    match rt.write_all(bytes) {
        Ok(()) => status,
        Err(_) => Status::WriteFault,
    }
}

/// The call with the files in memory, where the read and the put with these numbers fail; none has the number 0.
pub fn try_failing<R: Files + Print + Threads + Wait + Sync>(
    rt: &R,
    alloc: Global,
    words: &[String],
    read: u32,
    put: u32,
) -> Status {
    let Ok(mut store) = failing_store(rt, alloc, words, read) else {
        return Status::NoMemory;
    };
    let Ok(mut sink) = MemSink::room(alloc, ROOM, &[put]) else {
        return Status::NoMemory;
    };
    let status = xensched(rt, alloc, words, &mut store, &mut sink);
    printed(rt, sink.bytes(), status)
}

/// The call with the files in memory, where nothing fails.
pub fn try_surely<R: Files + Print + Threads + Wait + Sync>(
    rt: &R,
    alloc: Global,
    words: &[String],
) -> Status {
    let Ok(mut store) = sure_store(rt, alloc, words) else {
        return Status::NoMemory;
    };
    let Ok(mut sink) = SureSink::room(alloc, ROOM) else {
        return Status::NoMemory;
    };
    let status = xensched_surely(rt, alloc, words, &mut store, &mut sink);
    printed(rt, sink.bytes(), status)
}

/// The call where no file can be read for want of memory.
pub fn try_scantly<R: Files + Print + Threads + Wait + Sync>(
    rt: &R,
    alloc: Global,
    words: &[String],
) -> Status {
    let Ok(mut sink) = MemSink::room(alloc, ROOM, &[]) else {
        return Status::NoMemory;
    };
    let mut store = ScantStore {};
    let status = xensched(rt, alloc, words, &mut store, &mut sink);
    printed(rt, sink.bytes(), status)
}
