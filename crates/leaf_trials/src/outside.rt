//! The outside: stores, sinks and gates on their happy paths, and the failures that a user of the types plans.

use sched_base::NoMemory;
use sched_io::{
    FileStore, Gate, MemSink, MemStore, OpenGate, OutSink, ReadErr, Sink, Store, SureSink,
    SureStore,
};
use std::alloc::Global;
use std::fmt::Display;
use std::io::Print;
use std::rt::Files;
use std::test::Fail;
use std::{fs, io, process};

/// The store answers these bytes, or fails where there are none.
fn answers<S: Store>(store: &mut S, alloc: Global, name: &str, want: Option<&[u8]>) -> bool {
    match (store.read_all(alloc, name), want) {
        (Ok(bytes), Some(all)) => bytes.as_slice() == all,
        (Err(ReadErr::Failed), None) => true,
        _ => false,
    }
}

fn put<K: Sink>(sink: &mut K, piece: &str) -> bool {
    sink.put(piece.as_bytes()).is_ok()
}

fn flush<K: Sink>(sink: &mut K) -> bool {
    sink.flush().is_ok()
}

fn pass<G: Gate + Sync>(gate: &G, who: u32) {
    gate.pass(who);
}

/// Sets two names, one of them twice.
fn set_names(store: &mut MemStore, alloc: Global) -> Result<(), NoMemory> {
    store.set(alloc, "pools.toml", b"first")?;
    store.set(alloc, "pools.toml", b"one")?;
    store.set(alloc, "empty", b"")
}

#[test]
fn mem_store_fails_where_it_is_told_to(rt: HostRuntime) -> Result<(), Fail> {
    let alloc = rt.alloc();
    let mut store = MemStore::room(alloc, &[2])?;
    let set = set_names(&mut store, alloc);
    // The second call's number is listed, and the third names what is not there.
    let right = [
        answers(&mut store, alloc, "pools.toml", Some(b"one")),
        answers(&mut store, alloc, "pools.toml", None),
        answers(&mut store, alloc, "other", None),
        answers(&mut store, alloc, "pools.toml", Some(b"one")),
        answers(&mut store, alloc, "empty", Some(b"")),
    ];
    drop(store);
    set?;
    assert_eq!(rt; right, [true; 5]);
    Ok(())
}

#[test]
fn mem_sink_fails_where_it_is_told_to(rt: HostRuntime) -> Result<(), Fail> {
    let mut sink = MemSink::room(rt.alloc(), 5, &[2])?;
    // The second call's number is listed, and the fourth would pass the room.
    let fits = [
        put(&mut sink, "ab"),
        put(&mut sink, "c"),
        put(&mut sink, "cde"),
        put(&mut sink, "f"),
        put(&mut sink, ""),
    ];
    let kept = sink.bytes() == b"abcde".as_slice();
    drop(sink);
    assert_eq!(rt; fits, [true, false, true, false, true]);
    assert!(rt; kept);
    Ok(())
}

#[test]
fn sure_store_never_fails(rt: HostRuntime) -> Result<(), Fail> {
    let alloc = rt.alloc();
    let mut store = SureStore::room(alloc)?;
    let set = store.set(alloc, "work", b"12");
    let right = [
        answers(&mut store, alloc, "work", Some(b"12")),
        answers(&mut store, alloc, "other", Some(b"")),
    ];
    drop(store);
    set?;
    assert_eq!(rt; right, [true; 2]);
    Ok(())
}

/// Whether the sink takes the piece, tells whether it is over, and keeps these bytes then.
fn keeps(sink: &mut SureSink, piece: &str, over: bool, kept: &[u8]) -> bool {
    put(sink, piece) && sink.is_over() == over && sink.bytes() == kept
}

#[test]
fn sure_sink_never_fails(rt: HostRuntime) -> Result<(), Fail> {
    let mut sink = SureSink::room(rt.alloc(), 3)?;
    // The second piece would pass the room; from then on nothing more is kept.
    let right = [
        keeps(&mut sink, "ab", false, b"ab"),
        keeps(&mut sink, "cd", true, b"ab"),
        keeps(&mut sink, "c", true, b"ab"),
    ];
    drop(sink);
    assert_eq!(rt; right, [true; 3]);
    Ok(())
}

/// Whether the file is read as it was written, and fails where it is no longer there.
fn written_and_read<R: Files>(
    files: &R,
    alloc: Global,
    name: &str,
    long: &[u8],
) -> io::Result<[bool; 2]> {
    let mut store = FileStore::new(files);
    fs::write(files, name, long)?;
    let same = answers(&mut store, alloc, name, Some(long));
    fs::remove_file(files, name)?;
    Ok([same, answers(&mut store, alloc, name, None)])
}

#[test]
fn files_are_read_whole(rt: HostRuntime) -> Result<(), Fail> {
    let alloc = rt.alloc();
    let name = format!(in alloc; "sched_io_{}", process::id(rt.process()))?;
    // It takes two reads, and a third that finds the end.
    let long = [7u8; 70_000];
    let right = written_and_read(&rt, alloc, name.as_str(), &long);
    drop(name);
    assert_eq!(rt; right?, [true; 2]);
    Ok(())
}

/// An output that takes nothing.
struct Shut;

impl Print for Shut {
    fn print<D: Display + Drop>(&self, _value: D) -> io::Result<()> {
        Ok(())
    }

    fn println<D: Display + Drop>(&self, _value: D) -> io::Result<()> {
        Ok(())
    }

    fn write_all(&self, _bytes: &[u8]) -> io::Result<()> {
        Ok(())
    }

    fn write_some(&self, _bytes: &[u8]) -> io::Result<usize> {
        Ok(0)
    }
}

/// Whether an output takes two pieces, of which the first is empty, and hands them on.
fn takes_two<K: Sink>(sink: &mut K) -> [bool; 3] {
    [put(sink, ""), put(sink, "two words\n"), flush(sink)]
}

/// What an output that takes nothing answers to a piece, and to handing it on twice.
fn refuses_one<K: Sink>(sink: &mut K) -> [bool; 3] {
    [put(sink, "x"), flush(sink), flush(sink)]
}

#[test]
fn output_is_written_or_refused(rt: HostRuntime) -> Result<(), Fail> {
    let mut sink = OutSink::new(rt.alloc(), &rt)?;
    let written = takes_two(&mut sink);
    drop(sink);
    // What fits is kept, and shows its failure when it is handed on, once.
    let mut shut = OutSink::new(rt.alloc(), &Shut)?;
    let refused = refuses_one(&mut shut);
    drop(shut);
    pass(&OpenGate, 128);
    assert_eq!(rt; written, [true; 3]);
    assert_eq!(rt; refused, [true, false, true]);
    Ok(())
}
