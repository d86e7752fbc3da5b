//! Cases of the program, as data. Does what each line of the standard input says, and prints the line, what is put, and how the
//! call ends: the status's number, and the line that `xensched` prints on standard error where that is not 0.
//!
//! A line is the words of one call, parted by single spaces; an empty line has no words. The files that the words name stand in
//! `data/`. Before the words may stand `fail-read N` or `fail-put N`, where the Nth read or put of the call fails, `sure`, for a
//! store and a sink that never fail, or `no-memory`, for a store that has no memory for any file. These calls have the files in
//! memory, and what they put there is printed. Or `free` stands there, before the words of a `run`: what a run in threads puts is
//! not the same each time, so in its place is printed what `check` says of it, `yes` without the number of entries, and the status of
//! that check; an ordered run is judged as an ordered one. Or `seen` stands there, before the words of a `watch` of a machine whose entries in each moment are the same in every run: of each look is
//! printed between which numbers of entries it is to be, where it is; the ordered run tells them.
#![tactic(auto)]

mod free;
mod memory;
mod watched;

use free::try_free;
use memory::{try_failing, try_scantly, try_surely};
use sched_io::{FileStore, OutSink};
use std::alloc::Global;
use std::io;
use std::io::Print;
use std::rt::Files;
use std::sync::Wait;
use std::thread::Threads;
use watched::try_watched;
use xensched_top::status::Status;
use xensched_top::top::xensched;

/// The words of a line.
fn words_of(alloc: Global, line: &str) -> io::Result<Vec<String>> {
    let mut words = Vec::new(alloc);
    if line.is_empty() {
        return Ok(words);
    }
    for word in line.split(' ') {
        words.push(String::from_str(alloc, word)?)?;
    }
    Ok(words)
}

/// The call on the files of the system.
fn try_files<R: Files + Print + Threads + Wait + Sync>(
    rt: &R,
    alloc: Global,
    words: &[String],
) -> Status {
    let Ok(mut sink) = OutSink::new(alloc, rt) else {
        return Status::NoMemory;
    };
    let mut store = FileStore::new(rt);
    xensched(rt, alloc, words, &mut store, &mut sink)
}

/// The call that a line asks for.
fn try_words<R: Files + Print + Threads + Wait + Sync>(
    rt: &R,
    alloc: Global,
    words: &[String],
) -> Status {
    match words {
        [way, n, words @ ..] if way.as_str() == "fail-read" => {
            try_failing(rt, alloc, words, n.parse().unwrap_or(0), 0)
        }
        [way, n, words @ ..] if way.as_str() == "fail-put" => {
            try_failing(rt, alloc, words, 0, n.parse().unwrap_or(0))
        }
        [way, words @ ..] if way.as_str() == "sure" => try_surely(rt, alloc, words),
        [way, words @ ..] if way.as_str() == "no-memory" => try_scantly(rt, alloc, words),
        [way, words @ ..] if way.as_str() == "free" => try_free(rt, alloc, words),
        [way, words @ ..] if way.as_str() == "seen" => try_watched(rt, alloc, words),
        _ => try_files(rt, alloc, words),
    }
}

/// One line: itself, what is put, and how the call ends.
fn try_line<R: Files + Print + Threads + Wait + Sync>(
    rt: &R,
    alloc: Global,
    line: &str,
) -> io::Result<()> {
    println!(rt; "== {line}")?;
    let words = words_of(alloc, line)?;
    let status = try_words(rt, alloc, words.as_slice());
    match status.number() {
        0 => println!(rt; "-- 0"),
        number => println!(rt; "-- {number} {status}"),
    }
}

fn main(rt: HostRuntime) -> io::Result<()> {
    for line in rt.lines(rt.alloc()) {
        try_line(&rt, rt.alloc(), line?.as_str())?;
    }
    Ok(())
}
