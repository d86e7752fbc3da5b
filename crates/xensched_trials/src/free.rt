//! A run whose schedule `check` judges.

use crate::memory::failing_store;
use sched_base::NoMemory;
use sched_io::{MemSink, MemStore};
use std::alloc::Global;
use std::io::Print;
use std::rt::Files;
use std::sync::Wait;
use std::thread::Threads;
use xensched_top::status::Status;
use xensched_top::top::xensched;

/// The room of a schedule.
const LONG: usize = 16_777_216;

/// The room of a verdict.
const SHORT: usize = 1_024;

/// The word of an ordered run.
const ORDERED: &str = "--ordered";

/// The name of the schedule in the store.
const SCHEDULE: &str = "schedule";

/// The words of the check: the last two words of the run are its files, and an ordered run is judged as one.
fn words_of_check(alloc: Global, words: &[String]) -> Result<Vec<String>, NoMemory> {
    let mut check = Vec::new(alloc);
    check.push(String::from_str(alloc, "check")?)?;
    for word in words.iter() {
        if word.as_str() == ORDERED {
            check.push(String::from_str(alloc, ORDERED)?)?;
        }
    }
    for word in words.iter().skip(words.len().saturating_sub(2)) {
        check.push(String::from_str(alloc, word.as_str())?)?;
    }
    check.push(String::from_str(alloc, SCHEDULE)?)?;
    Ok(check)
}

/// The first line of a verdict; of a `yes` the first word alone, since the number of entries is not the same each time.
fn told_in(verdict: &[u8]) -> &str {
    let text = std::str::from_utf8(verdict).unwrap_or("no text");
    if text.starts_with("yes ") {
        "yes"
    } else {
        text.lines().next().unwrap_or("")
    }
}

/// Judges the schedule, and prints what the verdict tells, and the status of the check.
fn judge<R: Print + Threads + Wait + Sync>(
    rt: &R,
    alloc: Global,
    words: &[String],
    store: &mut MemStore,
    schedule: &[u8],
) -> Option<()> {
    store.set(alloc, SCHEDULE, schedule).ok()?;
    let check = words_of_check(alloc, words).ok()?;
    let mut verdict = MemSink::room(alloc, SHORT, &[]).ok()?;
    let status = xensched(rt, alloc, check.as_slice(), store, &mut verdict);
    println!(rt; "{}, {}", told_in(verdict.bytes()), status.number()).ok()
}

/// The run with the files in memory, where nothing fails. What is printed is what the check says of its schedule.
pub fn try_free<R: Files + Print + Threads + Wait + Sync>(
    rt: &R,
    alloc: Global,
    words: &[String],
) -> Status {
    let Ok(mut store) = failing_store(rt, alloc, words, 0) else {
        return Status::NoMemory;
    };
    let Ok(mut schedule) = MemSink::room(alloc, LONG, &[]) else {
        return Status::NoMemory;
    };
    let status = xensched(rt, alloc, words, &mut store, &mut schedule);
    match judge(rt, alloc, words, &mut store, schedule.bytes()) {
        Some(()) => status,
        None => Status::WriteFault,
    }
}
