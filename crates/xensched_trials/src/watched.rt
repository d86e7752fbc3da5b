//! A watched run, whose looks are held against the ordered run of the same machine.

use crate::memory::failing_store;
use sched_base::NoMemory;
use sched_io::{MemSink, MemStore};
use std::alloc::Global;
use std::io;
use std::io::Print;
use std::rt::Files;
use std::sync::Wait;
use std::thread::Threads;
use xensched_top::status::Status;
use xensched_top::top::xensched;

/// The room of a schedule, and of the looks.
const ROOM: usize = 1_048_576;

/// The words of the ordered run: the last two words of the watch are its files.
fn words_of_run(alloc: Global, words: &[String]) -> Result<Vec<String>, NoMemory> {
    let mut run = Vec::new(alloc);
    run.push(String::from_str(alloc, "run")?)?;
    run.push(String::from_str(alloc, "--ordered")?)?;
    for word in words.iter().skip(words.len().saturating_sub(2)) {
        run.push(String::from_str(alloc, word.as_str())?)?;
    }
    Ok(run)
}

/// The word of a line with this number, from 0, as a number; 0 where it is none.
fn number_at(line: &str, place: usize) -> usize {
    line.split(' ')
        .nth(place)
        .map_or(0, |word| word.parse().unwrap_or(0))
}

/// How many of the schedule's entries stand in its first moments, so many of them.
fn entries_within(schedule: &str, moments: usize) -> usize {
    let mut ended = 0usize;
    let mut entries = 0usize;
    for line in schedule.lines() {
        if ended < moments {
            entries = entries.saturating_add(1);
        }
        if line.split(' ').nth(1) == Some("end") {
            ended = ended.saturating_add(1);
        }
    }
    entries
}

/// The moment of the last of so many entries of the schedule, 0 where there is none.
fn moment_of(schedule: &str, entries: usize) -> usize {
    match entries {
        0 => 0,
        n => schedule
            .lines()
            .nth(n - 1)
            .map_or(0, |line| number_at(line, 0)),
    }
}

/// Prints a line of the watch: where it is a look and within its range, the range.
fn print_line<R: Print>(rt: &R, schedule: &str, line: &str) -> io::Result<()> {
    if !line.starts_with("look ") {
        return println!(rt; "{line}");
    }
    let look = number_at(line, 1);
    let entries = number_at(line, 3);
    let least = entries_within(schedule, look.saturating_sub(2));
    let most = entries_within(schedule, look.saturating_sub(1));
    let moment = moment_of(schedule, entries);
    if least <= entries && entries <= most && number_at(line, 5) == moment {
        println!(rt; "look {look} from {least} to {most}")
    } else {
        println!(rt; "{line}, and not from {least} to {most} at its moment")
    }
}

/// Prints all lines of the watch.
fn print_lines<R: Print>(rt: &R, schedule: &[u8], looks: &[u8]) -> io::Result<()> {
    let schedule = std::str::from_utf8(schedule).unwrap_or("no text");
    for line in std::str::from_utf8(looks).unwrap_or("no text").lines() {
        print_line(rt, schedule, line)?;
    }
    Ok(())
}

/// What a call puts, and its status.
fn put_by<R: Threads + Wait + Sync>(
    rt: &R,
    alloc: Global,
    words: &[String],
    store: &mut MemStore,
) -> Result<(MemSink, Status), NoMemory> {
    let mut sink = MemSink::room(alloc, ROOM, &[])?;
    let status = xensched(rt, alloc, words, store, &mut sink);
    Ok((sink, status))
}

/// Both calls, and what is printed of them: the status of the watch.
fn watch<R: Files + Print + Threads + Wait + Sync>(
    rt: &R,
    alloc: Global,
    words: &[String],
) -> Result<Status, NoMemory> {
    let mut store = failing_store(rt, alloc, words, 0)?;
    let (looks, status) = put_by(rt, alloc, words, &mut store)?;
    let run = words_of_run(alloc, words)?;
    let (schedule, _) = put_by(rt, alloc, run.as_slice(), &mut store)?;
    match print_lines(rt, schedule.bytes(), looks.bytes()) {
        Ok(()) => Ok(status),
        Err(_) => Ok(Status::WriteFault),
    }
}

/// The watch with the files in memory, where nothing fails. What is printed of each look is its range.
pub fn try_watched<R: Files + Print + Threads + Wait + Sync>(
    rt: &R,
    alloc: Global,
    words: &[String],
) -> Status {
    watch(rt, alloc, words).unwrap_or(Status::NoMemory)
}
