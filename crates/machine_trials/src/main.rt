//! The machine at work, as data: runs of the engine beside the plain machine, and the hall: two seats call by call, one seat alone, four seats in threads of
//! their own, and runs by a worker for each processor. Does what each line of the standard input says, and prints the line up to its first comma, and what came
//! of it. The files that the words name stand in `data/`.
//!
//! `engine DOMAINS WORK` goes to the end of the ordered run with the engine, and prints each entry that the checker, which has the plain machine go through the
//! same events, takes.
//!
//! `calls DOMAINS WORK EVENTS, CALL, ..` opens a hall of the two files with room for so many entries, and does the calls by two seats. A call is
//! `A` or `B` and what the seat does: `proc N`, `dom N` or `tool` acts for that actor, `pool-proc N` or `pool-dom N` does all that its pool may do,
//! `close` takes a turn of the whole machine, `waits N` asks whether the processor still waits, and `entry N` looks at that place. Behind each answer stands how often the gate was passed so far, and
//! by which number last; at the end, what the checker says of the history.
//!
//! `ordered DOMAINS WORK EVENTS` goes through the ordered run by one caller of a hall, and prints what the checker says of its history, asked for that order.
//!
//! `alone WAY DOMAINS WORK EVENTS` goes to the end of the run with one seat, and prints how many calls that took. A WAY is `each`, where the seat
//! acts for all actors until none has an event, and then takes a turn of the whole machine; `parted`, where it acts for every fourth actor; or
//! `turns`, where it takes turns alone.
//!
//! `threads WAY DOMAINS WORK EVENTS TIMES` goes to the end of the run so many times, with four seats in threads of their own, which each go that way,
//! and prints how many of the histories the checker takes as whole runs. Here a WAY may also be `rounds`: the four act for every fourth actor, until none
//! of theirs has an event, and then a fifth seat takes a turn, over and over.
//!
//! `free DOMAINS WORK EVENTS TIMES` goes to the end of the run so many times with a worker for each processor, and prints how many of the histories the
//! checker takes as whole runs. `crossing DOMAINS WORK EVENTS TIMES` has a gate at which the processors 0 and 1 wait for each other, and prints
//! how often both came. `holding DOMAINS WORK EVENTS TIMES` has the workers do one round in two threads, at a gate that holds processor 0 in its first pass
//! until an entry of processor 1 is in the book, and prints how often both came. `round DOMAINS WORK EVENTS` has the workers act once each, in one thread, and prints how often they passed the gate.
#![tactic(auto)]

mod answers;
mod beside;
mod calls;
mod counting;
mod crossing;
mod files;
mod judged;
mod lines;
mod numbering;
mod seats;
mod serving;
mod side_by_side;
mod stop;
mod workers;

use lines::try_line;
use sched_io::FileStore;
use std::io;

fn main(rt: HostRuntime) -> io::Result<()> {
    let mut store = FileStore::new(&rt);
    for line in rt.lines(rt.alloc()) {
        try_line(&rt, rt.alloc(), &mut store, line?.as_str())?;
    }
    Ok(())
}
