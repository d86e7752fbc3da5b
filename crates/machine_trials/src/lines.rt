//! The lines of the standard input.

ghost use Rattle.std.specs.Prelude.{◌≡◌, ◌≤◌, [], IfOk};
ghost use Rattle.sched_model.specs.CheckedMachine.{IsChecked};
ghost use Rattle.hall.specs.Seats.{IsOf};
ghost use Rattle.machine_trials.specs.TrialSeats.{AreActors};

use crate::beside::try_engine;
use crate::calls::run_calls;
use crate::counting::CountingGate;
use crate::files::machine_of;
use crate::judged::{Judged, judge};
use crate::numbering::{Actors, actors_of};
use crate::serving::{Way, go_to_the_end};
use crate::side_by_side::run_side_by_side;
use crate::stop::{Stop, printed};
use crate::workers::{passes_of_one_round, run_by_workers, run_crossing, run_holding};
use hall::{Hall, HallSeat};
use journal_core::Book;
use pcpu_threads::run_ordered;
use sched_base::NoMemory;
use sched_io::{OpenGate, Store};
use sched_model::machine::Machine;
use std::alloc::Global;
use std::io;
use std::sync::Wait;
use std::thread::Threads;

/// Adds the words of a line.
fn put_words(alloc: Global, line: &str, words: &mut Vec<String>) -> io::Result<()> {
    for word in line.split(' ') {
        words.push(String::from_str(alloc, word)?)?;
    }
    Ok(())
}

/// The most entries that a book has room for.
const MOST_ENTRIES: u32 = 4_000_000;

/// How many entries a book is to have room for, 1 to 4,000,000.
fn limit_of(word: &str) -> Result<u32, Stop>
    ensures { IfOk result (λ events. (1 ≤ events) × (events ≤ 4000000)) }
{
    let events: u32 = word.parse().unwrap_or(0);
    if 1 <= events && events <= MOST_ENTRIES {
        Ok(events)
    } else {
        Err(Stop::Usage)
    }
}

/// A hall of the machine with its first seat, and the actors of the machine.
fn open_hall(
    alloc: Global,
    machine: &Machine,
    events: u32,
) -> Result<(Hall, HallSeat, Actors), Stop>
    requires checked { IsChecked machine.now }
    requires few { (1 ≤ events) × (events ≤ 4000000) }
    ensures of { IfOk result (λ r. IsOf r.0 r.1) }
    ensures all { IfOk result (λ r. r.1.sitting.view.shares ≡ 1024) }
    ensures new { IfOk result (λ r. r.1.sitting.view.front ≡ []) }
    ensures actors { IfOk result (λ r. AreActors r.0.opened.input.config r.2) }
    ensures processors { IfOk result (λ r. (1 ≤ r.2.processors) × (r.2.processors ≤ 64)) }
    ensures limit { IfOk result (λ r. r.0.opened.limit ≡ events) }
{
    match Hall::open(alloc, &machine.config, &machine.work, events) {
        Ok((hall, seat)) => Ok((hall, seat, actors_of(&machine.config))),
        Err(NoMemory) => Err(Stop::NoMemory),
    }
}

/// The book of a hall, after all calls by two seats.
fn book_of_calls<R: Wait + Print>(
    rt: &R,
    alloc: Global,
    machine: &Machine,
    events: u32,
    texts: &str,
) -> Result<Book, Stop>
    requires checked { IsChecked machine.now }
    requires few { (1 ≤ events) × (events ≤ 4000000) }
{
    match open_hall(alloc, machine, events) {
        Ok((hall, seat, actors)) => run_calls(rt, hall, seat, actors, texts),
        Err(stop) => Err(stop),
    }
}

/// Prints how many entries a book has, and what the checker says of them.
fn tell_book<R: Print>(
    rt: &R,
    alloc: Global,
    machine: Machine,
    ordered: bool,
    book: &Book,
) -> Result<(), Stop>
    requires { IsChecked machine }
{
    match judge(alloc, machine, ordered, book) {
        Ok(judged) => printed(println!(rt; "{} entries: {judged}", book.len())),
        Err(NoMemory) => Err(Stop::NoMemory),
    }
}

/// Does all calls on a hall of the machine, and tells what came of them.
fn try_calls<R: Wait + Print>(
    rt: &R,
    alloc: Global,
    machine: Machine,
    events: u32,
    texts: &str,
) -> Result<(), Stop>
    requires checked { IsChecked machine }
    requires few { (1 ≤ events) × (events ≤ 4000000) }
{
    match book_of_calls(rt, alloc, &machine, events, texts) {
        Ok(book) => tell_book(rt, alloc, machine, false, &book),
        Err(stop) => {
            drop(machine);
            Err(stop)
        }
    }
}

/// The book of the ordered run of a machine, by one caller.
fn book_in_order<R: Wait>(
    rt: &R,
    alloc: Global,
    machine: &Machine,
    events: u32,
) -> Result<Book, Stop>
    requires checked { IsChecked machine.now }
    requires few { (1 ≤ events) × (events ≤ 4000000) }
{
    match open_hall(alloc, machine, events) {
        Ok((hall, seat, _)) => Ok(run_ordered(rt, hall, seat).0),
        Err(stop) => Err(stop),
    }
}

/// Goes through the ordered run of the machine by one caller, and tells what came of it.
fn try_ordered<R: Wait + Print>(
    rt: &R,
    alloc: Global,
    machine: Machine,
    events: u32,
) -> Result<(), Stop>
    requires checked { IsChecked machine }
    requires few { (1 ≤ events) × (events ≤ 4000000) }
{
    match book_in_order(rt, alloc, &machine, events) {
        Ok(book) => tell_book(rt, alloc, machine, true, &book),
        Err(stop) => {
            drop(machine);
            Err(stop)
        }
    }
}

/// What a seat did alone: how many entries there are, how often it passed the gate, and how many turns it took.
struct Counts {
    entries: u32,
    passes: u64,
    turns: u32,
}

/// Goes to the end of the run with the one seat of the hall.
fn run_alone<R: Wait>(rt: &R, hall: Hall, seat: HallSeat, actors: Actors, way: Way) -> Counts
    requires of { IsOf hall seat }
    requires all { seat.sitting.view.shares ≡ 1024 }
    requires actors { AreActors hall.opened.input.config actors }
{
    let mut seat = seat;
    let gate = CountingGate::new();
    let turns = go_to_the_end(rt, &hall, actors, &mut seat, (way, 0), &gate);
    Counts {
        entries: hall.end(seat).len(),
        passes: gate.passes(),
        turns,
    }
}

/// Goes to the end of a run of the machine with one seat, and prints what it did.
fn try_alone<R: Wait + Print>(
    rt: &R,
    alloc: Global,
    machine: Machine,
    events: u32,
    way: Way,
) -> Result<(), Stop>
    requires checked { IsChecked machine }
    requires few { (1 ≤ events) × (events ≤ 4000000) }
{
    let opened = open_hall(alloc, &machine, events);
    drop(machine);
    let (hall, seat, actors) = opened?;
    let Counts {
        entries,
        passes,
        turns,
    } = run_alone(rt, hall, seat, actors, way);
    printed(println!(rt; "{entries} entries, {passes} passes of the gate, {turns} turns"))
}

/// What goes through a run that is tried so many times.
#[derive(Clone, Copy)]
enum Runner {
    Threads(Way),
    Free,
    Crossing,
    Holding,
}

impl Runner {
    /// The runner with this name that needs no way.
    fn named(name: &str) -> Option<Runner> {
        match name {
            "free" => Some(Runner::Free),
            "crossing" => Some(Runner::Crossing),
            "holding" => Some(Runner::Holding),
            _ => None,
        }
    }

    /// What is told of the runs that went well.
    fn told(self) -> &'static str {
        match self {
            Runner::Threads(_) | Runner::Free => "are whole runs",
            Runner::Crossing | Runner::Holding => "were crossed",
        }
    }
}

/// Goes through a run of the machine. It answers the book, and whether the run had what the runner asks for beside a whole run.
fn run_once<R: Threads + Wait + Sync>(
    rt: &R,
    alloc: Global,
    machine: &Machine,
    events: u32,
    runner: Runner,
) -> Result<(Book, bool), Stop>
    requires checked { IsChecked machine.now }
    requires few { (1 ≤ events) × (events ≤ 4000000) }
{
    let (hall, seat, actors) = open_hall(alloc, machine, events)?;
    match runner {
        Runner::Threads(way) => Ok((run_side_by_side(rt, hall, seat, actors, way), true)),
        Runner::Free => match run_by_workers(rt, alloc, hall, seat, actors, &OpenGate) {
            Ok(book) => Ok((book, true)),
            Err(NoMemory) => Err(Stop::NoMemory),
        },
        Runner::Crossing => run_crossing(rt, alloc, hall, seat, actors),
        Runner::Holding => run_holding(rt, alloc, hall, seat, actors),
    }
}

/// Goes through a run of the machine. It answers whether the checker takes its history as a whole run, and it had what the runner asks for.
fn goes_well<R: Threads + Wait + Sync>(
    rt: &R,
    alloc: Global,
    machine: Machine,
    events: u32,
    runner: Runner,
) -> Result<bool, Stop>
    requires checked { IsChecked machine }
    requires few { (1 ≤ events) × (events ≤ 4000000) }
{
    match run_once(rt, alloc, &machine, events, runner) {
        Ok((book, has_more)) => match judge(alloc, machine, false, &book) {
            Ok(judged) => Ok(has_more && matches!(judged, Judged::Whole)),
            Err(NoMemory) => Err(Stop::NoMemory),
        },
        Err(stop) => {
            drop(machine);
            Err(stop)
        }
    }
}

/// Goes through a run of the machine of two files so many times. It answers how often that went well.
fn count_well<R: Threads + Wait + Sync, S: Store>(
    rt: &R,
    alloc: Global,
    store: &mut S,
    runner: Runner,
    files: (&str, &str),
    events: u32,
    times: u32,
) -> Result<u32, Stop>
    requires { (1 ≤ events) × (events ≤ 4000000) }
{
    let mut well = 0u32;
    for _ in 0..times {
        let machine = machine_of(alloc, files.0, files.1, store)?;
        if goes_well(rt, alloc, machine, events, runner)? {
            well = well.saturating_add(1);
        }
    }
    Ok(well)
}

/// Goes through a run so many times, and prints how often that went well. The words are the two files of the machine, how many entries a book is to have room
/// for, and how many times.
fn try_runs<R: Threads + Wait + Sync + Print, S: Store>(
    rt: &R,
    alloc: Global,
    store: &mut S,
    runner: Runner,
    words: &[String],
) -> Result<(), Stop> {
    let [domains, work, events, times] = words else {
        return Err(Stop::Usage);
    };
    let events = limit_of(events.as_str())?;
    let times: u32 = times.parse().unwrap_or(0);
    let files = (domains.as_str(), work.as_str());
    let well = count_well(rt, alloc, store, runner, files, events, times)?;
    printed(println!(rt; "{well} of {times} {}", runner.told()))
}

/// Has the workers act once each, in one thread, and prints how often they passed the gate.
fn try_round<R: Threads + Wait + Sync + Print>(
    rt: &R,
    alloc: Global,
    machine: Machine,
    events: u32,
) -> Result<(), Stop>
    requires checked { IsChecked machine }
    requires few { (1 ≤ events) × (events ≤ 4000000) }
{
    let opened = open_hall(alloc, &machine, events);
    drop(machine);
    let (hall, seat, actors) = opened?;
    match passes_of_one_round(rt, alloc, hall, seat, actors) {
        Ok(passes) => printed(println!(rt; "{passes} passes of the gate")),
        Err(NoMemory) => Err(Stop::NoMemory),
    }
}

/// The way that a word names.
fn way_of(word: &str) -> Result<Way, Stop> {
    Way::named(word).ok_or(Stop::Usage)
}

/// Does what the words say; the texts are those of calls.
fn do_words<R: Threads + Wait + Sync + Print, S: Store>(
    rt: &R,
    alloc: Global,
    store: &mut S,
    words: &[String],
    texts: &str,
) -> Result<(), Stop> {
    match words {
        [word, domains, work] if word.as_str() == "engine" => {
            try_engine(rt, alloc, domains.as_str(), work.as_str(), store)
        }
        [word, domains, work, events] if word.as_str() == "calls" => {
            let events = limit_of(events.as_str())?;
            let machine = machine_of(alloc, domains.as_str(), work.as_str(), store)?;
            try_calls(rt, alloc, machine, events, texts)
        }
        [word, domains, work, events] if word.as_str() == "ordered" => {
            let events = limit_of(events.as_str())?;
            let machine = machine_of(alloc, domains.as_str(), work.as_str(), store)?;
            try_ordered(rt, alloc, machine, events)
        }
        [word, way, domains, work, events] if word.as_str() == "alone" => {
            let way = way_of(way.as_str())?;
            let events = limit_of(events.as_str())?;
            let machine = machine_of(alloc, domains.as_str(), work.as_str(), store)?;
            try_alone(rt, alloc, machine, events, way)
        }
        [word, domains, work, events] if word.as_str() == "round" => {
            let events = limit_of(events.as_str())?;
            let machine = machine_of(alloc, domains.as_str(), work.as_str(), store)?;
            try_round(rt, alloc, machine, events)
        }
        [word, way, words @ ..] if word.as_str() == "threads" => {
            let runner = Runner::Threads(way_of(way.as_str())?);
            try_runs(rt, alloc, store, runner, words)
        }
        [word, words @ ..] => {
            let runner = Runner::named(word.as_str()).ok_or(Stop::Usage)?;
            try_runs(rt, alloc, store, runner, words)
        }
        _ => Err(Stop::Usage),
    }
}

/// One line: itself up to its first comma, and what came of it.
pub fn try_line<R: Threads + Wait + Sync + Print, S: Store>(
    rt: &R,
    alloc: Global,
    store: &mut S,
    line: &str,
) -> io::Result<()> {
    let (head, texts) = line.split_once(',').unwrap_or((line, ""));
    println!(rt; "== {head}")?;
    let mut words: Vec<String> = Vec::new(alloc);
    put_words(alloc, head, &mut words)?;
    match do_words(rt, alloc, store, words.as_slice(), texts) {
        Ok(()) => Ok(()),
        Err(stop) => println!(rt; "-- {stop}"),
    }
}
