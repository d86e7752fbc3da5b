//! A run that is heard: one who listens is told its entries, one after the other, while the crew goes on.

ghost use Rattle.std.specs.Prelude.{◌≡◌, ◌≤◌, ◌<◌, ◌+◌, ◌^◌, [], length, take, IfOk, IfErr};
ghost use Rattle.sched_model.specs.Runs.{IsRun, IsWholeRun};
ghost use Rattle.hall.specs.Seats.{IsOf, shares_in};
ghost use Rattle.pcpu_threads.specs.Crews.{AreCrew};
ghost use Rattle.pcpu_threads.specs.Ends.{IsCutOff};
ghost use Rattle.std.specs.List.{All};
ghost use Rattle.pcpu_threads.specs.Workers.{shares_of};
ghost use Rattle.pcpu_threads.specs.Hearing.{AreSeats, HearsOn, IsScribe, IsTold, front_of};

use crate::closing::{close_down, join_all};
use crate::crew::run_crew;
use crate::ends::RunEnd;
use crate::free::threads_for;
use crate::progress::Progress;
use crate::workers::split_workers;
use hall::{Hall, HallSeat};
use journal_core::Book;
use sched_base::NoMemory;
use sched_io::Gate;
use sched_model::event::Entry;
use std::alloc::Global;
use std::sync::Wait;
use std::thread::{Threads, join_mut};

/// As many entries are read in one take of the book.
const AT_ONCE: usize = 2_048;

/// Where more entries stand than so many, they are read at once.
const FEW: u64 = 2_048;

/// Where fewer stand, the scribe sleeps until these do.
const MANY: u64 = 4_096;

/// Who hears the entries of a run, one after the other. K is where what is heard goes.
pub trait Listener<K> {
    ghost use Rattle.std.specs.Prelude.{List, [], ◌∷◌, ◌++◌};
    ghost use Rattle.sched_model.specs.declared.event.Entry.{Entry as EntryValue};

    /// From the first two on these entries were heard, up to the last two.
    ghost has_heard: { Self → K → List EntryValue → Self → K → Type 0 };

    /// Nothing was heard yet. It does nothing.
    fn begin(&self, outlet: &K)
        ensures { has_heard self.now outlet.now [] self.now outlet.now };

    /// Hears one entry more.
    fn hear(&mut self, entry: &Entry, outlet: &mut K)
        ensures { (first : Self) (out : K) (entries : List EntryValue) →
            has_heard first out entries self.old outlet.old →
            has_heard first out (entries ++ entry.now ∷ []) self.new outlet.new };
}

/// A seat that reads the book beside a crew, and a list for the entries that it reads at once, which is empty between two reads.
#[derive(Drop)]
pub struct Scribe {
    seat: HallSeat,
    ahead: Vec<Entry>,
}

/// The seats of a run that is heard, split from this one, which has all parts: one for each of the hall's 1 to 64 processors, and a scribe's. All memory is
/// taken here; where it is wanted, nothing is changed.
pub fn split_crew(
    alloc: Global,
    hall: &Hall,
    seat: &mut HallSeat,
    processors: u8,
) -> Result<(Vec<HallSeat>, Scribe), NoMemory>
    requires of { IsOf hall.now seat.old }
    requires all { shares_in seat.old ≡ 1024 }
    requires processors { processors ≡ hall.now.opened.input.config.processors }
    requires few { (1 ≤ processors) × (processors ≤ 64) }
    ensures seats { IfOk result (λ r. AreSeats hall.now seat.new r.0.items r.1) }
    ensures refused { IfErr result (λ e. seat.new ≡ seat.old) }
{
    let ahead = Vec::with_capacity(alloc, AT_ONCE)?;
    let workers = split_workers(alloc, hall, seat, processors)?;
    let scribe = Scribe {
        seat: hall.split(seat),
        ahead,
    };
    Ok((workers, scribe))
}

/// Tells the listener these entries.
fn tell<K, L: Listener<K>>(entries: &[Entry], listener: &mut L, outlet: &mut K)
    ensures { IsTold L.has_heard entries.now listener.old outlet.old listener.new outlet.new }
{
    for entry in entries {
        listener.hear(entry, outlet);
    }
}

/// Reads on behind so many entries of the book, and tells the listener what it reads. It answers how many entries they were.
fn read_on<R: Wait, K, L: Listener<K>>(
    rt: &R,
    hall: &Hall,
    scribe: &mut Scribe,
    read: u32,
    listener: &mut L,
    outlet: &mut K,
) -> u32
    requires scribe { IsScribe hall.now scribe.old }
    requires inside { read ≤ length (front_of scribe.old.seat) }
    ensures heard { HearsOn L.has_heard hall.now read (read + result) scribe.old listener.old outlet.old
        scribe.new listener.new outlet.new }
    ensures few { result ≤ 2048 }
{
    hall.entries(rt, &mut scribe.seat, read, &mut scribe.ahead);
    tell(scribe.ahead.as_slice(), listener, outlet);
    let count = scribe.ahead.len() as u32;
    scribe.ahead.clear();
    count
}

/// Tells the listener the entries of the run, until it is over and all are told, or no crew comes. It answers how many entries they were.
fn listen<R: Wait, K, L: Listener<K>>(
    rt: &R,
    hall: &Hall,
    progress: &Progress,
    scribe: &mut Scribe,
    listener: &mut L,
    outlet: &mut K,
) -> u64
    requires scribe { IsScribe hall.now scribe.old }
    ensures { HearsOn L.has_heard hall.now 0 result scribe.old listener.old outlet.old scribe.new
        listener.new outlet.new }
{
    if !progress.has_begun() {
        return 0;
    }
    let mut read = 0u64;
    for _ in rt.forever() {
        if !progress.has_entries(read + FEW) {
            progress.wait_for_entries(rt, read + MANY);
        }
        let over = progress.is_over();
        let Ok(from) = u32::try_from(read) else {
            return read;
        };
        let count = read_on(rt, hall, scribe, from, listener, outlet);
        read += u64::from(count);
        if over && count == 0 {
            return read;
        }
    }
    unreachable!()
}

/// The crew goes through the run, and beside it the listener is told the entries. It answers how many it was told.
fn run_and_listen<R: Threads + Wait + Sync, G: Gate + Sync, K, L: Listener<K>>(
    rt: &R,
    hall: &Hall,
    domains: u8,
    gate: &G,
    seat: &mut HallSeat,
    workers: &mut Vec<HallSeat>,
    scribe: &mut Scribe,
    listener: &mut L,
    outlet: &mut K,
) -> u64
    requires crew { AreCrew hall.now seat.old workers.old.items }
    requires domains { domains ≡ length hall.now.opened.input.config.domains }
    requires scribe { IsScribe hall.now scribe.old }
    ensures of { IsOf hall.now seat.new }
    ensures each { All (IsOf hall.now) workers.new.items }
    ensures shares { shares_in seat.new + shares_of workers.new.items
        ≡ shares_in seat.old + shares_of workers.old.items }
    ensures heard { HearsOn L.has_heard hall.now 0 result scribe.old listener.old outlet.old
        scribe.new listener.new outlet.new }
{
    let threads = threads_for(rt);
    let progress = Progress::new();
    let far = &progress;
    let ((), read) = join_mut(
        rt,
        &mut ||
            requires { AreCrew hall.now seat.now workers.now.items
                × (domains ≡ length hall.now.opened.input.config.domains) }
            ensures { IsOf hall.entry.now seat.exit.now × All (IsOf hall.entry.now)
                workers.exit.now.items × (shares_in seat.exit.now + shares_of workers.exit.now.items
                ≡ shares_in seat.entry.now + shares_of workers.entry.now.items) }
        { run_crew(rt, hall, domains, threads, gate, far, seat, workers) },
        &mut || -> u64
            requires { IsScribe hall.now scribe.now }
            ensures { HearsOn L.has_heard hall.entry.now 0 result scribe.entry.now
                listener.entry.now outlet.entry.now scribe.exit.now listener.exit.now
                outlet.exit.now }
        { listen(rt, hall, far, scribe, listener, outlet) },
    );
    read
}

/// A run in which each processor is simulated by a worker of its own, as `run_free` makes it, and of whose entries a listener hears while it goes on, from
/// the first one on. It answers the book, how the run ended, and how many entries the listener was told: all, or those that stood before the end.
pub fn run_heard<R: Threads + Wait + Sync, G: Gate + Sync, K, L: Listener<K>>(
    rt: &R,
    hall: Hall,
    seat: HallSeat,
    workers: Vec<HallSeat>,
    scribe: Scribe,
    domains: u8,
    gate: &G,
    listener: &mut L,
    outlet: &mut K,
) -> (Book, RunEnd, u64)
    requires seats { AreSeats hall seat workers.items scribe }
    requires domains { domains ≡ length hall.opened.input.config.domains }
    ensures input { result.0.input ≡ hall.opened.input }
    ensures limit { result.0.limit ≡ hall.opened.limit }
    ensures run { IsRun result.0.input result.0.history }
    ensures finished { result.1 ≡ RunEnd.Finished → IsWholeRun result.0.input result.0.history }
    ensures full { result.1 ≡ RunEnd.Full → IsCutOff result.0 }
    ensures inside { result.2 ≤ length result.0.history }
    ensures heard { L.has_heard listener.old outlet.old (take result.2 result.0.history)
        listener.new outlet.new }
{
    let mut seat = seat;
    let mut workers = workers;
    let mut scribe = scribe;
    listener.begin(outlet);
    let read = run_and_listen(
        rt,
        &hall,
        domains,
        gate,
        &mut seat,
        &mut workers,
        &mut scribe,
        listener,
        outlet,
    );
    join_all(&hall, &mut seat, workers);
    let Scribe { seat: last, ahead } = scribe;
    drop(ahead);
    let mut both = last;
    hall.join(&mut both, seat);
    let (book, end) = close_down(rt, hall, both);
    (book, end, read)
}
