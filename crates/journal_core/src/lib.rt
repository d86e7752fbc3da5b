//! The history of a run: the entries so far, the moment that they lead to, and how often each core has decided.
//!
//! `specs/` cuts the state that a history leads to into parts, one for each pool and one for the tool.
#![tactic(auto)]

ghost use Rattle.std.specs.Prelude.{ℕ, ◌≡◌, ◌≤◌, ◌<◌, ◌+◌, ◌++◌, ◌∷◌, [], ◌↔◌, IsTrue, IfOk, Some, length, slice_get, slice_index};
ghost use Rattle.sched_model.specs.Runs.{IsNext, IsRun};
ghost use Rattle.journal_core.specs.Histories.{decision_of, decides_at, following_moment, now_at, reached_by};

use sched_base::{Moment, NoMemory, ResId};
use sched_model::config::Config;
use sched_model::event::{Entry, Event};
use sched_model::work::Work;
use std::alloc::Global;
use std::boxed::Box;
use std::marker::Model;
use std::mem::size_of;
use std::snapshot::Snapshot;

// An entry takes at most 64 bytes.
const _: () = prove!(size_of::<Entry>() <= 64);

/// The history of a run. It keeps of its input no more than which one it is, and takes all its memory when it is made. It is small, since threads
/// hand it to one another by value: what grows with the run or with the cores lies behind pointers.
#[derive(Drop)]
pub struct Book {
    config: Snapshot<Config>,
    work: Snapshot<Work>,
    entries: Vec<Entry>,
    limit: u32,
    moment: Moment,
    decides: Box<[u32; 64]>,
}

impl Model for Book {
    ghost use Rattle.std.specs.Prelude.{vec_capacity};
    ghost use Rattle.journal_core.specs.Books.{Chronicle, IsKept, chronicle};

    ghost Value = { Chronicle };

    ghost view = { λ b. chronicle b.config.value b.work.value b.entries.items b.limit };

    ghost invariant = { λ b. IsKept (chronicle b.config.value b.work.value b.entries.items b.limit)
        (vec_capacity b.entries) b.moment.0 b.decides.value };
}

// The moment that an entry leads to from the moment now.
fn moment_after(e: &Entry, now: Moment) -> Moment
    ensures { result.0 ≡ following_moment e.now.event now.0 }
{
    match e.event {
        Event::End { next } => next,
        _ => now,
    }
}

// No core has decided.
fn no_decisions() -> [u32; 64]
    ensures cores { length result ≡ 64 }
    ensures none { (r : ℕ) → r < 64 → slice_index result r ≡ 0 }
{
    [0; 64]
}

// Counts the entry, where it is a decision of a core.
fn count_decision(decides: &mut [u32; 64], e: &Entry)
    requires few { (r : ℕ) → r < 64 → slice_index decides.old r < 4000000 }
    ensures cores { length decides.new ≡ 64 }
    ensures counted { (r : ℕ) → r < 64 → slice_index decides.new r
        ≡ decision_of e.now.event r + slice_index decides.old r }
{
    if let Event::Decide { r, .. } = e.event {
        let core = r.0 as usize;
        if core < 64 {
            decides[core] += 1;
        }
    }
}

impl Book {
    /// A book of this input without an entry, with room for this many entries, 1 to 4,000,000 of at most 64 bytes each.
    pub fn room(alloc: Global, config: &Config, work: &Work, events: u32) -> Result<Book, NoMemory>
        requires few { (1 ≤ events) × (events ≤ 4000000) }
        ensures input { IfOk result (λ b. b.input
            ≡ record { config = config.now; work = work.now }) }
        ensures empty { IfOk result (λ b. b.history ≡ []) }
        ensures limit { IfOk result (λ b. b.limit ≡ events) }
    {
        let entries = Vec::with_capacity(alloc, events as usize)?;
        let decides = Box::new(alloc, no_decisions())?;
        Ok(Book {
            config: Snapshot::of(config),
            work: Snapshot::of(work),
            entries,
            limit: events,
            moment: Moment(0),
            decides,
        })
    }

    /// Adds the next entry of the run. It takes no memory.
    pub fn commit(&mut self, e: Entry)
        requires next { IsNext self.old.input (reached_by self.old.input self.old.history) e }
        requires room { length self.old.history < self.old.limit }
        ensures added { self.new.history ≡ self.old.history ++ e ∷ [] }
        ensures input { self.new.input ≡ self.old.input }
        ensures limit { self.new.limit ≡ self.old.limit }
    {
        self.entries.push_reserved(e);
        self.moment = moment_after(&e, self.moment);
        count_decision(&mut self.decides, &e);
    }

    /// How many entries stand.
    pub fn len(&self) -> u32
        ensures { result ≡ length self.now.history }
    {
        self.entries.len() as u32
    }

    /// Whether a further entry has room: whether fewer entries stand than the limit.
    pub fn room_left(&self) -> bool
        ensures { IsTrue result ↔ (length self.now.history < self.now.limit) }
    {
        self.entries.len() < self.limit as usize
    }

    /// The entry at the place i, from 0 on.
    pub fn get(&self, i: u32) -> Entry
        requires { i < length self.now.history }
        ensures { slice_get self.now.history i ≡ Some result }
    {
        self.entries[i as usize]
    }

    /// The most entries that may stand.
    pub fn limit(&self) -> u32
        ensures { result ≡ self.now.limit }
    {
        self.limit
    }

    /// The moment of the state that the history leads to. The history is not looked at.
    pub fn now(&self) -> Moment
        ensures { result.0 ≡ now_at self.now.input self.now.history }
    {
        self.moment
    }

    /// How many entries are decisions of the core. The history is not looked at.
    pub fn decides(&self, r: ResId) -> u32
        requires { r.0 < 64 }
        ensures { result ≡ decides_at self.now.history r.0 }
    {
        self.decides[r.0 as usize]
    }

    /// Tells that the history is a run of the input, within the limit of at most 4,000,000 entries. It does nothing.
    pub fn tell(&self)
        ensures run { IsRun self.now.input self.now.history }
        ensures fits { length self.now.history ≤ self.now.limit }
        ensures few { self.now.limit ≤ 4000000 }
    {
        let _limit = self.limit;
    }
}
