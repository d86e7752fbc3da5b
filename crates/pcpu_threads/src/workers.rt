//! The workers: one for each processor, which acts for the processor and for those domains that fall to it.

ghost use Rattle.std.specs.Prelude.{◌≡◌, ◌≤◌, ◌<◌, ◌⊎◌, IfOk, IfErr, IsFalse, IsTrue, true, length};
ghost use Rattle.std.specs.List.{All};
ghost use Rattle.sched_model.specs.declared.action.Actor.TheVariants.{Dom, Proc};
ghost use Rattle.hall.specs.Seats.{IsOf, Stays};
ghost use Rattle.hall.specs.declared.turns.Waits.TheVariants as waits;
ghost use Rattle.hall.specs.Turns.{IsWaiting, is_actor};
ghost use Rattle.pcpu_threads.specs.Workers.{ActsAs, AllWorked, AreWorkers, HasWaited, HasWorked, IsNew, MayWork, OneEach, Rested, SeesSame, lessened_by, shares_of};

use crate::crew::MOST_ROWS;
use hall::{Done, Hall, HallSeat, Waits};
use sched_base::{DomId, NoMemory, ProcId};
use sched_io::Gate;
use sched_model::action::Actor;
use std::alloc::Global;
use std::sync::Wait;
use std::thread;
use std::thread::Threads;

/// One seat for each of the hall's 1 to 64 processors, split from this one, which has all parts. All memory is taken here; where it is wanted,
/// nothing is changed.
pub fn split_workers(
    alloc: Global,
    hall: &Hall,
    seat: &mut HallSeat,
    processors: u8,
) -> Result<Vec<HallSeat>, NoMemory>
    requires of { IsOf hall.now seat.old }
    requires all { seat.old.sitting.view.shares ≡ 1024 }
    requires processors { processors ≡ hall.now.opened.input.config.processors }
    requires few { (1 ≤ processors) × (processors ≤ 64) }
    ensures workers { IfOk result (λ workers. AreWorkers hall.now seat.new workers.items) }
    ensures new { IfOk result (λ workers. All (IsNew seat.old) workers.items) }
    ensures seat { IfOk result (λ workers. seat.new ≡ lessened_by processors seat.old) }
    ensures refused { IfErr result (λ e. seat.new ≡ seat.old) }
{
    let mut workers = Vec::with_capacity(alloc, MOST_ROWS * (usize::from(processors) + 1))?;
    for _ in 0..processors {
        workers.push_reserved(hall.split(seat));
    }
    Ok(workers)
}

/// Does the first event of the actor that may come. False where none may, or where the book is full.
fn act_once<R: Wait, G: Gate>(
    rt: &R,
    hall: &Hall,
    seat: &mut HallSeat,
    actor: Actor,
    gate: &G,
) -> bool
    requires of { IsOf hall.now seat.old }
    requires actor { is_actor hall.now.opened.input.config actor ≡ true }
    ensures acts { ActsAs actor seat.old seat.new }
    ensures took { seat.old.sitting.view.takes < seat.new.sitting.view.takes }
    ensures rests { IsFalse result → Rested actor seat.old seat.new }
{
    match hall.act(rt, seat, actor, gate) {
        Ok(Done::Event { .. }) => true,
        Ok(Done::Nothing) => false,
        Err(_) => false,
    }
}

/// Whether the processor, which arrived, still waits for its siblings. The first of a core never does.
fn is_waiting(hall: &Hall, seat: &mut HallSeat, p: ProcId) -> bool
    requires { IsOf hall.now seat.old }
    ensures stays { Stays seat.old seat.new }
    ensures same { SeesSame seat.old seat.new }
    ensures waits { IsTrue result → IsWaiting hall.now.opened.input.config.granularity p waits.Still
        seat.old seat.new }
{
    matches!(hall.still_waits(seat, p), Waits::Still)
}

/// Does the events of the domain that may come, one after the other.
fn act_for_domain<R: Wait, G: Gate>(rt: &R, hall: &Hall, seat: &mut HallSeat, d: DomId, gate: &G)
    requires of { IsOf hall.now seat.old }
    requires actor { is_actor hall.now.opened.input.config (Dom d) ≡ true }
    ensures acts { ActsAs (Dom d) seat.old seat.new }
    ensures rests { Rested (Dom d) seat.old seat.new }
{
    for _ in rt.forever() {
        if !act_once(rt, hall, seat, Actor::Dom(d), gate) {
            return;
        }
    }
    unreachable!()
}

/// Does the events of the processor that may come, one after the other, until it waits for its siblings. That is asked before each event but the
/// first.
fn act_for_processor<R: Wait, G: Gate>(
    rt: &R,
    hall: &Hall,
    seat: &mut HallSeat,
    p: ProcId,
    gate: &G,
)
    requires of { IsOf hall.now seat.old }
    requires actor { is_actor hall.now.opened.input.config (Proc p) ≡ true }
    ensures acts { ActsAs (Proc p) seat.old seat.new }
    ensures took { seat.old.sitting.view.takes < seat.new.sitting.view.takes }
    ensures rests { Rested (Proc p) seat.old seat.new ⊎ HasWaited hall.now p seat.old seat.new }
{
    for _ in rt.forever() {
        if !act_once(rt, hall, seat, Actor::Proc(p), gate) {
            return;
        }
        if is_waiting(hall, seat, p) {
            return;
        }
    }
    unreachable!()
}

/// The part of one worker in a moment: the events of its processor, and then those of each domain whose number leaves the worker's, from 0, when
/// it is divided by how many workers there are.
fn work<R: Wait, G: Gate>(
    rt: &R,
    hall: &Hall,
    seat: &mut HallSeat,
    worker: usize,
    workers: usize,
    domains: u8,
    gate: &G,
)
    requires { MayWork hall.now workers domains worker seat.old }
    ensures { HasWorked hall.now workers domains worker seat.old seat.new }
{
    act_for_processor(rt, hall, seat, ProcId(worker as u8), gate);
    for d in 0..domains {
        if usize::from(d) % workers == worker {
            act_for_domain(rt, hall, seat, DomId(d), gate);
        }
    }
}

/// The workers' part of a moment, side by side in at most so many threads, and one after the other where no thread can be made; all are through
/// when the call returns.
///
/// Worker p does the events of processor p, one after the other, until none may come, or the processor waits for its siblings; and then those of
/// each domain whose number leaves p when it is divided by the number of processors. Each ends too where the book is full. `domains` is how many
/// domains the hall's input has. For each try in a pool the gate is passed, while that pool's lock is held and the book's is not.
pub fn work_all<R: Threads + Wait + Sync, G: Gate + Sync>(
    rt: &R,
    hall: &Hall,
    workers: &mut [HallSeat],
    domains: u8,
    threads: usize,
    gate: &G,
)
    requires workers { OneEach hall.now workers.old }
    requires domains { domains ≡ length hall.now.opened.input.config.domains }
    requires threads { 0 < threads }
    ensures workers { OneEach hall.now workers.new }
    ensures shares { shares_of workers.new ≡ shares_of workers.old }
    ensures each { AllWorked hall.now domains workers.old workers.new }
{
    let count = workers.len();
    thread::for_each_mut(
        rt,
        workers,
        threads,
        &|worker, seat|
            requires { MayWork hall.now count domains worker seat.now }
            ensures { HasWorked hall.entry.now count domains worker seat.entry.now seat.exit.now }
        { work(rt, hall, seat, worker, count, domains, gate) },
    );
}
