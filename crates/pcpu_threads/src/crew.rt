//! The threads of a free run. They are made once and stay: in each moment they take the pools that have something to do, and act there for the workers
//! whose events come, under one hold of the pool by the seat of the first of them. Each thread has a row of seats: one for each worker, and a last one
//! that ends moments.

ghost use Rattle.std.specs.Prelude.{◌≡◌, ◌≤◌, ◌<◌, ◌+◌, ◌*◌, ◌%◌, [], IfSome, length, vec_capacity};
ghost use Rattle.std.specs.List.{All};
ghost use Rattle.hall.specs.Seats.{IsOf, shares_in};
ghost use Rattle.pcpu_threads.specs.Crews.{ActsForWorkers, AreCrew, IsAmong, IsHand, IsRow, IsWide};
ghost use Rattle.pcpu_threads.specs.Workers.{IsFor, shares_of};

use crate::closing::take_in;
use crate::progress::Progress;
use crate::pulse::{Pace, Pulse, pools_of};
use hall::{Full, Hall, HallSeat, Hints, Turn};
use sched_io::Gate;
use sched_model::action::Actor;
use std::sync::Wait;
use std::thread;
use std::thread::Threads;

/// The most threads of a run: with a row each, of 65 seats, they have fewer than the 1024 parts.
pub(crate) const MOST_ROWS: usize = 15;

/// The worker of the actor, of so many, or none where the actor is not one of the input's processors or domains.
fn worker_of(actor: Actor, workers: usize, domains: u8) -> Option<usize>
    requires some { 0 < workers }
    ensures low { IfSome result (λ w. w < workers) }
    ensures there { IfSome result (λ w. IsAmong workers domains actor) }
{
    match actor {
        Actor::Proc(p) if usize::from(p.0) < workers => Some(usize::from(p.0)),
        Actor::Dom(d) if d.0 < domains => Some(usize::from(d.0) % workers),
        _ => None,
    }
}

/// Does what may be done now in the pool that has this actor, by the seat of the actor's worker: the events of the pool's actors in the pool's order, each
/// of which is its own worker's.
fn serve<R: Wait, G: Gate>(
    rt: &R,
    hall: &Hall,
    domains: u8,
    gate: &G,
    first: Option<Actor>,
    seats: &mut [HallSeat],
)
    requires { IsRow hall.now domains seats.old }
    ensures row { IsRow hall.now domains seats.new }
    ensures acts { ActsForWorkers seats.old seats.new }
{
    let Some(actor) = first else {
        return;
    };
    let Some(worker) = worker_of(actor, seats.len() - 1, domains) else {
        return;
    };
    let _acted = hall.act_pool(rt, &mut seats[worker], actor, gate);
}

/// Takes pools that wait, its own ones first, and does what may be done there.
fn serve_open<R: Wait, G: Gate>(
    rt: &R,
    hall: &Hall,
    domains: u8,
    gate: &G,
    pulse: &Pulse,
    own: u64,
    seats: &mut [HallSeat],
)
    requires { IsRow hall.now domains seats.old }
    ensures row { IsRow hall.now domains seats.new }
    ensures acts { ActsForWorkers seats.old seats.new }
{
    for _ in rt.forever() {
        let Some(first) = pulse.claim(own) else {
            return;
        };
        serve(rt, hall, domains, gate, first, seats);
        pulse.is_through();
    }
}

/// The workers' part of a moment by this thread alone: pool by pool.
fn work_alone<R: Wait, G: Gate>(
    rt: &R,
    hall: &Hall,
    domains: u8,
    gate: &G,
    hints: &Hints,
    seats: &mut [HallSeat],
)
    requires { IsRow hall.now domains seats.old }
    ensures row { IsRow hall.now domains seats.new }
    ensures acts { ActsForWorkers seats.old seats.new }
{
    for i in 0..16usize {
        serve(rt, hall, domains, gate, hints.first(i), seats);
    }
}

/// The same side by side with the other threads: all are through when the call returns.
fn work_beside<R: Wait, G: Gate>(
    rt: &R,
    hall: &Hall,
    domains: u8,
    gate: &G,
    pulse: &Pulse,
    hints: &Hints,
    seats: &mut [HallSeat],
)
    requires { IsRow hall.now domains seats.old }
    ensures row { IsRow hall.now domains seats.new }
    ensures acts { ActsForWorkers seats.old seats.new }
{
    pulse.open(hints);
    for _ in rt.forever() {
        serve_open(rt, hall, domains, gate, pulse, 1, seats);
        if pulse.all_through() {
            return;
        }
        pulse.rest(rt);
    }
    unreachable!()
}

/// Whose events come first now.
fn look<R: Wait>(rt: &R, hall: &Hall, domains: u8, seats: &mut [HallSeat]) -> Hints
    requires { IsRow hall.now domains seats.old }
    ensures { IsRow hall.now domains seats.new }
{
    let last = seats.len() - 1;
    hall.look(rt, &mut seats[last])
}

/// Takes a turn of the whole machine, by the last seat.
fn take_turn<R: Wait>(
    rt: &R,
    hall: &Hall,
    domains: u8,
    seats: &mut [HallSeat],
) -> Result<(Turn, Hints), Full>
    requires { IsRow hall.now domains seats.old }
    ensures { IsRow hall.now domains seats.new }
{
    let last = seats.len() - 1;
    hall.close_and_look(rt, &mut seats[last])
}

/// Ends the moment, or does the first event that was left in it, and answers whose events come first then. None where the run is over, or the book is
/// full.
fn end_moment<R: Wait>(
    rt: &R,
    hall: &Hall,
    domains: u8,
    progress: &Progress,
    pace: &mut Pace,
    seats: &mut [HallSeat],
) -> Option<Hints>
    requires { IsRow hall.now domains seats.old }
    ensures { IsRow hall.now domains seats.new }
{
    match take_turn(rt, hall, domains, seats) {
        Ok((Turn::Closed { place, .. }, hints)) => {
            pace.end_moment(place);
            progress.end_moment(place);
            Some(hints)
        }
        Ok((Turn::Stepped { .. }, _)) => Some(look(rt, hall, domains, seats)),
        _ => None,
    }
}

/// The thread that leads: moment by moment it has the workers act, and ends the moment once all are through. Where one pool alone has something to do, or
/// little is to be expected, it acts for all workers itself, and nobody is woken.
fn lead<R: Wait, G: Gate>(
    rt: &R,
    hall: &Hall,
    domains: u8,
    gate: &G,
    progress: &Progress,
    pulse: &Pulse,
    seats: &mut [HallSeat],
)
    requires { IsRow hall.now domains seats.old }
    ensures { IsRow hall.now domains seats.new }
{
    progress.begin();
    let mut pace = Pace::new();
    let mut hints = look(rt, hall, domains, seats);
    for _ in rt.forever() {
        if pace.is_worth_threads() && pools_of(&hints).count_ones() > 1 {
            work_beside(rt, hall, domains, gate, pulse, &hints, seats);
        } else {
            work_alone(rt, hall, domains, gate, &hints, seats);
        }
        progress.wait_for_turn(rt);
        let Some(next) = end_moment(rt, hall, domains, progress, &mut pace, seats) else {
            break;
        };
        hints = next;
    }
    pulse.end();
    progress.end();
}

/// The part of the thread that comes next, with this row: the first one leads, and the others help until the run is over.
fn take_part<R: Wait, G: Gate>(
    rt: &R,
    hall: &Hall,
    domains: u8,
    gate: &G,
    progress: &Progress,
    pulse: &Pulse,
    seats: &mut [HallSeat],
)
    requires { IsRow hall.now domains seats.old }
    ensures { IsRow hall.now domains seats.new }
{
    let number = pulse.came_before();
    if number == 0 {
        lead(rt, hall, domains, gate, progress, pulse, seats);
        return;
    }
    let own = 1u64 << (number % 16);
    for _ in rt.forever() {
        if !pulse.wait_for_pool(rt) {
            return;
        }
        serve_open(rt, hall, domains, gate, pulse, own, seats);
    }
}

/// How many rows so wide there are for these threads, where there is room for so many seats.
fn rows_for(threads: usize, room: usize, wide: usize) -> usize
    requires wide { (0 < wide) × (wide ≤ 65) }
    ensures fit { result * wide ≤ room }
    ensures few { result * wide ≤ 975 }
{
    threads.min(MOST_ROWS).min(room / wide)
}

/// Splits so many seats from this one, which has more parts than that, into an empty list with room for them.
fn split_rows(hall: &Hall, seat: &mut HallSeat, count: usize, seats: &mut Vec<HallSeat>)
    requires of { IsOf hall.now seat.old }
    requires few { count < shares_in seat.old }
    requires empty { seats.old.items ≡ [] }
    requires room { count ≤ vec_capacity seats.old }
    ensures of { IsOf hall.now seat.new }
    ensures left { shares_in seat.new + count ≡ shares_in seat.old }
    ensures hands { All (IsHand hall.now) seats.new.items }
    ensures count { length seats.new.items ≡ count }
{
    for _ in 0..count {
        seats.push_reserved(hall.split(seat));
    }
}

/// Goes through the run by threads that stay, as many as asked for and as there is room for seats of theirs, until it is over or the book is full. The
/// seat and the workers have all of the hall's parts but a few. Who goes along with the run learns from `progress` how far it is.
pub fn run_crew<R: Threads + Wait + Sync, G: Gate + Sync>(
    rt: &R,
    hall: &Hall,
    domains: u8,
    threads: usize,
    gate: &G,
    progress: &Progress,
    seat: &mut HallSeat,
    workers: &mut Vec<HallSeat>,
)
    requires crew { AreCrew hall.now seat.old workers.old.items }
    requires domains { domains ≡ length hall.now.opened.input.config.domains }
    ensures of { IsOf hall.now seat.new }
    ensures each { All (IsOf hall.now) workers.new.items }
    ensures shares { shares_in seat.new + shares_of workers.new.items
        ≡ shares_in seat.old + shares_of workers.old.items }
{
    let wide = workers.len() + 1;
    take_in(hall, seat, workers);
    let rows = rows_for(threads, workers.capacity(), wide);
    split_rows(hall, seat, rows * wide, workers);
    run_rows(
        rt,
        hall,
        domains,
        gate,
        progress,
        wide,
        workers.as_mut_slice(),
    );
}

/// The same by a thread for each row of so many seats.
fn run_rows<R: Threads + Wait + Sync, G: Gate + Sync>(
    rt: &R,
    hall: &Hall,
    domains: u8,
    gate: &G,
    progress: &Progress,
    wide: usize,
    seats: &mut [HallSeat],
)
    requires wide { IsWide hall.now domains wide }
    requires rows { length seats.old % wide ≡ 0 }
    requires hands { All (IsHand hall.now) seats.old }
    ensures { All (IsHand hall.now) seats.new }
{
    let pulse = Pulse::new();
    let shared = &pulse;
    thread::for_each_chunk_mut(
        rt,
        seats,
        wide,
        &|_start, row|
            requires { IsRow hall.now domains row.now }
            ensures { IsRow hall.entry.now domains row.exit.now }
        { take_part(rt, hall, domains, gate, progress, shared, row) },
    );
}
