//! Two seats that take turns, call by call.

ghost use Rattle.std.specs.Prelude.{◌≡◌};
ghost use Rattle.hall.specs.Seats.{IsOf};
ghost use Rattle.machine_trials.specs.TrialSeats.{AreActors};

use crate::answers::{put_acted, put_done, put_found, put_turn, put_waits};
use crate::counting::CountingGate;
use crate::numbering::Actors;
use crate::seats::{split_off, take_in};
use crate::stop::Stop;
use hall::{Hall, HallSeat};
use journal_core::Book;
use sched_base::{DomId, ProcId};
use sched_model::action::Actor;
use std::io;
use std::sync::Wait;

/// What a seat is to do.
#[derive(Clone, Copy)]
enum Call {
    Act(Actor),
    ActPool(Actor),
    Close,
    Waits(ProcId),
    Entry(u32),
}

/// The call that a word names for the processor or the domain with this number.
fn call_for(word: &str, number: u8) -> Option<Call> {
    match word {
        "proc" => Some(Call::Act(Actor::Proc(ProcId(number)))),
        "dom" => Some(Call::Act(Actor::Dom(DomId(number)))),
        "pool-proc" => Some(Call::ActPool(Actor::Proc(ProcId(number)))),
        "pool-dom" => Some(Call::ActPool(Actor::Dom(DomId(number)))),
        "waits" => Some(Call::Waits(ProcId(number))),
        _ => None,
    }
}

/// The call that the text names.
fn read_call(text: &str) -> Option<Call> {
    let (word, number) = text.split_once(' ').unwrap_or((text, ""));
    match word {
        "tool" => Some(Call::Act(Actor::Tool)),
        "close" => Some(Call::Close),
        "entry" => Some(Call::Entry(number.parse().ok()?)),
        _ => call_for(word, number.parse().ok()?),
    }
}

/// Acts for the actor, where the machine has it, and prints the answer.
fn act<R: Wait + Print>(
    rt: &R,
    hall: &Hall,
    actors: Actors,
    seat: &mut HallSeat,
    actor: Actor,
    gate: &CountingGate,
) -> io::Result<()>
    requires of { IsOf hall.now seat.old }
    requires actors { AreActors hall.now.opened.input.config actors }
    ensures of { IsOf hall.now seat.new }
    ensures parts { seat.new.sitting.view.shares ≡ seat.old.sitting.view.shares }
{
    if actors.has(actor) {
        put_done(rt, hall.act(rt, seat, actor, gate))
    } else {
        print!(rt; "no actor")
    }
}

/// Does all that the pool of the actor, a processor or a domain, may do now, where the machine has the actor, and prints the answer.
fn act_pool<R: Wait + Print>(
    rt: &R,
    hall: &Hall,
    actors: Actors,
    seat: &mut HallSeat,
    actor: Actor,
    gate: &CountingGate,
) -> io::Result<()>
    requires of { IsOf hall.now seat.old }
    requires actors { AreActors hall.now.opened.input.config actors }
    ensures of { IsOf hall.now seat.new }
    ensures parts { seat.new.sitting.view.shares ≡ seat.old.sitting.view.shares }
{
    match actor {
        Actor::Proc(_) | Actor::Dom(_) if actors.has(actor) => {
            put_acted(rt, hall.act_pool(rt, seat, actor, gate))
        }
        _ => print!(rt; "no actor"),
    }
}

/// Does the call that the text names, and prints the answer.
fn make_call<R: Wait + Print>(
    rt: &R,
    hall: &Hall,
    actors: Actors,
    seat: &mut HallSeat,
    text: &str,
    gate: &CountingGate,
) -> io::Result<()>
    requires of { IsOf hall.now seat.old }
    requires actors { AreActors hall.now.opened.input.config actors }
    ensures of { IsOf hall.now seat.new }
    ensures parts { seat.new.sitting.view.shares ≡ seat.old.sitting.view.shares }
{
    match read_call(text) {
        Some(Call::Act(actor)) => act(rt, hall, actors, seat, actor, gate),
        Some(Call::ActPool(actor)) => act_pool(rt, hall, actors, seat, actor, gate),
        Some(Call::Close) => put_turn(rt, hall.close_or_step(rt, seat)),
        Some(Call::Waits(p)) => put_waits(rt, hall.still_waits(seat, p)),
        Some(Call::Entry(i)) => put_found(rt, hall.entry(rt, seat, i)),
        None => print!(rt; "no call"),
    }
}

/// Does the call of a text, which names the seat first, `A` or `B`.
fn call_by_name<R: Wait + Print>(
    rt: &R,
    hall: &Hall,
    actors: Actors,
    a: &mut HallSeat,
    b: &mut HallSeat,
    text: &str,
    gate: &CountingGate,
) -> io::Result<()>
    requires a { IsOf hall.now a.old }
    requires b { IsOf hall.now b.old }
    requires actors { AreActors hall.now.opened.input.config actors }
    ensures a { IsOf hall.now a.new }
    ensures b { IsOf hall.now b.new }
    ensures parts_of_a { a.new.sitting.view.shares ≡ a.old.sitting.view.shares }
    ensures parts_of_b { b.new.sitting.view.shares ≡ b.old.sitting.view.shares }
{
    match text.split_once(' ') {
        Some((seat, text)) if seat == "A" => make_call(rt, hall, actors, a, text, gate),
        Some((seat, text)) if seat == "B" => make_call(rt, hall, actors, b, text, gate),
        _ => print!(rt; "no seat"),
    }
}

/// Prints the text of a call, does it, and prints its answer, and how often the gate was passed so far, and by which number last.
fn tell_call<R: Wait + Print>(
    rt: &R,
    hall: &Hall,
    actors: Actors,
    a: &mut HallSeat,
    b: &mut HallSeat,
    text: &str,
    gate: &CountingGate,
) -> io::Result<()>
    requires a { IsOf hall.now a.old }
    requires b { IsOf hall.now b.old }
    requires actors { AreActors hall.now.opened.input.config actors }
    ensures a { IsOf hall.now a.new }
    ensures b { IsOf hall.now b.new }
    ensures parts_of_a { a.new.sitting.view.shares ≡ a.old.sitting.view.shares }
    ensures parts_of_b { b.new.sitting.view.shares ≡ b.old.sitting.view.shares }
{
    print!(rt; "{text} -> ")?;
    call_by_name(rt, hall, actors, a, b, text, gate)?;
    println!(rt; "; gate {} by {}", gate.passes(), gate.last())
}

/// Does all calls, whose texts stand between commas.
fn tell_calls<R: Wait + Print>(
    rt: &R,
    hall: &Hall,
    actors: Actors,
    a: &mut HallSeat,
    b: &mut HallSeat,
    texts: &str,
    gate: &CountingGate,
) -> io::Result<()>
    requires a { IsOf hall.now a.old }
    requires b { IsOf hall.now b.old }
    requires actors { AreActors hall.now.opened.input.config actors }
    ensures a { IsOf hall.now a.new }
    ensures b { IsOf hall.now b.new }
    ensures parts_of_a { a.new.sitting.view.shares ≡ a.old.sitting.view.shares }
    ensures parts_of_b { b.new.sitting.view.shares ≡ b.old.sitting.view.shares }
{
    for text in texts.split(',') {
        tell_call(rt, hall, actors, a, b, text.trim_ascii_start(), gate)?;
    }
    Ok(())
}

/// Does all calls by the first seat, `A`, and a second one, `B`, and answers the book.
pub fn run_calls<R: Wait + Print>(
    rt: &R,
    hall: Hall,
    seat: HallSeat,
    actors: Actors,
    texts: &str,
) -> Result<Book, Stop>
    requires of { IsOf hall seat }
    requires all { seat.sitting.view.shares ≡ 1024 }
    requires actors { AreActors hall.opened.input.config actors }
{
    let mut a = seat;
    let mut b = split_off(&hall, &mut a);
    let gate = CountingGate::new();
    let told = tell_calls(rt, &hall, actors, &mut a, &mut b, texts, &gate);
    take_in(&hall, &mut a, b);
    let book = hall.end(a);
    match told {
        Ok(()) => Ok(book),
        Err(_) => {
            drop(book);
            Err(Stop::WriteFault)
        }
    }
}
