//! An entry of the whole machine, while a seat has all its parts and the book.

ghost use Rattle.std.specs.Prelude.{◌≡◌, ◌<◌, ℕ, true, false, None, Some, length};
ghost use Rattle.std.specs.Option.{ForSome};
ghost use Rattle.sched_model.specs.declared.action.Action.TheVariants as actions;
ghost use Rattle.sched_model.specs.declared.event.Event.TheVariants as events;
ghost use Rattle.sched_model.specs.Machine.{first_enabled_action, is_action_enabled, next_in_horizon};
ghost use Rattle.machine_parts.specs.Places.{GoesOn, state_of};
ghost use Rattle.machine_parts.specs.Told.{told_of};
ghost use Rattle.lock_moves.specs.Plays.{Current};
ghost use Rattle.lock_moves.specs.Sets.{sitting_with};
ghost use Rattle.lock_moves.specs.SeatSight.{Holds, find_lock};
ghost use Rattle.cpupool.specs.Tool.{tool_of};
ghost use Rattle.hall.specs.SeatKnowledge.{KnowsAll};
ghost use Rattle.hall.specs.Moves.{HandsName, HandsNameOver, MayHand, after_handing, lock_or_tool};
ghost use Rattle.hall.specs.Steps.{HasActed, HasBook, HasEntered, KeepsLocks, KeepsLocksAt, MayAct};
ghost use Rattle.lock_moves.specs.Words.{book_lock};

use crate::all::AllParts;
use crate::book::add_and_put_back;
use crate::pools::perform_at;
use crate::value::PartState;
use cpupool::{Move, ToolState};
use lock_moves::{HeldBook, LockId, LockSeat, LockSet, NameId, TOOL};
use machine_parts::{Trail, pool_of_event};
use sched_base::{DomId, Moment, PoolId, ResId};
use sched_model::action::Action;
use sched_model::event::{Entry, Event};
use tool_actions::act_of_tool;

/// A name that goes from one lock to another.
#[derive(Clone, Copy)]
pub(crate) struct NameMove {
    pub name: NameId,
    pub from: LockId,
    pub to: LockId,
}

/// The number of the pool's lock, or the tool's where there is none.
fn lock_of(pool: Option<PoolId>) -> LockId
    ensures { result.0 ≡ lock_or_tool pool }
{
    match pool {
        Some(i) => LockId(i.0),
        None => TOOL,
    }
}

/// The core that moves goes from the lock of its pool, or the tool's, to that of the pool where it is to be, or the tool's.
fn core_move(tool: &ToolState, trail: &Trail, r: ResId) -> NameMove
    requires goes { GoesOn trail.now }
    requires known { tool_of trail.now.input (state_of trail.now) ≡ tool.now }
    requires enabled { is_action_enabled trail.now.input (state_of trail.now)
        (state_of trail.now).now (actions.Moved r) ≡ true }
    ensures { HandsNameOver trail.now (actions.Moved r) result }
{
    let Some(Move::Res { to, .. }) = tool.moving() else {
        unreachable!();
    };
    let from = lock_of(tool.home_of_core(r));
    let to = lock_of(to);
    NameMove {
        name: NameId::Res(r),
        from,
        to,
    }
}

/// The domain that moves goes from the lock of its pool to that of the other pool.
fn domain_move(tool: &ToolState, trail: &Trail, d: DomId) -> NameMove
    requires goes { GoesOn trail.now }
    requires known { tool_of trail.now.input (state_of trail.now) ≡ tool.now }
    requires enabled { is_action_enabled trail.now.input (state_of trail.now)
        (state_of trail.now).now (actions.DomMoved d) ≡ true }
    ensures { HandsNameOver trail.now (actions.DomMoved d) result }
{
    let Some(Move::Dom { to, .. }) = tool.moving() else {
        unreachable!();
    };
    let from = lock_of(tool.home_of_domain(d));
    NameMove {
        name: NameId::Dom(d),
        from,
        to: LockId(to.0),
    }
}

/// Which name an action hands over, from which lock to which: that of the core or the domain that moves. None of every other action.
fn name_move(tool: &ToolState, trail: &Trail, action: Action) -> Option<NameMove>
    requires goes { GoesOn trail.now }
    requires known { tool_of trail.now.input (state_of trail.now) ≡ tool.now }
    requires enabled { is_action_enabled trail.now.input (state_of trail.now)
        (state_of trail.now).now action ≡ true }
    ensures { HandsName trail.now action result }
{
    match action {
        Action::Moved(r) => Some(core_move(tool, trail, r)),
        Action::DomMoved(d) => Some(domain_move(tool, trail, d)),
        _ => None,
    }
}

/// Moves the name, if one moves. The values that have it are the caller's.
fn hand_over(set: &LockSet<PartState>, seat: &mut LockSeat, moved: Option<NameMove>)
    requires set { seat.old.table ≡ set.now.table }
    requires book { Holds book_lock seat.old.view }
    requires may { ForSome moved (MayHand seat.old.view) }
    ensures { seat.new ≡ sitting_with seat.old (after_handing moved seat.old.view) }
{
    if let Some(it) = moved {
        set.rename(seat, it.name, it.from, it.to);
    }
}

/// Does an action that may come now, where no stall may come before a command, and adds its entry to the book, which goes back.
pub(crate) fn perform(
    set: &LockSet<PartState>,
    granularity: u8,
    seat: &mut LockSeat,
    book: HeldBook,
    all: &mut AllParts,
    action: Action,
    t: Moment,
) -> Event
    requires may { MayAct set.now book seat.old action t }
    requires granularity { granularity ≡ book.input.config.granularity }
    requires knows { KnowsAll all.old seat.old.view }
    requires first { action ≡ actions.Xl →
        is_action_enabled book.input (state_of (told_of book)) (state_of (told_of book)).now
        actions.Stall ≡ false }
    ensures acted { HasActed book action t result seat.old seat.new }
    ensures knows { KnowsAll all.new seat.new.view }
    ensures book { find_lock book_lock seat.new.view.held ≡ None }
{
    match pool_of_event(&all.tool.tool, granularity, action) {
        Some(i) => perform_at(
            set,
            seat,
            book,
            &mut all.slots.as_mut_slice()[usize::from(i.0)],
            i.0,
            action,
            t,
        ),
        None => {
            let trail = Trail::of(book.get());
            let moved = name_move(&all.tool.tool, &trail, action);
            let kept = &mut *all.tool;
            let event = act_of_tool(
                all.slots.as_mut_slice(),
                &mut kept.tool,
                &mut kept.spares,
                &trail,
                granularity,
                action,
                t,
            );
            hand_over(set, seat, moved);
            add_and_put_back(set, seat, book, Entry { at: t, event });
            event
        }
    }
}

/// Ends the moment t, at which nothing more may come: the moment word is set to the next one, the entry of the end is added to the book, and
/// the book goes back. The seat holds all locks. No part changes.
pub(crate) fn end_moment(
    set: &LockSet<PartState>,
    seat: &mut LockSeat,
    book: HeldBook,
    t: Moment,
    next: Moment,
)
    requires has { HasBook set.now book seat.old }
    requires current { Current seat.old.view }
    requires goes { GoesOn (told_of book) }
    requires room { length book.history < book.limit }
    requires now { t.0 ≡ seat.old.view.now }
    requires all { (k : ℕ) → k < book_lock → Holds k seat.old.view }
    requires nothing { first_enabled_action book.input (state_of (told_of book))
        (state_of (told_of book)).now ≡ None }
    requires next { next_in_horizon book.input (state_of (told_of book)) ≡ Some next.0 }
    ensures entered { HasEntered book (record { at = t; event = events.End next }) seat.old
        seat.new }
    ensures locks { KeepsLocksAt next.0 seat.old.view seat.new.view }
{
    set.set_now(seat, next);
    add_and_put_back(
        set,
        seat,
        book,
        Entry {
            at: t,
            event: Event::End { next },
        },
    );
}

/// Ends the run at the moment t, where nothing may come now or at a later moment up to the horizon, and puts the book back. No part changes.
pub(crate) fn finish(set: &LockSet<PartState>, seat: &mut LockSeat, book: HeldBook, t: Moment)
    requires has { HasBook set.now book seat.old }
    requires current { Current seat.old.view }
    requires goes { GoesOn (told_of book) }
    requires room { length book.history < book.limit }
    requires now { t.0 ≡ seat.old.view.now }
    requires nothing { first_enabled_action book.input (state_of (told_of book))
        (state_of (told_of book)).now ≡ None }
    requires last { next_in_horizon book.input (state_of (told_of book)) ≡ None }
    ensures entered { HasEntered book (record { at = t; event = events.Finish }) seat.old seat.new }
    ensures locks { KeepsLocks seat.old.view seat.new.view }
{
    add_and_put_back(
        set,
        seat,
        book,
        Entry {
            at: t,
            event: Event::Finish,
        },
    );
}
