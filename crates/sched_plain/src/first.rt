//! Whether an event that may come is the first of the whole machine: by what is known of each core and each domain, of which only those are judged
//! anew of which too little is known.

ghost use Rattle.std.specs.Prelude.{◌≡◌, ℕ, ◌+◌, ◌<◌, ◌≤◌, true, false, Some, length};
ghost use Rattle.sched_model.specs.Places.{at_place};
ghost use Rattle.sched_model.specs.declared.state.FreeCore.{FreeCore as FreeCoreRecord};
ghost use Rattle.sched_model.specs.Machine.{first_enabled_action, is_action_enabled, is_free_core_ready};
ghost use Rattle.pool_laws.specs.Order.{kind_place};
ghost use Rattle.sched_plain.specs.KeptFloors.{AreAsked, AreBehind, IsCoreFloorAmong, IsDomainFloorAmong, IsFirstAtHome, IsToolQuiet, SameBefore, core_number, domain_number, floor_at, least_kind};
ghost use Rattle.sched_plain.specs.Outlooks.{AreLater, IsCoreAwaited, IsDomainAwaited, IsSeen, IsSeenIf, IsStill};
ghost use Rattle.pool_records.specs.Fits.{PoolFits};
ghost use Rattle.sched_plain.specs.PoolFloors.{IsCoreFloor, IsDomainFloor};
ghost use Rattle.sched_plain.specs.ReachedStates.{Stands};

use crate::enabled::{command_due, free_ready, is_enabled, stall_due};
use crate::floors::{Outlook, Waits, nothing_known};
use crate::homes::{home_of, home_of_core, home_of_domain, pool_at};
use crate::pool_floors::{core_floor, domain_floor, is_first_sibling};
use crate::scan::first_enabled;
use crate::waits::{core_wait, domain_wait};
use sched_base::{DomId, Moment, ResId};
use sched_model::action::Action;
use sched_model::machine::Machine;
use sched_model::state::{FreeCore, Pool, State};

/// The earliest kind of the core's events that may come at t in the pool, and what it waits for from now on.
fn judge_core(waits: &mut Waits, granularity: u8, t: Moment, pool: &Pool, r: ResId) -> u8
    requires some { 0 < granularity }
    requires few { granularity ≤ 4 }
    requires inside { r.0 < 64 }
    requires fits { PoolFits pool.now }
    ensures waits { IsCoreAwaited granularity pool.now r.0 waits.old waits.new }
    ensures floor { IsCoreFloor granularity t.0 pool.now r.0 result }
{
    let wait = core_wait(pool, r);
    waits.cores[r.0 as usize] = wait;
    if t.0 < wait {
        13
    } else {
        core_floor(granularity, t, pool, r)
    }
}

/// The earliest kind of the core's events that may come now in a pool. It is judged only where its wait is over.
fn core_floor_now(waits: &mut Waits, machine: &Machine, state: &State, r: u8) -> u8
    requires stands { Stands machine.now state.now }
    requires waits { AreLater machine.now.config.granularity state.now.pools waits.old }
    requires inside { r < 64 }
    ensures waits { AreLater machine.now.config.granularity state.entry.now.pools waits.new }
    ensures floor { IsCoreFloorAmong machine.now.config.granularity state.entry.now.now state.entry.now.pools r result }
{
    if state.now < waits.cores[r as usize] {
        return 13;
    }
    match home_of_core(state, ResId(r)) {
        None => {
            waits.cores[r as usize] = u64::MAX;
            13
        }
        Some(i) => match pool_at(state, i) {
            None => 13,
            Some(pool) => judge_core(
                waits,
                machine.config.granularity,
                Moment(state.now),
                pool,
                ResId(r),
            ),
        },
    }
}

/// The earliest kind of the domain's events that may come at t in the pool, and what it waits for from now on.
fn judge_domain(waits: &mut Waits, granularity: u8, t: Moment, pool: &Pool, d: DomId) -> u8
    requires some { 0 < granularity }
    requires inside { d.0 < 64 }
    requires fits { PoolFits pool.now }
    ensures waits { IsDomainAwaited granularity pool.now d.0 waits.old waits.new }
    ensures floor { IsDomainFloor granularity t.0 pool.now d.0 result }
{
    let wait = domain_wait(t, pool, d);
    waits.domains[d.0 as usize] = wait;
    if t.0 < wait {
        13
    } else {
        domain_floor(granularity, t, pool, d)
    }
}

/// The earliest kind of the domain's events that may come now in a pool. It is judged only where its wait is over.
fn domain_floor_now(waits: &mut Waits, machine: &Machine, state: &State, d: u8) -> u8
    requires stands { Stands machine.now state.now }
    requires waits { AreLater machine.now.config.granularity state.now.pools waits.old }
    requires inside { d < 64 }
    ensures waits { AreLater machine.now.config.granularity state.entry.now.pools waits.new }
    ensures floor { IsDomainFloorAmong machine.now.config.granularity state.entry.now.now state.entry.now.pools d result }
{
    if state.now < waits.domains[d as usize] {
        return 13;
    }
    match home_of_domain(state, DomId(d)) {
        None => {
            waits.domains[d as usize] = u64::MAX;
            13
        }
        Some(i) => match pool_at(state, i) {
            None => 13,
            Some(pool) => judge_domain(
                waits,
                machine.config.granularity,
                Moment(state.now),
                pool,
                DomId(d),
            ),
        },
    }
}

/// The kind that is asked for at a number, where an event of this kind and number is to be the first: a later one at lesser numbers.
fn asked_kind(kind: u8, own: u8, n: u8) -> u8
    requires { kind < 13 }
    ensures { result ≡ least_kind kind own n }
{
    if n < own { kind + 1 } else { kind }
}

/// Whether none of the core's events that may come now is of an earlier kind than this one. A core of which too little is known is judged anew.
fn is_core_behind(outlook: &mut Outlook, machine: &Machine, state: &State, asked: u8, r: u8) -> bool
    requires stands { Stands machine.now state.now }
    requires seen { IsSeen machine.now state.now outlook.old }
    requires inside { r < 64 }
    ensures seen { IsSeen machine.now state.entry.now outlook.new }
    ensures others { outlook.new.floors.domains ≡ outlook.old.floors.domains }
    ensures before { SameBefore r outlook.old.floors.cores outlook.new.floors.cores }
    ensures enough { result ≡ true → asked ≤ floor_at outlook.new.floors.cores r }
{
    if asked <= outlook.floors.cores[r as usize] {
        return true;
    }
    let found = core_floor_now(&mut outlook.waits, machine, state, r);
    outlook.floors.cores[r as usize] = found;
    asked <= found
}

/// Whether no core from this number on has an event that comes before one of this kind and core.
fn cores_behind(
    outlook: &mut Outlook,
    machine: &Machine,
    state: &State,
    kind: u8,
    own: u8,
    r: u8,
) -> bool
    requires stands { Stands machine.now state.now }
    requires seen { IsSeen machine.now state.now outlook.old }
    requires kind { kind < 13 }
    requires inside { r ≤ 64 }
    ensures seen { IsSeen machine.now state.entry.now outlook.new }
    ensures others { outlook.new.floors.domains ≡ outlook.old.floors.domains }
    ensures before { SameBefore r outlook.old.floors.cores outlook.new.floors.cores }
    ensures behind { result ≡ true → AreBehind kind own r outlook.new.floors.cores }
{
    if r >= 64 {
        return true;
    }
    let asked = asked_kind(kind, own, r);
    is_core_behind(outlook, machine, state, asked, r)
        && cores_behind(outlook, machine, state, kind, own, r + 1)
}

/// Whether none of the domain's events that may come now is of an earlier kind than this one. A domain of which too little is known is judged anew.
fn is_domain_behind(
    outlook: &mut Outlook,
    machine: &Machine,
    state: &State,
    asked: u8,
    d: u8,
) -> bool
    requires stands { Stands machine.now state.now }
    requires seen { IsSeen machine.now state.now outlook.old }
    requires inside { d < 64 }
    ensures seen { IsSeen machine.now state.entry.now outlook.new }
    ensures others { outlook.new.floors.cores ≡ outlook.old.floors.cores }
    ensures before { SameBefore d outlook.old.floors.domains outlook.new.floors.domains }
    ensures enough { result ≡ true → asked ≤ floor_at outlook.new.floors.domains d }
{
    if asked <= outlook.floors.domains[d as usize] {
        return true;
    }
    let found = domain_floor_now(&mut outlook.waits, machine, state, d);
    outlook.floors.domains[d as usize] = found;
    asked <= found
}

/// The same of the domains from this number on.
fn domains_behind(
    outlook: &mut Outlook,
    machine: &Machine,
    state: &State,
    kind: u8,
    own: u8,
    d: u8,
) -> bool
    requires stands { Stands machine.now state.now }
    requires seen { IsSeen machine.now state.now outlook.old }
    requires kind { kind < 13 }
    requires inside { d ≤ 64 }
    ensures seen { IsSeen machine.now state.entry.now outlook.new }
    ensures others { outlook.new.floors.cores ≡ outlook.old.floors.cores }
    ensures before { SameBefore d outlook.old.floors.domains outlook.new.floors.domains }
    ensures behind { result ≡ true → AreBehind kind own d outlook.new.floors.domains }
{
    if d >= 64 {
        return true;
    }
    let asked = asked_kind(kind, own, d);
    is_domain_behind(outlook, machine, state, asked, d)
        && domains_behind(outlook, machine, state, kind, own, d + 1)
}

/// Whether something was too low before, or one of these floors is lower than what is asked at its number. The first of them has the number n. All of
/// them are gone through, many in a step.
fn is_one_low(kind: u8, own: u8, n: u8, before: bool, floors: &[u8]) -> bool
    requires kind { kind < 13 }
    requires few { n + length floors.now ≤ 64 }
    ensures before { result ≡ false → before ≡ false }
    ensures behind { result ≡ false → AreAsked kind own n floors.now }
{
    match floors {
        [] => before,
        [x, rest @ ..] => is_one_low(
            kind,
            own,
            n + 1,
            before | (*x < asked_kind(kind, own, n)),
            rest,
        ),
    }
}

/// Whether none of the floors is lower than what is asked at its number.
fn are_behind(kind: u8, own: u8, floors: &[u8; 64]) -> bool
    requires { kind < 13 }
    ensures { result ≡ true → AreBehind kind own 0 floors.now }
{
    !is_one_low(kind, own, 0, false, floors)
}

/// Whether the core with this number has no event that comes before one of this kind and core.
fn is_numbered_core_behind(
    outlook: &mut Outlook,
    machine: &Machine,
    state: &State,
    kind: u8,
    own: u8,
    number: Option<usize>,
) -> bool
    requires stands { Stands machine.now state.now }
    requires seen { IsSeen machine.now state.now outlook.old }
    requires kind { kind < 13 }
    ensures seen { IsSeen machine.now state.entry.now outlook.new }
    ensures others { outlook.new.floors.domains ≡ outlook.old.floors.domains }
{
    match number {
        None => true,
        Some(n) => {
            n >= 64
                || is_core_behind(
                    outlook,
                    machine,
                    state,
                    asked_kind(kind, own, n as u8),
                    n as u8,
                )
        }
    }
}

/// Whether the domain with this number has no event that comes before one of this kind and domain.
fn is_numbered_domain_behind(
    outlook: &mut Outlook,
    machine: &Machine,
    state: &State,
    kind: u8,
    own: u8,
    number: Option<usize>,
) -> bool
    requires stands { Stands machine.now state.now }
    requires seen { IsSeen machine.now state.now outlook.old }
    requires kind { kind < 13 }
    ensures seen { IsSeen machine.now state.entry.now outlook.new }
    ensures others { outlook.new.floors.cores ≡ outlook.old.floors.cores }
{
    match number {
        None => true,
        Some(n) => {
            n >= 64
                || is_domain_behind(
                    outlook,
                    machine,
                    state,
                    asked_kind(kind, own, n as u8),
                    n as u8,
                )
        }
    }
}

/// Whether no core has an event that comes before one of this kind and core. The core that was touched last is judged first, since mostly no more has to
/// be; all are gone through only where the floors do not tell.
fn all_cores_behind(
    outlook: &mut Outlook,
    machine: &Machine,
    state: &State,
    kind: u8,
    own: u8,
) -> bool
    requires stands { Stands machine.now state.now }
    requires seen { IsSeen machine.now state.now outlook.old }
    requires kind { kind < 13 }
    ensures seen { IsSeen machine.now state.entry.now outlook.new }
    ensures others { outlook.new.floors.domains ≡ outlook.old.floors.domains }
    ensures behind { result ≡ true → AreBehind kind own 0 outlook.new.floors.cores }
{
    let touched = outlook.core;
    is_numbered_core_behind(outlook, machine, state, kind, own, touched)
        && (are_behind(kind, own, &outlook.floors.cores)
            || cores_behind(outlook, machine, state, kind, own, 0))
}

/// The same of the domains.
fn all_domains_behind(
    outlook: &mut Outlook,
    machine: &Machine,
    state: &State,
    kind: u8,
    own: u8,
) -> bool
    requires stands { Stands machine.now state.now }
    requires seen { IsSeen machine.now state.now outlook.old }
    requires kind { kind < 13 }
    ensures seen { IsSeen machine.now state.entry.now outlook.new }
    ensures others { outlook.new.floors.cores ≡ outlook.old.floors.cores }
    ensures behind { result ≡ true → AreBehind kind own 0 outlook.new.floors.domains }
{
    let touched = outlook.domain;
    is_numbered_domain_behind(outlook, machine, state, kind, own, touched)
        && (are_behind(kind, own, &outlook.floors.domains)
            || domains_behind(outlook, machine, state, kind, own, 0))
}

/// Whether one of these cores of no pool may move at t.
fn any_free_ready(t: Moment, free: &[Option<FreeCore>]) -> bool
    ensures { result ≡ false → (r : ℕ) → (c : FreeCoreRecord) → at_place free.now r ≡ Some c → is_free_core_ready t.0 c ≡ false }
{
    match free {
        [] => false,
        [None, rest @ ..] => any_free_ready(t, rest),
        [Some(c), rest @ ..] => free_ready(t, c) || any_free_ready(t, rest),
    }
}

/// Whether the tool has something to do now, beside moves out of pools.
fn is_tool_due(machine: &Machine, state: &State) -> bool
    requires { Stands machine.now state.now }
    ensures { result ≡ false → IsToolQuiet machine.now state.entry.now }
{
    let t = Moment(state.now);
    is_enabled(machine, state, t, Action::Stall)
        || is_enabled(machine, state, t, Action::Xl)
        || any_free_ready(t, state.free.as_slice())
}

/// Whether the next stall, the next command and the cores of no pool are not due yet.
fn is_still(machine: &Machine, state: &State) -> bool
    ensures { result ≡ true → IsStill machine.now state.entry.now }
{
    let t = Moment(state.now);
    !stall_due(machine, state, t)
        && !command_due(machine, state, t)
        && !any_free_ready(t, state.free.as_slice())
}

/// Asks whether the tool is still, where that is not known, and keeps it where it is.
fn ask_still(machine: &Machine, state: &State, outlook: &mut Outlook)
    requires { IsSeen machine.now state.now outlook.old }
    ensures { IsSeen machine.now state.entry.now outlook.new }
{
    if !outlook.is_still {
        outlook.is_still = is_still(machine, state);
    }
}

/// Whether the tool has nothing to do now, beside moves out of pools.
fn is_tool_quiet(machine: &Machine, state: &State, outlook: &mut Outlook) -> bool
    requires stands { Stands machine.now state.now }
    requires seen { IsSeen machine.now state.now outlook.old }
    ensures seen { IsSeen machine.now state.entry.now outlook.new }
    ensures quiet { result ≡ true → IsToolQuiet machine.now state.entry.now }
{
    ask_still(machine, state, outlook);
    outlook.is_still || !is_tool_due(machine, state)
}

/// The place of the event's kind in the order of kinds.
fn place_of(action: Action) -> u8
    ensures place { result ≡ kind_place action }
    ensures few { result < 13 }
{
    match action {
        Action::Stall => 0,
        Action::Xl => 1,
        Action::Moved(_) => 2,
        Action::DomMoved(_) => 3,
        Action::Wake(_) => 4,
        Action::Block(_) => 5,
        Action::Slice(_) => 6,
        Action::Repl(_) => 7,
        Action::Refill(_) => 8,
        Action::Arrive(_) => 9,
        Action::Decide(_) => 10,
        Action::Leave(_) => 11,
        Action::Save(_) => 12,
    }
}

/// The number of the event's core, and 64 where it is none of a core.
fn core_of(granularity: u8, action: Action) -> u8
    requires { 0 < granularity }
    ensures { result ≡ core_number granularity action }
{
    match action {
        Action::Moved(r) => r.0,
        Action::Block(p) => p.0 / granularity,
        Action::Slice(r) => r.0,
        Action::Arrive(p) => p.0 / granularity,
        Action::Decide(r) => r.0,
        Action::Leave(p) => p.0 / granularity,
        Action::Save(r) => r.0,
        _ => 64,
    }
}

/// The number of the event's domain, and 64 where it is none of a domain.
fn domain_of(action: Action) -> u8
    ensures { result ≡ domain_number action }
{
    match action {
        Action::DomMoved(d) => d.0,
        Action::Wake(v) => v.dom.0,
        Action::Repl(u) => u.dom.0,
        Action::Refill(d) => d.0,
        _ => 64,
    }
}

/// Whether no sibling of the event's subject comes before it, in the pool of that.
fn is_first_at_home(machine: &Machine, state: &State, action: Action) -> bool
    requires { Stands machine.now state.now }
    ensures { result ≡ true → IsFirstAtHome machine.now state.entry.now action }
{
    let g = machine.config.granularity;
    match home_of(g, state, action) {
        None => false,
        Some(i) => match pool_at(state, i) {
            None => false,
            Some(pool) => is_first_sibling(g, Moment(state.now), pool, action),
        },
    }
}

/// Whether the event, which may come now, is the first that may, as far as what is kept tells.
fn comes_first(machine: &Machine, state: &State, outlook: &mut Outlook, action: Action) -> bool
    requires stands { Stands machine.now state.now }
    requires seen { IsSeen machine.now state.now outlook.old }
    requires enabled { is_action_enabled machine.now state.now state.now.now action ≡ true }
    ensures seen { IsSeen machine.now state.entry.now outlook.new }
    ensures first { result ≡ true → first_enabled_action machine.now state.entry.now state.entry.now.now ≡ Some action }
{
    let kind = place_of(action);
    let core = core_of(machine.config.granularity, action);
    let domain = domain_of(action);
    if !is_tool_quiet(machine, state, outlook) {
        return false;
    }
    if !all_cores_behind(outlook, machine, state, kind, core) {
        return false;
    }
    if !all_domains_behind(outlook, machine, state, kind, domain) {
        return false;
    }
    is_first_at_home(machine, state, action)
}

/// Whether the event, which may come now, is known to be the first that may. From the first such question on it is kept what is found out.
fn is_known_first(
    machine: &Machine,
    state: &mut State,
    outlook: &mut Option<Outlook>,
    action: Action,
) -> bool
    requires stands { Stands machine.now state.old }
    requires seen { IsSeenIf machine.now state.old outlook.old }
    requires enabled { is_action_enabled machine.now state.old state.old.now action ≡ true }
    ensures seen { IsSeenIf machine.now state.new outlook.new }
    ensures state { state.new ≡ state.old }
    ensures first { result ≡ true → first_enabled_action machine.now state.old state.old.now ≡ Some action }
{
    match outlook {
        None => {
            *outlook = Some(nothing_known());
            false
        }
        Some(kept) => comes_first(machine, state, kept, action),
    }
}

/// The first event that may come now, where this one may, and is thought to be the first.
#[inline(never)]
pub fn first_by_guess(
    machine: &Machine,
    state: &mut State,
    outlook: &mut Option<Outlook>,
    guess: Action,
) -> Option<Action>
    requires stands { Stands machine.now state.old }
    requires seen { IsSeenIf machine.now state.old outlook.old }
    requires enabled { is_action_enabled machine.now state.old state.old.now guess ≡ true }
    ensures first { result ≡ first_enabled_action machine.now state.old state.old.now }
    ensures seen { IsSeenIf machine.now state.new outlook.new }
    ensures state { state.new ≡ state.old }
{
    if is_known_first(machine, state, outlook, guess) {
        Some(guess)
    } else {
        first_enabled(machine, state, Moment(state.now))
    }
}
