//! The least moment from which on an action may come, by one scan of the state.

ghost use Rattle.std.specs.Prelude.{◌≡◌, ℕ, ◌+◌, ◌<◌, ◌≤◌, ◌^◌, length};
ghost use Rattle.std.specs.Option.{ForSome};
ghost use Rattle.sched_model.specs.Places.{numbered_items};
ghost use Rattle.sched_laws.specs.EachPlace.{EachPlace};
ghost use Rattle.plain_pool.specs.Ready.{AreWhole, IsLeastWith, ScanFits, lesser_moment};
ghost use Rattle.sched_plain.specs.Fits.{StateFits};
ghost use Rattle.sched_plain.specs.ReachedStates.{Stands};
ghost use Rattle.sched_plain.specs.Soonest.{IsReadyAmong, IsReadyAt, IsSoonest, IsTurn, command_ready, first_of, free_core_moment, least_of_free, next_stall_moment};

use crate::homes::is_move_under_way;
use plain_pool::ready::{end_if, least_ready, lesser};
use run_laws::laws::{law_enabled_stays, law_next_moment};
use sched_base::Moment;
use sched_model::machine::Machine;
use sched_model::state::{FreeCore, Pool, State};

/// From when on the next stall may come.
fn stall_ready(machine: &Machine, state: &State) -> Option<Moment>
    ensures { result ≡ next_stall_moment machine.now state.entry.now }
{
    match machine
        .work
        .stalls
        .as_slice()
        .get(state.next_stall as usize)
    {
        None => None,
        Some(line) => Some(line.at),
    }
}

/// The least so far, or from when on the next command may come. Whether a move is under way is asked only where the command's moment
/// comes before the least so far.
fn of_command(best: u64, machine: &Machine, state: &State) -> u64
    requires { StateFits state.now }
    ensures { result ≡ lesser_moment best (command_ready machine.now state.entry.now) }
{
    match machine
        .work
        .commands
        .as_slice()
        .get(state.next_command as usize)
    {
        None => best,
        Some(line) => {
            if best <= line.at.0 {
                best
            } else {
                lesser(best, end_if(!is_move_under_way(state), Some(line.at)))
            }
        }
    }
}

/// The end of the stall of the first processor.
fn first_end(ends: &[Moment]) -> Option<Moment>
    ensures { result ≡ first_of ends.now }
{
    match ends {
        [] => None,
        [end, ..] => Some(*end),
    }
}

/// From when on the core of no pool may move to the pool to which it is leaving.
fn free_end(core: &FreeCore) -> Option<Moment>
    ensures { result ≡ free_core_moment core.now }
{
    end_if(core.target.is_some(), first_end(core.stall_ends.as_slice()))
}

/// The least so far, or from when on one of these cores of no pool may move. The first of them has the number r.
fn of_free(r: usize, best: u64, cores: &[Option<FreeCore>]) -> u64
    requires { r + length cores.now < 2 ^ 64 }
    ensures { result ≡ least_of_free best (numbered_items r cores.now) }
{
    match cores {
        [] => best,
        [None, rest @ ..] => of_free(r + 1, best, rest),
        [Some(c), rest @ ..] => of_free(r + 1, lesser(best, free_end(c)), rest),
    }
}

/// The least so far, or from when on something of the pool that stands there may come, where one does.
fn of_pool(best: u64, place: &Option<Pool>) -> u64
    requires { ForSome place.now ScanFits }
    ensures { (g : ℕ) → ForSome place.now (AreWhole g) →
        IsLeastWith best (IsReadyAt g place.now) result }
{
    match place {
        None => best,
        Some(pool) => least_ready(best, pool),
    }
}

/// The same of each of these places.
fn of_pools(best: u64, pools: &[Option<Pool>]) -> u64
    requires { EachPlace ScanFits pools.now }
    ensures { (g : ℕ) → EachPlace (AreWhole g) pools.now →
        IsLeastWith best (IsReadyAmong g pools.now) result }
{
    match pools {
        [] => best,
        [place, rest @ ..] => of_pools(of_pool(best, place), rest),
    }
}

/// The least moment from which on an action may come, and the greatest number that a moment may have where there is none.
fn soonest(machine: &Machine, state: &State) -> u64
    requires { Stands machine.now state.now }
    ensures { IsSoonest machine.now state.entry.now result }
{
    let lines = of_command(
        lesser(u64::MAX, stall_ready(machine, state)),
        machine,
        state,
    );
    let free = of_free(0, lines, state.free.as_slice());
    of_pools(free, state.pools.as_slice())
}

/// From when on an action may come, where that is at most the horizon: a moment that has come exactly where something may come now, and else
/// the next moment. `None` where nothing may come any more within the horizon.
pub fn next_turn(machine: &Machine, state: &State) -> Option<Moment>
    requires { Stands machine.now state.now }
    ensures { IsTurn machine.now state.entry.now result }
{
    law_enabled_stays();
    law_next_moment();
    let at = soonest(machine, state);
    if at <= machine.config.horizon.0 {
        Some(Moment(at))
    } else {
        None
    }
}
