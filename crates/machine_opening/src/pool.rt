//! A pool at its opening, and one that is not in use.

ghost use Rattle.std.specs.Prelude.{◌≡◌, ◌+◌, Some, true, IfOk, length, slice_get};
ghost use Rattle.sched_model.specs.CheckedMachine.{IsCheckedConfig};
ghost use Rattle.sched_model.specs.declared.work.Work.{Work};
ghost use Rattle.sched_model.specs.Opening.{machine_core_count, opening};
ghost use Rattle.sched_model.specs.Places.{at_place};
ghost use Rattle.sched_model.specs.Policy.{standard_pool_params, records_kind};
ghost use Rattle.sched_ops.specs.Conditions.{is_vacant};
ghost use Rattle.unit_state.specs.Guests.{units_in, most_units};
ghost use Rattle.pool_core.specs.Seen.{vacant_pool};
ghost use Rattle.machine_opening.specs.OpeningPool.{kinds_of, opening_seen};

use crate::cores::attach_all;
use crate::domains::join_all;
use pool_core::pool::PoolState;
use pool_records::opening::core_count;
use sched_base::NoMemory;
use sched_model::config::{Config, PoolConfig};
use sched_ops::{Places, Policy};
use std::alloc::Global;

/// The most units that a machine has.
const MOST_UNITS: usize = 256;

/// How many domains and cores the machine has.
fn places_of(config: &Config) -> Places
    requires { IsCheckedConfig config.now }
    ensures domains { result.domains ≡ length config.now.domains }
    ensures cores { result.cores ≡ machine_core_count config.now }
{
    Places {
        domains: config.domains.len() as u8,
        cores: core_count(config),
    }
}

/// This pool with its cores and its domains.
fn open_home<P: Policy>(
    alloc: Global,
    config: &Config,
    place: u8,
    home: &PoolConfig,
    policy: P,
) -> Result<PoolState<P>, NoMemory>
    requires config { IsCheckedConfig config.now }
    requires home { slice_get config.now.pools place ≡ Some home.now }
    requires kind { records_kind (P.seen policy).scheduler.records ≡ home.now.kind }
    requires vacant { is_vacant (P.seen policy).scheduler ≡ true }
    requires early { (P.seen policy).latest ≡ 0 }
    ensures seen { IfOk result (λ opened. opened ≡ opening_seen config.now place home.now) }
    ensures pool { IfOk result (λ opened. (work : Work) →
        at_place (opening (record { config = config.now; work = work })).pools place
        ≡ Some opened.pool) }
    ensures room { IfOk result (λ opened. units_in opened.granularity opened.pool.domains +
        opened.spare ≡ most_units) }
{
    let g = config.granularity;
    let places = places_of(config);
    let mut pool = PoolState::room(alloc, g, places, MOST_UNITS, policy)?;
    pool.open(&home.params);
    attach_all(home.cores, g, places.cores, &mut pool);
    match join_all(alloc, config, place, home, &mut pool) {
        Ok(()) => Ok(pool),
        Err(full) => {
            drop(pool);
            Err(full)
        }
    }
}

/// This pool of a machine, of the policy's scheduler: the one that stands at the machine's opening, at 0. The policy has no domain yet.
/// Units of domains that come later have the room that those here leave of 256.
pub fn opened<P: Policy>(
    alloc: Global,
    config: &Config,
    place: u8,
    policy: P,
) -> Result<PoolState<P>, NoMemory>
    requires config { IsCheckedConfig config.now }
    requires kind { slice_get (kinds_of config.now) place
        ≡ Some (records_kind (P.seen policy).scheduler.records) }
    requires vacant { is_vacant (P.seen policy).scheduler ≡ true }
    requires early { (P.seen policy).latest ≡ 0 }
    ensures pool { IfOk result (λ opened. (work : Work) →
        at_place (opening (record { config = config.now; work = work })).pools place
        ≡ Some opened.pool) }
    ensures granularity { IfOk result (λ opened. opened.granularity ≡ config.now.granularity) }
    ensures spare { IfOk result (λ opened. units_in opened.granularity opened.pool.domains +
        opened.spare ≡ most_units) }
    ensures latest { IfOk result (λ opened. opened.latest ≡ 0) }
    ensures used { IfOk result (λ opened. opened.in_use ≡ true) }
{
    match config.pools.as_slice().get(usize::from(place)) {
        Some(home) => open_home(alloc, config, place, home, policy),
        None => unreachable!(),
    }
}

/// A pool of the policy's scheduler that is not in use, with all the memory of a run: what a command that makes a pool opens. It has the
/// machine's places for domains and cores, none of which is taken, room for 256 units, and default parameters.
pub fn spare<P: Policy>(alloc: Global, config: &Config, policy: P) -> Result<PoolState<P>, NoMemory>
    requires config { IsCheckedConfig config.now }
    requires vacant { is_vacant (P.seen policy).scheduler ≡ true }
    requires early { (P.seen policy).latest ≡ 0 }
    ensures { IfOk result (λ spare. spare
        ≡ vacant_pool (standard_pool_params (records_kind (P.seen policy).scheduler.records))
        config.now.granularity (length config.now.domains) (machine_core_count config.now)
        most_units) }
{
    let places = places_of(config);
    PoolState::room(alloc, config.granularity, places, MOST_UNITS, policy)
}
