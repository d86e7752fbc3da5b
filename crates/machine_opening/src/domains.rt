//! The domains of a pool come in, each with the sets of cores of its units. Those with another home are passed by.

ghost use Rattle.std.specs.Prelude.{◌≡◌, ◌≤◌, ◌<◌, ◌+◌, ◌∷◌, [], true, Some, OnOk, length, slice_get};
ghost use Rattle.sched_model.specs.CheckedMachine.{IsCheckedConfig, IsCheckedDomain};
ghost use Rattle.sched_model.specs.Opening.{pool_with_pins};
ghost use Rattle.sched_ops.specs.Conditions.{has_joined_domain};
ghost use Rattle.sched_ops.specs.Seen.{units_of};
ghost use Rattle.machine_opening.specs.OpeningPool.{IsOpening, IsStill, configured_pool, configured_if, units_at_home, units_if_home, with_all, with_pool};
ghost use Rattle.sched_model.specs.Actions.{configured_units};

use pool_core::pool::PoolState;
use pool_records::rows::fresh_vcpus;
use sched_base::{Cores, DomId, Moment, NoMemory};
use sched_model::config::{Config, DomConfig, ParamChange, PoolConfig};
use sched_model::state::Domain;
use sched_ops::Policy;
use std::alloc::Global;
use unit_state::DomPart;

/// This unit of the domain may run on these cores alone.
fn pin<P: Policy>(d: DomId, index: u8, cores: Cores, pool: &mut PoolState<P>)
    requires still { IsStill pool.old }
    requires joined { has_joined_domain pool.old.pool.scheduler d.0 ≡ true }
    requires units { index < units_of pool.old.pool.scheduler d.0 }
    ensures after { pool.new ≡ with_pool (pool_with_pins d.0 index (cores ∷ []) pool.old.pool)
        pool.old }
    ensures still { IsStill pool.new }
    ensures joined { has_joined_domain pool.new.pool.scheduler d.0 ≡ true }
    ensures units { units_of pool.new.pool.scheduler d.0 ≡ units_of pool.old.pool.scheduler d.0 }
{
    let change = ParamChange::Pin {
        dom: d,
        unit: Some(index),
        cores,
    };
    pool.set_params(&change, Moment(0));
}

/// The sets of cores of the domain's units, the first of them that of this unit.
fn pin_all<P: Policy>(d: DomId, first: u8, pins: &[Cores], pool: &mut PoolState<P>)
    requires few { first + length pins.now ≤ 32 }
    requires still { IsStill pool.old }
    requires joined { has_joined_domain pool.old.pool.scheduler d.0 ≡ true }
    requires units { first + length pins.now ≤ units_of pool.old.pool.scheduler d.0 }
    ensures { pool.new ≡ with_pool (pool_with_pins d.0 first pins.now pool.old.pool) pool.old }
{
    match pins {
        [] => {}
        [cores, rest @ ..] => {
            pin(d, first, *cores, pool);
            pin_all(d, first + 1, rest, pool);
        }
    }
}

/// The domain d of the file comes in, all of whose vCPUs are awake, with the sets of cores of its units.
fn join<P: Policy>(
    alloc: Global,
    config: &Config,
    home: &PoolConfig,
    d: DomId,
    joining: &DomConfig,
    pool: &mut PoolState<P>,
) -> Result<(), NoMemory>
    requires checked { IsCheckedConfig config.now }
    requires home { slice_get config.now.pools joining.now.home.0 ≡ Some home.now }
    requires domain { IsCheckedDomain config.now joining.now }
    requires place { d.0 < length config.now.domains }
    requires opening { IsOpening config.now home.now d.0 pool.old }
    requires room { configured_units config.now.granularity joining.now ≤ pool.old.spare }
    ensures after { OnOk result (pool.new ≡ configured_pool config.now.granularity d.0 joining.now
        pool.old) }
    ensures opening { OnOk result (IsOpening config.now home.now (d.0 + 1) pool.new) }
{
    let domain = Domain {
        paused: false,
        moving: None,
        vcpus: fresh_vcpus(alloc, joining.guests.as_slice())?,
    };
    let part = DomPart {
        d,
        granularity: config.granularity,
        domain,
    };
    pool.give_domain(part, &joining.params, Moment(0));
    pin_all(d, 0, joining.pins.as_slice(), pool);
    Ok(())
}

/// The same where this pool is the home of the domain; another domain is passed by.
#[tactic(auto, using(crate::proofs::Joining::goes_by))]
fn join_at_home<P: Policy>(
    alloc: Global,
    config: &Config,
    place: u8,
    home: &PoolConfig,
    d: DomId,
    joining: &DomConfig,
    pool: &mut PoolState<P>,
) -> Result<(), NoMemory>
    requires checked { IsCheckedConfig config.now }
    requires home { slice_get config.now.pools place ≡ Some home.now }
    requires domain { IsCheckedDomain config.now joining.now }
    requires place { d.0 < length config.now.domains }
    requires opening { IsOpening config.now home.now d.0 pool.old }
    requires room { units_if_home config.now.granularity place joining.now ≤ pool.old.spare }
    ensures after { OnOk result (pool.new ≡ configured_if config.now.granularity place d.0
        joining.now pool.old) }
    ensures opening { OnOk result (IsOpening config.now home.now (d.0 + 1) pool.new) }
{
    if joining.home.0 == place {
        join(alloc, config, home, d, joining, pool)?;
    }
    Ok(())
}

/// The domains of the file whose home is this pool come in one after another.
pub fn join_all<P: Policy>(
    alloc: Global,
    config: &Config,
    place: u8,
    home: &PoolConfig,
    pool: &mut PoolState<P>,
) -> Result<(), NoMemory>
    requires checked { IsCheckedConfig config.now }
    requires home { slice_get config.now.pools place ≡ Some home.now }
    requires opening { IsOpening config.now home.now 0 pool.old }
    requires room { units_at_home config.now.granularity place config.now.domains ≤ pool.old.spare }
    ensures after { OnOk result (pool.new ≡ with_all config.now.granularity place 0
        config.now.domains pool.old) }
    ensures opening { OnOk result (IsOpening config.now home.now (length config.now.domains)
        pool.new) }
{
    let domains = config.domains.as_slice();
    for d in 0..domains.len() {
        join_at_home(
            alloc,
            config,
            place,
            home,
            DomId(d as u8),
            &domains[d],
            pool,
        )?;
    }
    Ok(())
}
