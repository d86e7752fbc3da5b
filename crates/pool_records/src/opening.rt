//! The cores of a pool at the opening.

ghost use Rattle.std.specs.Prelude.{◌≡◌, ◌≤◌, ◌<◌, replicate};
ghost use Rattle.sched_base.specs.Numbers.{moment};
ghost use Rattle.sched_model.specs.State.{has_core_bit};
ghost use Rattle.sched_model.specs.Opening.{machine_core_count};

use sched_base::{Moment, ResId};
use sched_model::config::Config;
use sched_model::facts::StallEnds;
use sched_model::short::Short;

/// Whether the core is in the set.
pub fn has_core(cores: u64, r: ResId) -> bool
    requires { r.0 < 64 }
    ensures { result ≡ has_core_bit cores r.0 }
{
    cores / (1u64 << r.0) % 2 == 1
}

/// The ends of the stalls of `granularity` processors that were never stalled.
#[tactic(auto, using(sched_model::proofs::Replicate::replicate_one_more))]
pub fn no_stalls(granularity: u8) -> StallEnds
    requires { granularity ≤ 4 }
    ensures { result ≡ replicate granularity (moment 0) }
{
    let mut ends = Short::new();
    for i in 0..granularity {
        ends.push(Moment(0));
    }
    ends
}

/// How many cores the machine has.
pub fn core_count(config: &Config) -> u8
    requires { 0 < config.now.granularity }
    ensures { result ≡ machine_core_count config.now }
{
    config.processors / config.granularity
}
