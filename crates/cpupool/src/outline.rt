//! What the tool keeps of domains and pools, and of what is on its way.

use sched_base::{DomId, Name, PoolId, ResId};
use sched_model::config::SchedKind;
use sched_model::facts::StallEnds;
use sched_model::short::Short;
use std::marker::Model;

/// A domain's name, and how many vCPUs it has.
#[derive(Drop)]
pub struct DomainEntry {
    pub name: Name,
    pub vcpus: u8,
}

/// Which cores there are, by number.
pub(crate) type CoreFlags = Short<bool, 64>;

/// How many vCPUs each domain has that is there, by number.
pub(crate) type DomainSizes = Short<Option<u8>, 64>;

/// A pool as the tool knows it: its scheduler, which cores it has, and for each domain that it has the number of its vCPUs.
#[derive(Drop)]
pub struct Outline {
    pub(crate) kind: SchedKind,
    pub(crate) cores: CoreFlags,
    pub(crate) domains: DomainSizes,
}

impl Model for Outline {
    ghost use Rattle.journal_core.specs.Parts.{Outline as PoolOutline};

    ghost Value = { PoolOutline };

    ghost view = { λ o. record { kind = o.kind; cores = o.cores; domains = o.domains } };
}

/// The names of the pools, by number.
pub(crate) type PoolNames = Short<Option<Name>, 16>;

/// The pools, by number.
pub(crate) type Outlines = Short<Option<Outline>, 16>;

/// The ends of the stalls of the processors of each core that no pool has, by number.
pub(crate) type FreeCores = Short<Option<StallEnds>, 64>;

/// What is on its way: a core to a pool, or to none; or a domain to a pool.
#[derive(Clone, Copy)]
pub(crate) enum MoveUnderWay {
    Core { r: ResId, to: Option<PoolId> },
    Domain { d: DomId, to: PoolId },
}
