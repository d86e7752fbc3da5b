//! What a pool tells of itself to those who judge commands and move cores.

ghost use Rattle.std.specs.Prelude.{◌≡◌};
ghost use Rattle.sched_model.specs.Policy.{records_kind};

use crate::config::SchedKind;
use crate::short::Short;
use crate::state::Records;
use sched_base::{DomId, Moment, PoolId, ResId, Span};

/// Which scheduler has these records.
pub fn kind_of(records: &Records) -> SchedKind
    ensures { result ≡ records_kind records.now }
{
    match records {
        Records::Credit2Pool(_) => SchedKind::Credit2,
        Records::RtdsPool(_) => SchedKind::Rtds,
        Records::ArincPool(_) => SchedKind::Arinc653,
        Records::NullPool(_) => SchedKind::Null,
    }
}

/// The RTDS parameters that a command gives, in nanoseconds; what it does not give stays as it was set.
#[derive(Clone, Copy)]
pub struct RtdsGiven {
    pub period: Option<Span>,
    pub budget: Option<Span>,
    pub extra: Option<bool>,
}

/// The set values of a unit: for RTDS the newest set ones, which may wait for the next replenishment.
#[derive(Clone, Copy)]
pub enum Stored {
    Credit2 {
        weight: u32,
        cap: u32,
    },
    Rtds {
        period: Span,
        budget: Span,
        extra: bool,
    },
    Arinc653,
    Null,
}

impl Default for Stored {
    ghost use Rattle.std.specs.Prelude.{◌≡◌};
    ghost use Rattle.sched_model.specs.declared.facts.Stored.TheVariants.{Null};

    ghost is_default = { λ s. s ≡ Null };

    fn default() -> Stored {
        Stored::Null
    }
}

/// The set values of a domain's units, in order.
pub type StoredList = Short<Stored, 32>;

/// What a command is judged by besides the tool's own state: the rate limit of its pool in microseconds, 0 where there is none,
/// and the set values of the units of the domain that it names.
#[derive(Drop)]
pub struct Facts {
    pub rate: u32,
    pub units: StoredList,
}

/// The domain that a command names, if it names one that is there, and its home; without one, the pool that the command names.
#[derive(Clone, Copy)]
pub struct Subject {
    pub pool: Option<PoolId>,
    pub dom: Option<DomId>,
}

/// The ends of the stalls of a core's processors, in order.
pub type StallEnds = Short<Moment, 4>;

/// A core on its way between two pools: its number, and the ends of the stalls of its processors.
#[derive(Drop)]
pub struct ResPart {
    pub r: ResId,
    pub stall_ends: StallEnds,
}
