//! The machine as the domain file describes it.

ghost use Rattle.std.specs.Prelude.{◌≡◌};

use crate::row::Row;
use crate::short::{Short, same_items};
use sched_base::{Cores, DomId, Moment, Name, PoolId, Span, UnitId};

/// Which scheduler a pool has.
#[derive(Clone, Copy, PartialEq, Eq)]
pub enum SchedKind {
    Credit2,
    Rtds,
    Arinc653,
    Null,
}

/// One entry of an ARINC 653 frame: this unit runs for this long, at least 1 nanosecond.
#[derive(Clone, Copy, Default)]
pub struct FrameEntry {
    pub dom: DomId,
    pub unit: u8,
    pub run: Span,
}

/// The entries of a frame, in order: 1 to 64.
pub type FrameList = Short<FrameEntry, 64>;

/// A major frame: the entries are run one after another, and again from the first after each major span.
/// The runs of the entries add up to at most the major span, which is 1 to 10^13 nanoseconds.
#[derive(Drop)]
pub struct Frame {
    pub major: Span,
    pub entries: FrameList,
}

impl Frame {
    ghost use Rattle.std.specs.Prelude.{◌≡◌};

    /// The same frame once more. It takes no memory.
    pub fn duplicate(&self) -> Frame
        ensures { result ≡ self.now }
    {
        Frame {
            major: self.major,
            entries: same_items(&self.entries),
        }
    }
}

/// The frame once more, where there is one. It takes no memory.
pub fn same_frame(frame: &Option<Frame>) -> Option<Frame>
    ensures { result ≡ frame.now }
{
    match frame {
        None => None,
        Some(frame) => Some(frame.duplicate()),
    }
}

/// The parameters of a pool.
#[derive(Drop)]
pub enum PoolParams {
    /// The rate limit in microseconds: 0 (off), or 100 to 500000.
    Credit2 { limit: u32 },
    Rtds,
    Arinc653 { frame: Option<Frame> },
    Null,
}

/// The parameters of a domain.
#[derive(Clone, Copy)]
pub enum DomParams {
    /// The weight, 1 to 65535, and the cap in percent of one core, 0 (none) to 6400.
    Credit2 {
        weight: u32,
        cap: u32,
    },
    /// The period, 10 microseconds to 1000 seconds, and the budget, 10 microseconds to the period, of each unit.
    Rtds {
        period: Span,
        budget: Span,
        extra: bool,
    },
    Arinc653,
    Null,
}

/// What a vCPU does: it runs and sleeps in turn for these spans, and begins again. An empty script runs without end.
pub type Script = Row<Span>;

/// The scripts of a domain's vCPUs, in order: 1 to 32.
pub type Scripts = Row<Script>;

/// The sets of cores of a domain's units, in order. An empty list leaves all cores to each.
pub type Pins = Short<Cores, 32>;

/// A domain as it is at the opening.
#[derive(Drop)]
pub struct DomConfig {
    pub name: Name,
    pub home: PoolId,
    pub guests: Scripts,
    pub params: DomParams,
    pub pins: Pins,
}

/// A pool as it is at the opening. Its cores are a set, with bit r for core r.
#[derive(Drop)]
pub struct PoolConfig {
    pub name: Name,
    pub kind: SchedKind,
    pub cores: u64,
    pub params: PoolParams,
}

/// The pools, by their numbers: 1 to 16.
pub type Pools = Row<PoolConfig>;

/// The domains, by their numbers: 0 to 64.
pub type Domains = Row<DomConfig>;

/// The machine as it is at the opening: processors to a core (1, 2 or 4), processors in all (1 to 64), the last moment
/// of the run (1 to 10^13), and the pools and domains.
#[derive(Drop)]
pub struct Config {
    pub granularity: u8,
    pub processors: u8,
    pub horizon: Moment,
    pub pools: Pools,
    pub domains: Domains,
}

/// A change of a scheduler's parameters.
#[derive(Drop)]
pub enum ParamChange {
    Dom {
        dom: DomId,
        weight: Option<u32>,
        cap: Option<u32>,
    },
    Rate {
        limit: u32,
    },
    Unit {
        unit: UnitId,
        period: Span,
        budget: Span,
        extra: bool,
    },
    Frame {
        frame: Frame,
    },
    /// The set of cores of a unit, or of all units of the domain.
    Pin {
        dom: DomId,
        unit: Option<u8>,
        cores: Cores,
    },
}
