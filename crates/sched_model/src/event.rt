//! The entries of a history.

use crate::config::SchedKind;
use crate::row::Row;
use sched_base::{DomId, Moment, PoolId, ProcId, ResId, Span, UnitId, VcpuId};

/// A parameter that a command sets.
#[derive(Clone, Copy, PartialEq, Eq)]
pub enum Param {
    Weight,
    Cap,
    Ratelimit,
    Period,
    Budget,
    Major,
    Run,
}

/// Why a command is refused.
#[derive(Clone, Copy, PartialEq, Eq)]
pub enum Refusal {
    Syntax {
        place: u64,
    },
    NoPool,
    NameTaken {
        pool: PoolId,
    },
    NoDomain,
    NoCpu {
        cpu: u64,
    },
    CpuTaken {
        cpu: u64,
        pool: PoolId,
    },
    CpuElsewhere {
        cpu: u64,
    },
    LastCpu {
        pool: PoolId,
        dom: DomId,
    },
    PoolHolds {
        pool: PoolId,
        cpus: u64,
        domains: u64,
    },
    PoolZero,
    WrongSched {
        pool: PoolId,
        kind: SchedKind,
    },
    Range {
        param: Param,
        n: u64,
    },
    PoolEmpty {
        pool: PoolId,
    },
    ArincOne {
        pool: PoolId,
    },
    PoolsFull,
    FrameLong {
        sum: u64,
        major: u64,
    },
    NoVcpu,
}

/// The answer to an accepted command.
#[derive(Clone, Copy, PartialEq, Eq)]
pub enum Reply {
    Done,
    Pools {
        pools: u64,
        free: u64,
    },
    Pool {
        pool: PoolId,
        kind: SchedKind,
        cpus: u64,
        domains: u64,
    },
    Weight {
        weight: u64,
        cap: u64,
    },
    Rate {
        limit: u64,
    },
    Rtds {
        period: u64,
        budget: u64,
        extra: bool,
    },
}

/// What happened, with the fields that its line prints.
#[derive(Clone, Copy, PartialEq, Eq)]
pub enum Event {
    Stall {
        p: ProcId,
        until: Moment,
    },
    Xl {
        k: u32,
        reply: Result<Reply, Refusal>,
    },
    Moved {
        r: ResId,
        to: Option<PoolId>,
    },
    DomMoved {
        d: DomId,
        to: PoolId,
    },
    Wake {
        v: VcpuId,
    },
    Block {
        p: ProcId,
        v: VcpuId,
    },
    Slice {
        r: ResId,
    },
    Repl {
        u: UnitId,
        start: Moment,
        deadline: Moment,
        budget: Span,
        extra: bool,
    },
    Refill {
        d: DomId,
        periods: u64,
        budget: i64,
    },
    Arrive {
        p: ProcId,
    },
    Decide {
        r: ResId,
        unit: Option<UnitId>,
        due: Option<Moment>,
        late: Span,
        reset: u64,
    },
    Leave {
        p: ProcId,
        v: Option<VcpuId>,
    },
    Save {
        r: ResId,
        u: UnitId,
        queued: bool,
    },
    End {
        next: Moment,
    },
    Finish,
}

/// One entry of a history: at this moment this happened.
#[derive(Clone, Copy, PartialEq, Eq)]
pub struct Entry {
    pub at: Moment,
    pub event: Event,
}

/// Entries in order.
pub type Entries = Row<Entry>;

impl Event {
    ghost use Rattle.std.specs.Prelude.{◌≡◌};
    ghost use Rattle.sched_model.specs.Ranks.{rank};

    /// The rank of the event's kind, from 0 for a stall to 14 for the finish: the order in which a run takes events.
    pub fn order(&self) -> u32
        ensures { result ≡ rank self.now }
    {
        match self {
            Event::Stall { .. } => 0,
            Event::Xl { .. } => 1,
            Event::Moved { .. } => 2,
            Event::DomMoved { .. } => 3,
            Event::Wake { .. } => 4,
            Event::Block { .. } => 5,
            Event::Slice { .. } => 6,
            Event::Repl { .. } => 7,
            Event::Refill { .. } => 8,
            Event::Arrive { .. } => 9,
            Event::Decide { .. } => 10,
            Event::Leave { .. } => 11,
            Event::Save { .. } => 12,
            Event::End { .. } => 13,
            Event::Finish => 14,
        }
    }
}
