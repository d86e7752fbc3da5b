//! The state of the machine.
//!
//! A pool has all that its cores and domains are, so the home of a core or a domain is the pool that has it.
//! A list of numbered places has one place for each number there may be, and an empty place where there is no such thing.
//! The records of schedulers and the state itself count moments, spans and numbers plainly; moments and spans are in nanoseconds.

use crate::config::{Frame, Pins, Script};
use crate::facts::StallEnds;
use crate::row::Row;
use crate::short::Short;
use sched_base::{Moment, Name, PoolId, Span, UnitId, VcpuId};

/// What a processor does: it runs a vCPU, idles, or waits for its siblings.
#[derive(Clone, Copy)]
pub enum Doing {
    Guest(VcpuId),
    Idle,
    Held,
}

/// A processor, and the moment up to which it is stalled.
#[derive(Clone, Copy)]
pub struct Processor {
    pub doing: Doing,
    pub stall_end: Moment,
}

impl Default for Processor {
    ghost use Rattle.std.specs.Prelude.{◌≡◌};
    ghost use Rattle.sched_base.specs.Numbers.{moment};
    ghost use Rattle.sched_model.specs.declared.state.Doing.TheVariants.{Idle};

    ghost is_default = { λ p. p ≡ record { doing = Idle; stall_end = moment 0 } };

    fn default() -> Processor {
        Processor {
            doing: Doing::Idle,
            stall_end: Moment(0),
        }
    }
}

/// Whether the siblings of a core still gather, or have their decision and part.
#[derive(Clone, Copy)]
pub enum Stage {
    Open,
    Decided,
}

/// The processors of a core, in order.
pub type Processors = Short<Processor, 4>;

/// A core of a pool: the unit that it runs and the one that it switches out, whether it is to decide anew and whether it is
/// leaving its pool, the moment since which it runs its unit, the moment at which it is to decide at the latest, and its siblings.
#[derive(Drop)]
pub struct Resource {
    pub cur: Option<UnitId>,
    pub saving: Option<UnitId>,
    pub pending: bool,
    pub leaving: bool,
    pub since: Moment,
    pub due: Option<Moment>,
    pub stage: Stage,
    pub processors: Processors,
}

/// A vCPU: the place in its script of the span that it runs or sleeps now, the end of its sleep, the work left
/// (none where it never ends), and the moment from which its work is counted, where a processor runs it.
#[derive(Drop)]
pub struct Vcpu {
    pub script: Script,
    pub place: u8,
    pub asleep_until: Option<Moment>,
    pub work_left: Option<Span>,
    pub started: Option<Moment>,
}

/// The vCPUs of a domain, in order.
pub type Vcpus = Row<Vcpu>;

/// A domain, and the pool to which it is moving.
#[derive(Drop)]
pub struct Domain {
    pub paused: bool,
    pub moving: Option<PoolId>,
    pub vcpus: Vcpus,
}

/// What Credit2 keeps of a unit: its credit, the part of a charge that is not yet taken from it, the budget that it holds,
/// and, where it runs, the moment of its last charge.
#[derive(Clone, Copy, Default)]
pub struct Credit2Unit {
    pub credit: i64,
    pub residual: u32,
    pub held: i64,
    pub burned: Option<u64>,
}

/// The records of a domain's units, in order.
pub type Credit2Units = Short<Credit2Unit, 32>;

/// What Credit2 keeps of a domain: its weight, its cap in percent of one core (0 for none), the budget that is left
/// of the cap, and the moment of the next refill.
#[derive(Drop)]
pub struct Credit2Domain {
    pub weight: u32,
    pub cap: u32,
    pub budget: i64,
    pub refill: Option<u64>,
    pub units: Credit2Units,
}

/// What Credit2 keeps of a pool: its rate limit in microseconds, and the moment of its last reset.
#[derive(Drop)]
pub struct Credit2Records {
    pub limit: u32,
    pub last_reset: Option<u64>,
    pub domains: Row<Option<Credit2Domain>>,
}

/// What RTDS keeps of a unit: its parameters, those that wait for the next replenishment, its deadline, the budget left,
/// its level, and, where it runs, the moment of its last charge.
#[derive(Clone, Copy, Default)]
pub struct RtdsUnit {
    pub period: u64,
    pub budget: u64,
    pub extra: bool,
    pub next_period: u64,
    pub next_budget: u64,
    pub next_extra: bool,
    pub deadline: u64,
    pub left: u64,
    pub level: u32,
    pub burned: Option<u64>,
}

/// The records of a domain's units, in order.
pub type RtdsUnits = Short<RtdsUnit, 32>;

/// What ARINC 653 keeps of a pool: its frame, and the moment at which that was installed.
#[derive(Drop)]
pub struct ArincRecords {
    pub frame: Option<Frame>,
    pub installed: u64,
}

/// What a pool's scheduler keeps of the pool, its domains and their units. The null scheduler keeps a unit, or none, for each core.
#[derive(Drop)]
pub enum Records {
    Credit2Pool(Credit2Records),
    RtdsPool(Row<Option<RtdsUnits>>),
    ArincPool(ArincRecords),
    NullPool(Row<Option<UnitId>>),
}

/// The units of a pool that wait, in order of arrival.
pub type Queue = Short<UnitId, 256>;

/// A pool's scheduler: the waiting units, the sets of cores of each domain's units, and its records.
#[derive(Drop)]
pub struct Scheduler {
    pub queue: Queue,
    pub affinity: Row<Option<Pins>>,
    pub records: Records,
}

/// A pool: its scheduler, its domains by number and its cores by number.
#[derive(Drop)]
pub struct Pool {
    pub scheduler: Scheduler,
    pub domains: Row<Option<Domain>>,
    pub resources: Row<Option<Resource>>,
}

/// A core of no pool, and the pool to which it is leaving.
#[derive(Drop)]
pub struct FreeCore {
    pub target: Option<u8>,
    pub stall_ends: StallEnds,
}

/// The state: the moment, the names of the pools, the pools and the cores of none by number, and how many stalls and commands were done.
#[derive(Drop)]
pub struct State {
    pub now: u64,
    pub names: Row<Option<Name>>,
    pub pools: Row<Option<Pool>>,
    pub free: Row<Option<FreeCore>>,
    pub next_stall: u32,
    pub next_command: u32,
}
