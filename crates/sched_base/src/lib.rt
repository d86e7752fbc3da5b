//! Moments, spans, names and the numbers of processors, cores, domains, units and pools.
//!
//! All numbers are plain: a moment and a span count nanoseconds, and a number of a thing counts from 0.
#![tactic(auto)]

ghost use Rattle.std.specs.Prelude.{◌≡◌, ◌+◌, ◌-◌, ◌^◌, ◌<◌, ◌≤◌};
ghost use Rattle.std.specs.Option.{SomeIff};
ghost use Rattle.sched_base.specs.Numbers.{moment, span};

pub mod error;
pub mod masks;
pub mod name;
pub mod steps;

pub use error::{Failed, NoMemory};
pub use masks::{has_core, is_allowed};
pub use name::Name;
pub use steps::Steps;

/// A moment, in nanoseconds from the start of a run.
#[derive(Clone, Copy, Default, PartialEq, Eq)]
pub struct Moment(pub u64);

impl Moment {
    /// The latest moment that a sum may reach: 2^63 - 1 nanoseconds.
    pub const LAST: Moment = Moment(0x7fff_ffff_ffff_ffff);

    /// The moment a span later, or `None` exactly where it would be past 2^63 - 1.
    pub fn add(self, s: Span) -> Option<Moment>
        ensures { SomeIff result (self.0 + s.0 < 2 ^ 63) (moment (self.0 + s.0)) }
    {
        if self.0 <= Moment::LAST.0 && s.0 <= Moment::LAST.0 - self.0 {
            Some(Moment(self.0 + s.0))
        } else {
            None
        }
    }

    /// The span from an earlier moment to this one.
    pub fn since(self, earlier: Moment) -> Span
        requires { earlier.0 ≤ self.0 }
        ensures { result ≡ span (self.0 - earlier.0) }
    {
        Span(self.0 - earlier.0)
    }
}

/// A length of time, in nanoseconds.
#[derive(Clone, Copy, Default, PartialEq, Eq)]
pub struct Span(pub u64);

/// The number of a processor, 0 to 63.
#[derive(Clone, Copy, Default, PartialEq, Eq)]
pub struct ProcId(pub u8);

/// The number of a core, 0 to 63. A core is the resource that runs one schedule unit at a time.
#[derive(Clone, Copy, Default, PartialEq, Eq)]
pub struct ResId(pub u8);

/// The number of a domain, 0 to 63.
#[derive(Clone, Copy, Default, PartialEq, Eq)]
pub struct DomId(pub u8);

/// The number of a cpupool, 0 to 15.
#[derive(Clone, Copy, Default, PartialEq, Eq)]
pub struct PoolId(pub u8);

/// A set of cores, with bit r for core r.
#[derive(Clone, Copy, Default)]
pub struct Cores(pub u64);

/// The vCPU with this index in its domain, 0 to 31.
#[derive(Clone, Copy, Default, PartialEq, Eq)]
pub struct VcpuId {
    pub dom: DomId,
    pub n: u8,
}

/// The schedule unit with this index in its domain, 0 to 31.
#[derive(Clone, Copy, Default, PartialEq, Eq)]
pub struct UnitId {
    pub dom: DomId,
    pub n: u8,
}
