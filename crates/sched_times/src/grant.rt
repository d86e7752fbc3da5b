//! What an entry gives to whom: a core to a unit, a processor to a vCPU; and whose sleep it begins or ends.

ghost use Rattle.std.specs.Prelude.{◌≡◌, ◌==◌, ℕ, length, false, slice_index_or, if◌then◌else◌};
ghost use Rattle.sched_model.specs.CheckedMachine.{IsGranularity};
ghost use Rattle.sched_times.specs.Present as present;
ghost use Rattle.sched_times.specs.Tallies.{user_at};

use crate::tally::UserTally;
use sched_base::{UnitId, VcpuId};
use sched_model::event::{Entry, Event};
use unit_places::place_of;

/// A core is given to a unit, or a processor to a vCPU, or to nobody.
#[derive(Clone, Copy)]
pub struct Grant {
    /// The number of the core or processor.
    pub on: u8,
    /// The place of the unit or vCPU.
    pub to: Option<usize>,
}

/// A vCPU sleeps from now on, or is awake.
#[derive(Clone, Copy)]
pub struct Sleep {
    pub who: Option<usize>,
    pub asleep: bool,
}

/// The place of the vCPU in a table.
pub fn place_of_vcpu(v: VcpuId) -> Option<usize>
    ensures { result ≡ present.vcpu_number v }
{
    place_of(UnitId { dom: v.dom, n: v.n })
}

/// What the entry gives, where it is a decision: its core to the unit that it chooses.
pub fn core_grant(e: &Entry) -> Option<Grant>
    ensures { result ≡ present.core_given e.now.event }
{
    match e.event {
        Event::Decide { r, unit, .. } => Some(Grant {
            on: r.0,
            to: match unit {
                None => None,
                Some(u) => place_of(u),
            },
        }),
        _ => None,
    }
}

/// The vCPU's own processor of the core that its unit has.
fn own_processor(granularity: u8, units: &[UserTally], v: VcpuId) -> Option<usize>
    requires granularity { IsGranularity granularity }
    requires units { length units.now ≡ 2048 }
    ensures { result ≡ present.own_processor granularity (λ k. (user_at units.now k).has) v }
{
    let unit = UnitId {
        dom: v.dom,
        n: v.n / granularity,
    };
    let core = units[place_of(unit)?].has?;
    Some(usize::from(core) * usize::from(granularity) + usize::from(v.n % granularity))
}

/// What a vCPU gets that wakes: its own processor, if that idles.
fn given_to_woken(idle: &[bool], v: VcpuId, own: Option<usize>) -> Option<Grant>
    requires { length idle.now ≡ 256 }
    ensures { result ≡ present.given_to_woken (λ p. slice_index_or idle.now p false) v own }
{
    let p = own?;
    if p < idle.len() && idle[p] {
        Some(Grant {
            on: p as u8,
            to: place_of_vcpu(v),
        })
    } else {
        None
    }
}

/// The place of the vCPU for which a processor leaves the scheduler.
fn shown(v: Option<VcpuId>) -> Option<usize>
    ensures { result ≡ present.shown_number v }
{
    match v {
        None => None,
        Some(v) => place_of_vcpu(v),
    }
}

/// What the entry gives, where it gives a processor to a vCPU or takes it from one.
pub fn processor_grant(
    granularity: u8,
    units: &[UserTally],
    idle: &[bool],
    e: &Entry,
) -> Option<Grant>
    requires granularity { IsGranularity granularity }
    requires units { length units.now ≡ 2048 }
    requires idle { length idle.now ≡ 256 }
    ensures { result ≡ present.grant_by granularity (λ k. (user_at units.now k).has)
        (λ p. slice_index_or idle.now p false) e.now.event }
{
    let (on, to) = match e.event {
        Event::Arrive { p } => (p, None),
        Event::Leave { p, v } => (p, shown(v)),
        Event::Block { p, .. } => (p, None),
        Event::Wake { v } => {
            return given_to_woken(idle, v, own_processor(granularity, units, v));
        }
        _ => return None,
    };
    Some(Grant { on: on.0, to })
}

/// Whose sleep the entry begins or ends.
pub fn sleep_of(e: &Entry) -> Option<Sleep>
    ensures { result ≡ present.sleep_of e.now.event }
{
    let (v, asleep) = match e.event {
        Event::Wake { v } => (v, false),
        Event::Block { v, .. } => (v, true),
        _ => return None,
    };
    Some(Sleep {
        who: place_of_vcpu(v),
        asleep,
    })
}

fn set_idle(idle: &mut [bool], p: u8, idles: bool)
    requires { length idle.old ≡ 256 }
    ensures { (q : ℕ) → slice_index_or idle.new q false
        ≡ (if p == q then idles else slice_index_or idle.old q false) }
{
    idle[usize::from(p)] = idles;
}

/// Notes whether a processor idles after the entry.
pub fn note_idle(idle: &mut [bool], e: &Entry)
    requires { length idle.old ≡ 256 }
    ensures { (q : ℕ) → slice_index_or idle.new q false
        ≡ present.idles_then q e.now.event (slice_index_or idle.old q false) }
{
    match e.event {
        Event::Arrive { p } => set_idle(idle, p.0, false),
        Event::Leave { p, v } => set_idle(idle, p.0, v.is_none()),
        Event::Block { p, .. } => set_idle(idle, p.0, true),
        _ => {}
    }
}
