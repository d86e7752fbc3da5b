//! The commands that list entries of a frame or processors, judged. The first check that fails gives the refusal.

ghost use Rattle.std.specs.Prelude.{◌≡◌, ◌*◌, ◌^◌, ◌≤◌, length, sum_by};
ghost use Rattle.std.specs.List.{All};
ghost use Rattle.sched_model.specs.declared.command.ArincEntry.{ArincEntry as EntryRecord};
ghost use Rattle.sched_model.specs.CheckedMachine.{IsCheckedEntry};
ghost use Rattle.sched_model.specs.Commands.{cpu_refusal};
ghost use Rattle.sched_model.specs.Places.{numbers_from};
ghost use Rattle.cpupool.specs.Verdicts.{is_core_named, named_among};

use crate::judge_domains::guest_of;
use crate::outline::Outline;
use crate::pools::{core_set, kind_of};
use crate::tool::ToolState;
use sched_base::{Cores, DomId, PoolId, ResId, Span};
use sched_model::command::{ArincEntry, ArincList, CpuList, Which};
use sched_model::config::{Frame, FrameEntry, FrameList, SchedKind};
use sched_model::event::{Param, Refusal, Reply};
use sched_model::plan::Plan;
use sched_model::short::Short;

/// How long the entries run in all.
fn run_total(entries: &[ArincEntry]) -> u64
    requires few { length entries.now ≤ 64 }
    requires checked { All IsCheckedEntry entries.now }
    ensures value { result ≡ sum_by (λ (e : EntryRecord). e.run) entries.now }
    ensures few { result ≤ length entries.now * 10 ^ 15 }
{
    let mut total = 0;
    for e in entries {
        total += e.run;
    }
    total
}

/// Why the ranges may not be taken: one of them goes past the last processor.
fn cpu_fault(processors: u8, ranges: &[(u64, u64)]) -> Option<Refusal>
    ensures { result ≡ cpu_refusal processors ranges.now }
{
    match ranges {
        [] => None,
        [range, rest @ ..] => {
            if range.1 < processors as u64 {
                cpu_fault(processors, rest)
            } else {
                Some(Refusal::NoCpu {
                    cpu: range.0.max(processors as u64),
                })
            }
        }
    }
}

/// Whether one of the ranges has a processor of the core r, where a core has `granularity` processors.
fn is_named(granularity: u8, ranges: &[(u64, u64)], r: ResId) -> bool
    requires { 1 ≤ granularity }
    ensures { result ≡ is_core_named granularity ranges.now r.0 }
{
    let first = r.0 as u64 * granularity as u64;
    let last = first + granularity as u64 - 1;
    ranges
        .iter()
        .any(|range| range.0 <= last && first <= range.1)
}

/// The set of those of the first cores, so many, that have a processor in one of the ranges.
#[tactic(auto, using(crate::proofs::NumberLemmas::named_in, crate::proofs::NumberLemmas::named_out))]
fn named_set(granularity: u8, ranges: &[(u64, u64)], cores: u8) -> Cores
    requires some { 1 ≤ granularity }
    requires few { cores ≤ 64 }
    ensures { result.0 ≡ named_among granularity ranges.now (numbers_from 0 cores) }
{
    let mut set = 0u64;
    for r in 0..cores {
        if is_named(granularity, ranges, ResId(r)) {
            set += 1u64 << r;
        }
    }
    Cores(set)
}

impl ToolState {
    ghost use Rattle.std.specs.Prelude.{◌≡◌, ◌+◌, ◌/◌, ◌≤◌, length, option_map};
    ghost use Rattle.std.specs.List.{All};
    ghost use Rattle.sched_model.specs.CheckedMachine.{IsCheckedEntry};
    ghost use Rattle.cpupool.specs.Verdicts.{guest_count, seen_entry, seen_entries, entries_behind, seen_frame, seen_arinc_set, seen_cores, seen_elsewhere, seen_pin};

    /// How many vCPUs the domain d of the machine has.
    fn guests_in(&self, d: DomId) -> Option<u8>
        ensures { result ≡ guest_count self.now d.0 }
    {
        match self.domains.as_slice().get(d.0 as usize) {
            None => None,
            Some(domain) => Some(domain.vcpus),
        }
    }

    /// The entry of a frame.
    fn frame_entry(&self, e: &ArincEntry) -> Result<FrameEntry, Refusal>
        requires { IsCheckedEntry e.now }
        ensures { result ≡ seen_entry self.now e.now }
    {
        let Some(d) = self.domain_of(&e.dom) else {
            return Err(Refusal::NoDomain);
        };
        let Some(vcpus) = self.guests_in(d) else {
            return Err(Refusal::NoDomain);
        };
        if e.unit * self.granularity as u64 >= vcpus as u64 {
            return Err(Refusal::NoVcpu);
        }
        if e.run < 1 {
            return Err(Refusal::Range {
                param: Param::Run,
                n: e.run,
            });
        }
        Ok(FrameEntry {
            dom: d,
            unit: e.unit as u8,
            run: Span(e.run),
        })
    }

    /// The entries of a frame, behind those that stand already.
    fn frame_entries(&self, frame: FrameList, entries: &[ArincEntry]) -> Result<FrameList, Refusal>
        requires room { length frame + length entries.now ≤ 64 }
        requires checked { All IsCheckedEntry entries.now }
        ensures { result ≡ entries_behind frame (seen_entries self.now entries.now) }
    {
        match entries {
            [] => Ok(frame),
            [e, rest @ ..] => {
                let entry = self.frame_entry(e)?;
                let mut longer = frame;
                longer.push(entry);
                self.frame_entries(longer, rest)
            }
        }
    }

    /// The plan for a new frame of this pool.
    fn plan_frame(&self, pool: PoolId, major: u64, entries: &[ArincEntry]) -> Result<Plan, Refusal>
        requires few { length entries.now ≤ 64 }
        requires checked { All IsCheckedEntry entries.now }
        ensures { result ≡ seen_frame self.now pool.0 major entries.now }
    {
        let frame = self.frame_entries(Short::new(), entries)?;
        let sum = run_total(entries);
        if sum > major {
            return Err(Refusal::FrameLong { sum, major });
        }
        Ok(Plan::ArincSet {
            pool: pool,
            frame: Frame {
                major: Span(major),
                entries: frame,
            },
            reply: Reply::Done,
        })
    }

    /// `arinc-set POOL MAJOR DOM:UNIT:RUN,..`
    pub(crate) fn judge_arinc_set(
        &self,
        which: &Which,
        major: u64,
        entries: &ArincList,
    ) -> Result<Plan, Refusal>
        requires few { length entries.now ≤ 64 }
        requires checked { All IsCheckedEntry entries.now }
        ensures { result ≡ seen_arinc_set self.now which.now major entries.now }
    {
        let Some(named) = self.named_pool(which) else {
            return Err(Refusal::NoPool);
        };
        if kind_of(named.pool) != SchedKind::Arinc653 {
            return Err(Refusal::WrongSched {
                pool: named.i,
                kind: kind_of(named.pool),
            });
        }
        if major < 1 || major > 10_000_000_000_000 {
            return Err(Refusal::Range {
                param: Param::Major,
                n: major,
            });
        }
        self.plan_frame(named.i, major, entries.as_slice())
    }

    /// The set of the cores that have a processor in one of the ranges; without a range, all.
    fn cores_of(&self, ranges: &[(u64, u64)]) -> Cores
        ensures { result ≡ seen_cores self.now ranges.now }
    {
        if ranges.is_empty() {
            return Cores(u64::MAX);
        }
        let cores = self.processors / self.granularity;
        named_set(self.granularity, ranges, cores)
    }

    /// Why the ranges may not be taken for a domain of the pool: they name no core of the pool.
    fn elsewhere_fault(&self, pool: &Outline, ranges: &[(u64, u64)]) -> Option<Refusal>
        ensures { result ≡ seen_elsewhere self.now pool.now ranges.now }
    {
        match ranges {
            [] => None,
            [range, ..] => {
                if self.cores_of(ranges).0 & core_set(pool).0 == 0 {
                    Some(Refusal::CpuElsewhere { cpu: range.0 })
                } else {
                    None
                }
            }
        }
    }

    /// The unit of the vCPU, where one is given.
    fn unit_of(&self, guest: Option<u8>) -> Option<u8>
        ensures { result ≡ option_map (λ v. v / self.now.granularity) guest }
    {
        match guest {
            None => None,
            Some(v) => Some(v / self.granularity),
        }
    }

    /// `vcpu-pin DOM VCPU or all CPUS`
    pub(crate) fn judge_pin(
        &self,
        which: &Which,
        vcpu: Option<u64>,
        cpus: &CpuList,
    ) -> Result<Plan, Refusal>
        ensures { result ≡ seen_pin self.now which.now vcpu cpus.now }
    {
        let Some(named) = self.named_domain(which) else {
            return Err(Refusal::NoDomain);
        };
        let guest = guest_of(named.vcpus, vcpu)?;
        let ranges = cpus.as_slice();
        if let Some(fault) = cpu_fault(self.processors, ranges) {
            return Err(fault);
        }
        if let Some(fault) = self.elsewhere_fault(named.pool, ranges) {
            return Err(fault);
        }
        Ok(Plan::Pin {
            dom: named.d,
            unit: self.unit_of(guest),
            cores: self.cores_of(ranges),
            reply: Reply::Done,
        })
    }
}
