//! The frames of the pools held against the domains, and the pools that come of it.

ghost use Rattle.std.specs.Prelude.{◌≡◌, ◌≤◌, ◌*◌, [], length, IfOk};
ghost use Rattle.std.specs.List.{All};
ghost use Rattle.sched_model.specs.CheckedMachine.{IsWithin};
ghost use Rattle.dom_file.specs.Steps.{Gives, GivesBy, each};
ghost use Rattle.dom_file.specs.Finish.{number_below as below_of, entry_of, unit_count_check, finished_pool, finished_pools, frame_of, params_of, total_units, units_of_domain};

use crate::draft::{EntryDraft, FrameDraft, ParamsDraft, PoolDraft};
use crate::fault::{DomCause, DomFault, TableName};
use crate::pins::unit_count;
use crate::stop::placed;
use sched_base::DomId;
use sched_model::config::{DomConfig, Frame, FrameEntry, FrameList, PoolConfig, PoolParams};
use sched_model::short::Short;
use std::alloc::Global;

/// The number, where it is one of so many from 0.
fn below(count: usize, number: i64) -> Result<usize, DomCause>
    ensures { result ≡ below_of count number }
{
    if number >= 0 && (number as usize) < count {
        Ok(number as usize)
    } else {
        Err(DomCause::Range(number))
    }
}

/// How many units the domain with this number has; none where there is no such domain.
fn unit_count_at(granularity: u8, domains: &[DomConfig], index: usize) -> usize
    requires granularity { IsWithin 1 4 granularity }
    requires guests { All (λ d. length d.guests ≤ 32) domains.now }
    ensures value { result ≡ units_of_domain granularity domains.now index }
    ensures few { result ≤ 32 }
{
    if index < domains.len() {
        unit_count(granularity, domains[index].guests.len())
    } else {
        0
    }
}

fn entry(granularity: u8, domains: &[DomConfig], draft: &EntryDraft) -> Result<FrameEntry, DomCause>
    requires granularity { IsWithin 1 4 granularity }
    requires few { length domains.now ≤ 64 }
    requires guests { All (λ d. length d.guests ≤ 32) domains.now }
    ensures { result ≡ entry_of granularity domains.now draft.now }
{
    let dom = below(domains.len(), draft.dom)?;
    let unit = below(unit_count_at(granularity, domains, dom), draft.unit)?;
    Ok(FrameEntry {
        dom: DomId(dom as u8),
        unit: unit as u8,
        run: draft.run,
    })
}

fn entries(
    granularity: u8,
    domains: &[DomConfig],
    drafts: &[EntryDraft],
) -> Result<FrameList, DomCause>
    requires granularity { IsWithin 1 4 granularity }
    requires few { length domains.now ≤ 64 }
    requires guests { All (λ d. length d.guests ≤ 32) domains.now }
    requires few_entries { length drafts.now ≤ 64 }
    ensures { result ≡ each (entry_of granularity domains.now) drafts.now }
{
    let mut entries = Short::new();
    for draft in drafts {
        entries.push(entry(granularity, domains, draft)?);
    }
    Ok(entries)
}

fn frame(granularity: u8, domains: &[DomConfig], draft: &FrameDraft) -> Result<Frame, DomCause>
    requires granularity { IsWithin 1 4 granularity }
    requires few { length domains.now ≤ 64 }
    requires guests { All (λ d. length d.guests ≤ 32) domains.now }
    ensures { result ≡ frame_of granularity domains.now draft.now }
{
    let entries = entries(granularity, domains, draft.entries.as_slice())?;
    Ok(Frame {
        major: draft.major,
        entries,
    })
}

fn params(
    granularity: u8,
    domains: &[DomConfig],
    draft: &ParamsDraft,
) -> Result<PoolParams, DomCause>
    requires granularity { IsWithin 1 4 granularity }
    requires few { length domains.now ≤ 64 }
    requires guests { All (λ d. length d.guests ≤ 32) domains.now }
    ensures { result ≡ params_of granularity domains.now draft.now }
{
    match draft {
        ParamsDraft::Credit2 { limit } => Ok(PoolParams::Credit2 { limit: *limit }),
        ParamsDraft::Rtds => Ok(PoolParams::Rtds),
        ParamsDraft::Arinc653 { frame: Some(draft) } => {
            let frame = frame(granularity, domains, draft)?;
            Ok(PoolParams::Arinc653 { frame: Some(frame) })
        }
        ParamsDraft::Arinc653 { frame: None } => Ok(PoolParams::Arinc653 { frame: None }),
        ParamsDraft::Null => Ok(PoolParams::Null),
    }
}

fn pool(
    alloc: Global,
    granularity: u8,
    domains: &[DomConfig],
    index: u32,
    draft: &PoolDraft,
) -> Result<PoolConfig, DomFault>
    requires granularity { IsWithin 1 4 granularity }
    requires few { length domains.now ≤ 64 }
    requires guests { All (λ d. length d.guests ≤ 32) domains.now }
    ensures { Gives result (finished_pool granularity domains.now index draft.now) }
{
    let params = params(granularity, domains, &draft.params);
    let params = placed(alloc, TableName::Pool, index, "frame", params)?;
    Ok(PoolConfig {
        name: draft.name.duplicate(),
        kind: draft.kind,
        cores: draft.cores,
        params,
    })
}

/// The pools, whose frames have only units that are there.
pub(crate) fn finished(
    alloc: Global,
    granularity: u8,
    domains: &[DomConfig],
    drafts: &[PoolDraft],
) -> Result<Vec<PoolConfig>, DomFault>
    requires granularity { IsWithin 1 4 granularity }
    requires few { length domains.now ≤ 64 }
    requires guests { All (λ d. length d.guests ≤ 32) domains.now }
    requires few_pools { length drafts.now ≤ 16 }
    ensures { GivesBy (λ v. v.items) result (finished_pools granularity domains.now [] drafts.now) }
{
    let mut pools = Vec::new(alloc);
    for draft in drafts {
        let index = pools.len() as u32;
        pools.push(pool(alloc, granularity, domains, index, draft)?)?;
    }
    Ok(pools)
}

/// Nothing where all domains together have at most 256 units.
pub(crate) fn few_units(granularity: u8, domains: &[DomConfig]) -> Result<(), DomCause>
    requires granularity { IsWithin 1 4 granularity }
    requires few { length domains.now ≤ 64 }
    requires guests { All (λ d. length d.guests ≤ 32) domains.now }
    ensures { result ≡ unit_count_check granularity domains.now }
{
    let units = all_units(granularity, domains);
    if units <= 256 {
        Ok(())
    } else {
        Err(DomCause::Range(units as i64))
    }
}

fn all_units(granularity: u8, domains: &[DomConfig]) -> usize
    requires granularity { IsWithin 1 4 granularity }
    requires few { length domains.now ≤ 64 }
    requires guests { All (λ d. length d.guests ≤ 32) domains.now }
    ensures value { result ≡ total_units granularity domains.now }
    ensures bound { result ≤ 64 * 32 }
{
    let mut units = 0;
    for domain in domains {
        units += unit_count(granularity, domain.guests.len());
    }
    units
}
