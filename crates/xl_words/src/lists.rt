//! The words that are lists: the entries of a frame, and the processors of a pin.

ghost use Rattle.std.specs.Prelude.{◌≡◌, ◌≤◌, ◌∷◌, length, IfSome, IfOk};
ghost use Rattle.std.specs.List.{All};
ghost use Rattle.sched_model.specs.CheckedMachine.{IsCheckedEntry, IsCheckedRange};
ghost use Rattle.xl_words.specs.Parts.{parts};
ghost use Rattle.xl_words.specs.Values.{entry_of, range_of, range_from, entries_of, cpus_of, list_of};

use crate::parts::cut;
use crate::values::{read_number, read_which};
use sched_base::NoMemory;
use sched_model::command::{ArincEntry, ArincList, CpuList};
use std::alloc::Global;

/// The most entries or ranges of a list.
const MOST_ITEMS: usize = 64;

/// An entry of a frame: a domain, a unit and a run, joined by colons.
#[tactic(auto, using(crate::proofs::ListLemmas::long_entry))]
fn read_entry(item: &[u8]) -> Option<ArincEntry>
    ensures value { result ≡ entry_of item.now }
    ensures checked { IfSome result IsCheckedEntry }
{
    let (dom, more) = cut(item, b':');
    let (unit, more) = cut(more?, b':');
    match cut(more?, b':') {
        (_, Some(_)) => None,
        (run, None) => {
            let dom = read_which(dom)?;
            let unit = read_number(unit)?;
            let run = read_number(run)?;
            Some(ArincEntry { dom, unit, run })
        }
    }
}

/// A processor, or the first and the last of a range, joined by a hyphen.
fn read_range(item: &[u8]) -> Option<(u64, u64)>
    ensures value { result ≡ range_of item.now }
    ensures checked { IfSome result IsCheckedRange }
{
    match cut(item, b'-') {
        (one, None) => {
            let n = read_number(one)?;
            Some((n, n))
        }
        (low, Some(more)) => read_ends(low, more),
    }
}

/// The first and the last of a range, where the bytes behind the hyphen are these.
#[tactic(auto, using(crate::proofs::ListLemmas::long_range))]
fn read_ends(low: &[u8], more: &[u8]) -> Option<(u64, u64)>
    ensures value { result ≡ range_from (low.now ∷ parts 45 more.now) }
    ensures checked { IfSome result IsCheckedRange }
{
    match cut(more, b'-') {
        (_, Some(_)) => None,
        (high, None) => {
            let low = read_number(low)?;
            let high = read_number(high)?;
            if low <= high { Some((low, high)) } else { None }
        }
    }
}

/// The entries of a frame: 1 to 64, joined by commas.
pub(crate) fn read_entries(alloc: Global, word: &[u8]) -> Result<Option<ArincList>, NoMemory>
    ensures value { IfOk result (λ answer. answer ≡ entries_of word.now) }
    ensures count { IfOk result (λ answer. IfSome answer (λ entries. (1 ≤ length entries)
        × (length entries ≤ 64))) }
    ensures checked { IfOk result (λ answer. IfSome answer (All IsCheckedEntry)) }
{
    let mut entries = ArincList::from_vec(Vec::new(alloc));
    let mut rest = word;
    loop {
        let (item, more) = cut(rest, b',');
        if entries.len() == MOST_ITEMS {
            return Ok(None);
        }
        let Some(entry) = read_entry(item) else {
            return Ok(None);
        };
        entries.push(entry)?;
        match more {
            None => return Ok(Some(entries)),
            Some(behind) => rest = behind,
        }
    }
}

/// The ranges of processors: 1 to 64, joined by commas.
fn read_ranges(alloc: Global, word: &[u8]) -> Result<Option<CpuList>, NoMemory>
    ensures value { IfOk result (λ answer. answer ≡ list_of range_of word.now) }
    ensures count { IfOk result (λ answer. IfSome answer (λ ranges. length ranges ≤ 64)) }
    ensures checked { IfOk result (λ answer. IfSome answer (All IsCheckedRange)) }
{
    let mut ranges = CpuList::from_vec(Vec::new(alloc));
    let mut rest = word;
    loop {
        let (item, more) = cut(rest, b',');
        if ranges.len() == MOST_ITEMS {
            return Ok(None);
        }
        let Some(range) = read_range(item) else {
            return Ok(None);
        };
        ranges.push(range)?;
        match more {
            None => return Ok(Some(ranges)),
            Some(behind) => rest = behind,
        }
    }
}

/// The processors of a pin: ranges, or none where it is `all` of them.
pub(crate) fn read_cpus(alloc: Global, word: &[u8]) -> Result<Option<CpuList>, NoMemory>
    ensures value { IfOk result (λ answer. answer ≡ cpus_of word.now) }
    ensures count { IfOk result (λ answer. IfSome answer (λ ranges. length ranges ≤ 64)) }
    ensures checked { IfOk result (λ answer. IfSome answer (All IsCheckedRange)) }
{
    if word == b"all".as_slice() {
        Ok(Some(CpuList::from_vec(Vec::new(alloc))))
    } else {
        read_ranges(alloc, word)
    }
}
