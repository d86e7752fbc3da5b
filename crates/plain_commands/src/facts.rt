//! What a command is judged by besides the tool's own state.

ghost use Rattle.std.specs.Prelude.{◌≡◌, ◌+◌, ◌≤◌, ◌<◌, ◌++◌, [], length, Some, None};
ghost use Rattle.cpupool.specs.Facts.{stored_from, stored_in, subject_rate, subject_stored};
ghost use Rattle.sched_model.specs.Policy.{unit_stored};
ghost use Rattle.sched_laws.specs.EachPlace.{EachPlace};
ghost use Rattle.pool_records.specs.Fits.{PoolFits};

use plain_schedulers::records::{credit2_record, rate_of, rtds_record};
use pool_records::units::unit_count;
use sched_base::{DomId, Span, UnitId};
use sched_model::facts::{Facts, Stored, StoredList, Subject};
use sched_model::places::item_at;
use sched_model::short::Short;
use sched_model::state::{Pool, Records, State};

/// The set values that the scheduler keeps for the unit; for RTDS the newest ones.
fn stored_of(records: &Records, u: UnitId) -> Option<Stored>
    ensures { result ≡ unit_stored records.now u }
{
    match records {
        Records::Credit2Pool(_) => {
            let x = credit2_record(records, u.dom)?;
            Some(Stored::Credit2 {
                weight: x.weight,
                cap: x.cap,
            })
        }
        Records::RtdsPool(_) => {
            let x = rtds_record(records, u)?;
            Some(Stored::Rtds {
                period: Span(x.next_period),
                budget: Span(x.next_budget),
                extra: x.next_extra,
            })
        }
        Records::ArincPool(_) => Some(Stored::Arinc653),
        Records::NullPool(_) => Some(Stored::Null),
    }
}

/// Adds the values of count units of the domain d from first on, up to the first without any.
fn push_stored(records: &Records, d: DomId, first: u8, count: u8, values: &mut StoredList)
    requires room { length values.old + count ≤ 32 }
    requires few { first + count ≤ 32 }
    ensures { values.new ≡ values.old ++ stored_from records.now d.0 first count }
{
    if count == 0 {
        return;
    }
    if let Some(value) = stored_of(records, UnitId { dom: d, n: first }) {
        values.push(value);
        push_stored(records, d, first + 1, count - 1, values);
    }
}

/// The values of all units of the domain d of the pool.
fn push_stored_in(granularity: u8, pool: &Pool, d: DomId, values: &mut StoredList)
    requires some { 0 < granularity }
    requires few { granularity ≤ 4 }
    requires fits { PoolFits pool.now }
    requires empty { values.old ≡ [] }
    ensures { values.new ≡ stored_in granularity pool.now d.0 }
{
    if let Some(domain) = item_at(pool.domains.as_slice(), d.0 as usize) {
        let count = unit_count(granularity, domain);
        push_stored(&pool.scheduler.records, d, 0, count, values);
    }
}

/// The rate limit of the subject's pool, in microseconds, or 0 where there is none.
fn rate_at(state: &State, subject: Subject) -> u32
    ensures { result ≡ subject_rate state.entry.now subject }
{
    match subject.pool {
        None => 0,
        Some(i) => match item_at(state.pools.as_slice(), i.0 as usize) {
            None => 0,
            Some(pool) => rate_of(&pool.scheduler.records),
        },
    }
}

/// The set values of the units of the subject's domain, or none where there is no domain.
fn stored_at(granularity: u8, state: &State, subject: Subject) -> StoredList
    requires some { 0 < granularity }
    requires few { granularity ≤ 4 }
    requires fits { EachPlace PoolFits state.now.pools }
    ensures { result ≡ subject_stored granularity state.entry.now subject }
{
    let mut values = Short::new();
    if let Some(d) = subject.dom
        && let Some(i) = subject.pool
        && let Some(pool) = item_at(state.pools.as_slice(), i.0 as usize)
    {
        push_stored_in(granularity, pool, d, &mut values);
    }
    values
}

/// The rate limit of the subject's pool and the set values of the units of its domain.
pub fn facts_at(granularity: u8, state: &State, subject: Subject) -> Facts
    requires some { 0 < granularity }
    requires few { granularity ≤ 4 }
    requires fits { EachPlace PoolFits state.now.pools }
    ensures { result ≡ record {
      rate = subject_rate state.entry.now subject;
      units = subject_stored granularity
          state.entry.now subject;
    } }
{
    Facts {
        rate: rate_at(state, subject),
        units: stored_at(granularity, state, subject),
    }
}
