//! The parameters of domains, and the domains that join and part.

ghost use Rattle.sched_model.specs.CheckedMachine.{most_span};
ghost use Rattle.std.specs.Prelude.{◌≡◌, ◌≤◌};
ghost use Rattle.sched_model.specs.Policy.{standard_dom_params, joined_records, joined_scheduler, parted_records, parted_scheduler, changed_scheduler};
ghost use Rattle.scheduler_records.specs.Fits.{RecordsFit};
ghost use Rattle.plain_schedulers.specs.Parameters.{ParamsFit, ChangeFits};

use sched_base::{Cores, DomId, Moment, Span};
use sched_model::config::{DomParams, ParamChange};
use sched_model::places::set_place;
use sched_model::short::copies;
use sched_model::state::{Records, Scheduler};
use scheduler_records::credit2_params::{fresh_domain, set_domain};
use scheduler_records::null::release_domain;
use scheduler_records::pins::pin;
use scheduler_records::rtds::{fresh_units, set_next};

/// The parameters of a domain that moves to a pool with these records.
pub fn default_dom_params(records: &Records) -> DomParams
    ensures { result ≡ standard_dom_params records.now }
{
    match records {
        Records::Credit2Pool(_) => DomParams::Credit2 {
            weight: 256,
            cap: 0,
        },
        Records::RtdsPool(_) => DomParams::Rtds {
            period: Span(10_000_000),
            budget: Span(4_000_000),
            extra: true,
        },
        Records::ArincPool(_) => DomParams::Arinc653,
        Records::NullPool(_) => DomParams::Null,
    }
}

/// The records with those of a domain that joins at t, with so many units. A scheduler keeps its records where it is given
/// parameters of another one.
fn join_records(d: DomId, count: u8, params: &DomParams, t: Moment, records: &mut Records)
    requires count { count ≤ 32 }
    requires params { ParamsFit params.now }
    requires early { t.0 ≤ most_span }
    ensures { records.new ≡ joined_records records.old params.now d.0 count t.0 }
{
    match (records, *params) {
        (Records::Credit2Pool(records), DomParams::Credit2 { weight, cap }) => {
            let domain = fresh_domain(weight, cap, count, t);
            set_place(&mut records.domains, d.0, Some(domain));
        }
        (
            Records::RtdsPool(domains),
            DomParams::Rtds {
                period,
                budget,
                extra,
            },
        ) => {
            let units = fresh_units(period, budget, extra, count, t);
            set_place(domains, d.0, Some(units));
        }
        _ => {}
    }
}

/// The domain, with so many units, joins at t. Its units may have all cores.
pub fn join(d: DomId, count: u8, params: &DomParams, t: Moment, scheduler: &mut Scheduler)
    requires count { count ≤ 32 }
    requires params { ParamsFit params.now }
    requires early { t.0 ≤ most_span }
    ensures { scheduler.new ≡ joined_scheduler d.0 count params.now t.0 scheduler.old }
{
    let sets = copies(Cores(u64::MAX), count);
    set_place(&mut scheduler.affinity, d.0, Some(sets));
    join_records(d, count, params, t, &mut scheduler.records);
}

/// The records without the domain.
fn part_records(d: DomId, records: &mut Records)
    ensures { records.new ≡ parted_records records.old d.0 }
{
    match records {
        Records::Credit2Pool(records) => set_place(&mut records.domains, d.0, None),
        Records::RtdsPool(domains) => set_place(domains, d.0, None),
        Records::ArincPool(_) => {}
        Records::NullPool(kept) => release_domain(d, kept),
    }
}

/// The domain parts.
pub fn part(d: DomId, scheduler: &mut Scheduler)
    ensures { scheduler.new ≡ parted_scheduler d.0 scheduler.old }
{
    set_place(&mut scheduler.affinity, d.0, None);
    part_records(d, &mut scheduler.records);
}

/// The parameters change at t. A change for another scheduler changes nothing.
pub fn set_params(change: ParamChange, t: Moment, scheduler: &mut Scheduler)
    requires change { ChangeFits change }
    requires records { RecordsFit t.0 scheduler.old.records }
    requires early { t.0 ≤ most_span }
    ensures { scheduler.new ≡ changed_scheduler change t.0 scheduler.old }
{
    match (change, &mut scheduler.records) {
        (ParamChange::Pin { dom, unit, cores }, _) => {
            pin(dom, unit, cores, &mut scheduler.affinity);
        }
        (ParamChange::Dom { dom, weight, cap }, Records::Credit2Pool(records)) => {
            set_domain(t, dom, weight, cap, records);
        }
        (ParamChange::Rate { limit }, Records::Credit2Pool(records)) => records.limit = limit,
        (
            ParamChange::Unit {
                unit,
                period,
                budget,
                extra,
            },
            Records::RtdsPool(domains),
        ) => set_next(unit, period, budget, extra, domains),
        (ParamChange::Frame { frame }, Records::ArincPool(records)) => {
            records.frame = Some(frame);
            records.installed = t.0;
        }
        _ => {}
    }
}
