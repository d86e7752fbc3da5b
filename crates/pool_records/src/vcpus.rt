//! The vCPUs of a pool's domains.

ghost use Rattle.sched_model.specs.CheckedMachine.{most_span};
ghost use Rattle.std.specs.Prelude.{◌≡◌, ◌<◌, ◌≤◌, ◌+◌, ◌%◌, Some, slice_get, slice_index_or};
ghost use Rattle.std.specs.Option.{option_copied};
ghost use Rattle.sched_base.specs.Numbers.{span};
ghost use Rattle.sched_model.specs.declared.state.Vcpu.{Vcpu as VcpuRecord};
ghost use Rattle.sched_model.specs.declared.state.Domain.{Domain as DomainRecord};
ghost use Rattle.sched_model.specs.Places.{change_at, change_item};
ghost use Rattle.sched_laws.specs.EachPlace.{AllPlaces};
ghost use Rattle.sched_model.specs.Pool.{done_moment, put_to_sleep, stopped_vcpu, woken_vcpu, vcpu_among};
ghost use Rattle.pool_records.specs.Fits.{DomainFits, VcpuFits};

use sched_base::{Moment, Span, VcpuId};
use sched_model::places::item_at;
use sched_model::row::Row;
use sched_model::state::{Domain, Vcpu};

/// The vCPU, where these are the domains.
pub fn vcpu_of(domains: &[Option<Domain>], v: VcpuId) -> Option<&Vcpu>
    ensures { option_copied result ≡ vcpu_among domains.now v }
{
    match item_at(domains, v.dom.0 as usize) {
        None => None,
        Some(domain) => vcpu_in(domain, v.n as usize),
    }
}

/// The vCPU at this place in the domain.
fn vcpu_in(domain: &Domain, index: usize) -> Option<&Vcpu>
    ensures { option_copied result ≡ slice_get domain.now.vcpus index }
{
    domain.vcpus.as_slice().get(index)
}

/// The moment at which the vCPU's work is done, where it is run and its work has an end.
pub fn done_at(v: &Vcpu) -> Option<Moment>
    requires { VcpuFits v.now }
    ensures { result ≡ done_moment v.now }
{
    let from = v.started?;
    let work = v.work_left?;
    Some(Moment(from.0 + work.0))
}

/// Stopped at t: the work left falls by what was done since it was started.
fn stop(v: &mut Vcpu, t: Moment)
    ensures { v.new ≡ stopped_vcpu t.0 v.old }
{
    if let Some(from) = v.started {
        if let Some(work) = v.work_left {
            let done = t.0.saturating_sub(from.0);
            v.work_left = Some(Span(work.0.saturating_sub(done)));
        }
        v.started = None;
    }
}

/// The domain's vCPU at this place stopped at t.
#[tactic(auto, using(sched_model::proofs::PlaceLemmas::past_the_end))]
fn stop_at(domain: &mut Domain, index: usize, t: Moment)
    ensures { domain.new ≡ record domain.old
        { vcpus = change_item index (stopped_vcpu t.0) domain.old.vcpus } }
{
    if let Some(v) = domain.vcpus.get_mut(index) {
        stop(v, t);
    }
}

/// The vCPU stopped at t.
pub fn stop_vcpu(domains: &mut Row<Option<Domain>>, v: VcpuId, t: Moment)
    ensures { domains.new ≡ change_at v.dom.0
        (λ (d : DomainRecord). record d { vcpus = change_item v.n (stopped_vcpu t.0) d.vcpus })
        domains.old }
{
    if let Some(place) = domains.get_mut(v.dom.0 as usize)
        && let Some(domain) = place
    {
        stop_at(domain, v.n as usize, t);
    }
}

/// The domain's vCPU at this place counts its work from t on.
#[tactic(auto, using(sched_model::proofs::PlaceLemmas::past_the_end))]
fn start_at(domain: &mut Domain, index: usize, t: Moment)
    ensures { domain.new ≡ record domain.old {
      vcpus = change_item index (λ (x : VcpuRecord). record x { started = Some t })
          domain.old.vcpus;
    } }
{
    if let Some(v) = domain.vcpus.get_mut(index) {
        v.started = Some(t);
    }
}

/// The vCPU counts its work from t on.
pub fn start_vcpu(domains: &mut Row<Option<Domain>>, v: VcpuId, t: Moment)
    ensures { domains.new ≡ change_at v.dom.0
        (λ (d : DomainRecord). record d
        { vcpus = change_item v.n (λ (x : VcpuRecord). record x { started = Some t }) d.vcpus })
        domains.old }
{
    if let Some(place) = domains.get_mut(v.dom.0 as usize)
        && let Some(domain) = place
    {
        start_at(domain, v.n as usize, t);
    }
}

/// The place after this one in a script with so many spans, which begins again after its last.
fn next_place(place: u8, count: usize) -> u8
    requires { place < 64 }
    ensures { result ≡ (place + 1) % count }
{
    let next = place + 1;
    if count == 0 || (next as usize) < count {
        next
    } else {
        (next as usize % count) as u8
    }
}

/// Awake, with the next run of the script as work left.
fn wake_up(v: &mut Vcpu)
    requires { VcpuFits v.old }
    ensures { v.new ≡ woken_vcpu v.old }
{
    let next = next_place(v.place, v.script.len());
    v.place = next;
    v.asleep_until = None;
    v.work_left = v.script.as_slice().get(next as usize).copied();
}

/// The domain's vCPU at this place wakes.
#[tactic(auto, using(sched_model::proofs::PlaceLemmas::past_the_end))]
fn wake_at(domain: &mut Domain, index: usize)
    requires { DomainFits domain.old }
    ensures { domain.new ≡ record domain.old
        { vcpus = change_item index woken_vcpu domain.old.vcpus } }
{
    if let Some(v) = domain.vcpus.get_mut(index) {
        wake_up(v);
    }
}

/// The vCPU wakes.
pub fn wake_vcpu(domains: &mut Row<Option<Domain>>, v: VcpuId)
    requires { AllPlaces DomainFits domains.old }
    ensures { domains.new ≡ change_at v.dom.0
        (λ (d : DomainRecord). record d { vcpus = change_item v.n woken_vcpu d.vcpus })
        domains.old }
{
    if let Some(place) = domains.get_mut(v.dom.0 as usize)
        && let Some(domain) = place
    {
        wake_at(domain, v.n as usize);
    }
}

/// The span at this place of a script, and none past its end.
fn span_at(script: &[Span], place: usize) -> Span
    ensures { result ≡ slice_index_or script.now place (span 0) }
{
    if place < script.len() {
        script[place]
    } else {
        Span(0)
    }
}

/// Asleep from t for the next span of the script.
fn fall_asleep(v: &mut Vcpu, t: Moment)
    requires fits { VcpuFits v.old }
    requires early { t.0 ≤ most_span }
    ensures { v.new ≡ put_to_sleep t.0 v.old }
{
    let place = v.place + 1;
    let span = span_at(v.script.as_slice(), place as usize);
    v.place = place;
    v.asleep_until = Some(Moment(t.0 + span.0));
    v.work_left = Some(Span(0));
    v.started = None;
}

/// The domain's vCPU at this place sleeps from t for the next span of its script.
#[tactic(auto, using(sched_model::proofs::PlaceLemmas::past_the_end))]
fn sleep_at(domain: &mut Domain, index: usize, t: Moment)
    requires fits { DomainFits domain.old }
    requires early { t.0 ≤ most_span }
    ensures { domain.new ≡ record domain.old
        { vcpus = change_item index (put_to_sleep t.0) domain.old.vcpus } }
{
    if let Some(v) = domain.vcpus.get_mut(index) {
        fall_asleep(v, t);
    }
}

/// The vCPU sleeps from t for the next span of its script.
pub fn sleep_vcpu(domains: &mut Row<Option<Domain>>, v: VcpuId, t: Moment)
    requires fits { AllPlaces DomainFits domains.old }
    requires early { t.0 ≤ most_span }
    ensures { domains.new ≡ change_at v.dom.0
        (λ (d : DomainRecord). record d { vcpus = change_item v.n (put_to_sleep t.0) d.vcpus })
        domains.old }
{
    if let Some(place) = domains.get_mut(v.dom.0 as usize)
        && let Some(domain) = place
    {
        sleep_at(domain, v.n as usize, t);
    }
}
