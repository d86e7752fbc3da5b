//! The vCPUs of a domain at the opening, and scripts once more.

ghost use Rattle.std.specs.Prelude.{◌≡◌, ◌+◌, ◌≤◌, ◌<◌, ◌^◌, ◌∷◌, [], List, Option, Some, None, IfOk, replicate, length, map};
ghost use Rattle.sched_model.specs.Opening.{vcpu_at_opening};

use sched_base::{NoMemory, Span};
use sched_model::config::Script;
use sched_model::row::{Row, empty_places};
use sched_model::state::{Vcpu, Vcpus};
use std::alloc::Global;

/// The script once more.
fn same_script(alloc: Global, script: &Script) -> Result<Script, NoMemory>
    ensures { IfOk result (λ same. same ≡ script.now) }
{
    let mut spans: Vec<Span> = Vec::new(alloc);
    for span in script.as_slice() {
        spans.push(*span)?;
    }
    Ok(Row::from_vec(spans))
}

/// A vCPU at the opening: awake, with the first run of its script as work left.
fn fresh_vcpu(alloc: Global, script: &Script) -> Result<Vcpu, NoMemory>
    ensures { IfOk result (λ v. v ≡ vcpu_at_opening script.now) }
{
    let work_left = match script.as_slice() {
        [] => None,
        [run, ..] => Some(*run),
    };
    Ok(Vcpu {
        script: same_script(alloc, script)?,
        place: 0,
        asleep_until: None,
        work_left,
        started: None,
    })
}

/// The vCPUs of a domain at the opening.
pub fn fresh_vcpus(alloc: Global, guests: &[Script]) -> Result<Vcpus, NoMemory>
    ensures { IfOk result (λ vcpus. vcpus ≡ map vcpu_at_opening guests.now) }
{
    let mut vcpus = Vec::new(alloc);
    for script in guests {
        vcpus.push(fresh_vcpu(alloc, script)?)?;
    }
    Ok(Row::from_vec(vcpus))
}
