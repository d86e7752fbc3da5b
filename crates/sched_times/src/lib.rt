//! Times of a machine: for how long its vCPUs run, wait and sleep, its units have cores, and its cores have units.
//!
//! The tally is told the entries one by one. An entry costs the same however long the run is and however large the machine,
//! and takes no memory. `specs/` says what each time is by the entries alone, and not by this tally.
#![tactic(auto)]

ghost use Rattle.std.specs.Prelude.{◌≡◌, ◌+◌, ◌++◌, ◌∷◌, [], IfOk, true, reverse};
ghost use Rattle.sched_model.specs.CheckedMachine.{IsGranularity};
ghost use Rattle.unit_places.specs.Places.{has_unit_place};
ghost use Rattle.sched_times.specs.Present.{vcpu_place, processor_grant as grant_of};
ghost use Rattle.sched_times.specs.Figures as figures;

mod example;
mod grant;
mod range;
mod tally;

pub use example::{measured_times, woken_runs_at_once};
pub use grant::{Grant, Sleep, sleep_of};
use grant::{core_grant, note_idle, processor_grant};
pub use range::Range;
use range::told_by;
use sched_base::{Moment, NoMemory, ProcId, ResId, UnitId, VcpuId};
use sched_model::config::Config;
use sched_model::event::Entry;
use sched_report::Past;
use std::alloc::Global;
use std::marker::Model;
use std::snapshot::Snapshot;
use tally::{ResourceTally, UserTally, tell};
use unit_places::{PLACES, index_of};

/// How many cores and processors have a place, by their numbers.
const RESOURCES: usize = 256;

/// The times of a machine within a range. All memory is taken when it is made. Contracts see the machine's config, the range and
/// the entries that were told.
#[derive(Drop)]
pub struct Times {
    config: Snapshot<Config>,
    range: Range,
    past: Snapshot<Past>,
    granularity: u8,
    horizon: Moment,
    until: Moment,
    cores: Vec<ResourceTally>,
    units: Vec<UserTally>,
    processors: Vec<ResourceTally>,
    vcpus: Vec<UserTally>,
    idle: Vec<bool>,
}

impl Model for Times {
    ghost use Rattle.sched_times.specs.Figures.{Told, told};
    ghost use Rattle.sched_times.specs.Tallies.{IsTally};

    ghost Value = { Told };

    ghost view = { λ t. told t.config.value t.range t.past.value };

    ghost invariant = { λ t. IsTally t.config.value t.range t.past.value t.granularity t.horizon.0 t.until.0
        t.cores.items t.units.items t.processors.items t.vcpus.items t.idle.items };
}

impl Times {
    /// The times within a range of a machine with this config, of which nothing was told.
    pub fn room(alloc: Global, config: &Config, range: Range) -> Result<Times, NoMemory>
        requires { IsGranularity config.now.granularity }
        ensures config { IfOk result (λ t. t.config ≡ config.now) }
        ensures range { IfOk result (λ t. t.range ≡ range) }
        ensures empty { IfOk result (λ t. t.entries ≡ []) }
    {
        Ok(Times {
            config: Snapshot::of(config),
            range,
            past: Past::nothing(),
            granularity: config.granularity,
            horizon: config.horizon,
            until: Moment(0),
            cores: vec![in alloc; ResourceTally::UNUSED; RESOURCES]?,
            units: vec![in alloc; UserTally::AWAKE; PLACES]?,
            processors: vec![in alloc; ResourceTally::UNUSED; RESOURCES]?,
            vcpus: vec![in alloc; UserTally::AWAKE; PLACES]?,
            idle: vec![in alloc; false; RESOURCES]?,
        })
    }

    /// Tells an entry. It takes no memory.
    pub fn add(&mut self, e: &Entry)
        ensures config { self.new.config ≡ self.old.config }
        ensures range { self.new.range ≡ self.old.range }
        ensures added { self.new.entries ≡ self.old.entries ++ e.now ∷ [] }
    {
        let given = processor_grant(
            self.granularity,
            self.units.as_slice(),
            self.idle.as_slice(),
            e,
        );
        self.until = Moment(self.until.0.max(told_by(self.horizon, e).0));
        let now = self.range.over_at(self.until);
        tell(
            self.cores.as_mut_slice(),
            self.units.as_mut_slice(),
            core_grant(e),
            None,
            now,
        );
        tell(
            self.processors.as_mut_slice(),
            self.vcpus.as_mut_slice(),
            given,
            sleep_of(e),
            now,
        );
        note_idle(self.idle.as_mut_slice(), e);
        Past::push(&mut self.past, e);
    }

    /// What the entry would give of a processor if it came next: a vCPU that gets one begins to run.
    pub fn next_grant(&self, e: &Entry) -> Option<Grant>
        ensures { result
            ≡ grant_of self.now.config.granularity e.now (reverse self.now.entries) }
    {
        processor_grant(
            self.granularity,
            self.units.as_slice(),
            self.idle.as_slice(),
            e,
        )
    }

    /// How much of the range the entries tell.
    pub fn told(&self) -> u64
        ensures { result ≡ figures.told_time self.now.range self.now.config self.now.entries }
    {
        self.range.over_at(self.until)
    }

    /// For how long the vCPU runs.
    pub fn vcpu_run(&self, v: VcpuId) -> u64
        requires { has_unit_place (vcpu_place v) ≡ true }
        ensures { result ≡ figures.run_of_vcpu self.now.range self.now.config self.now.entries v }
    {
        self.vcpus[index_of(UnitId { dom: v.dom, n: v.n })].run_at(self.told())
    }

    /// For how long it waits.
    pub fn vcpu_wait(&self, v: VcpuId) -> u64
        requires { has_unit_place (vcpu_place v) ≡ true }
        ensures { result ≡ figures.wait_of_vcpu self.now.range self.now.config self.now.entries v }
    {
        self.vcpus[index_of(UnitId { dom: v.dom, n: v.n })].wait_at(self.told())
    }

    /// For how long it sleeps: the rest of the time.
    pub fn vcpu_sleep(&self, v: VcpuId) -> u64
        requires { has_unit_place (vcpu_place v) ≡ true }
        ensures sleep { result
            ≡ figures.sleep_of_vcpu self.now.range self.now.config self.now.entries v }
        ensures rest { figures.run_of_vcpu self.now.range self.now.config self.now.entries v
            + figures.wait_of_vcpu self.now.range self.now.config self.now.entries v + result
            ≡ figures.told_time self.now.range self.now.config self.now.entries }
    {
        self.told() - self.vcpu_run(v) - self.vcpu_wait(v)
    }

    /// For how long the unit has a core.
    pub fn unit_run(&self, u: UnitId) -> u64
        requires { has_unit_place u ≡ true }
        ensures { result ≡ figures.run_of_unit self.now.range self.now.config self.now.entries u }
    {
        self.units[index_of(u)].run_at(self.told())
    }

    /// For how long the core has a unit.
    pub fn core_run(&self, r: ResId) -> u64
        ensures { result ≡ figures.run_of_core self.now.range self.now.config self.now.entries r }
    {
        self.cores[usize::from(r.0)].used_at(self.told())
    }

    /// For how long it has none: the rest of the time.
    pub fn core_idle(&self, r: ResId) -> u64
        ensures idle { result
            ≡ figures.idle_of_core self.now.range self.now.config self.now.entries r }
        ensures rest { figures.run_of_core self.now.range self.now.config self.now.entries r
            + result ≡ figures.told_time self.now.range self.now.config self.now.entries }
    {
        self.told() - self.core_run(r)
    }

    /// For how long the processor runs a vCPU.
    pub fn processor_run(&self, p: ProcId) -> u64
        ensures { result
            ≡ figures.run_of_processor self.now.range self.now.config self.now.entries p }
    {
        self.processors[usize::from(p.0)].used_at(self.told())
    }
}
