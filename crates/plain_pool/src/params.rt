//! Changes of a pool's parameters. t is the moment.

ghost use Rattle.sched_model.specs.CheckedMachine.{most_span};
ghost use Rattle.std.specs.Prelude.{◌≡◌, ◌≤◌};
ghost use Rattle.sched_model.specs.Places.{change_each};
ghost use Rattle.sched_model.specs.Pool.{changed_pool};
ghost use Rattle.scheduler_records.specs.Fits.{RecordsFit};
ghost use Rattle.plain_schedulers.specs.Parameters.{ChangeFits};
ghost use Rattle.pool_records.specs.Marks.{due_now_of, pending_each, marked_cores};

use plain_schedulers::params::set_params as set_scheduler;
use pool_records::cores::is_of_domain;
use sched_base::{DomId, Moment};
use sched_model::config::ParamChange;
use sched_model::row::Row;
use sched_model::state::{Pool, Resource};

/// The core is to decide anew, and is due now, where it runs a unit of the domain.
fn make_core_due(d: DomId, t: Moment, core: &mut Resource)
    ensures { core.new ≡ due_now_of d.0 t.0 0 core.old }
{
    if is_of_domain(d, core.cur) {
        core.pending = true;
        core.due = Some(t);
    }
}

/// The cores that run a unit of the domain are to decide anew, and are due now.
fn make_due(d: DomId, t: Moment, cores: &mut Row<Option<Resource>>)
    ensures { cores.new ≡ change_each 0 (due_now_of d.0 t.0) cores.old }
{
    for r in 0..cores.len() {
        if let Some(c) = cores.item_mut(r) {
            make_core_due(d, t, c);
        }
    }
}

/// All cores are to decide anew.
fn mark_all(cores: &mut Row<Option<Resource>>)
    ensures { cores.new ≡ change_each 0 pending_each cores.old }
{
    for r in 0..cores.len() {
        if let Some(c) = cores.item_mut(r) {
            c.pending = true;
        }
    }
}

/// The cores that the change makes decide anew: those that run a unit of a domain whose cap is set, and all for a new frame.
fn mark(change: &ParamChange, t: Moment, cores: &mut Row<Option<Resource>>)
    ensures { cores.new ≡ marked_cores change.now t.0 cores.old }
{
    match change {
        ParamChange::Dom {
            dom,
            cap: Some(_),
            ..
        } => make_due(*dom, t, cores),
        ParamChange::Frame { .. } => mark_all(cores),
        _ => {}
    }
}

/// The parameters of the pool's scheduler, or of a domain of it, change at t. A change for another scheduler changes no parameters.
pub fn set_params(change: ParamChange, t: Moment, pool: &mut Pool)
    requires change { ChangeFits change }
    requires records { RecordsFit t.0 pool.old.scheduler.records }
    requires early { t.0 ≤ most_span }
    ensures { pool.new ≡ changed_pool change t.0 pool.old }
{
    mark(&change, t, &mut pool.resources);
    set_scheduler(change, t, &mut pool.scheduler);
}
