//! Which pools were settled at the present moment, so that settling them again would change nothing.

ghost use Rattle.std.specs.Prelude.{◌≡◌, ◌&&◌, not};
ghost use Rattle.settle_laws.specs.Frees.{is_decision_spared, may_free};
ghost use Rattle.sched_plain.specs.SettledPools.{is_spared};

use sched_base::ResId;
use sched_model::action::Action;
use sched_model::places::item_at;
use sched_model::state::{Pool, Records, Resource};
use scheduler_records::credit2_slice::domain_has_budget;
use std::marker::Model;

/// A mark for each of the 16 pools: whether it was settled at the present moment, and nothing changed since that this depends on. Contracts see
/// the marks.
#[derive(Drop)]
pub struct Settled {
    marks: [bool; 16],
}

impl Model for Settled {
    ghost use Rattle.std.specs.Prelude.{Bool, List};

    ghost Value = { List Bool };

    ghost view = { λ s. s.marks };
}

impl Settled {
    ghost use Rattle.std.specs.Prelude.{◌≡◌, ◌<◌, true, false, replicate, slice_index_or, slice_set};

    /// No pool has a mark.
    pub fn none() -> Settled
        ensures { result ≡ replicate 16 false }
    {
        Settled { marks: [false; 16] }
    }

    /// Whether the pool at this place has one.
    pub fn has(&self, place: usize) -> bool
        requires { place < 16 }
        ensures { result ≡ slice_index_or self.now place false }
    {
        self.marks[place]
    }

    /// The pool at this place has one from now on.
    pub fn mark(&mut self, place: usize)
        requires { place < 16 }
        ensures { self.new ≡ slice_set self.old place true }
    {
        self.marks[place] = true;
    }

    /// No pool has one any more.
    pub fn clear(&mut self)
        ensures { self.new ≡ replicate 16 false }
    {
        self.marks = [false; 16];
    }
}

/// Whether a decision of the core may free something that another core may have: the budget of its own unit's domain, or what a leaving core
/// was given. An ARINC 653 pool is looked at after each decision.
fn decision_may_free(records: &Records, core: &Resource) -> bool
    ensures { result ≡ may_free core.now.cur core.now.leaving records.now }
{
    match records {
        Records::Credit2Pool(records) => match core.cur {
            None => false,
            Some(u) => !domain_has_budget(records, u),
        },
        Records::RtdsPool(_) => false,
        Records::ArincPool(_) => true,
        Records::NullPool(_) => core.leaving,
    }
}

/// Whether the decision of the core with this number frees nothing.
fn frees_nothing(r: ResId, pool: &Pool) -> bool
    ensures { result ≡ is_decision_spared pool.now.resources r.0
        pool.now.scheduler.records }
{
    match item_at(pool.resources.as_slice(), r.0 as usize) {
        None => true,
        Some(c) => !decision_may_free(&pool.scheduler.records, c),
    }
}

/// Whether the pool, as it is before the event, has to be looked at after it: it was not settled, or the event changes the scheduler or what a
/// core asks it, and is no decision that frees nothing.
pub fn needs_look(is_settled: bool, action: Action, pool: &Pool) -> bool
    ensures { result ≡ not (is_spared action pool.now && is_settled) }
{
    match action {
        Action::Arrive(_) | Action::Leave(_) | Action::Block(_) | Action::Slice(_) => !is_settled,
        Action::Decide(r) => !(frees_nothing(r, pool) && is_settled),
        _ => true,
    }
}
