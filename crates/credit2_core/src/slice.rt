//! How long a chosen unit runs. Spans are in nanoseconds.

ghost use Rattle.std.specs.Prelude.{◌≡◌, ◌≤◌, ◌<◌, length};
ghost use Rattle.queue_laws.specs.Arrivals.{arrivals};
ghost use Rattle.sched_model.specs.Credit2.{change_domain, most_weight, domain_after_take};
ghost use Rattle.scheduler_records.specs.Bounds.{PoolParamsFit};
ghost use Rattle.credit2_core.specs.Credit2State.{IsFree, IsLine, AreMasks};
ghost use Rattle.credit2_core.specs.Whole.{IsReadyIn, IsReadyBut};
ghost use Rattle.credit2_core.specs.Choice.{best_of, credit_or_0, unit_slice};

use crate::choice::other_credit;
use crate::run_queue::{Ready, follow};
use crate::state::Credit2State;
use sched_base::UnitId;
use sched_model::ask::Ask;
use sched_model::places::item_at;
use sched_model::state::Credit2Records;
use scheduler_records::credit2_running::take_at;
use scheduler_records::credit2_slice::slice_in;

/// How long the unit runs, where the best of the others has so much credit. The greatest weight of the pool is most.
fn slice_beside(records: &Credit2Records, most: u32, u: UnitId, other: i64) -> u64
    requires most { most ≡ most_weight records.now }
    requires params { PoolParamsFit records.now }
    requires limit { records.now.limit ≤ 500000 }
    ensures exact { result ≡ unit_slice records.now u other }
    ensures few { result ≤ 500000000 }
{
    match item_at(records.domains.as_slice(), u.dom.0 as usize) {
        None => 0,
        Some(d) => slice_in(d, u.n, other, most, records.limit as u64 * 1000),
    }
}

/// The chosen unit takes its budget; how long it runs. What is kept beside the records follows; its first unit stands where no
/// other one of the queue has come to be the first.
pub fn take_slice(
    state: &mut Credit2State,
    ready: &mut Ready,
    ask: &Ask,
    u: UnitId,
    stands: bool,
) -> u64
    requires ready { IsReadyBut u.dom.0 stands state.old.records state.old.queue.units ready.old }
    requires core { ask.now.core.0 < 64 }
    requires few { length state.old.records.domains ≤ 64 }
    requires params { PoolParamsFit state.old.records }
    requires taken { PoolParamsFit (change_domain u.dom.0 (domain_after_take u.n)
        state.old.records) }
    requires limit { state.old.records.limit ≤ 500000 }
    requires line { IsLine state.old }
    requires masks { AreMasks state.old.affinity state.old.masks }
    requires free { IsFree state.old.unpinned state.old.affinity }
    ensures records { state.new.records
        ≡ change_domain u.dom.0 (domain_after_take u.n) state.old.records }
    ensures line { IsLine state.new }
    ensures ready { IsReadyIn state.new ready.new }
    ensures slice { result ≡ unit_slice state.new.records u
        (credit_or_0 state.new.records (best_of (arrivals state.new.queue.units) state.new.affinity
        ask.now.home.0 ask.now.core.0 state.new.records)) }
    ensures short { result ≤ 500000000 }
    ensures rest { state.new ≡ record state.old { records = state.new.records } }
{
    take_at(u, &mut state.records);
    *ready = follow(state, *ready, u.dom, stands);
    let other = other_credit(state, ready, ask);
    slice_beside(&state.records, ready.most, u, other)
}
