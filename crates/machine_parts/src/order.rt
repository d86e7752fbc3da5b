//! Which of several actions comes first, and which of several moments is the least.

ghost use Rattle.std.specs.Prelude.{◌≡◌, ◌+◌, ◌*◌, None, Some, IfNone, IfSome};
ghost use Rattle.std.specs.Option.{ForSome};
ghost use Rattle.sched_model.specs.Places.{at_place};
ghost use Rattle.composition_laws.specs.WholeFirst.{ComesEarliest, IsEarliest};
ghost use Rattle.composition_laws.specs.WholeNext.{IsSoonest};
ghost use Rattle.machine_parts.specs.Ranks.{IsSmall, rank_of, earlier_action};

use core_state::earlier;
use sched_base::{Moment, UnitId, VcpuId};
use sched_model::action::Action;

fn rank(kind: u8, subject: u8, index: u8) -> u32
    ensures { result ≡ kind * 65536 + subject * 256 + index }
{
    u32::from(kind) * 65_536 + u32::from(subject) * 256 + u32::from(index)
}

/// The rank of an action: its kind, then the number of its subject, then the index of a vCPU or a unit in its domain. Of two actions the
/// one of the lower rank comes first.
fn rank_of_action(action: Action) -> u32
    ensures rank { result ≡ rank_of action }
    ensures small { IsSmall action }
{
    match action {
        Action::Stall => rank(0, 0, 0),
        Action::Xl => rank(1, 0, 0),
        Action::Moved(r) => rank(2, r.0, 0),
        Action::DomMoved(d) => rank(3, d.0, 0),
        Action::Wake(VcpuId { dom, n }) => rank(4, dom.0, n),
        Action::Block(p) => rank(5, p.0, 0),
        Action::Slice(r) => rank(6, r.0, 0),
        Action::Repl(UnitId { dom, n }) => rank(7, dom.0, n),
        Action::Refill(d) => rank(8, d.0, 0),
        Action::Arrive(p) => rank(9, p.0, 0),
        Action::Decide(r) => rank(10, r.0, 0),
        Action::Leave(p) => rank(11, p.0, 0),
        Action::Save(r) => rank(12, r.0, 0),
    }
}

/// The earlier of an action and another one, if there is one.
fn earlier_of(a: Action, b: Option<Action>) -> Action
    ensures earlier { Some result ≡ earlier_action (Some a) b }
    ensures small { IsSmall a }
    ensures other { ForSome b IsSmall }
{
    let rank = rank_of_action(a);
    match b {
        None => a,
        Some(other) => if rank <= rank_of_action(other) {
            a
        } else {
            other
        },
    }
}

/// The earliest of the actions, by kind, number and index. `None` where there are none.
pub fn earliest(firsts: &[Option<Action>]) -> Option<Action>
    ensures { IsEarliest firsts.now result }
{
    let mut found = None;
    let mut i = firsts.len();
    while i > 0 {
        i -= 1;
        if let Some(action) = firsts[i] {
            found = Some(earlier_of(action, found));
        }
    }
    found
}

/// The place of the action of the least rank, and that action. `None` where there are none.
fn earliest_by_rank(firsts: &[Option<Action>]) -> Option<(usize, Action)>
    ensures none { IfNone result (IsEarliest firsts.now None) }
    ensures earliest { IfSome result (λ found. ComesEarliest firsts.now found.1) }
    ensures place { IfSome result (λ found. at_place firsts.now found.0 ≡ Some found.1) }
{
    let mut found = None;
    let mut least = u32::MAX;
    let mut i = firsts.len();
    while i > 0 {
        i -= 1;
        if let Some(action) = firsts[i] {
            let rank = rank_of_action(action);
            if rank <= least {
                least = rank;
                found = Some((i, action));
            }
        }
    }
    found
}

/// The place of the earliest of the actions, and that action. `None` where there are none. Of one place alone no rank is made.
pub fn earliest_place(firsts: &[Option<Action>]) -> Option<(usize, Action)>
    ensures none { IfNone result (IsEarliest firsts.now None) }
    ensures earliest { IfSome result (λ found. ComesEarliest firsts.now found.1) }
    ensures place { IfSome result (λ found. at_place firsts.now found.0 ≡ Some found.1) }
{
    match firsts {
        [None] => None,
        [Some(action)] => Some((0, *action)),
        _ => earliest_by_rank(firsts),
    }
}

/// The least of the moments. `None` where there are none.
pub fn soonest(moments: &[Option<Moment>]) -> Option<Moment>
    ensures { IsSoonest moments.now result }
{
    let mut least = None;
    let mut i = moments.len();
    while i > 0 {
        i -= 1;
        least = earlier(moments[i], least);
    }
    least
}
