//! The move of a domain from its pool to another.

ghost use Rattle.std.specs.Prelude.{◌≡◌, ◌≤◌};
ghost use Rattle.std.specs.Option.{ForSome, IsSome};
ghost use Rattle.sched_model.specs.declared.action.Action.TheVariants.{DomMoved};
ghost use Rattle.sched_model.specs.declared.state.Records.{Records};
ghost use Rattle.sched_model.specs.Machine.{event_of, is_null_pool};
ghost use Rattle.sched_model.specs.Places.{at_place};
ghost use Rattle.sched_model.specs.Policy.{standard_dom_params, records_kind};
ghost use Rattle.sched_ops.specs.Conditions.{AreDomParams};
ghost use Rattle.unit_state.specs.Seen.{units_at};
ghost use Rattle.pool_core.specs.Seen.{IsNow};
ghost use Rattle.cpupool.specs.Tool.{tool_of};
ghost use Rattle.machine_parts.specs.Counts.{KeepsCounts};
ghost use Rattle.machine_parts.specs.Places.{StandsAt, state_of};
ghost use Rattle.tool_actions.specs.Acts.{Begins, HasActed, HasMoved, MayMove};
ghost use Rattle.tool_actions.specs.DomainMoves.{HasLeft, MovesDomain, looked_at, told_moved};

use cpupool::{Move, ToolState};
use machine_parts::{PoolSlot, Trail};
use sched_base::{DomId, Moment, PoolId, Span};
use sched_model::config::{DomParams, SchedKind};
use sched_model::event::Event;
use sched_model::facts::Stored;
use unit_state::DomPart;

/// A domain that is on its way, its pool, the pool to which it goes, and the scheduler there.
#[derive(Clone, Copy)]
pub struct DomainRoute {
    pub d: DomId,
    pub from: PoolId,
    pub to: PoolId,
    pub kind: SchedKind,
}

/// The parameters with which a domain joins a pool of this scheduler.
fn default_dom_params(kind: SchedKind) -> DomParams
    ensures default { (records : Records) → records_kind records ≡ kind → result
        ≡ standard_dom_params records }
    ensures fit { AreDomParams kind result }
{
    match kind {
        SchedKind::Credit2 => DomParams::Credit2 {
            weight: 256,
            cap: 0,
        },
        SchedKind::Rtds => DomParams::Rtds {
            period: Span(10_000_000),
            budget: Span(4_000_000),
            extra: true,
        },
        SchedKind::Arinc653 => DomParams::Arinc653,
        SchedKind::Null => DomParams::Null,
    }
}

/// Whether the pool has the null scheduler, as it tells of the first unit of a domain that is there.
fn is_null(slot: &PoolSlot, d: DomId) -> bool
    requires some { IsSome slot.now }
    requires units { ForSome slot.now (λ seen. 1
        ≤ units_at seen.granularity (at_place seen.pool.domains d.0)) }
    ensures { ForSome slot.now (λ seen. result ≡ is_null_pool seen.pool.scheduler.records) }
{
    let facts = slot.facts(Some(d));
    matches!(facts.units.as_slice()[0], Stored::Null)
}

/// Looks at the cores of the pool, where that is asked.
fn look_where(looks: bool, slot: &mut PoolSlot, t: Moment)
    requires now { ForSome slot.old (λ seen. IsNow seen t.0) }
    ensures { slot.new ≡ looked_at looks t.0 slot.old }
{
    if looks {
        slot.settle(t);
    }
}

/// The domain leaves its pool. A null pool's cores are looked at, since one of them may have become free for a waiting unit.
fn leave_pool(slot: &mut PoolSlot, trail: &Trail, route: DomainRoute, t: Moment) -> DomPart
    requires moves { MovesDomain trail.now t.0 route }
    requires stands { StandsAt trail.now route.from.0 slot.old }
    ensures part { HasLeft trail.now route result }
    ensures stands { StandsAt (told_moved trail.now t.0 route) route.from.0 slot.new }
{
    let looks = is_null(slot, route.d);
    let part = slot.take_domain(route.d);
    look_where(looks, slot, t);
    part
}

/// The domain, which has left its pool, joins the other one with the default parameters of the scheduler there. It moves no more.
fn join_pool(slot: &mut PoolSlot, trail: &Trail, route: DomainRoute, part: DomPart, t: Moment)
    requires moves { MovesDomain trail.now t.0 route }
    requires stands { StandsAt trail.now route.to.0 slot.old }
    requires part { HasLeft trail.now route part }
    ensures { StandsAt (told_moved trail.now t.0 route) route.to.0 slot.new }
{
    let mut part = part;
    part.domain.moving = None;
    slot.give_domain(trail, route.to.0, part, &default_dom_params(route.kind), t);
}

/// The domain that is on its way, and where it comes from and goes to, where its move may come at t.
fn route_of(tool: &ToolState, trail: &Trail, d: DomId, t: Moment) -> DomainRoute
    requires { Begins trail.now tool.now t.0 (DomMoved d) }
    ensures number { result.d ≡ d }
    ensures moves { MovesDomain trail.now t.0 result }
{
    let Some(Move::Dom { to, kind, .. }) = tool.moving() else {
        unreachable!();
    };
    let Some(from) = tool.home_of_domain(d) else {
        unreachable!();
    };
    DomainRoute { d, from, to, kind }
}

/// The move is over, as the tool knows it: its event.
fn end_move(tool: &mut ToolState, trail: &Trail, route: DomainRoute, t: Moment) -> Event
    requires moves { MovesDomain trail.now t.0 route }
    requires known { tool_of trail.now.input (state_of trail.now) ≡ tool.old }
    ensures event { result ≡ event_of trail.now.input (state_of trail.now) (state_of trail.now).now
        (DomMoved route.d) }
    ensures acted { HasActed trail.now route.from.0 route.to.0 (told_moved trail.now t.0 route)
        tool.new }
    ensures counts { KeepsCounts tool.old.part tool.new.part }
{
    tool.move_done();
    Event::DomMoved {
        d: route.d,
        to: route.to,
    }
}

/// The domain goes from its pool to the one to which it is moving, where each of the 16 places is the part of its number in the machine,
/// which stands where the trail leads, and the tool knows that state.
pub fn move_domain(
    slots: &mut [PoolSlot],
    tool: &mut ToolState,
    trail: &Trail,
    d: DomId,
    t: Moment,
) -> Event
    requires { MayMove trail.now slots.old tool.old t.0 (DomMoved d) }
    ensures { HasMoved trail.now t.0 (DomMoved d) result slots.new tool.old tool.new }
{
    let route = route_of(tool, trail, d, t);
    let part = leave_pool(&mut slots[route.from.0 as usize], trail, route, t);
    join_pool(&mut slots[route.to.0 as usize], trail, route, part, t);
    end_move(tool, trail, route, t)
}
