//! The cores of a pool.

ghost use Rattle.std.specs.Prelude.{◌≡◌, ℕ, ◌+◌, ◌<◌, ◌≤◌, ◌^◌, ◌||◌, true, length};
ghost use Rattle.std.specs.List.{list_any, list_all};
ghost use Rattle.sched_model.specs.declared.state.Resource.{Resource as ResourceRecord};
ghost use Rattle.sched_model.specs.Places.{first_place, numbered_items, is_unit};
ghost use Rattle.sched_model.specs.Pool.{cores_from, is_held_back, is_idling, is_domain_unit, is_gathering, is_first_processor_up, lateness};
ghost use Rattle.sched_model.specs.State.{is_not_stalled};
ghost use Rattle.sched_base.specs.Numbers.{has_moment_come, span};

use sched_base::{DomId, Moment, Span, UnitId};
use sched_model::state::{Doing, Processor, Resource, Stage};
use sched_model::units::is_there;

/// The set of the cores that are there.
pub fn home_cores(cores: &[Option<Resource>]) -> u64
    requires { length cores.now ≤ 64 }
    ensures { result ≡ cores_from 0 cores.now }
{
    let mut set = 0u64;
    for r in 0..cores.len() {
        if cores[r].is_some() {
            set += 1u64 << r;
        }
    }
    set
}

/// Whether the moment has come at t.
pub fn has_come(t: Moment, moment: Option<Moment>) -> bool
    ensures { result ≡ has_moment_come t.0 moment }
{
    match moment {
        None => false,
        Some(m) => m.0 <= t.0,
    }
}

/// Whether the processor is not stalled at t.
pub fn is_up(t: Moment, p: &Processor) -> bool
    ensures { result ≡ is_not_stalled t.0 p.now }
{
    p.stall_end.0 <= t.0
}

/// Whether the processor waits for its siblings.
pub fn is_held(p: &Processor) -> bool
    ensures { result ≡ is_held_back p.now }
{
    match p.doing {
        Doing::Held => true,
        _ => false,
    }
}

/// Whether the processor idles.
pub fn is_idle(p: &Processor) -> bool
    ensures { result ≡ is_idling p.now }
{
    match p.doing {
        Doing::Idle => true,
        _ => false,
    }
}

/// Whether the core's siblings still gather.
pub fn is_open(core: &Resource) -> bool
    ensures { result ≡ is_gathering core.now }
{
    match core.stage {
        Stage::Open => true,
        Stage::Decided => false,
    }
}

/// Whether the core's first processor is up at t.
pub fn first_up(t: Moment, core: &Resource) -> bool
    ensures { result ≡ is_first_processor_up t.0 core.now }
{
    match core.processors.as_slice() {
        [] => false,
        [p, ..] => is_up(t, p),
    }
}

/// Whether each of the processors waits for its siblings.
pub fn all_held(processors: &[Processor]) -> bool
    ensures { result ≡ list_all is_held_back processors.now }
{
    processors.iter().all(|p| is_held(p))
}

/// Whether some of the processors waits for its siblings.
pub fn any_held(processors: &[Processor]) -> bool
    ensures { result ≡ list_any is_held_back processors.now }
{
    processors.iter().any(|p| is_held(p))
}

/// The number of the first core.
pub fn first_core(cores: &[Option<Resource>]) -> Option<usize>
    ensures { result ≡ first_place 0 (λ c. true) cores.now }
{
    for r in 0..cores.len() {
        if cores[r].is_some() {
            return Some(r);
        }
    }
    None
}

/// The core that has the unit as its cur, where the first of these has the number r.
fn core_from(r: usize, cores: &[Option<Resource>], u: UnitId) -> Option<usize>
    requires { r + length cores.now < 2 ^ 64 }
    ensures { result ≡ first_place r (λ c. is_unit c.cur u) cores.now }
{
    match cores {
        [] => None,
        [None, rest @ ..] => core_from(r + 1, rest, u),
        [Some(c), rest @ ..] => {
            if is_there(c.cur, u) {
                Some(r)
            } else {
                core_from(r + 1, rest, u)
            }
        }
    }
}

/// The core that has the unit as its cur.
pub fn core_of(cores: &[Option<Resource>], u: UnitId) -> Option<usize>
    requires { length cores.now ≤ 64 }
    ensures { result ≡ first_place 0 (λ c. is_unit c.cur u) cores.now }
{
    core_from(0, cores, u)
}

/// Whether the unit is cur or saving of one of the cores, where the first of these has the number r.
pub fn is_on_core(r: usize, cores: &[Option<Resource>], u: UnitId) -> bool
    requires { r + length cores.now < 2 ^ 64 }
    ensures { result ≡ list_any (λ (e : ℕ × ResourceRecord). is_unit e.1.cur u
        || is_unit e.1.saving u) (numbered_items r cores.now) }
{
    match cores {
        [] => false,
        [None, rest @ ..] => is_on_core(r + 1, rest, u),
        [Some(c), rest @ ..] => {
            is_there(c.cur, u) || is_there(c.saving, u) || is_on_core(r + 1, rest, u)
        }
    }
}

/// Whether some unit of the domain is cur or saving of one of the cores, where the first of these has the number r.
pub fn has_domain(r: usize, cores: &[Option<Resource>], d: DomId) -> bool
    requires { r + length cores.now < 2 ^ 64 }
    ensures { result ≡ list_any (λ (e : ℕ × ResourceRecord). is_domain_unit d.0 e.1.cur
        || is_domain_unit d.0 e.1.saving) (numbered_items r cores.now) }
{
    match cores {
        [] => false,
        [None, rest @ ..] => has_domain(r + 1, rest, d),
        [Some(c), rest @ ..] => {
            is_of_domain(d, c.cur) || is_of_domain(d, c.saving) || has_domain(r + 1, rest, d)
        }
    }
}

/// How much later than its due the core decides.
pub fn lateness_of(t: Moment, core: &Resource) -> Span
    ensures { result ≡ span (lateness t.0 core.now) }
{
    match core.due {
        None => Span(0),
        Some(due) => Span(t.0.saturating_sub(due.0)),
    }
}

/// Whether the unit that stands there, if any does, is one of the domain.
pub fn is_of_domain(d: DomId, there: Option<UnitId>) -> bool
    ensures { result ≡ is_domain_unit d.0 there }
{
    match there {
        None => false,
        Some(u) => u.dom.0 == d.0,
    }
}
