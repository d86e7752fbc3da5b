//! Which of two ids goes first, and whether an id's moment has come.

ghost use Rattle.std.specs.Prelude.{◌≡◌, Some};
ghost use Rattle.due_heap.specs.Dues as dues;
ghost use Rattle.due_heap.specs.Winners as winners;

use sched_base::Moment;

/// The moment at which an id is due. `None` where it is not armed, or has no moment.
pub fn due_of(moments: &[Option<Moment>], id: u16) -> Option<Moment>
    ensures { result ≡ dues.armed_moment moments.now id }
{
    if (id as usize) < moments.len() {
        moments[id as usize]
    } else {
        None
    }
}

/// Whether an id with its moment goes before another with its own: by moment, then by id.
pub fn goes_before(at: Moment, id: u16, other: Moment, other_id: u16) -> bool
    ensures { result ≡ winners.precedes (Some at) id (Some other) other_id }
{
    at.0 < other.0 || (at.0 == other.0 && id < other_id)
}

/// Whether an id goes before another: by moment, those that are not armed last, then by id.
fn is_before(moments: &[Option<Moment>], a: u16, b: u16) -> bool
    ensures { result ≡ winners.is_due_before moments.now a b }
{
    match (due_of(moments, a), due_of(moments, b)) {
        (Some(x), Some(y)) => goes_before(x, a, y, b),
        (Some(_), None) => true,
        (None, Some(_)) => false,
        (None, None) => a < b,
    }
}

/// Of two ids the one that goes first.
pub fn sooner(moments: &[Option<Moment>], a: u16, b: u16) -> u16
    ensures { result ≡ winners.sooner_id moments.now a b }
{
    if is_before(moments, b, a) { b } else { a }
}

/// Whether an id is armed and its moment has come at t.
pub fn is_due(moments: &[Option<Moment>], id: u16, t: Moment) -> bool
    ensures { result ≡ winners.is_armed_due moments.now t.0 id }
{
    match due_of(moments, id) {
        None => false,
        Some(at) => at.0 <= t.0,
    }
}
