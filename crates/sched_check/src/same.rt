//! Whether two actions are the same, and whether two events are the same in all that their lines print.

ghost use Rattle.std.specs.Prelude.{◌≡◌, ◌↔◌, true};
ghost use Rattle.sched_check.specs.Same.{same_action, same_event};

use sched_model::action::Action;
use sched_model::event::Event;

/// Whether two actions are the same.
pub fn is_same_action(a: Action, b: Action) -> bool
    ensures exact { result ≡ same_action a b }
    ensures same { (result ≡ true) ↔ (a ≡ b) }
{
    a == b
}

/// Whether two events are the same.
pub fn is_same_event(a: Event, b: Event) -> bool
    ensures exact { result ≡ same_event a b }
    ensures same { (result ≡ true) ↔ (a ≡ b) }
{
    a == b
}
