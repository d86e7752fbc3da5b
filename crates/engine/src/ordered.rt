//! The ordered run, entry by entry: in each state the first event that may come.

use crate::engine::Engine;
use sched_model::action::Action;
use sched_model::event::{Entry, Event};

/// An entry, and whether it is the last.
#[derive(Drop)]
pub struct Step {
    pub entry: Entry,
    pub last: bool,
}

impl Engine {
    ghost use Rattle.std.specs.Prelude.{◌≡◌, None, Some};
    ghost use Rattle.sched_model.specs.Machine.{first_enabled_action};
    ghost use Rattle.machine_parts.specs.Parts.{event_pool};
    ghost use Rattle.engine.specs.OrderedRun.{next_entry, next_state, is_last};

    /// Goes on by the entry that the ordered run has next: the first event that may come, else the next moment, else the end.
    pub fn go_on(&mut self) -> Step
        ensures entry { result.entry ≡ next_entry self.old.machine self.old.state }
        ensures last { result.last ≡ is_last self.old.machine self.old.state }
        ensures after { self.new ≡ record self.old
            { state = next_state self.old.machine self.old.state } }
    {
        if self.is_quiet() {
            return match self.first_of_pools() {
                Some((place, action)) => self.go_by_pool(place, action),
                None => self.go_by_moment(),
            };
        }
        match self.first_enabled() {
            Some(action) => self.go_by(action),
            None => self.go_by_moment(),
        }
    }

    /// The same by the first action that may come now, which is one of this pool.
    fn go_by_pool(&mut self, place: u8, action: Action) -> Step
        requires first { first_enabled_action self.old.machine self.old.state self.old.state.now
            ≡ Some action }
        requires home { event_pool self.old.machine.config.granularity self.old.state action
            ≡ Some place }
        ensures entry { result.entry ≡ next_entry self.old.machine self.old.state }
        ensures last { result.last ≡ is_last self.old.machine self.old.state }
        ensures after { self.new ≡ record self.old
            { state = next_state self.old.machine self.old.state } }
    {
        let at = self.now();
        let event = self.perform_in_pool(place, action);
        Step {
            entry: Entry { at, event },
            last: false,
        }
    }

    /// The same by the first action that may come now.
    fn go_by(&mut self, action: Action) -> Step
        requires { first_enabled_action self.old.machine self.old.state self.old.state.now
            ≡ Some action }
        ensures entry { result.entry ≡ next_entry self.old.machine self.old.state }
        ensures last { result.last ≡ is_last self.old.machine self.old.state }
        ensures after { self.new ≡ record self.old
            { state = next_state self.old.machine self.old.state } }
    {
        let at = self.now();
        let event = self.perform(action);
        Step {
            entry: Entry { at, event },
            last: false,
        }
    }

    /// The same where nothing may come now: by the next moment, or else the end.
    fn go_by_moment(&mut self) -> Step
        requires { first_enabled_action self.old.machine self.old.state self.old.state.now ≡ None }
        ensures entry { result.entry ≡ next_entry self.old.machine self.old.state }
        ensures last { result.last ≡ is_last self.old.machine self.old.state }
        ensures after { self.new ≡ record self.old
            { state = next_state self.old.machine self.old.state } }
    {
        let at = self.now();
        match self.next_moment() {
            Some(next) => {
                self.pass_to(next);
                Step {
                    entry: Entry {
                        at,
                        event: Event::End { next },
                    },
                    last: false,
                }
            }
            None => Step {
                entry: Entry {
                    at,
                    event: Event::Finish,
                },
                last: true,
            },
        }
    }
}
