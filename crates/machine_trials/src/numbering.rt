//! The actors of a machine, by numbers.

ghost use Rattle.std.specs.Prelude.{◌≡◌, ◌≤◌, ◌+◌, true};
ghost use Rattle.sched_model.specs.declared.config.Config.{Config as ConfigSpec};
ghost use Rattle.sched_model.specs.CheckedMachine.{IsCheckedConfig};
ghost use Rattle.hall.specs.Turns.{is_actor};
ghost use Rattle.machine_trials.specs.TrialSeats.{AreActors};

use sched_base::{DomId, ProcId};
use sched_model::action::Actor;
use sched_model::config::Config;

/// How many processors and domains a machine has. Its actors have numbers from 0: first its processors, then its domains, and last the tool.
#[derive(Clone, Copy)]
pub struct Actors {
    pub processors: u8,
    pub domains: u8,
}

/// The actors of the machine.
pub fn actors_of(config: &Config) -> Actors
    requires { IsCheckedConfig config.now }
    ensures { AreActors config.now result }
{
    Actors {
        processors: config.processors,
        domains: config.domains.len() as u8,
    }
}

impl Actors {
    /// The number of the tool.
    pub fn last(self) -> u16
        ensures { result ≡ self.processors + self.domains }
    {
        u16::from(self.processors) + u16::from(self.domains)
    }

    /// The actor with this number, which is at most the tool's.
    pub fn nth(self, actor: u16) -> Actor
        requires { actor ≤ self.processors + self.domains }
        ensures { (config : ConfigSpec) → AreActors config self → is_actor config result ≡ true }
    {
        let processors = u16::from(self.processors);
        if actor < processors {
            Actor::Proc(ProcId(actor as u8))
        } else if actor < self.last() {
            Actor::Dom(DomId((actor - processors) as u8))
        } else {
            Actor::Tool
        }
    }

    /// Whether the actor is one of them.
    pub fn has(self, actor: Actor) -> bool
        ensures { (config : ConfigSpec) → AreActors config self → is_actor config actor ≡ result }
    {
        match actor {
            Actor::Proc(p) => p.0 < self.processors,
            Actor::Dom(d) => d.0 < self.domains,
            Actor::Tool => true,
        }
    }
}
