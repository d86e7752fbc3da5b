//! A number for each scheduler.

ghost use Rattle.std.specs.Prelude.{◌≡◌};
ghost use Rattle.machine_parts.specs.Kinds.{count_of};

use sched_model::config::SchedKind;

/// How many pools of each scheduler.
#[derive(Clone, Copy)]
pub struct KindCounts {
    pub credit2: u8,
    pub rtds: u8,
    pub arinc: u8,
    pub null: u8,
}

impl KindCounts {
    /// How many of this scheduler.
    pub fn of(&self, kind: SchedKind) -> u8
        ensures { result ≡ count_of kind self.now }
    {
        match kind {
            SchedKind::Credit2 => self.credit2,
            SchedKind::Rtds => self.rtds,
            SchedKind::Arinc653 => self.arinc,
            SchedKind::Null => self.null,
        }
    }
}
