//! Where the output goes.

ghost use Rattle.std.specs.Prelude.{◌≡◌, ◌≤◌, ℕ, List, Option, OnOk, OnErr};
ghost use Rattle.sched_io.specs.Faults.{Rose};
ghost use Rattle.sched_io.specs.Puts.{Adds, AddsPart};

use sched_base::Failed;

/// What takes the output, piece by piece.
pub trait Sink {
    /// The bytes that were put so far, or `None` where the sink does not tell them.
    ghost told: { Self → Option (List ℕ) };

    /// How often a put or a flush failed. It never falls.
    ghost faults: { Self → ℕ };

    /// How many bytes were put and are not handed on yet.
    ghost kept: { Self → ℕ };

    /// Appends the piece. It takes no memory.
    ///
    /// After `Failed` a prefix of the piece was appended, and the count of faults rose. A sink that tells its bytes
    /// after the call told them before it.
    fn put(&mut self, piece: &[u8]) -> Result<(), Failed>
        ensures appended { OnOk result (Adds (told self.old) (told self.new) piece.now) }
        ensures prefix { OnErr result (AddsPart (told self.old) (told self.new) piece.now) }
        ensures counts { faults self.old ≤ faults self.new }
        ensures cause { OnErr result (Rose (faults self.old) (faults self.new)) };

    /// Hands on all that is kept. It takes no memory.
    ///
    /// After `Failed` the count of faults rose, and what could not be handed on is lost. What the sink tells of its bytes stays.
    fn flush(&mut self) -> Result<(), Failed>
        ensures told { told self.new ≡ told self.old }
        ensures none_kept { kept self.new ≡ 0 }
        ensures counts { faults self.old ≤ faults self.new }
        ensures cause { OnErr result (Rose (faults self.old) (faults self.new)) };
}
