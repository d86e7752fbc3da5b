//! The command of the example, done under the locks that its entry needs.

ghost use Rattle.std.specs.Prelude.{◌≡◌, [], IfErr, OnOk, take};
ghost use Rattle.lock_example.specs.Example.{two_entries};
ghost use Rattle.lock_example.specs.Holders.{Stands, StopsAt};

use crate::adding::write_first;
use crate::counter::Counter;
use lock_moves::{HeldBook, LockId, LockSeat, LockSet};
use std::sync::Wait;

/// Does the command under the tool's lock and the book alone, since its entry changes no other part. Where the book has other entries,
/// or no room for a further one, the answer is the book, and what was taken stays taken.
pub fn do_command<R: Wait>(
    rt: &R,
    set: &LockSet<Counter>,
    seat: &mut LockSeat,
) -> Result<(), HeldBook>
    requires stands { Stands set.now [] seat.old.view.shares seat.old }
    requires nothing { seat.old.view.held ≡ [] }
    ensures stands { OnOk result (Stands set.now (take 1 two_entries) seat.old.view.shares
        seat.new) }
    ensures nothing { OnOk result (seat.new.view.held ≡ []) }
    ensures refused { IfErr result (λ b. StopsAt set.now [] seat.old.view.shares b seat.new) }
{
    let mut tool = set.lock(rt, seat, LockId(16));
    let mut book = set.take_book(rt, seat);
    if !write_first(&mut book) {
        return Err(book);
    }
    set.commit(seat, book);
    *tool.get_mut() = Counter::new(16, 1);
    set.unlock(seat, tool);
    Ok(())
}
