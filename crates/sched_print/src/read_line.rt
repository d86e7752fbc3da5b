//! A whole line is read as its entry, or it is told where it stops to be one.

ghost use Rattle.std.specs.Prelude.{◌≡◌, Ok, IfOk, IfErr, take};
ghost use Rattle.sched_print.specs.Places.{IsText, IsPlace};

use crate::line_buf::LINE_MOST;
use crate::read::entry;
use sched_model::event::Entry;
use thiserror::Error;

/// A line that is the text of no entry. The place is the length of its longest beginning with which the text of an entry begins.
#[derive(Clone, Copy, Debug, Error)]
#[error("no entry from byte {place} on")]
pub struct NotEntry {
    pub place: u32,
}

/// The first bytes, at most as many as a line may have.
fn front(line: &[u8]) -> &[u8]
    ensures { result.now ≡ take 192 line.now }
{
    if line.len() > LINE_MOST {
        &line[..LINE_MOST]
    } else {
        line
    }
}

/// The entry of a line without its newline.
///
/// An entry is one whose numbers are in their ranges, as those of every run are: it is answered exactly where the line is its
/// text. Every other line is answered with the place where it stops to begin the text of an entry. It takes no memory.
pub fn read_entry(line: &[u8]) -> Result<Entry, NotEntry>
    ensures found { IfOk result (λ e. IsText line.now e) }
    ensures only { (e : Entry) → IsText line.now e → result ≡ Ok e }
    ensures place { IfErr result (λ x. IsPlace line.now x.place) }
{
    let seen = front(line);
    match entry(seen) {
        Ok(e) => Ok(e),
        Err(left) => Err(NotEntry {
            place: (seen.len() - left) as u32,
        }),
    }
}
