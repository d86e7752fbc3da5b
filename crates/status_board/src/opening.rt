//! How a board is opened.

ghost use Rattle.std.specs.Prelude.{◌≡◌, ◌+◌, ◌≤◌, [], ◌++◌, IfOk, length, replicate, vec_capacity};
ghost use Rattle.status_board.specs.Boards.{nothing_written, nothing_seen};

use crate::reader::BoardReader;
use crate::rule::Author;
use crate::sums::Sums;
use crate::writer::BoardWriter;
use left_right::writer::Writer;
use sched_base::NoMemory;
use std::alloc::Global;

/// Adds so many readers of a board on which nothing was published.
fn seat_readers(all: &mut Vec<BoardReader>, author: &Author, cores: u8, readers: u8)
    requires cores { cores ≤ 64 }
    requires room { length all.old.items + readers ≤ vec_capacity all.old }
    ensures { all.new.items ≡ all.old.items ++ replicate readers (nothing_seen cores) }
{
    for _ in 0..readers {
        let seat = author.factory().reader().ok();
        all.push_reserved(BoardReader::seated(seat, &Sums::new(), cores));
    }
}

/// The writer and so many readers, 1 to 64, of a board that shows the cores below this number, 1 to 64. Nothing was added.
pub fn open(
    alloc: Global,
    cores: u8,
    readers: u8,
) -> Result<(BoardWriter, Vec<BoardReader>), NoMemory>
    requires cores { (1 ≤ cores) × (cores ≤ 64) }
    requires readers { (1 ≤ readers) × (readers ≤ 64) }
    ensures writer { IfOk result (λ r. r.0 ≡ nothing_written cores) }
    ensures readers { IfOk result (λ r. r.1.items ≡ replicate readers (nothing_seen cores)) }
{
    let mut all = Vec::with_capacity(alloc, readers as usize)?;
    let author = Writer::new(alloc, Sums::new(), Sums::new(), 2 * readers as usize)?;
    seat_readers(&mut all, &author, cores, readers);
    Ok((BoardWriter::over(author, cores), all))
}
