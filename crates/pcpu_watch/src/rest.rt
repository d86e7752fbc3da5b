//! The looks of the moments beside which nobody looked.

ghost use Rattle.std.specs.Prelude.{◌≡◌, ◌+◌, ◌≤◌, ◌<◌, length, take};
ghost use Rattle.pcpu_watch.specs.Looks.{AreLooks, LooksSoFar};

use crate::entries::opens_next;
use crate::looks::{Look, Looks};
use journal_core::Book;

/// Adds a look at all entries up to this one, where a moment ends with it.
fn look_at_end(book: &Book, place: u32, looks: &mut Looks)
    requires inside { place < length book.now.history }
    requires looks { LooksSoFar (take place book.now.history) looks.old.items }
    requires room { book.now.limit < looks.old.room }
    ensures looks { LooksSoFar (take (place + 1) book.now.history) looks.new.items }
    ensures room { looks.new.room ≡ looks.old.room }
{
    book.tell();
    let entry = book.get(place);
    if opens_next(&entry) {
        looks.push(Look {
            entries: u64::from(place) + 1,
            moment: entry.at,
        });
    }
}

/// Adds a look for each moment that ends behind the first so many entries, beside which nobody looked.
pub(crate) fn look_at_rest(book: &Book, read: u64, looks: &mut Looks)
    requires inside { read ≤ length book.now.history }
    requires looks { LooksSoFar (take read book.now.history) looks.old.items }
    requires room { book.now.limit < looks.old.room }
    ensures { AreLooks book.now.history looks.new.items }
{
    book.tell();
    for place in read as u32..book.len() {
        look_at_end(book, place, looks);
    }
}
