//! Entries, and the answers of the calls of a hall, printed.

use hall::{Acted, Done, Full, Turn, Waits};
use sched_base::Moment;
use sched_model::event::{Entry, Event};
use sched_print::{LineBuf, put_entry};
use std::{fmt, io};

/// An entry, as its line.
#[derive(Drop)]
struct EntryText(Entry);

impl fmt::Display for EntryText {
    fn fmt<W: fmt::Write>(&self, f: &mut fmt::Formatter<W>) -> fmt::Result {
        let mut line = LineBuf::new();
        put_entry(&self.0, &mut line);
        let text = str::from_utf8(line.as_bytes()).unwrap_or("");
        f.write_str(text.trim_ascii_end())
    }
}

/// An event, as it stands in an entry's line behind the moment.
#[derive(Drop)]
struct EventText(Event);

impl fmt::Display for EventText {
    fn fmt<W: fmt::Write>(&self, f: &mut fmt::Formatter<W>) -> fmt::Result {
        let mut line = LineBuf::new();
        let entry = Entry {
            at: Moment(0),
            event: self.0,
        };
        put_entry(&entry, &mut line);
        let text = str::from_utf8(line.as_bytes()).unwrap_or("");
        let (_, event) = text.split_once(' ').unwrap_or(("", text));
        f.write_str(event.trim_ascii_end())
    }
}

/// Prints the line of an entry.
pub fn put_line<R: Print>(rt: &R, entry: Entry) -> io::Result<()> {
    println!(rt; "{}", EntryText(entry))
}

/// Prints an answer of `act`.
pub fn put_done<R: Print>(rt: &R, answer: Result<Done, Full>) -> io::Result<()> {
    match answer {
        Ok(Done::Event { place, event }) => print!(rt; "place {place}: {}", EventText(event)),
        Ok(Done::Nothing) => print!(rt; "nothing"),
        Err(full) => print!(rt; "full {}", full.events),
    }
}

/// Prints an answer of `act_pool`.
pub fn put_acted<R: Print>(rt: &R, answer: Result<Acted, Full>) -> io::Result<()> {
    match answer {
        Ok(
            Acted {
                count,
                first: Some(place),
            },
        ) => print!(rt; "{count} from place {place}"),
        Ok(Acted { count, first: None }) => print!(rt; "{count}"),
        Err(full) => print!(rt; "full {}", full.events),
    }
}

/// Prints an answer of `close_or_step`.
pub fn put_turn<R: Print>(rt: &R, answer: Result<Turn, Full>) -> io::Result<()> {
    match answer {
        Ok(Turn::Stepped { place, event }) => print!(rt; "place {place}: {}", EventText(event)),
        Ok(Turn::Closed { place, next }) => print!(rt; "closed {place} next {}", next.0),
        Ok(Turn::Finished { place }) => print!(rt; "finished {place}"),
        Ok(Turn::Over { place }) => print!(rt; "over {place}"),
        Err(full) => print!(rt; "full {}", full.events),
    }
}

/// Prints an answer of `still_waits`.
pub fn put_waits<R: Print>(rt: &R, answer: Waits) -> io::Result<()> {
    match answer {
        Waits::Still => print!(rt; "still"),
        Waits::Gone { decides } => print!(rt; "gone {decides}"),
        Waits::NotWaiting => print!(rt; "not waiting"),
    }
}

/// Prints an answer of `entry`.
pub fn put_found<R: Print>(rt: &R, answer: Option<Entry>) -> io::Result<()> {
    match answer {
        Some(entry) => print!(rt; "{}", EntryText(entry)),
        None => print!(rt; "no entry"),
    }
}
