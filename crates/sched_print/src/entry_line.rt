//! The lines of entries, one after another.

ghost use Rattle.std.specs.Prelude.{◌≡◌, ◌≤◌, length, decimal};
ghost use Rattle.sched_print.specs.Lines.{BeginsWith};

use crate::line_buf::LineBuf;
use crate::put::put_event;
use sched_base::Moment;
use sched_model::event::Entry;
use std::marker::Model;

/// The line of an entry, and of the next one in its place. The digits of a moment stay where they are for all entries of it that follow one another.
/// Contracts see the bytes of the line.
#[derive(Drop)]
pub struct EntryLine {
    line: LineBuf,
    /// The moment whose digits the line begins with, so many of them.
    at: Moment,
    front: usize,
}

impl Model for EntryLine {
    ghost use Rattle.std.specs.Prelude.{ℕ, List};
    ghost use Rattle.sched_print.specs.Lines.{BeginsWith};

    ghost Value = { List ℕ };

    ghost view = { λ a. a.line };

    ghost invariant = { λ a. BeginsWith a.line a.at.0 a.front };
}

/// A line that begins with the digits of one moment, so many of them, becomes those of another moment. It answers how many there are.
fn begin(line: &mut LineBuf, was: Moment, front: usize, at: Moment) -> usize
    requires { BeginsWith line.old was.0 front }
    ensures line { line.new ≡ decimal at.0 }
    ensures count { result ≡ length line.new }
    ensures few { result ≤ 20 }
{
    if at == was {
        line.cut(front);
    } else {
        line.clear();
        line.put_number(at.0);
    }
    line.len()
}

impl EntryLine {
    ghost use Rattle.std.specs.Prelude.{◌≡◌, length, decimal, ◌≤◌};
    ghost use Rattle.sched_print.specs.Line.{line};

    /// Before the first line: the digits of moment 0 alone.
    pub fn new() -> EntryLine
        ensures { result ≡ decimal 0 }
    {
        let mut line = LineBuf::new();
        line.put_number(0);
        let front = line.len();
        EntryLine {
            line,
            at: Moment(0),
            front,
        }
    }

    /// The entry's line, with its newline, stands here now. It takes no memory.
    pub fn set(&mut self, e: &Entry)
        ensures { self.new ≡ line e.now }
    {
        self.front = begin(&mut self.line, self.at, self.front, e.at);
        self.at = e.at;
        put_event(&e.event, &mut self.line);
        self.line.put(b"\n");
    }

    /// The bytes of the line, of which there are at most 192.
    pub fn as_bytes(&self) -> &[u8]
        ensures bytes { result.now ≡ self.now }
        ensures length { length result.now ≤ 192 }
    {
        self.line.as_bytes()
    }
}
