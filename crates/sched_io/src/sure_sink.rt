//! A sink in memory that never fails.

ghost use Rattle.std.specs.Prelude.{◌≡◌, ◌≤◌, ◌<◌, [], OnOk, OnErr, IfOk, IsOk, Some, None, false, if◌then◌else◌};
ghost use Rattle.sched_io.specs.Puts.{Adds, AddsPart};
ghost use Rattle.sched_io.specs.Memory.{SureState, after_sure_put};

use crate::sink::Sink;
use sched_base::{Failed, NoMemory};
use std::alloc::Global;
use std::marker::Model;

/// Bytes and their room. Its bytes are told until a put would pass the room; from then on it keeps and tells nothing
/// more.
#[derive(Drop)]
pub struct SureSink {
    bytes: Vec<u8>,
    room: usize,
    over: bool,
}

impl Model for SureSink {
    ghost use Rattle.std.specs.Prelude.{◌≤◌, length, vec_capacity};
    ghost use Rattle.sched_io.specs.Memory.{SureState};

    ghost Value = { SureState };

    ghost view = { λ a. record { bytes = a.bytes.items; room = a.room; over = a.over } };

    ghost invariant = { λ a. (length a.bytes.items ≤ a.room) × (a.room ≤ vec_capacity a.bytes) };
}

impl SureSink {
    /// An empty sink for this many bytes.
    pub fn room(alloc: Global, room: usize) -> Result<SureSink, NoMemory>
        ensures { IfOk result (λ sink. sink ≡ record { bytes = []; room = room; over = false }) }
    {
        Ok(SureSink {
            bytes: Vec::with_capacity(alloc, room)?,
            room,
            over: false,
        })
    }

    /// What was put, up to the first put that would have passed the room.
    pub fn bytes(&self) -> &[u8]
        ensures { result.now ≡ self.now.bytes }
    {
        self.bytes.as_slice()
    }

    /// Whether a put would have passed the room.
    pub fn is_over(&self) -> bool
        ensures { result ≡ self.now.over }
    {
        self.over
    }
}

impl Sink for SureSink {
    ghost told = { λ sink. if sink.over then None else Some sink.bytes };

    ghost faults = { λ _. 0 };

    ghost kept = { λ _. 0 };

    /// Appends the piece where it has room. It never fails.
    fn put(&mut self, piece: &[u8]) -> Result<(), Failed>
        ensures sure { IsOk result }
        ensures state { self.new ≡ after_sure_put self.old piece.now }
        ensures appended { OnOk result (Adds (if self.old.over then None else Some self.old.bytes)
            (if self.new.over then None else Some self.new.bytes) piece.now) }
        ensures prefix { OnErr result
            (AddsPart (if self.old.over then None else Some self.old.bytes)
            (if self.new.over then None else Some self.new.bytes) piece.now) }
    {
        if self.over || piece.len() > self.room - self.bytes.len() {
            self.over = true;
        } else {
            self.bytes.extend_from_slice(piece).unwrap();
        }
        Ok(())
    }

    /// Does nothing: no byte is kept apart.
    fn flush(&mut self) -> Result<(), Failed>
        ensures sure { IsOk result }
        ensures unchanged { self.new ≡ self.old }
        ensures told { (if self.new.over then None else Some self.new.bytes)
            ≡ (if self.old.over then None else Some self.old.bytes) }
    {
        Ok(())
    }
}
