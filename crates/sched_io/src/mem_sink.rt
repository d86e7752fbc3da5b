//! A sink in memory that fails where it is told to.

ghost use Rattle.std.specs.Prelude.{◌≡◌, ◌≤◌, ◌++◌, [], OnOk, OnErr, IfOk, IsOk, Some, is_err, if◌then◌else◌};
ghost use Rattle.sched_io.specs.Faults.{Rose, one_more};
ghost use Rattle.sched_io.specs.Puts.{Adds, AddsPart};
ghost use Rattle.sched_io.specs.Memory.{SinkState, put_fails};

use crate::plan::FaultPlan;
use crate::sink::Sink;
use sched_base::{Failed, NoMemory};
use std::alloc::Global;
use std::marker::Model;

/// Bytes, their room, and the numbers of the calls that fail.
#[derive(Drop)]
pub struct MemSink {
    bytes: Vec<u8>,
    room: usize,
    plan: FaultPlan,
}

impl Model for MemSink {
    ghost use Rattle.std.specs.Prelude.{◌≤◌, length, vec_len, vec_capacity};
    ghost use Rattle.sched_io.specs.Memory.{SinkState};

    ghost Value = { SinkState };

    ghost view = { λ a. record {
      bytes = a.bytes.items;
      room = a.room;
      fails = a.plan.fails.items;
      calls = a.plan.calls;
      faults = a.plan.faults;
    } };

    ghost invariant = { λ a. (length a.bytes.items ≤ a.room) × (a.room ≤ vec_capacity a.bytes) };
}

impl MemSink {
    /// An empty sink for this many bytes, whose calls of `put` with the listed numbers, from 1, fail.
    pub fn room(alloc: Global, room: usize, fails: &[u32]) -> Result<MemSink, NoMemory>
        ensures { IfOk result (λ sink. sink
            ≡ record { bytes = []; room = room; fails = fails.now; calls = 0; faults = 0 }) }
    {
        let plan = FaultPlan::new(alloc, fails)?;
        let bytes = Vec::with_capacity(alloc, room)?;
        Ok(MemSink { bytes, room, plan })
    }

    /// What was put so far.
    pub fn bytes(&self) -> &[u8]
        ensures { result.now ≡ self.now.bytes }
    {
        self.bytes.as_slice()
    }
}

impl Sink for MemSink {
    ghost told = { λ sink. Some sink.bytes };

    ghost faults = { λ sink. sink.faults };

    ghost kept = { λ _. 0 };

    /// Appends the piece, or fails and appends nothing: exactly where the call's number is listed or the bytes would
    /// pass the room.
    fn put(&mut self, piece: &[u8]) -> Result<(), Failed>
        ensures fails { is_err result ≡ put_fails self.old piece.now }
        ensures bytes { self.new.bytes ≡ (if is_err result then self.old.bytes else self.old.bytes
            ++ piece.now) }
        ensures calls { self.new.calls ≡ one_more self.old.calls }
        ensures faults { self.new.faults
            ≡ (if is_err result then one_more self.old.faults else self.old.faults) }
        ensures room { self.new.room ≡ self.old.room }
        ensures listed { self.new.fails ≡ self.old.fails }
        ensures appended { OnOk result (Adds (Some self.old.bytes) (Some self.new.bytes)
            piece.now) }
        ensures prefix { OnErr result (AddsPart (Some self.old.bytes) (Some self.new.bytes)
            piece.now) }
        ensures counts { self.old.faults ≤ self.new.faults }
        ensures cause { OnErr result (Rose self.old.faults self.new.faults) }
    {
        let failed = self.plan.is_next_listed() || piece.len() > self.room - self.bytes.len();
        self.plan.count(failed);
        if failed {
            return Err(Failed);
        }
        self.bytes.extend_from_slice(piece).unwrap();
        Ok(())
    }

    /// Does nothing: no byte is kept apart.
    fn flush(&mut self) -> Result<(), Failed>
        ensures sure { IsOk result }
        ensures unchanged { self.new ≡ self.old }
        ensures told { Some self.new.bytes ≡ Some self.old.bytes }
        ensures counts { self.old.faults ≤ self.new.faults }
        ensures cause { OnErr result (Rose self.old.faults self.new.faults) }
    {
        Ok(())
    }
}
