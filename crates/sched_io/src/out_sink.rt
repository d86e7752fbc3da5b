//! The standard output.

ghost use Rattle.std.specs.Prelude.{◌≡◌, ◌≤◌, ◌+◌, ◌<◌, OnOk, OnErr, IfOk, None, length, is_err, if◌then◌else◌};
ghost use Rattle.sched_io.specs.Faults.{Rose, one_more};
ghost use Rattle.sched_io.specs.HeldBytes.{untold_bytes};
ghost use Rattle.sched_io.specs.Puts.{Adds, AddsPart};
ghost use Rattle.std.specs.Io.KnownBytes.{Appends};

use crate::sink::Sink;
use sched_base::{Failed, NoMemory};
use std::alloc::Global;
use std::io;
use std::io::{Print, Write};
use std::marker::Model;

/// How many bytes are written at once.
const BLOCK: usize = 65_536;

/// The standard output, as the runtime prints to it. It gathers what is put into blocks of 65,536 bytes, so that a write is not made for each
/// line; what stands in a block that is not full is written by `flush`, and lost without it. It tells nothing of what was put; contracts see its
/// count of faults, and how many bytes it keeps.
#[derive(Drop)]
pub struct OutSink<'a, P> {
    output: &'a P,
    /// A whole block, of which the first `kept` bytes are to be written.
    block: Vec<u8>,
    kept: usize,
    faults: u64,
}

impl<'a, P> Model for OutSink<'a, P> {
    ghost use Rattle.std.specs.Prelude.{◌≡◌, ◌≤◌, length};
    ghost use Rattle.sched_io.specs.Memory.{OutState};

    ghost Value = { OutState };

    ghost view = { λ a. record { kept = a.kept; faults = a.faults } };

    ghost invariant = { λ a. (length a.block.items ≡ 65536) × (a.kept ≤ 65536) };
}

impl<'a, P> OutSink<'a, P> {
    /// The output of this runtime, with no fault so far, and nothing kept.
    pub fn new(alloc: Global, output: &'a P) -> Result<OutSink<'a, P>, NoMemory>
        ensures { IfOk result (λ sink. sink ≡ record { kept = 0; faults = 0 }) }
    {
        Ok(OutSink {
            output,
            block: vec![in alloc; 0; BLOCK]?,
            kept: 0,
            faults: 0,
        })
    }
}

/// Writes all of the piece, in as many writes as the writer asks for. A write that takes nothing of what is left
/// fails.
fn write_whole<W: Write>(writer: &mut W, piece: &[u8]) -> Result<(), Failed>
    ensures whole { OnOk result (Appends (W.contents writer.old) (W.contents writer.new)
        piece.now) }
{
    let mut rest = piece;
    while !rest.is_empty() {
        match writer.write(rest) {
            Ok(count) if count > 0 => rest = &rest[count..],
            _ => return Err(Failed),
        }
    }
    Ok(())
}

/// Writes all of the piece to the output, and counts a fault where that fails.
fn print_whole<P: Print>(output: &P, piece: &[u8], faults: &mut u64) -> Result<(), Failed>
    ensures faults { faults.new ≡ (if is_err result then one_more faults.old else faults.old) }
{
    let answer = write_whole(&mut io::writer(output), piece);
    if answer.is_err() {
        *faults = faults.saturating_add(1);
    }
    answer
}

impl<P: Print> Sink for OutSink<'_, P> {
    ghost told = { λ _. untold_bytes };

    ghost faults = { λ sink. sink.faults };

    ghost kept = { λ sink. sink.kept };

    /// Keeps the piece; where it does not fit behind what is kept, that is written first, and a piece longer than a block is written at once.
    /// It answers `Failed` where a write fails or takes nothing of what is left. Then nothing is kept.
    fn put(&mut self, piece: &[u8]) -> Result<(), Failed>
        ensures faults { self.new.faults
            ≡ (if is_err result then one_more self.old.faults else self.old.faults) }
        ensures appended { OnOk result (Adds untold_bytes untold_bytes piece.now) }
        ensures prefix { OnErr result (AddsPart untold_bytes untold_bytes piece.now) }
        ensures counts { self.old.faults ≤ self.new.faults }
        ensures cause { OnErr result (Rose self.old.faults self.new.faults) }
        ensures fits { self.old.kept + length piece.now ≤ 65536 → self.new.kept
            ≡ self.old.kept + length piece.now }
        ensures lost { OnErr result (self.new.kept ≡ 0) }
    {
        if piece.len() > BLOCK - self.kept {
            self.flush()?;
        }
        if piece.len() > BLOCK {
            return print_whole(self.output, piece, &mut self.faults);
        }
        let end = self.kept + piece.len();
        self.block[self.kept..end].copy_from_slice(piece);
        self.kept = end;
        Ok(())
    }

    /// Writes what is kept. It answers `Failed` where a write fails or takes nothing of what is left.
    fn flush(&mut self) -> Result<(), Failed>
        ensures faults { self.new.faults
            ≡ (if is_err result then one_more self.old.faults else self.old.faults) }
        ensures none_kept { self.new.kept ≡ 0 }
        ensures told { untold_bytes ≡ untold_bytes }
        ensures counts { self.old.faults ≤ self.new.faults }
        ensures cause { OnErr result (Rose self.old.faults self.new.faults) }
    {
        let answer = print_whole(self.output, &self.block[..self.kept], &mut self.faults);
        self.kept = 0;
        answer
    }
}
