//! What a reader of a board sees.

ghost use Rattle.std.specs.Prelude.{◌≡◌};

use sched_base::{DomId, Moment, NoMemory, ProcId, ResId, Span, UnitId};
use sched_model::event::{Entry, Event};
use status_board::{BoardReader, BoardWriter, CoreTotals, Totals, open};
use std::alloc::Global;
use std::sync::Wait;
use std::test::Fail;
use std::thread::{Threads, join, join_mut};

/// Processor 0 arrives at the moment.
fn arrive(at: u64) -> Entry {
    Entry {
        at: Moment(at),
        event: Event::Arrive { p: ProcId(0) },
    }
}

/// The core chooses the unit with this number of domain 0, or none, at the moment.
fn decide(at: u64, core: u8, unit: Option<u8>) -> Entry {
    Entry {
        at: Moment(at),
        event: Event::Decide {
            r: ResId(core),
            unit: unit.map(|n| UnitId { dom: DomId(0), n }),
            due: None,
            late: Span(0),
            reset: 0,
        },
    }
}

/// The reader after a look, and how many entries it saw.
fn looked(reader: BoardReader) -> (BoardReader, u64)
    ensures { result.0.cores ≡ reader.cores }
{
    let mut reader = reader;
    let entries = reader.look().entries;
    (reader, entries)
}

/// Lets the reader look in a thread of its own.
fn look_beside<R: Threads>(rt: &R, reader: BoardReader) -> (BoardReader, u64)
    ensures { result.0.cores ≡ reader.cores }
{
    let (seen, _) = join(rt, move || looked(reader), || 0u8);
    seen
}

#[test]
fn a_reader_sees_what_was_published(rt: HostRuntime) -> Result<(), Fail> {
    let (mut writer, mut readers) = open(rt.alloc(), 1, 1)?;
    let reader = readers.remove(0);
    let added = writer.add(rt.alloc(), &arrive(0));
    let (reader, before) = look_beside(&rt, reader);
    writer.publish(&rt);
    let (mut reader, published) = look_beside(&rt, reader);
    let told = writer.tell();
    let news = told.totals().entries;
    reader.learn(told);
    let (reader, learned) = look_beside(&rt, reader);
    writer.close(&rt);
    let (reader, after) = look_beside(&rt, reader);
    drop(reader);
    drop(readers);
    added?;
    assert_eq!(rt;
        [
            before == 0,
            published == 1,
            news == 1,
            learned == 1,
            after == 1
        ],
        [true; 5]
    );
    Ok(())
}

/// Adds these entries.
fn add_all(writer: &mut BoardWriter, alloc: Global, entries: &[Entry]) -> Result<(), NoMemory> {
    for e in entries {
        writer.add(alloc, e)?;
    }
    Ok(())
}

/// Whether the totals are those of the two cores below.
fn are_of_two_cores(totals: &Totals) -> bool {
    let first = CoreTotals {
        run: Span(9),
        idle: Span(11),
        decides: 3,
    };
    let second = CoreTotals {
        run: Span(5),
        idle: Span(15),
        decides: 2,
    };
    totals.entries == 7
        && totals.moment.0 == 20
        && totals.cores.as_slice() == [first, second].as_slice()
}

#[test]
fn the_totals_of_two_cores(rt: HostRuntime) -> Result<(), Fail> {
    let (mut writer, mut readers) = open(rt.alloc(), 2, 1)?;
    let mut reader = readers.remove(0);
    let entries = [
        decide(0, 0, Some(0)),
        decide(0, 1, None),
        decide(4, 0, Some(1)),
        decide(9, 0, None),
        decide(9, 5, Some(2)),
        decide(15, 1, Some(0)),
        arrive(20),
    ];
    let added = add_all(&mut writer, rt.alloc(), &entries);
    writer.publish(&rt);
    let right = are_of_two_cores(&reader.look());
    writer.close(&rt);
    drop(reader);
    drop(readers);
    added?;
    assert!(rt; right);
    Ok(())
}

/// Publishes so many entries, one by one.
fn write_each<R: Wait>(
    rt: &R,
    writer: &mut BoardWriter,
    alloc: Global,
    count: u64,
) -> Result<(), NoMemory> {
    for k in 0..count {
        writer.add(alloc, &arrive(k))?;
        writer.publish(rt);
    }
    Ok(())
}

/// Looks so often. It answers whether each look showed at least what the one before showed.
fn look_often(reader: &mut BoardReader, times: u32) -> bool {
    let mut last = 0;
    let mut rises = true;
    for _ in 0..times {
        let seen = reader.look().entries;
        rises = rises && last <= seen;
        last = seen;
    }
    rises
}

/// Whether the totals are of so many entries, up to that moment.
fn ends_at(totals: &Totals, entries: u64, moment: u64) -> bool {
    totals.entries == entries && totals.moment.0 == moment
}

#[test]
fn looks_beside_a_writer_never_go_back(rt: HostRuntime) -> Result<(), Fail> {
    let alloc = rt.alloc();
    let (mut writer, mut readers) = open(alloc, 1, 2)?;
    let mut reader = readers.remove(0);
    let (written, rises) = join_mut(
        &rt,
        &mut || write_each(&rt, &mut writer, alloc, 500),
        &mut || look_often(&mut reader, 500),
    );
    let last = ends_at(&reader.look(), 500, 499);
    writer.close(&rt);
    drop(reader);
    drop(readers);
    written?;
    assert_eq!(rt; [rises, last], [true; 2]);
    Ok(())
}
