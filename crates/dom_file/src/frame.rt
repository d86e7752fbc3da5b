//! The frame of an ARINC 653 pool, as its table has it.

ghost use Rattle.std.specs.Prelude.{◌≡◌, ◌≤◌, ◌*◌, [], ◌∷◌, map, length, IfOk};
ghost use Rattle.std.specs.List.{All, sum_by};
ghost use Rattle.sched_model.specs.CheckedMachine.{most_span};
ghost use Rattle.toml.specs.View.{view, table_view};
ghost use Rattle.dom_file.specs.Steps.{Gives, each};
ghost use Rattle.dom_file.specs.Frames.{entry_in, entry_of, entries_of, frame_entries_in, frame_in};

use crate::draft::{EntryDraft, FrameDraft};
use crate::fault::{DomCause, DomFault, TableName};
use crate::stop::placed;
use crate::values::{array, elements, integer, number, required, value_at};
use sched_base::Span;
use sched_model::machine::MOST_SPAN;
use sched_model::short::Short;
use std::alloc::Global;
use toml::{Table, Value};

/// The entry of a domain, a unit and a run.
fn entry_from(dom: &Value, unit: &Value, run: &Value) -> Result<EntryDraft, DomCause>
    ensures value { result ≡ entry_in (view dom.now ∷ view unit.now ∷ view run.now ∷ []) }
    ensures run { IfOk result (λ e. e.run.0 ≤ most_span) }
{
    let dom = integer(dom)?;
    let unit = integer(unit)?;
    let run = number(run, 1, MOST_SPAN)?;
    Ok(EntryDraft {
        dom,
        unit,
        run: Span(run),
    })
}

fn entry(value: &Value) -> Result<EntryDraft, DomCause>
    ensures value { result ≡ entry_of (view value.now) }
    ensures run { IfOk result (λ e. e.run.0 ≤ most_span) }
{
    match elements(value)? {
        [dom, unit, run] => entry_from(dom, unit, run),
        others => Err(DomCause::Range(others.len() as i64)),
    }
}

fn entries(values: &[Value]) -> Result<Short<EntryDraft, 64>, DomCause>
    requires { length values.now ≤ 64 }
    ensures value { result ≡ each entry_of (map view values.now) }
    ensures count { IfOk result (λ es. length es ≤ 64) }
    ensures runs { IfOk result (λ es. All (λ e. e.run.0 ≤ most_span) es) }
{
    let mut entries = Short::new();
    for value in values {
        entries.push(entry(value)?);
    }
    Ok(entries)
}

/// The sum of the entries' runs.
fn run_sum(entries: &[EntryDraft]) -> u64
    requires few { length entries.now ≤ 64 }
    requires runs { All (λ e. e.run.0 ≤ most_span) entries.now }
    ensures value { result ≡ sum_by (λ e. e.run.0) entries.now }
    ensures bound { result ≤ 64 * most_span }
{
    let mut sum = 0;
    for entry in entries {
        sum += entry.run.0;
    }
    sum
}

/// The entries of a frame: 1 to 64, whose runs fit the major span.
fn fitting_entries(value: &Value, major: u64) -> Result<Short<EntryDraft, 64>, DomCause>
    ensures { result ≡ entries_of major (view value.now) }
{
    let values = array(value, 1, 64)?;
    let entries = entries(values)?;
    let sum = run_sum(entries.as_slice());
    if sum <= major {
        Ok(entries)
    } else {
        Err(DomCause::Range(sum as i64))
    }
}

fn frame_entries(table: &Table, major: u64) -> Result<Short<EntryDraft, 64>, DomCause>
    ensures { result ≡ frame_entries_in major (table_view table.now) }
{
    fitting_entries(required(table, "frame")?, major)
}

/// The frame of a pool, if its table has one. A major span and the entries go together.
pub(crate) fn frame(
    alloc: Global,
    index: u32,
    table: &Table,
) -> Result<Option<FrameDraft>, DomFault>
    ensures { Gives result (frame_in index (table_view table.now)) }
{
    let Some(major) = value_at(table, "major_ns") else {
        return match value_at(table, "frame") {
            Some(_) => placed(
                alloc,
                TableName::Pool,
                index,
                "major_ns",
                Err(DomCause::Missing),
            ),
            None => Ok(None),
        };
    };
    let major = placed(
        alloc,
        TableName::Pool,
        index,
        "major_ns",
        number(major, 1, MOST_SPAN),
    )?;
    let entries = placed(
        alloc,
        TableName::Pool,
        index,
        "frame",
        frame_entries(table, major),
    )?;
    Ok(Some(FrameDraft {
        major: Span(major),
        entries,
    }))
}
