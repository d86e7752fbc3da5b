//! The scripts of a domain's vCPUs.

ghost use Rattle.std.specs.Prelude.{◌≡◌, ◌≤◌, codes, map, length, IfOk};
ghost use Rattle.toml.specs.View.{view, table_view};
ghost use Rattle.dom_file.specs.Steps.{Gives, Stops, at, each};
ghost use Rattle.dom_file.specs.Guests.{script_of, scripts_of, span_of};
ghost use Rattle.dom_file.specs.declared.fault.TableName.TheVariants.{Domain};

use crate::fault::{DomCause, DomFault, TableName};
use crate::stop::{CheckStop, placed_or_stopped};
use crate::values::{array, number, required};
use sched_base::Span;
use sched_model::config::{Script, Scripts};
use sched_model::machine::MOST_SPAN;
use sched_model::row::Row;
use std::alloc::Global;
use toml::{Table, Value};

fn span(value: &Value) -> Result<Span, DomCause>
    ensures { result ≡ span_of (view value.now) }
{
    Ok(Span(number(value, 1, MOST_SPAN)?))
}

fn spans(alloc: Global, values: &[Value]) -> Result<Vec<Span>, CheckStop>
    ensures { Stops (λ v. v.items) result (each span_of (map view values.now)) }
{
    let mut spans = Vec::new(alloc);
    for value in values {
        spans.push(span(value)?)?;
    }
    Ok(spans)
}

fn script(alloc: Global, value: &Value) -> Result<Script, CheckStop>
    ensures { Stops (λ s. s) result (script_of (view value.now)) }
{
    let values = array(value, 0, 64)?;
    if values.len() % 2 == 0 {
        Ok(Row::from_vec(spans(alloc, values)?))
    } else {
        Err(CheckStop::Cause(DomCause::Range(values.len() as i64)))
    }
}

fn scripts(alloc: Global, values: &[Value]) -> Result<Vec<Script>, CheckStop>
    ensures value { Stops (λ v. v.items) result (each script_of (map view values.now)) }
    ensures count { IfOk result (λ v. length v.items ≡ length values.now) }
{
    let mut scripts = Vec::new(alloc);
    for value in values {
        scripts.push(script(alloc, value)?)?;
    }
    Ok(scripts)
}

fn all_scripts(alloc: Global, table: &Table) -> Result<Scripts, CheckStop>
    ensures value { Stops (λ s. s) result (scripts_of (table_view table.now)) }
    ensures count { IfOk result (λ s. length s ≤ 32) }
{
    let values = array(required(table, "guests")?, 1, 32)?;
    Ok(Row::from_vec(scripts(alloc, values)?))
}

/// The scripts of the domain with this number: 1 to 32.
pub(crate) fn guests(alloc: Global, index: u32, table: &Table) -> Result<Scripts, DomFault>
    ensures value { Gives result (at Domain index (codes "guests")
        (scripts_of (table_view table.now))) }
    ensures count { IfOk result (λ s. length s ≤ 32) }
{
    placed_or_stopped(
        alloc,
        TableName::Domain,
        index,
        "guests",
        all_scripts(alloc, table),
    )
}
