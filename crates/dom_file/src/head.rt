//! The keys of the top table that say what the machine is.

ghost use Rattle.std.specs.Prelude.{◌≡◌, ◌%◌, IfOk};
ghost use Rattle.toml.specs.View.{table_view};
ghost use Rattle.sched_model.specs.CheckedMachine.{IsWithin};
ghost use Rattle.dom_file.specs.Steps.{Gives};
ghost use Rattle.dom_file.specs.Heads.{IsHead, format_in, granularity_in, head_of, horizon_in, processors_in};

use crate::fault::{DomCause, DomFault, TableName};
use crate::keys::only_known;
use crate::stop::placed;
use crate::values::{number, number_or, required};
use sched_base::Moment;
use sched_model::machine::MOST_SPAN;
use std::alloc::Global;
use toml::Table;

const TOP_KEYS: [&str; 6] = [
    "format",
    "granularity",
    "processors",
    "horizon_ns",
    "pool",
    "domain",
];

/// What the file says of the whole machine: its format (1 or 2), the processors to a core (1, 2 or 4),
/// the processors in all (1 to 64), and the last moment of the run.
#[derive(Clone, Copy)]
pub(crate) struct Head {
    pub format: u8,
    pub granularity: u8,
    pub processors: u8,
    pub horizon: Moment,
}

fn format(table: &Table) -> Result<u8, DomCause>
    ensures { result ≡ format_in (table_view table.now) }
{
    let format = number(required(table, "format")?, 1, 2)?;
    Ok(format as u8)
}

fn granularity(table: &Table) -> Result<u8, DomCause>
    ensures value { result ≡ granularity_in (table_view table.now) }
    ensures range { IfOk result (IsWithin 1 4) }
{
    let granularity = number_or(table, "granularity", 1, 1, 4)?;
    if granularity == 3 {
        Err(DomCause::Range(3))
    } else {
        Ok(granularity as u8)
    }
}

fn processors(table: &Table, granularity: u8) -> Result<u8, DomCause>
    requires { IsWithin 1 4 granularity }
    ensures value { result ≡ processors_in granularity (table_view table.now) }
    ensures range { IfOk result (IsWithin 1 64) }
    ensures whole_cores { IfOk result (λ p. p % granularity ≡ 0) }
{
    let processors = number(required(table, "processors")?, 1, 64)?;
    if processors % granularity as u64 == 0 {
        Ok(processors as u8)
    } else {
        Err(DomCause::Range(processors as i64))
    }
}

fn horizon(table: &Table) -> Result<Moment, DomCause>
    ensures { result ≡ horizon_in (table_view table.now) }
{
    let horizon = number(required(table, "horizon_ns")?, 1, MOST_SPAN)?;
    Ok(Moment(horizon))
}

/// What the top table says of the whole machine. An unknown key of the table comes before all its other faults.
#[tactic(auto, unfolding(crate::specs::Heads::head_of))]
pub(crate) fn read_head(alloc: Global, table: &Table) -> Result<Head, DomFault>
    ensures value { Gives result (head_of (table_view table.now)) }
    ensures range { IfOk result IsHead }
{
    only_known(alloc, TableName::Top, 0, &TOP_KEYS, table)?;
    let format = placed(alloc, TableName::Top, 0, "format", format(table))?;
    let granularity = placed(alloc, TableName::Top, 0, "granularity", granularity(table))?;
    let processors = placed(
        alloc,
        TableName::Top,
        0,
        "processors",
        processors(table, granularity),
    )?;
    let horizon = placed(alloc, TableName::Top, 0, "horizon_ns", horizon(table))?;
    Ok(Head {
        format,
        granularity,
        processors,
        horizon,
    })
}
