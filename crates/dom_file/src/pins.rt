//! The sets of cores that a domain's units are pinned to.

ghost use Rattle.std.specs.Prelude.{◌≡◌, ◌≤◌, map, length, IfOk};
ghost use Rattle.sched_model.specs.CheckedMachine.{IsWithin};
ghost use Rattle.toml.specs.View.{view, table_view};
ghost use Rattle.dom_file.specs.Heads.{IsHead};
ghost use Rattle.dom_file.specs.Steps.{each};
ghost use Rattle.dom_file.specs.Pins.{pin_of, pins_in, guest_unit_count};

use crate::cores::cores;
use crate::fault::DomCause;
use crate::head::Head;
use crate::values::{array, value_at};
use sched_base::Cores;
use sched_model::config::Pins;
use sched_model::short::Short;
use toml::{Table, Value};

/// How many units a domain of so many vCPUs has, where a core has this many processors.
pub(crate) fn unit_count(granularity: u8, guests: usize) -> usize
    requires granularity { IsWithin 1 4 granularity }
    requires few { guests ≤ 32 }
    ensures value { result ≡ guest_unit_count granularity guests }
    ensures few { result ≤ 32 }
{
    (guests + granularity as usize - 1) / granularity as usize
}

fn pin(head: &Head, value: &Value) -> Result<Cores, DomCause>
    requires { IsHead head.now }
    ensures { result ≡ pin_of head.now (view value.now) }
{
    let values = array(value, 1, 64)?;
    Ok(Cores(cores(head, &[], values)?))
}

fn pin_list(head: &Head, values: &[Value]) -> Result<Pins, DomCause>
    requires head { IsHead head.now }
    requires few { length values.now ≤ 32 }
    ensures { result ≡ each (pin_of head.now) (map view values.now) }
{
    let mut pins = Short::new();
    for value in values {
        pins.push(pin(head, value)?);
    }
    Ok(pins)
}

/// The sets of cores of this many units, or an empty list where all cores are left to each.
pub(crate) fn pins(head: &Head, units: usize, table: &Table) -> Result<Pins, DomCause>
    requires head { IsHead head.now }
    requires few { units ≤ 32 }
    ensures { result ≡ pins_in head.now units (table_view table.now) }
{
    if head.format == 1 {
        return Ok(Short::new());
    }
    match value_at(table, "pins") {
        Some(value) => pin_list(head, array(value, units, units)?),
        None => Ok(Short::new()),
    }
}
