//! One value of a table: what it is, or why it is refused.

ghost use Rattle.std.specs.Prelude.{◌≡◌, map, length, option_map, IfOk};
ghost use Rattle.toml.specs.Data.{get_member};
ghost use Rattle.toml.specs.View.{view, table_view};
ghost use Rattle.sched_model.specs.CheckedMachine.{IsWithin};
ghost use Rattle.dom_file.specs.Steps.{Sees};
ghost use Rattle.dom_file.specs.Values.{array_of, elements_of, integer_of, name_of, number_of, number_or_default, required_value as required_of, table_of, text_of, truth_of};

use crate::fault::DomCause;
use sched_base::Name;
use toml::{Table, Value};

/// The value at a key, if the table has the key.
pub(crate) fn value_at<'a>(table: &'a Table, key: &str) -> Option<&'a Value>
    ensures { option_map (λ v. view v.now) result ≡ get_member key.now (table_view table.now) }
{
    table.get(key)
}

/// The value at a key that has to be there.
pub(crate) fn required<'a>(table: &'a Table, key: &str) -> Result<&'a Value, DomCause>
    ensures { Sees (λ v. view v.now) result (required_of (table_view table.now) key.now) }
{
    match value_at(table, key) {
        Some(value) => Ok(value),
        None => Err(DomCause::Missing),
    }
}

pub(crate) fn integer(value: &Value) -> Result<i64, DomCause>
    ensures { result ≡ integer_of (view value.now) }
{
    match value.as_integer() {
        Some(number) => Ok(number),
        None => Err(DomCause::Kind),
    }
}

pub(crate) fn truth(value: &Value) -> Result<bool, DomCause>
    ensures { result ≡ truth_of (view value.now) }
{
    match value.as_bool() {
        Some(truth) => Ok(truth),
        None => Err(DomCause::Kind),
    }
}

pub(crate) fn text(value: &Value) -> Result<&str, DomCause>
    ensures { Sees (λ s. s.now) result (text_of (view value.now)) }
{
    match value.as_str() {
        Some(text) => Ok(text),
        None => Err(DomCause::Kind),
    }
}

pub(crate) fn table(value: &Value) -> Result<&Table, DomCause>
    ensures { Sees (λ t. table_view t.now) result (table_of (view value.now)) }
{
    match value.as_table() {
        Some(table) => Ok(table),
        None => Err(DomCause::Kind),
    }
}

/// The elements of an array.
pub(crate) fn elements(value: &Value) -> Result<&[Value], DomCause>
    ensures { Sees (λ vs. map view vs.now) result (elements_of (view value.now)) }
{
    match value.as_array() {
        Some(array) => Ok(array.as_slice()),
        None => Err(DomCause::Kind),
    }
}

/// The elements of an array that has at least `low` and at most `high`.
pub(crate) fn array(value: &Value, low: usize, high: usize) -> Result<&[Value], DomCause>
    ensures value { Sees (λ vs. map view vs.now) result (array_of low high (view value.now)) }
    ensures count { IfOk result (λ vs. IsWithin low high (length vs.now)) }
{
    let values = elements(value)?;
    if low <= values.len() && values.len() <= high {
        Ok(values)
    } else {
        Err(DomCause::Range(values.len() as i64))
    }
}

/// A number from `low` to `high`.
pub(crate) fn number(value: &Value, low: u64, high: u64) -> Result<u64, DomCause>
    ensures value { result ≡ number_of low high (view value.now) }
    ensures range { IfOk result (IsWithin low high) }
{
    let number = integer(value)?;
    if number >= 0 && low <= number as u64 && number as u64 <= high {
        Ok(number as u64)
    } else {
        Err(DomCause::Range(number))
    }
}

/// The number from `low` to `high` at a key, or the default where the key is not there.
pub(crate) fn number_or(
    table: &Table,
    key: &str,
    default: u64,
    low: u64,
    high: u64,
) -> Result<u64, DomCause>
    requires { IsWithin low high default }
    ensures value { result ≡ number_or_default key.now default low high (table_view table.now) }
    ensures range { IfOk result (IsWithin low high) }
{
    match value_at(table, key) {
        Some(value) => number(value, low, high),
        None => Ok(default),
    }
}

/// A name: a letter, and up to 31 letters, digits, hyphens and underscores.
pub(crate) fn name(value: &Value) -> Result<Name, DomCause>
    ensures { result ≡ name_of (view value.now) }
{
    let text = text(value)?;
    match Name::read(text.as_bytes()) {
        Some(name) => Ok(name),
        None => Err(DomCause::Kind),
    }
}
