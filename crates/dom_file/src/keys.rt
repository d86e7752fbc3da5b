//! The keys that a table has and is not to have.

ghost use Rattle.std.specs.Prelude.{◌≡◌, map, option_map};
ghost use Rattle.std.specs.List.{list_any};
ghost use Rattle.std.specs.Str.{bytes_eq};
ghost use Rattle.toml.specs.View.{table_view};
ghost use Rattle.dom_file.specs.Steps.{Gives};
ghost use Rattle.dom_file.specs.Keys.{first_unlisted_key, is_listed_key, key_check};

use crate::fault::{DomCause, DomFault, TableName};
use crate::stop::fault_at;
use std::alloc::Global;
use toml::Table;

fn is_among(key: &str, keys: &[&str]) -> bool
    ensures { result ≡ is_listed_key (map (λ k. k.now) keys.now) key.now }
{
    keys.iter().any(|k| *k == key)
}

/// The first key of the table, in byte order, that is none of these keys.
pub(crate) fn first_unknown<'a>(table: &'a Table, keys: &[&str]) -> Option<&'a str>
    ensures { option_map (λ k. k.now) result
        ≡ first_unlisted_key (map (λ k. k.now) keys.now) (table_view table.now) }
{
    for key in table.keys() {
        if !is_among(key.as_str(), keys) {
            return Some(key.as_str());
        }
    }
    None
}

/// Nothing where every key of the table is one of these, else the fault of the first that is none.
pub(crate) fn only_known(
    alloc: Global,
    name: TableName,
    index: u32,
    keys: &[&str],
    table: &Table,
) -> Result<(), DomFault>
    ensures { Gives result (key_check name index (map (λ k. k.now) keys.now)
        (table_view table.now)) }
{
    match first_unknown(table, keys) {
        Some(key) => Err(fault_at(alloc, name, index, key, DomCause::Unknown)),
        None => Ok(()),
    }
}
