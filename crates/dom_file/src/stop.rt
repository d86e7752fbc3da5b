//! Why a check stops before it gives a value.

ghost use Rattle.std.specs.Prelude.{◌≡◌};
ghost use Rattle.dom_file.specs.Steps.{Gives, IsFaultAt, IsPlaced, at};
ghost use Rattle.dom_file.specs.declared.fault.DomFault.TheVariants.{NoMemory as FaultOfMemory};
ghost use Rattle.dom_file.specs.declared.stop.CheckStop.TheVariants.{NoMemory, Cause};

use crate::fault::{DomCause, DomFault, TableName, Text};
use std::alloc::{AllocError, AllocFailed, Global};

/// A value is refused for a cause, or memory was wanted and not found.
#[derive(Drop)]
pub(crate) enum CheckStop {
    NoMemory,
    Cause(DomCause),
}

impl From<DomCause> for CheckStop {
    ghost from_gives = { λ cause stop. stop ≡ Cause cause };

    fn from(cause: DomCause) -> CheckStop {
        CheckStop::Cause(cause)
    }
}

impl From<AllocError> for CheckStop {
    ghost from_gives = { λ _ stop. stop ≡ NoMemory };

    fn from(_e: AllocError) -> CheckStop {
        CheckStop::NoMemory
    }
}

impl<T: Drop> From<AllocFailed<T>> for CheckStop {
    ghost from_gives = { λ _ stop. stop ≡ NoMemory };

    fn from(_e: AllocFailed<T>) -> CheckStop {
        CheckStop::NoMemory
    }
}

impl From<AllocError> for DomFault {
    ghost from_gives = { λ _ fault. fault ≡ FaultOfMemory };

    fn from(_e: AllocError) -> DomFault {
        DomFault::NoMemory
    }
}

impl<T: Drop> From<AllocFailed<T>> for DomFault {
    ghost from_gives = { λ _ fault. fault ≡ FaultOfMemory };

    fn from(_e: AllocFailed<T>) -> DomFault {
        DomFault::NoMemory
    }
}

/// The fault of this key of the table with this number.
pub(crate) fn fault_at(
    alloc: Global,
    table: TableName,
    index: u32,
    key: &str,
    cause: DomCause,
) -> DomFault
    ensures { IsFaultAt table index key.now cause result }
{
    match Text::new(alloc, key) {
        Ok(key) => DomFault::Bad {
            table,
            index,
            key,
            cause,
        },
        Err(_) => DomFault::NoMemory,
    }
}

/// The value, or the fault of this key of the table with this number.
pub(crate) fn placed<X>(
    alloc: Global,
    table: TableName,
    index: u32,
    key: &str,
    checked: Result<X, DomCause>,
) -> Result<X, DomFault>
    ensures { Gives result (at table index key.now checked) }
{
    match checked {
        Ok(value) => Ok(value),
        Err(cause) => Err(fault_at(alloc, table, index, key, cause)),
    }
}

/// The value, or the fault of this key of the table with this number, unless memory was wanted already.
pub(crate) fn placed_or_stopped<X>(
    alloc: Global,
    table: TableName,
    index: u32,
    key: &str,
    checked: Result<X, CheckStop>,
) -> Result<X, DomFault>
    ensures { IsPlaced table index key.now checked result }
{
    match checked {
        Ok(value) => Ok(value),
        Err(CheckStop::NoMemory) => Err(DomFault::NoMemory),
        Err(CheckStop::Cause(cause)) => Err(fault_at(alloc, table, index, key, cause)),
    }
}
