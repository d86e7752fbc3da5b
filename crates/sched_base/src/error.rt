//! The two errors that every layer shares.

ghost use Rattle.std.specs.Prelude.{◌≡◌};

use std::alloc::{AllocError, AllocFailed};
use thiserror::Error;

/// Memory was wanted and not found. Nothing else is said of when this comes.
#[derive(Clone, Copy, Debug, Error)]
#[error("no memory")]
pub struct NoMemory;

impl From<AllocError> for NoMemory {
    fn from(_e: AllocError) -> NoMemory {
        NoMemory
    }
}

impl<T: Drop> From<AllocFailed<T>> for NoMemory {
    fn from(_e: AllocFailed<T>) -> NoMemory {
        NoMemory
    }
}

/// A write outside the program failed, and the count of the object's faults rose.
#[derive(Clone, Copy, Debug, Error)]
#[error("failed")]
pub struct Failed;
