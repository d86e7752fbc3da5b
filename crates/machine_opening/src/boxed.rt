//! A value in a box.

ghost use Rattle.std.specs.Prelude.{◌≡◌, IfOk};

use sched_base::NoMemory;
use std::alloc::Global;
use std::boxed::Box;

/// The value in a box. It is dropped where no memory is left for one.
pub(crate) fn boxed<T: Drop>(alloc: Global, value: T) -> Result<Box<T>, NoMemory>
    ensures { IfOk result (λ boxed. boxed.value ≡ value) }
{
    Ok(Box::new(alloc, value)?)
}
