//! A machine at its opening: its pools with their own queues and heaps, the places that they stand at, and the spare pools that commands may
//! make later. All memory that they need in a run is taken here.
#![tactic(auto)]

mod boxed;
mod cores;
mod counts;
mod domains;
mod pool;
pub mod slots;
pub mod spares;

pub use slots::open_slots;
pub use spares::open_spares;
