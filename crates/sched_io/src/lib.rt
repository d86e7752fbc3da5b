//! The outside: where files are read from, where the output goes, and a gate that a test may hold.
//!
//! A `Store` reads files by name, a `Sink` takes the output piece by piece. Both count their faults, and a failure
//! comes only where such a count rose, so that what stands above can say that no failure was made up.
//! `FileStore` and `OutSink` reach the system. `MemStore` and `MemSink` hold bytes in memory and fail where they are
//! told to; `SureStore` and `SureSink` never fail.
#![tactic(auto)]

pub mod file_store;
pub mod gate;
pub mod mem_sink;
pub mod mem_store;
pub mod out_sink;
mod plan;
mod shelf;
pub mod sink;
pub mod store;
pub mod sure_sink;
pub mod sure_store;

pub use file_store::FileStore;
pub use gate::{Gate, OpenGate};
pub use mem_sink::MemSink;
pub use mem_store::MemStore;
pub use out_sink::OutSink;
pub use sink::Sink;
pub use store::{MOST_BYTES, ReadErr, Store};
pub use sure_sink::SureSink;
pub use sure_store::SureStore;
