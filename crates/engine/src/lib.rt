//! The engine: a whole machine over its pools, each with the queues and heaps of its own scheduler, and what its tool knows.
//!
//! It steps through a run: the first action that may come, what it does, and the next moment. It keeps the first event and the next
//! moment of each pool, so that only a pool that changed is asked again. All memory is taken when it is opened.
#![tactic(auto)]

pub mod engine;
pub mod keeping;
mod opening;
pub mod ordered;

pub use engine::Engine;
pub use ordered::Step;
