//! The part of the machine that one schedule lock guards: the events of one pool.
//!
//! A pool's state is its guests, its cores and its scheduler. Each event's call answers the event and leaves the pool that the machine's
//! definitions say, with the cores looked at; which event comes first is read from heaps of moments.
#![tactic(auto)]

mod actors;
mod calls;
mod deciding;
mod doing;
pub mod domains;
mod due;
mod events;
mod params;
pub mod pool;
mod settling;
mod timed;
mod turns;
pub mod units;
mod waking;

pub use pool::PoolState;
