//! RTDS: each unit may run for its budget in each period, and the unit with the least level, and of those the least
//! deadline, goes first.
//!
//! The waiting units stand sorted in queues, so a decision looks at the first that may run, and not at all of them; the
//! replenishments stand in a heap.
#![tactic(auto)]

mod alarms;
mod best;
mod masks;
mod records;
mod rtds;
mod state;
mod wanted;

pub use rtds::Rtds;
