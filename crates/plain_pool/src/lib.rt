//! One pool: when its events may come, what they do, which cores are to decide anew, and from when on something of it may come.
#![tactic(auto)]

pub mod deciding;
pub mod domains;
pub mod events;
pub mod look;
pub mod params;
pub mod pausing;
pub mod pool;
pub mod ready;
pub mod replenishing;
pub mod settle;
pub mod waking;
