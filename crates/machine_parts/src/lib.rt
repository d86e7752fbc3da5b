//! The parts of a whole machine: the places of its pools, each with a pool or empty, and the pools that wait to be made; what comes first, and
//! when something comes next, told by these places and by the tool.
//!
//! A place holds one part of the state, and does each event of its pool once, whoever owns it. A call has a trail as its witness: the input of
//! the run and the history so far, which contracts alone see. So its clauses speak of the machine's own state, though the pool is all that is
//! at hand. The first event and the next moment of each pool are the caller's to keep, so that only those of a pool that changed are asked again.
#![tactic(auto)]

pub mod acts;
pub mod among;
pub mod changes;
pub mod counts;
pub mod first;
pub mod homes;
pub mod next;
pub mod order;
pub mod places;
pub mod slot;
pub mod spares;
pub mod trail;

pub use among::perform_among;
pub use counts::KindCounts;
pub use first::{pools_first, tool_first, tool_rests, whole_first};
pub use homes::pool_of_event;
pub use next::whole_next;
pub use slot::{AnyPool, PoolSlot};
pub use spares::Spares;
pub use trail::Trail;
