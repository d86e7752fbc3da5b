//! Laws of how the whole machine follows from its pools and its tool: which parts of a state an action changes, which names they list, which
//! action comes first, and when the next one may come. Each function does nothing, and its contract is the law.
#![tactic(auto)]

pub mod names;
pub mod order;
pub mod steps;
pub mod tool;
pub mod whole;
