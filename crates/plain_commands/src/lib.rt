//! What commands are judged by in the plain machine's state, and what an accepted one does to it.
#![tactic(auto)]

pub mod carry;
pub mod facts;
pub mod pools;
