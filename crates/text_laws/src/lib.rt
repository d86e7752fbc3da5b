//! Laws of texts: the place of a fault in a command's words, and the numbers that an entry of a run prints.
#![tactic(auto)]

pub mod entries;
pub mod words;
