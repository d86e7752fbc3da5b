//! The laws of turns, stretches and moments: how many entries a stretch and a moment have at most, and how many moments a run gets
//! through, with worked examples. Each function does nothing, and its contract is the law or the example.
#![tactic(auto)]

pub mod credit2;
pub mod examples;
pub mod moments;
pub mod stretches;
pub mod turns;
