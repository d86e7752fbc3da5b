//! The records of the four schedulers: changes in place, and formulas on them. Nothing here scans the waiting units to choose one.
#![tactic(auto)]

pub mod arinc;
pub mod credit2_domain;
pub mod credit2_params;
pub mod credit2_running;
pub mod credit2_slice;
pub mod credit2_units;
pub mod eligible;
pub mod null;
pub mod params;
pub mod pins;
pub mod queue;
pub mod rtds;
