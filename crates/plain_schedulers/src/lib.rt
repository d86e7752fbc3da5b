//! What the four schedulers decide, by a scan of the waiting units.
#![tactic(auto)]

pub mod arinc;
pub mod credit2;
pub mod credit2_choice;
pub mod decided;
pub mod null;
pub mod params;
pub mod policy;
pub mod queue;
pub mod records;
pub mod rtds;
