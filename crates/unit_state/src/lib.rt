//! The vCPUs of the domains of one pool: which are awake, where each stands in its script, and how much work is left to it.
//!
//! A unit groups one, two or four vCPUs of a domain. A heap has the wake moments of those that sleep, so that none is searched for.
#![tactic(auto)]

pub mod domains;
pub mod part;
mod sleepers;

pub use domains::Guests;
pub use part::DomPart;
