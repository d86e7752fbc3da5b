//! The four schedulers as one type: a pool of any of them with no dynamic call.
//!
//! Each call is a match that makes the same call of the scheduler there is; none changes which one that is.
#![tactic(auto)]

pub mod any;

pub use any::AnyPolicy;
