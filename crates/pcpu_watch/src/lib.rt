//! A watched run: beside the crew, in each moment, a writer publishes on a status board what earlier moments did, and a reader looks at it once.
//!
//! The writer's entries are read from the book by a scribe, in order. The writer and the reader have a thread of their own each, which is made once; two rings pass
//! what is told and what is seen. No contract says what comes through a ring: so what the reader saw is kept only where it lies between what was told and what is
//! published, and the book says the moment that it shows.
#![tactic(auto)]

mod ahead;
mod crew;
mod ending;
mod ends;
mod entries;
mod line;
mod looks;
mod meeting;
mod moments;
mod reader;
mod rest;
mod scribe;
mod seats;
mod sides;
mod watch;
mod watched;
mod whole;

pub use ends::WatchEnd;
pub use looks::{Look, Looks};
pub use seats::split_seats;
pub use watched::run_watched;
pub use whole::watch_run;
