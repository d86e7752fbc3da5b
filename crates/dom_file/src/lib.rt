//! The domain file: from its bytes to the machine that it describes, or to the first fault in it.
#![tactic(auto)]

mod cores;
mod domain;
mod draft;
pub mod fault;
mod finish;
mod frame;
mod guests;
mod head;
mod keys;
mod pins;
mod pool;
mod read;
mod stop;
mod values;

pub use fault::{DomCause, DomFault, TableName, Text};
pub use read::read_domains;
