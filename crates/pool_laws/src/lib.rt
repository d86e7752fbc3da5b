//! Laws of the events of one pool: from when on each may come, and which cores have to be looked at after it. `specs/` also says which event of
//! a pool or of an actor comes first.
//! Each function does nothing, and its contract is the law.
#![tactic(auto)]

pub mod laws;
